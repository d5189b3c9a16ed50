// Definitions and laws only: what a chain of sets settles at, and how soon.
#![tactic(auto)]
