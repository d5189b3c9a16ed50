// Definitions and laws only: which states are alike, and what tells the others apart.
#![tactic(auto)]
