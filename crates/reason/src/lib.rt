// What a list of reasons is, what it spells, and which one is written: definitions and laws only.
#![tactic(auto)]
