// What a call from C leaves, of every question: definitions and laws only. The calls themselves are in crate viewer.
#![tactic(auto)]
