// Two charts side by side, and partners: definitions and their laws alone.
#![tactic(auto)]
