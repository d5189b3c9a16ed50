// The starred boards of document 01, as examples of the definitions.
#![tactic(auto)]
