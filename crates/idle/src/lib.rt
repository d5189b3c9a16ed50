// Document 01's idle builds, and that none of them meets a promise. Definitions and laws only.
#![tactic(auto)]
