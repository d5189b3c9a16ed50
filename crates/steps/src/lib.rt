// The steps of a chart as words: the table of them, made once for a solution, and the walk over it that a step of a set is.
#![tactic(auto)]

pub mod filled;
pub mod table;
pub mod walk;
