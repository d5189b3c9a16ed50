// Evaluating a formula on words: the layer below solve, whose functions ask what an accepted chart and sheet give.
#![tactic(auto)]

pub mod formula;
