// A relation on a chart's states, one word a row: the layer below marks, simulation and the equal pairs, whose functions ask what an accepted chart
// gives; and what is said of a matrix.
#![tactic(auto)]

pub mod rows;

// The rows of the relation where the rounds have settled, and the rounds.
#[derive(Clone, Copy)]
pub struct Settled {
    pub rows: [u64; 64],
    pub rounds: usize,
}

// What is said of the matrix in a lent buffer: how many states it is of, and the rounds that made it.
#[derive(Clone, Copy)]
pub struct Matrix {
    pub states: usize,
    pub rounds: usize,
}
