// A filled table with the counts of states and actions that it is of, and a step of a set by one of its rows.
ghost use Rattle.std.specs.Prelude.{◌≡◌, ℕ, ◌+◌, ◌*◌, ◌^◌, ◌≤◌, ◌<◌, length};
ghost use Rattle.chart.specs.Reading.{chart_in};
ghost use Rattle.words.specs.Words.{member};
ghost use Rattle.steps.specs.Table.{Table, Sized, Blank, directed};
ghost use Rattle.steps.specs.Walk.{leads};

use crate::table::Direction;
use chart::AcceptedChart;

#[derive(Clone, Copy)]
pub struct Filled<'a> {
    pub words: &'a [u64],
    pub n: usize,
    pub m: usize,
    ghost few: { n ≤ 64 },
    ghost sized: { Sized n m words.now },
}

impl<'a> Filled<'a> {
    // The table of the chart's steps, or of them turned back, in words that are 0.
    pub fn of(chart: &AcceptedChart, direction: Direction, words: &'a mut [u64]) -> Filled<'a>
        requires blank { Blank words.old }
        requires n_in_bounds { (chart.now.shape.m + 1) * chart.now.shape.n ≤ length words.old }
        ensures counts { (result.n ≡ chart.now.shape.n) × (result.m ≡ chart.now.shape.m) }
        ensures table { Table chart.now.shape.n chart.now.shape.m (directed direction (chart_in chart.now.bytes.now chart.now.shape).steps) result.words.now }
    {
        crate::table::fill(chart, direction, words);
        Filled {
            words,
            n: chart.shape.n,
            m: chart.shape.m,
        }
    }

    // The states with a step to a member of the set: by row 0 such of any action, by row a + 1 of action a.
    pub fn sources(&self, row: usize, set: u64) -> u64
        requires { (row ≤ self.now.m) × (set < 2 ^ self.now.n) }
        ensures members { (s : ℕ) → member result s ≡ leads self.now.words.now (row * self.now.n) set s }
        ensures states { result < 2 ^ self.now.n }
    {
        crate::walk::gather(self.words, row * self.n, 0, set)
    }
}
