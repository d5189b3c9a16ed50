// The table of a chart's steps, n words a row: row 0 for all actions together, row a + 1 for action a. Bit s of a row's word u is set where s has
// such a step to u; in the table of the steps turned back, where u has one to s.
ghost use Rattle.std.specs.Prelude.{◌≡◌, ◌+◌, ◌*◌, ◌≤◌, ◌<◌, length};
ghost use Rattle.chart.specs.Reading.{chart_in, steps_at};
ghost use Rattle.chart.specs.Layout.{StepIn};
ghost use Rattle.steps.specs.Table.{Table, Blank, step_of, triple_at, taken, directed, with_step, StopsAt};

use chart::AcceptedChart;

// Which way the steps are taken: as they stand in the chart, or turned back.
#[derive(Clone, Copy)]
pub enum Direction {
    Forth,
    Back,
}

// Where the triples begin.
#[inline]
fn first_triple(chart: &AcceptedChart) -> usize
    ensures value { result ≡ 4 + chart.now.shape.n + chart.now.shape.m }
    ensures end { length chart.now.bytes.now ≡ result + 3 * chart.now.shape.t }
{
    4 + chart.shape.n + chart.shape.m
}

// A triple of the chart: a step, by its bytes.
#[derive(Clone, Copy)]
struct Triple {
    source: u8,
    action: u8,
    target: u8,
}

impl Triple {
    // Triple number i.
    #[inline]
    fn read(chart: &AcceptedChart, i: usize) -> Triple
        requires { i < chart.now.shape.t }
        ensures value { step_of result ≡ triple_at chart.now.bytes.now chart.now.shape i }
        ensures within { StepIn chart.now.shape.n chart.now.shape.m (triple_at chart.now.bytes.now chart.now.shape i) }
        ensures few { chart.now.shape.n ≤ 64 }
    {
        let p = first_triple(chart) + 3 * i;
        Triple {
            source: chart.bytes[p],
            action: chart.bytes[p + 1],
            target: chart.bytes[p + 2],
        }
    }

    // The step as it is, or turned back.
    #[inline]
    fn taken(self, direction: Direction) -> Triple
        ensures { step_of result ≡ taken direction (step_of self) }
    {
        match direction {
            Direction::Forth => self,
            Direction::Back => Triple {
                source: self.target,
                target: self.source,
                ..self
            },
        }
    }
}

// The step's source is set in the target's word, in the row of all actions and in that of its own.
#[tactic(auto, using(words::proofs::Words::shl_one))]
fn add_step(into: &mut [u64], n: usize, step: Triple)
    requires source_lt_n { (step.source < n) × (step.target < n) × (n ≤ 64) }
    requires n_in_bounds { (step.action + 1) * n + n ≤ length into.old }
    ensures { into.new ≡ with_step n (step_of step) into.old }
{
    let bit = 1u64 << step.source;
    let u = usize::from(step.target);
    let own = (usize::from(step.action) + 1) * n + u;
    into[u] |= bit;
    into[own] |= bit;
}

// Adds the steps of state s, the triples from `first` on, and answers the number of the first with a later source.
fn add_steps(
    chart: &AcceptedChart,
    direction: Direction,
    s: usize,
    first: usize,
    into: &mut [u64],
) -> usize
    requires first_le_t { first ≤ chart.now.shape.t }
    requires table { Table chart.now.shape.n chart.now.shape.m (directed direction (steps_at chart.now.bytes.now (4 + chart.now.shape.n + chart.now.shape.m) first)) into.old }
    ensures stops_at { StopsAt chart.now.bytes.now chart.now.shape s first result }
    ensures table_2 { Table chart.now.shape.n chart.now.shape.m (directed direction (steps_at chart.now.bytes.now (4 + chart.now.shape.n + chart.now.shape.m) result)) into.new }
{
    for i in first..chart.shape.t {
        let step = Triple::read(chart, i);
        if s < usize::from(step.source) {
            return i;
        }
        add_step(into, chart.shape.n, step.taken(direction));
    }
    chart.shape.t
}

// The table of the chart's steps, or of them turned back, in words that are 0: the triples are walked once, in order, a state's steps at a time.
pub fn fill(chart: &AcceptedChart, direction: Direction, into: &mut [u64])
    requires blank { Blank into.old }
    requires n_in_bounds { (chart.now.shape.m + 1) * chart.now.shape.n ≤ length into.old }
    ensures { Table chart.now.shape.n chart.now.shape.m (directed direction (chart_in chart.now.bytes.now chart.now.shape).steps) into.new }
{
    let chart = *chart; // a copy, which no write to the words can change: so its counts are not read again for each triple
    let mut i = 0;
    for s in 0..chart.shape.n {
        i = add_steps(&chart, direction, s, i, into);
    }
}
