// The rounds of simulation, on words: each looks only at the rows that the last one made smaller.
#![tactic(auto)]

ghost use Rattle.std.specs.Prelude.{◌+◌, ◌*◌, ◌≤◌, length};
ghost use Rattle.chart.specs.Reading.{chart_in};
ghost use Rattle.steps.specs.Table.{Blank};
ghost use Rattle.nearness.specs.Relation.{Simulating};
ghost use Rattle.relation.specs.Settles.{Settles};

use chart::AcceptedChart;
use relation::Settled;
use round::{Fell, Tables};
use steps::filled::Filled;
use steps::table::Direction;

pub mod round;

// Rounds until one changes nothing, in words that are 0 for the two tables. The second is made where there is more than one round.
fn settle(chart: &AcceptedChart, into: &mut [u64], out: &mut [u64]) -> Settled
    requires blank { Blank into.old × ((chart.now.shape.m + 1) * chart.now.shape.n ≤ length into.old) }
    requires blank_2 { Blank out.old × ((chart.now.shape.m + 1) * chart.now.shape.n ≤ length out.old) }
    ensures { Settles chart.now.shape.n (Simulating (chart_in chart.now.bytes.now chart.now.shape).steps) result }
{
    let n = chart.shape.n;
    let forth = Filled::of(chart, Direction::Forth, into);
    let whole = relation::rows::all_pairs(n);
    let mut rows = round::first_round(whole, &forth);
    let mut fell = Fell {
        rows: [0u64; 64],
        changed: 0,
    };
    round::note(&whole, &rows, n, words::all(n), &mut fell);
    if fell.changed == 0 {
        return Settled { rows, rounds: 0 };
    }
    steps::table::fill(chart, Direction::Back, out);
    let tables = Tables { into: forth, out };
    let mut rounds = 0;
    while fell.changed != 0 {
        rows = round::round(rows, &mut fell, &tables);
        rounds += 1;
    }
    Settled { rows, rounds }
}

// The same in N words of its own for each table.
fn settle_in<const N: usize>(chart: &AcceptedChart) -> Settled
    requires { ((chart.now.shape.m + 1) * chart.now.shape.n ≤ N) × (N ≤ 2112) }
    ensures { Settles chart.now.shape.n (Simulating (chart_in chart.now.bytes.now chart.now.shape).steps) result }
{
    let mut into = [0u64; N];
    let mut out = [0u64; N];
    settle(chart, &mut into, &mut out)
}

// The same in the least of three sizes that is enough: each word has to be made 0, which a small chart would pay for.
pub fn work_out(chart: &AcceptedChart) -> Settled
    ensures { Settles chart.now.shape.n (Simulating (chart_in chart.now.bytes.now chart.now.shape).steps) result }
{
    match (chart.shape.m + 1) * chart.shape.n {
        0..=128 => settle_in::<128>(chart),
        129..=576 => settle_in::<576>(chart),
        _ => settle_in::<2112>(chart),
    }
}
