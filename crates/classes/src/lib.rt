// The rounds of marks, one word a row. A row of a round is a class: the states that no formula of that depth tells from p. The marks are written into a
// lent buffer, each when its pair falls.
#![tactic(auto)]

ghost use Rattle.std.specs.Prelude.{◌≡◌, ◌+◌, ◌*◌, ◌≤◌, length};
ghost use Rattle.chart.specs.Reading.{chart_in};
ghost use Rattle.nearness.specs.Relation.{Near};
ghost use Rattle.steps.specs.Table.{Blank};
ghost use Rattle.relation.specs.Settles.{Settles};
ghost use Rattle.classes.specs.Marking.{Worked};

use chart::AcceptedChart;
use marking::Left;
use relation::Settled;
use steps::filled::Filled;
use steps::table::Direction;

pub mod marking;
pub mod splitting;

// Rounds from all pairs until every state is alone in its class, or a round makes no class, which is one that changes nothing. The pairs that round
// k + 1 strikes get the mark k + 1.
fn settle(chart: &AcceptedChart, room: &mut [u64], buffer: &mut [u8]) -> Settled
    requires blank { Blank room.old × ((chart.now.shape.m + 1) * chart.now.shape.n ≤ length room.old) }
    requires n_in_bounds { chart.now.shape.n * chart.now.shape.n ≤ length buffer.old }
    ensures settles { Settles chart.now.shape.n (Near (chart_in chart.now.bytes.now chart.now.shape).steps) result }
    ensures worked { Worked (chart_in chart.now.bytes.now chart.now.shape).steps chart.now.shape.n buffer.old buffer.new result.rounds }
{
    let n = chart.shape.n;
    buffer[..n * n].fill(0);
    let steps = Filled::of(chart, Direction::Forth, room);
    let mut rows = relation::rows::all_pairs(n);
    let mut left = Left {
        made: 1,
        shared: words::all(n),
    };
    let mut rounds = 0;
    while left.shared != 0 {
        let next = splitting::round(rows, left, &steps);
        let after = marking::put_marks(&rows, &next, left.shared, n, (rounds + 1) as u8, buffer);
        if after.made == 0 {
            return Settled { rows, rounds };
        }
        rows = next;
        left = after;
        rounds += 1;
    }
    Settled { rows, rounds }
}

// The same in N words of its own.
fn settle_in<const N: usize>(chart: &AcceptedChart, buffer: &mut [u8]) -> Settled
    requires fits { ((chart.now.shape.m + 1) * chart.now.shape.n ≤ N) × (N ≤ 2112) }
    requires n_in_bounds { chart.now.shape.n * chart.now.shape.n ≤ length buffer.old }
    ensures settles { Settles chart.now.shape.n (Near (chart_in chart.now.bytes.now chart.now.shape).steps) result }
    ensures worked { Worked (chart_in chart.now.bytes.now chart.now.shape).steps chart.now.shape.n buffer.old buffer.new result.rounds }
{
    let mut room = [0u64; N];
    settle(chart, &mut room, buffer)
}

// The same in the least of three sizes that is enough: each word has to be made 0, which a small chart would pay for.
pub fn work_out(chart: &AcceptedChart, buffer: &mut [u8]) -> Settled
    requires n_in_bounds { chart.now.shape.n * chart.now.shape.n ≤ length buffer.old }
    ensures settles { Settles chart.now.shape.n (Near (chart_in chart.now.bytes.now chart.now.shape).steps) result }
    ensures worked { Worked (chart_in chart.now.bytes.now chart.now.shape).steps chart.now.shape.n buffer.old buffer.new result.rounds }
{
    match (chart.shape.m + 1) * chart.shape.n {
        0..=128 => settle_in::<128>(chart, buffer),
        129..=576 => settle_in::<576>(chart, buffer),
        _ => settle_in::<2112>(chart, buffer),
    }
}
