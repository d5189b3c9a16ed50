// The marks of all pairs of a chart's states (strong bisimulation): 0 where two states are equal, else the smallest depth of a formula that tells
// them apart.
#![tactic(auto)]

ghost use Rattle.marks.specs.Promise.{MarksPromise};

use chart::AcceptedChart;
use refusal::Refusal;
use relation::Matrix;

// The byte at p * n + q of the buffer becomes the mark of (p, q).
pub fn marks(chart: &[u8], buffer: &mut [u8]) -> Result<Matrix, Refusal>
    ensures { MarksPromise chart.now buffer.old buffer.new result }
{
    let accepted = AcceptedChart::read(chart)?;
    let n = accepted.shape.n;
    if buffer.len() < n * n {
        return Err(Refusal::of_lent(14));
    }
    let settled = classes::work_out(&accepted, buffer);
    Ok(Matrix {
        states: n,
        rounds: settled.rounds,
    })
}
