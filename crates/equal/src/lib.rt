// Which states of a chart are equal (strongly bisimilar), one word a state, and how many pairs of them there are: both from the words in which the
// relation is worked out.
#![tactic(auto)]

ghost use Rattle.std.specs.Prelude.{◌≡◌, ◌≤◌};
ghost use Rattle.settle.specs.Test.{count};
ghost use Rattle.settle.specs.Finite.{pairs};
ghost use Rattle.chart.specs.Reading.{chart_in};
ghost use Rattle.relation.specs.Rows.{Within};
ghost use Rattle.equal.specs.Working.{EqualWords};
ghost use Rattle.equal.specs.Promise.{pairs_in, RowsPromise, PairsPromise};

use chart::AcceptedChart;
use refusal::Refusal;

// The rows where the rounds have settled. The marks that come with them go into bytes of its own.
fn equal_words(chart: &AcceptedChart) -> [u64; 64]
    ensures { EqualWords chart.now.shape.n (chart_in chart.now.bytes.now chart.now.shape).steps result }
{
    let mut marks = [0u8; 4096];
    classes::work_out(chart, &mut marks).rows
}

// How many pairs the rows of n states have.
fn count_pairs(rows: &[u64; 64], n: usize) -> usize
    requires { (n ≤ 64) × Within n rows.now }
    ensures { result ≡ count (pairs_in rows.now) (pairs n) }
{
    let mut sum = 0;
    for row in &rows[..n] {
        sum += words::size(*row) as usize;
    }
    sum
}

// Bit q of word p becomes 1 where p and q are equal states, and every other bit 0. The answer is the number of states.
pub fn equal_rows(chart: &[u8], rows: &mut [u64; 64]) -> Result<usize, Refusal>
    ensures { RowsPromise chart.now rows.old rows.new result }
{
    let chart = AcceptedChart::read(chart)?;
    *rows = equal_words(&chart);
    Ok(chart.shape.n)
}

// How many pairs of equal states there are, in both orders, each state with itself included.
pub fn equal_pairs(chart: &[u8]) -> Result<usize, Refusal>
    ensures { PairsPromise chart.now result }
{
    let chart = AcceptedChart::read(chart)?;
    let rows = equal_words(&chart);
    Ok(count_pairs(&rows, chart.shape.n))
}
