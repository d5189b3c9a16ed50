// Comparing an old unit's chart with a new one's: the mark of the two start states, and which states of each have no partner in the other.
#![tactic(auto)]

ghost use Rattle.std.specs.Prelude.{◌≡◌, ◌+◌, ◌*◌, ◌≤◌, ◌<◌, length, take};
ghost use Rattle.chart.specs.Chart.{Chart, states};
ghost use Rattle.chart.specs.Layout.{encode, WellFormed};
ghost use Rattle.lent.specs.Lent.{writes, LentPromise};
ghost use Rattle.beside.specs.Beside.{beside};
ghost use Rattle.compare.specs.Found.{some_zero, partnerless, found};
ghost use Rattle.compare.specs.Promise.{Compares, ComparePromise};

use arrayvec::ArrayVec;
use refusal::Refusal;
use text::Page;

// The length of the list in the lent buffer, and the rounds of the two charts side by side.
#[derive(Clone, Copy)]
pub struct Comparison {
    pub written: usize,
    pub rounds: usize,
}

// Whether one of the `count` cells from `from` on is 0.
fn some_zero(matrix: &[u8], from: usize, count: usize) -> bool
    requires { from + count ≤ length matrix.now }
    ensures { result ≡ some_zero matrix.now from count }
{
    matrix[from..from + count].contains(&0)
}

// The states of one chart that have no partner in the other, in their own numbers. (The parameters are those of the definition of the same name.)
fn partnerless(
    matrix: &[u8],
    n: usize,
    low: usize,
    own: usize,
    other: usize,
    count: usize,
) -> ArrayVec<u8, 64>
    requires { (low + own ≤ n) × (other + count ≤ n) × (n ≤ 64) × (n * n ≤ length matrix.now) }
    ensures { result.items ≡ partnerless matrix.now n low own other count }
{
    let mut alone = ArrayVec::new();
    for p in 0..own {
        if !some_zero(matrix, (low + p) * n + other, count) {
            alone.push(p as u8);
        }
    }
    alone
}

// The list, from the marks of the two charts side by side, from the start of `list` on. Answers its length.
#[tactic(auto, using(crate::proofs::Found::list_put))]
fn put_list(matrix: &[u8], first: usize, second: usize, list: &mut [u8]) -> usize
    requires states { (0 < second) × (first + second ≤ 64) × ((first + second) * (first + second) ≤ length matrix.now) }
    requires room { 67 ≤ length list.old }
    ensures { (take result list.new ≡ found matrix.now first second) × (result ≤ length list.new) }
{
    let n = first + second;
    let first_alone = partnerless(matrix, n, 0, first, first, second);
    let second_alone = partnerless(matrix, n, first, second, 0, first);
    let mut page = Page::new(list);
    page.put_bytes(&[matrix[first], first_alone.len() as u8]);
    page.put_bytes(first_alone.as_slice());
    page.put_bytes(&[second_alone.len() as u8]);
    page.put_bytes(second_alone.as_slice());
    page.at
}

// The list, in the start of the lent buffer.
fn write(matrix: &[u8], first: usize, second: usize, buffer: &mut [u8]) -> Result<usize, Refusal>
    requires { (0 < second) × (first + second ≤ 64) × ((first + second) * (first + second) ≤ length matrix.now) }
    ensures { LentPromise (writes (found matrix.now first second)) buffer.old buffer.new result }
{
    let mut list = [0u8; 67];
    let size = put_list(matrix, first, second, &mut list);
    lent::fill(buffer, &list[..size])
}

// Two charts that stand side by side in these bytes, of so many states each.
fn of_joined(
    chart: &[u8],
    first: usize,
    second: usize,
    buffer: &mut [u8],
) -> Result<Comparison, Refusal>
    requires { (0 < second) × (first + second ≤ 64) }
    ensures { (c d : Chart) → WellFormed c → WellFormed d → WellFormed (beside c d) → chart.now ≡ encode (beside c d) → first ≡ states c → second ≡ states d → Compares c d buffer.old buffer.new result }
{
    let mut matrix = [0u8; 4096];
    // it is never refused here (the law `always_answered` of marks)
    let given = marks::marks(chart, &mut matrix)?;
    let written = write(&matrix, first, second, buffer)?;
    Ok(Comparison {
        written,
        rounds: given.rounds,
    })
}

// The start states' mark, then the first's states without a partner and then the second's, each after its count, in the start of the lent buffer.
pub fn compare(first: &[u8], second: &[u8], buffer: &mut [u8]) -> Result<Comparison, Refusal>
    ensures { ComparePromise first.now second.now buffer.old buffer.new result }
{
    let mut chart = [0u8; 3172];
    let joined = side_by_side::join(first, second, &mut chart)?;
    of_joined(&chart[..joined.length], joined.first, joined.second, buffer)
}
