// The rounds of a sheet's formula, on words: from the empty set or from all states, until one changes nothing.
#![tactic(auto)]

ghost use Rattle.std.specs.Prelude.{◌≡◌, ◌≤◌, ◌<◌, ◌^◌, length};
ghost use Rattle.sheet.specs.Kinds.{kind_number, kind_of};
ghost use Rattle.sheet.specs.Reading.{parse};
ghost use Rattle.words.specs.Words.{word_of};
ghost use Rattle.steps.specs.Table.{Blank};
ghost use Rattle.evaluate.specs.Evaluating.{table_word, memo_at, SameRows, WasRead, formula_of};
ghost use Rattle.solve.specs.Solving.{application, first_set, Solves};

use chart::AcceptedChart;
use evaluate::formula::Work;
use refusal::Refusal;
use sheet::{Kind, Unread};
use steps::table::Direction;

// Bit s of the word is set where state s satisfies; the number of such states; the rounds.
#[derive(Clone, Copy)]
pub struct Solved {
    pub word: u64,
    pub count: u32,
    pub rounds: usize,
}

// The set that the applications start from, by the kind: the empty set for the least solution, which a kind that is unsaid asks for too; or all n states.
#[tactic(auto, using(crate::proofs::Solving::empty_word, crate::proofs::Solving::full_word))]
fn first_set(kind: Kind, n: usize) -> u64
    requires { n ≤ 64 }
    ensures { result ≡ word_of n (first_set (kind_number kind)) }
{
    match kind {
        Kind::Unsaid | Kind::Least => 0,
        Kind::Greatest => words::all(n),
    }
}

// One application: the states at which the sheet's formula, which begins at byte 3, holds with set for the variable.
fn round(work: &mut Work, nodes: usize, set: u64) -> u64
    requires was_read { WasRead (parse nodes work.old.sheet.now work.old.m 3 nodes) }
    requires set_bound { set < 2 ^ work.old.n }
    ensures value { result ≡ table_word work.old.words.now work.old.n (formula_of (parse nodes work.old.sheet.now work.old.m 3 nodes)) set }
    ensures same { (work.new.n ≡ work.old.n) × (work.new.m ≡ work.old.m) × (work.new.sheet.now ≡ work.old.sheet.now) }
    ensures rows { SameRows work.old.n work.old.m work.old.words.now work.new.words.now }
{
    let mut next = Unread { at: 3, left: nodes };
    work.eval_formula(&mut next, set)
}

// Applications until one changes nothing, at most 4,096 that do. The chart's steps are made into words first, once, in words that are 0. (Each size has
// it inline: a small chart would pay for an answer that is handed on from call to call.)
#[inline(always)]
#[tactic(auto, using(crate::proofs::Solving::by_rounds))]
fn solve(
    chart: &AcceptedChart,
    sheet: &[u8],
    nodes: usize,
    kind: Kind,
    words: &mut [u64],
) -> Result<Solved, Refusal>
    requires was_read { WasRead (parse nodes sheet.now chart.now.shape.m 3 nodes) }
    requires blank { Blank words.old × (memo_at chart.now.shape.n chart.now.shape.m (length sheet.now) ≤ length words.old) }
    ensures { Solves chart.now.shape.n (application chart.now.bytes.now chart.now.shape sheet.now nodes) (first_set (kind_number kind)) result }
{
    steps::table::fill(chart, Direction::Forth, words);
    let mut set = first_set(kind, chart.shape.n);
    let mut work = Work {
        n: chart.shape.n,
        m: chart.shape.m,
        sheet,
        words,
    };
    for rounds in 0..=4096usize {
        let next = round(&mut work, nodes, set);
        let settled = next == set;
        if settled {
            return Ok(Solved {
                word: set,
                count: words::size(set),
                rounds,
            });
        }
        set = next;
    }
    Err(Refusal::of_lent(15))
}

// The same in N words of its own.
#[tactic(auto, using(steps::proofs::Filling::blank))]
fn solve_in<const N: usize>(
    chart: &AcceptedChart,
    sheet: &[u8],
    nodes: usize,
    kind: Kind,
) -> Result<Solved, Refusal>
    requires was_read { WasRead (parse nodes sheet.now chart.now.shape.m 3 nodes) }
    requires room { (memo_at chart.now.shape.n chart.now.shape.m (length sheet.now) ≤ N) × (N ≤ 2916) }
    ensures { Solves chart.now.shape.n (application chart.now.bytes.now chart.now.shape sheet.now nodes) (first_set (kind_number kind)) result }
{
    let mut words = [0u64; N];
    solve(chart, sheet, nodes, kind, &mut words)
}

// The same in the least of three sizes that is enough: each word has to be made 0, which a small chart would pay for.
#[tactic(auto, using(crate::proofs::Solving::actions_few, crate::proofs::Solving::work_few))]
fn solve_kind(
    chart: &AcceptedChart,
    sheet: &[u8],
    nodes: usize,
    kind: Kind,
) -> Result<Solved, Refusal>
    requires was_read { WasRead (parse nodes sheet.now chart.now.shape.m 3 nodes) }
    requires sheet_len_bound { length sheet.now ≤ 402 }
    ensures { Solves chart.now.shape.n (application chart.now.bytes.now chart.now.shape sheet.now nodes) (first_set (kind_number kind)) result }
{
    let size = (chart.shape.m + 1) * chart.shape.n + 2 * sheet.len();
    if size <= 128 {
        return solve_in::<128>(chart, sheet, nodes, kind);
    }
    if size <= 1024 {
        return solve_in::<1024>(chart, sheet, nodes, kind);
    }
    solve_in::<2916>(chart, sheet, nodes, kind)
}

// The kind that a byte stands for. What no sheet has, above 2, is taken for the greatest.
fn kind_of(byte: u8) -> Kind
    ensures { result ≡ kind_of byte }
{
    match byte {
        0 => Kind::Unsaid,
        1 => Kind::Least,
        _ => Kind::Greatest,
    }
}

// As `solve_kind`, with the kind by its byte: callers may give any, as they could before the kinds had names.
pub fn solve_in_room(
    chart: &AcceptedChart,
    sheet: &[u8],
    nodes: usize,
    kind: u8,
) -> Result<Solved, Refusal>
    requires was_read { WasRead (parse nodes sheet.now chart.now.shape.m 3 nodes) }
    requires sheet_len_bound { length sheet.now ≤ 402 }
    ensures { Solves chart.now.shape.n (application chart.now.bytes.now chart.now.shape sheet.now nodes) (first_set kind) result }
{
    solve_kind(chart, sheet, nodes, kind_of(kind))
}
