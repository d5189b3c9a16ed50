// Judging a list that somebody hands in: it is accepted exactly if it is good.
#![tactic(auto)]

ghost use Rattle.std.specs.Prelude.{◌≡◌, ℕ, Bool, ◌+◌, ◌≤◌, ◌<◌, length};
ghost use Rattle.ranges.specs.Triples.{steps_of};
ghost use Rattle.reason.specs.Line.{line_at};
ghost use Rattle.check_reasons.specs.Judging.{Whether, Passes, in_words};
ghost use Rattle.check_reasons.specs.Lines.{line_of, Moves, RestsSo};
ghost use Rattle.check_reasons.specs.Promise.{Judges, CheckPromise};

use chart::AcceptedChart;
use ranges::Triples;
use refusal::Refusal;

// The five bytes of a line.
#[derive(Clone, Copy)]
struct Line {
    p: u8,
    q: u8,
    side: u8,
    action: u8,
    target: u8,
}

// The line at a place of the list.
fn line_at(list: &[u8], place: usize) -> Line
    requires { place + 5 ≤ length list.now }
    ensures { line_of result ≡ line_at list.now place }
{
    Line {
        p: list[place],
        q: list[place + 1],
        side: list[place + 2],
        action: list[place + 3],
        target: list[place + 4],
    }
}

// Whether (x, y) is listed already: it is in the words. (Both are states, so `words::has` would ask once more for each whether it is below 64.)
fn listed(rows: &[u64; 64], x: u8, y: u8) -> bool
    requires { (x < 64) × (y < 64) }
    ensures { result ≡ in_words rows.now (x, y) }
{
    (rows[usize::from(x)] >> y) % 2 == 1
}

// Whether some step of s bears the action and leads to the target.
fn some_leads(triples: &Triples, s: usize, action: u8, target: u8) -> bool
    requires { s < triples.now.shape.n }
    ensures { Whether (Moves triples.now s action target) result }
{
    !triples.each_leads(s, action, |u| u != target)
}

// Whether s moves as the line says, and each step of o by its action leads to a state that is listed with its target.
fn rests<F: Fn(u8) -> bool>(triples: &Triples, s: usize, o: usize, line: Line, is_listed: F) -> bool
    requires states { (s < triples.now.shape.n) × (o < triples.now.shape.n) }
    requires asked { line.target < triples.now.shape.n → (u : ℕ) → u < triples.now.shape.n → F.pre is_listed u }
    ensures { (ok : ℕ → Bool) → ((u : ℕ) (b : Bool) → F.post is_listed u b → b ≡ ok u) → Whether (RestsSo triples.now s o line.action line.target ok) result }
{
    some_leads(triples, s, line.action, line.target)
        && triples.each_leads(o, line.action, is_listed)
}

// Whether the line is good after those whose pairs are in the words.
fn passes(triples: &Triples, rows: &[u64; 64], line: Line) -> bool
    ensures { Whether (Passes triples.now.shape.n (steps_of triples.now) rows.now (line_of line)) result }
{
    let n = triples.shape.n;
    let p = usize::from(line.p);
    let q = usize::from(line.q);
    if p >= n || q >= n || listed(rows, line.p, line.q) {
        return false;
    }
    match line.side {
        0 => rests(triples, p, q, line, |u| listed(rows, line.target, u)),
        1 => rests(triples, q, p, line, |u| listed(rows, u, line.target)),
        _ => false,
    }
}

// Line by line; the words hold the pairs of the lines before.
fn judge(triples: &Triples, list: &[u8]) -> Result<usize, Refusal>
    ensures { Judges triples.now.shape.n (steps_of triples.now) list.now result }
{
    let lines = list.len() / 5;
    let mut rows = [0u64; 64];
    for i in 0..lines {
        let line = line_at(list, 5 * i);
        if !passes(triples, &rows, line) {
            return Err(Refusal::of_sheet(21, i));
        }
        let p = usize::from(line.p);
        rows[p] = words::with(rows[p], line.q);
    }
    if 5 * lines < list.len() {
        return Err(Refusal::of_sheet(21, lines));
    }
    Ok(lines)
}

// The number of lines of a good list; 21 with the number of the first bad or incomplete line, which is told as input 1.
pub fn check_reasons(chart: &[u8], list: &[u8]) -> Result<usize, Refusal>
    ensures { CheckPromise chart.now list.now result }
{
    let chart = AcceptedChart::read(chart)?;
    judge(&Triples::of(&chart), list)
}
