// Reading a chart: each byte judged as read, the first fault refused.
#![tactic(auto)]

ghost use Rattle.std.specs.Prelude.{◌≡◌, ◌+◌, ◌*◌, ◌≤◌, ◌<◌, ◌↔◌, true, length, get_or, Ok, Err, MatchResult};
ghost use Rattle.chart.specs.Fine.{rank, Fine};
ghost use Rattle.chart.specs.Reading.{and_then, presence, step_at, code_order, judge_codes, judge_byte, earlier, triple_order, judge_triple, judge_triples, read_transitions, read_actions, read_chart, AcceptedExactly};

use refusal::Refusal;

// The counts n, m and t of an accepted chart: the rest of it stays in the bytes.
#[derive(Clone, Copy, PartialEq, Eq)]
pub struct Shape {
    pub n: usize,
    pub m: usize,
    pub t: usize,
}

// An accepted chart: its bytes, and the counts that stand in them.
#[derive(Clone, Copy)]
pub struct AcceptedChart<'a> {
    pub bytes: &'a [u8],
    pub shape: Shape,
    ghost read: { read_chart bytes.now ≡ Ok shape },
}

// The byte at p, which has to be there.
fn needed(bytes: &[u8], p: usize) -> Result<u8, Refusal>
    ensures { result ≡ and_then (presence bytes.now p) (Ok (get_or bytes.now p 0)) }
{
    bytes
        .get(p)
        .copied()
        .ok_or_else(|| Refusal::of_chart(1, bytes.len(), 0))
}

// Action code number i, which stands at p: is it greater than the one before?
fn code_order(bytes: &[u8], p: usize, i: usize) -> Result<(), Refusal>
    requires { (p < length bytes.now) × (i ≤ p) }
    ensures { result ≡ code_order bytes.now p i }
{
    if i == 0 || bytes[p - 1] < bytes[p] {
        return Ok(());
    }
    Err(Refusal::of_chart(4, p, 0))
}

// The m action codes from `at` on, in their order.
#[tactic(auto, using(crate::proofs::Reading::codes_step, crate::proofs::Reading::codes_none))]
fn judge_codes(bytes: &[u8], at: usize, m: usize) -> Result<(), Refusal>
    ensures { result ≡ judge_codes bytes.now at 0 m }
{
    for i in 0..m {
        needed(bytes, at + i)?;
        code_order(bytes, at + i, i)?;
    }
    Ok(())
}

// The byte at p, which has to be there and below bound: the triple's number is i, and `byte` says which of its three.
fn judge_byte(bytes: &[u8], p: usize, bound: usize, i: usize, byte: u8) -> Result<(), Refusal>
    ensures { result ≡ judge_byte bytes.now p bound i byte }
{
    let found = needed(bytes, p)?;
    if usize::from(found) < bound {
        return Ok(());
    }
    Err(Refusal::of_chart(6, i, byte))
}

// Is the triple at q before the one at p?
#[tactic(auto, using(crate::proofs::Order::bytes_order))]
fn is_earlier(bytes: &[u8], q: usize, p: usize) -> bool
    requires { (q ≤ p) × (p + 2 < length bytes.now) }
    ensures { result ≡ earlier (step_at bytes.now q) (step_at bytes.now p) }
{
    let before = (bytes[q], bytes[q + 1], bytes[q + 2]);
    before < (bytes[p], bytes[p + 1], bytes[p + 2])
}

// Triple number i, which stands at p: is it greater than the one before?
fn triple_order(bytes: &[u8], p: usize, i: usize) -> Result<(), Refusal>
    requires { (p + 2 < length bytes.now) × (3 * i ≤ p) }
    ensures { result ≡ triple_order bytes.now p i }
{
    if i == 0 || is_earlier(bytes, p - 3, p) {
        return Ok(());
    }
    Err(Refusal::of_chart(7, i, 0))
}

// Triple number i, which stands at p: each byte as it is read, then the order. It is called where a triple is at fault, so once at most.
#[cold]
fn judge_triple(bytes: &[u8], n: usize, m: usize, p: usize, i: usize) -> Result<(), Refusal>
    requires { 3 * i ≤ p }
    ensures { result ≡ judge_triple bytes.now n m p i }
{
    judge_byte(bytes, p, n, i, 0)?;
    judge_byte(bytes, p + 1, m, i, 1)?;
    judge_byte(bytes, p + 2, n, i, 2)?;
    triple_order(bytes, p, i)
}

// The rank of a triple: the greater of two has the greater one.
fn rank(source: u8, action: u8, target: u8) -> u32
    ensures { result ≡ rank source action target }
{
    65536 * u32::from(source) + 256 * u32::from(action) + u32::from(target)
}

// Whether the triple at p is there, in range, and not below the least rank that it may have: then nothing in it is at fault.
fn is_fine(bytes: &[u8], n: usize, m: usize, p: usize, least: u32) -> bool
    requires { p ≤ length bytes.now }
    ensures { (result ≡ true) ↔ Fine bytes.now n m p least }
{
    bytes.len() - p >= 3
        && usize::from(bytes[p]) < n
        && usize::from(bytes[p + 1]) < m
        && usize::from(bytes[p + 2]) < n
        && least <= rank(bytes[p], bytes[p + 1], bytes[p + 2])
}

// The t triples from `at` on, in their order. The first that is not fine is judged byte by byte, which tells its fault; one that is fine is not, since
// reading the triples is much of many a call.
#[tactic(auto, using(crate::proofs::Reading::triples_none))]
fn judge_triples(bytes: &[u8], n: usize, m: usize, at: usize, t: usize) -> Result<(), Refusal>
    requires { at ≤ length bytes.now }
    ensures { result ≡ judge_triples bytes.now n m at 0 t }
{
    let mut least = 0;
    for i in 0..t {
        let p = at + 3 * i;
        if !is_fine(bytes, n, m, p, least) {
            return judge_triple(bytes, n, m, p, i);
        }
        least = rank(bytes[p], bytes[p + 1], bytes[p + 2]) + 1;
    }
    Ok(())
}

// The transitions, whose count stands at p, and nothing after.
#[tactic(auto, unfolding(crate::specs::Reading::read_transitions))]
fn read_transitions(bytes: &[u8], n: usize, m: usize, p: usize) -> Result<Shape, Refusal>
    ensures { result ≡ read_transitions bytes.now n m p }
{
    let low = needed(bytes, p)?;
    let high = needed(bytes, p + 1)?;
    let t = usize::from(low) + 256 * usize::from(high);
    if 1024 < t {
        return Err(Refusal::of_chart(5, p, 0));
    }
    judge_triples(bytes, n, m, p + 2, t)?;
    let end = p + 2 + 3 * t;
    if end < bytes.len() {
        return Err(Refusal::of_chart(8, end, 0));
    }
    Ok(Shape { n, m, t })
}

// The actions, whose count stands at p, and what follows.
#[tactic(auto, unfolding(crate::specs::Reading::read_actions))]
fn read_actions(bytes: &[u8], n: usize, p: usize) -> Result<Shape, Refusal>
    ensures { result ≡ read_actions bytes.now n p }
{
    let m = usize::from(needed(bytes, p)?);
    if 32 < m {
        return Err(Refusal::of_chart(3, p, 0));
    }
    judge_codes(bytes, p + 1, m)?;
    read_transitions(bytes, n, m, p + 1 + m)
}

// The states, whose count stands first, and what follows.
#[tactic(auto, unfolding(crate::specs::Reading::read_chart))]
fn read_states(bytes: &[u8]) -> Result<Shape, Refusal>
    ensures { result ≡ read_chart bytes.now }
{
    let n = usize::from(needed(bytes, 0)?);
    if n < 1 || 64 < n {
        return Err(Refusal::of_chart(2, 0, 0));
    }
    needed(bytes, n)?;
    read_actions(bytes, n, 1 + n)
}

// The chart in the bytes, or the first fault.
pub fn read_chart(bytes: &[u8]) -> Result<Shape, Refusal>
    ensures value { result ≡ read_chart bytes.now }
    ensures accepted_exactly { AcceptedExactly bytes.now result }
{
    read_states(bytes)
}

impl<'a> AcceptedChart<'a> {
    // The chart in the bytes, with them, or the first fault.
    pub fn read(bytes: &'a [u8]) -> Result<AcceptedChart<'a>, Refusal>
        ensures { MatchResult result (λ chart. (read_chart bytes.now ≡ Ok chart.shape) × (chart.bytes.now ≡ bytes.now)) (λ r. read_chart bytes.now ≡ Err r) }
    {
        let shape = read_chart(bytes)?;
        Ok(AcceptedChart { bytes, shape })
    }
}
