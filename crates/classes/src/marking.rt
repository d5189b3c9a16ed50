// What a round took from the rows: its mark for every pair that fell, and the classes that it made.
ghost use Rattle.std.specs.Prelude.{◌≡◌, ℕ, ◌+◌, ◌*◌, ◌^◌, ◌≤◌, ◌<◌, length, get_or};
ghost use Rattle.std.proofs.Math.Bool.{So};
ghost use Rattle.settle.specs.Test.{pick, both};
ghost use Rattle.words.specs.Words.{member};
ghost use Rattle.relation.specs.Rows.{Within};
ghost use Rattle.classes.specs.Marking.{fallen, PutMark, is_new, shares_row, PutMarks};

// The mark in the cells of those that fell from the row whose cells begin at `start`.
fn put_mark(buffer: &mut [u8], start: usize, fell: u64, mark: u8)
    requires { (q : ℕ) → So (member fell q) → start + q < length buffer.old }
    ensures { PutMark start fell mark buffer.old buffer.new }
{
    for q in words::members(fell) {
        buffer[start + q] = mark;
    }
}

// The marks of p's row, which was `was`. Answers p's bit where something fell and p is the lowest of what is left.
fn put_row(was: u64, row: u64, n: usize, p: usize, mark: u8, buffer: &mut [u8]) -> u64
    requires n_bound { (n ≤ 64) × (p < n) × (n * n ≤ length buffer.old) }
    requires was_bound { (was < 2 ^ n) × (row < 2 ^ n) }
    ensures value { result ≡ pick (is_new n was row p) (2 ^ p) 0 }
    ensures put_mark { PutMark (p * n) (fallen n was row) mark buffer.old buffer.new }
{
    let fell = was & (words::all(n) - row);
    if fell == 0 {
        return 0;
    }
    put_mark(buffer, p * n, fell, mark);
    if row.trailing_zeros() as usize == p {
        return 1u64 << p;
    }
    0
}

// State p's bit where it shares its row, else 0.
#[tactic(auto, using(words::proofs::Words::shl_one, crate::proofs::Putting::shares_not, crate::proofs::Putting::shares_is))]
fn shared_bit(row: u64, p: usize) -> u64
    requires { p < 64 }
    ensures { result ≡ pick (shares_row row p) (2 ^ p) 0 }
{
    let bit = 1u64 << p;
    if row == bit { 0 } else { bit }
}

// What a round left to do: the lowest states of the classes that it made, and the states that share theirs.
#[derive(Clone, Copy)]
pub struct Left {
    pub made: u64,
    pub shared: u64,
}

// The marks of all rows; nothing falls but from those of `shared`.
pub fn put_marks(
    near: &[u64; 64],
    next: &[u64; 64],
    shared: u64,
    n: usize,
    mark: u8,
    buffer: &mut [u8],
) -> Left
    requires n_bound { (n ≤ 64) × (n * n ≤ length buffer.old) × (shared < 2 ^ n) }
    requires within { Within n near.now × Within n next.now }
    requires by_index { (p : ℕ) → (So (member shared p) → ⊥) → fallen n (get_or near.now p 0) (get_or next.now p 0) ≡ 0 }
    ensures by_index_2 { (p : ℕ) → member result.made p ≡ is_new n (get_or near.now p 0) (get_or next.now p 0) p }
    ensures by_index_3 { (p : ℕ) → member result.shared p ≡ both (member shared p) (shares_row (get_or next.now p 0) p) }
    ensures put_marks { PutMarks n near.now next.now mark buffer.old buffer.new }
{
    let mut left = Left { made: 0, shared: 0 };
    for p in words::members(shared) {
        left.made |= put_row(near[p], next[p], n, p, mark, buffer);
        left.shared |= shared_bit(next[p], p);
    }
    left
}
