// The word of a formula: the states at which it holds, with a word for the variable. The words that a call works on are the table of the chart's
// steps and, after its rows, two for each place of the sheet.
ghost use Rattle.std.specs.Prelude.{◌≡◌, ◌+◌, ◌*◌, ◌≤◌, ◌<◌, ◌^◌, length, get_or, set, Ok};
ghost use Rattle.sheet.specs.Reading.{label_of, formula_read};
ghost use Rattle.evaluate.specs.Evaluating.{row_of, step_word, table_word, leaf_word, joined_word, modal_word, formula_of};
ghost use Rattle.evaluate.specs.Evaluating.{Serves, ActionIn, Remembers, SameRows, read_at, WasRead};

use sheet::Unread;

// The states to which a row leads from a member of f. It gave `known` for the set `was`; where f has all of that, only the members that are new
// are walked.
#[tactic(auto, using(crate::proofs::Stepped::words_there))]
fn stepped(into: &[u64], n: usize, row: usize, was: u64, known: u64, f: u64) -> u64
    requires serves { Serves n row into.now }
    requires was_bound { (was < 2 ^ n) × (f < 2 ^ n) }
    requires known_value { known ≡ step_word into.now n row was }
    ensures { result ≡ step_word into.now n row f }
{
    let base = row * n;
    if words::meet(was, f) == was {
        return steps::walk::gather(into, base, known, f - was);
    }
    steps::walk::gather(into, base, 0, f)
}

// The same from what two words remember, and then remember of f for the next round. It takes the words, and no `Work`: of a struct its fact is asked
// after each write, and between these two it does not hold.
fn step_again(words: &mut [u64], n: usize, row: usize, memo: usize, f: u64) -> u64
    requires serves { Serves n row words.old }
    requires memo_in_bounds { memo + 1 < length words.old }
    requires gave { get_or words.old (memo + 1) 0 ≡ step_word words.old n row (get_or words.old memo 0) }
    requires f_bound { f < 2 ^ n }
    ensures value { result ≡ step_word words.old n row f }
    ensures remembered { words.new ≡ set (set words.old memo f) (memo + 1) result }
{
    let was = words[memo];
    let known = words[memo + 1];
    let w = stepped(words, n, row, was, known, f);
    words[memo] = f;
    words[memo + 1] = w;
    w
}

// The word of the variable, of true or of false.
fn leaf_word(n: usize, node: u8, set: u64) -> u64
    requires { n ≤ 64 }
    ensures { result ≡ leaf_word n node set }
{
    match node {
        0 => set,
        1 => words::all(n),
        _ => 0,
    }
}

// The word of an and or an or, from those of its operands.
fn joined_word(node: u8, v: u64, w: u64) -> u64
    ensures { result ≡ joined_word node v w }
{
    match node {
        3 => words::meet(v, w),
        _ => words::union(v, w),
    }
}

// The words that a call works on, with the sheet, and the counts of states and actions of the chart that it is asked of.
#[derive(Drop)]
pub struct Work<'a> {
    pub n: usize,
    pub m: usize,
    pub sheet: &'a [u8],
    pub words: &'a mut [u64],
    ghost remembers: { Remembers n m sheet.now words.now },
}

impl<'a> Work<'a> {
    // The row of the step at a place: an action has its own, 255 that of all actions together.
    fn row_of(&self, at: usize) -> usize
        requires { (at + 1 < length self.now.sheet.now) × ActionIn self.now.m (get_or self.now.sheet.now (at + 1) 0) }
        ensures { (result ≡ row_of (label_of (get_or self.now.sheet.now (at + 1) 0))) × (result ≤ self.now.m) }
    {
        match self.sheet[at + 1] {
            255 => 0,
            a => usize::from(a) + 1,
        }
    }

    // The diamond at a place of the sheet. What it leads to and what it gives are remembered for the next round.
    #[tactic(auto, using(crate::proofs::Stepped::by_steps))]
    fn diamond(&mut self, at: usize, f: u64) -> u64
        requires at_in_bounds { (at + 1 < length self.old.sheet.now) × ActionIn self.old.m (get_or self.old.sheet.now (at + 1) 0) }
        requires f_bound { f < 2 ^ self.old.n }
        ensures value { result ≡ step_word self.old.words.now self.old.n (row_of (label_of (get_or self.old.sheet.now (at + 1) 0))) f }
        ensures same { (self.new.n ≡ self.old.n) × (self.new.m ≡ self.old.m) × (self.new.sheet.now ≡ self.old.sheet.now) }
        ensures same_words { self.new.words.ghost_name ≡ self.old.words.ghost_name }
        ensures rows { SameRows self.old.n self.old.m self.old.words.now self.new.words.now }
    {
        let row = self.row_of(at);
        let memo = (self.m + 1) * self.n + 2 * at;
        step_again(self.words, self.n, row, memo, f)
    }

    // The word of a diamond or a box at a place, from that of its operand. A box holds where no step leads to the others.
    #[tactic(auto, using(words::proofs::Words::word_small))]
    fn modal_word(&mut self, at: usize, f: u64) -> u64
        requires at_in_bounds { (at + 1 < length self.old.sheet.now) × ActionIn self.old.m (get_or self.old.sheet.now (at + 1) 0) }
        requires f_bound { f < 2 ^ self.old.n }
        ensures value { result ≡ modal_word self.old.words.now self.old.n (get_or self.old.sheet.now at 0) (get_or self.old.sheet.now (at + 1) 0) f }
        ensures same { (self.new.n ≡ self.old.n) × (self.new.m ≡ self.old.m) × (self.new.sheet.now ≡ self.old.sheet.now) }
        ensures same_words { self.new.words.ghost_name ≡ self.old.words.ghost_name }
        ensures rows { SameRows self.old.n self.old.m self.old.words.now self.new.words.now }
    {
        match self.sheet[at] {
            5 => self.diamond(at, f),
            _ => {
                let all = words::all(self.n);
                all - self.diamond(at, all - f)
            }
        }
    }

    // The word of the formula at a place, with set for the variable: it was read there, so no byte is judged again. What is unread goes on to what
    // follows the formula.
    #[tactic(auto, using(crate::proofs::Evaluating::formula_by_node))]
    pub fn eval_formula(&mut self, next: &mut Unread, set: u64) -> u64
        requires was_read { WasRead (read_at self.old.sheet.now self.old.m next.old) }
        requires set_bound { set < 2 ^ self.old.n }
        ensures value { result ≡ table_word self.old.words.now self.old.n (formula_of (read_at self.old.sheet.now self.old.m next.old)) set }
        ensures next_after { formula_read (read_at self.old.sheet.now self.old.m next.old) ≡ Ok next.new }
        ensures same { (self.new.n ≡ self.old.n) × (self.new.m ≡ self.old.m) × (self.new.sheet.now ≡ self.old.sheet.now) }
        ensures same_words { self.new.words.ghost_name ≡ self.old.words.ghost_name }
        ensures rows { SameRows self.old.n self.old.m self.old.words.now self.new.words.now }
    {
        let at = next.at;
        let node = self.sheet[at];
        next.left -= 1;
        match node {
            0..=2 => {
                next.at += 1;
                leaf_word(self.n, node, set)
            }
            3 | 4 => {
                next.at += 1;
                let f = self.eval_formula(next, set);
                let g = self.eval_formula(next, set);
                joined_word(node, f, g)
            }
            _ => {
                next.at += 2;
                let f = self.eval_formula(next, set);
                self.modal_word(at, f)
            }
        }
    }
}
