// Finding the line of a pair, and putting it in a list.
ghost use Rattle.std.specs.Prelude.{◌≡◌, ℕ, ◌+◌, ◌*◌, ◌≤◌, ◌<◌, length};
ghost use Rattle.chart.specs.Reading.{step_at};
ghost use Rattle.choice.specs.Search.{smaller, line_by, MovePut};
ghost use Rattle.choice.specs.Marked.{Found, MoveChosen, Put, marks_of};

use crate::Marked;
use ranges::Triples;

// Whether a mark is nonzero and below `mark`.
fn is_smaller(cell: u8, mark: u8) -> bool
    ensures { result ≡ smaller cell mark }
{
    0 < cell && cell < mark
}

// The first step of s for which each step of o by its action leads to a u such that its target with u has a nonzero mark below `mark`.
fn first_move<F: Fn(u8, u8) -> u8>(
    triples: &Triples,
    s: usize,
    o: usize,
    mark_of: F,
    mark: u8,
) -> Option<usize>
    requires states { (s < triples.now.shape.n) × (o < triples.now.shape.n) }
    requires asked { (x y : ℕ) → x < triples.now.shape.n → y < triples.now.shape.n → F.pre mark_of x y }
    ensures { (cell : ℕ → ℕ → ℕ) → ((x y r : ℕ) → F.post mark_of x y r → r ≡ cell x y) → Found triples.now s o cell mark result }
{
    for i in triples.first[s]..triples.first[s + 1] {
        let x = triples.target(i);
        let smaller = |y: u8|
            requires { F.pre mark_of x y }
        { is_smaller(mark_of(x, y), mark) };
        if triples.each_leads(o, triples.action(i), smaller) {
            return Some(i);
        }
    }
    None
}

// The line's five bytes: the pair, the side, and the action and target of triple number i.
fn put_move(
    triples: &Triples,
    i: usize,
    p: usize,
    q: usize,
    side: u8,
    list: &mut [u8],
    place: usize,
)
    requires { (p < 64) × (q < 64) × (i < triples.now.shape.t) × (place + 5 ≤ length list.old) }
    ensures { MovePut (line_by p q side (step_at triples.now.bytes.now (triples.now.at + 3 * i))) list.old place list.new }
{
    let (action, target) = (triples.action(i), triples.target(i));
    list[place..place + 5].copy_from_slice(&[p as u8, q as u8, side, action, target]);
}

impl<'a> Marked<'a> {
    // The mark of (p, q).
    pub fn mark(&self, p: usize, q: usize) -> u8
        requires { (p < self.now.triples.now.shape.n) × (q < self.now.triples.now.shape.n) }
        ensures { result ≡ marks_of self.now (p, q) }
    {
        self.matrix[p * self.triples.shape.n + q]
    }

    // The side and the triple of the chosen move of the unequal pair (p, q).
    fn chosen(&self, p: usize, q: usize) -> (u8, usize)
        requires pair { (p < self.now.triples.now.shape.n) × (q < self.now.triples.now.shape.n) }
        requires unequal { 0 < marks_of self.now (p, q) }
        ensures { MoveChosen self.now p q result }
    {
        let mark = self.mark(p, q);
        let forth = |x: u8, y: u8| self.mark(usize::from(x), usize::from(y));
        if let Some(i) = first_move(self.triples, p, q, forth, mark) {
            return (0, i);
        }
        // where no move of p qualifies, one of q does
        let back = |x: u8, y: u8| self.mark(usize::from(y), usize::from(x));
        (1, first_move(self.triples, q, p, back, mark).unwrap())
    }

    // Puts the chosen line of the unequal pair (p, q) at a place of the list.
    #[tactic(auto, using(crate::proofs::Putting::line_put))]
    pub fn put_line(&self, p: usize, q: usize, list: &mut [u8], place: usize)
        requires pair { (p < self.now.triples.now.shape.n) × (q < self.now.triples.now.shape.n) }
        requires unequal { 0 < marks_of self.now (p, q) }
        requires room { place + 5 ≤ length list.old }
        ensures { Put self.now p q list.old place list.new }
    {
        let (side, i) = self.chosen(p, q);
        put_move(self.triples, i, p, q, side, list, place);
    }
}
