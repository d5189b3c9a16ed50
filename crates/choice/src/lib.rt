// The line of an unequal pair: of its moves whose paired targets all have smaller nonzero marks the first, side 0 first.
#![tactic(auto)]

ghost use Rattle.std.specs.Prelude.{◌*◌, ◌≤◌, length};
ghost use Rattle.ranges.specs.Triples.{steps_of};
ghost use Rattle.reason.specs.Own.{MarksAre};
ghost use Rattle.reason.proofs.Marks.{marks_prop};
ghost use Rattle.choice.specs.Choice.{mark_in, MarksBelow};

use ranges::Triples;

pub mod line;

// Rising triples of n states with the marks of all pairs of these: that of (p, q) is the byte at p * n + q of the matrix.
#[derive(Drop)]
pub struct Marked<'a> {
    pub triples: &'a Triples<'a>,
    pub matrix: &'a [u8],
    ghost room: { triples.now.shape.n * triples.now.shape.n ≤ length matrix.now },
    ghost marks_are: { MarksAre triples.now.shape.n (steps_of triples.now) (mark_in triples.now.shape.n matrix.now) } by { marks_prop triples.now.shape.n _ (mark_in triples.now.shape.n matrix.now) },
    ghost marks_below: { MarksBelow triples.now.shape.n matrix.now },
}
