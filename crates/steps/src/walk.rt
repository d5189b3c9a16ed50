// A step of a set: the walk over the set's members, each of which has one word in a row of the table.
ghost use Rattle.std.specs.Prelude.{◌≡◌, ℕ, ◌+◌, ◌<◌, length};
ghost use Rattle.std.proofs.Math.Bool.{So};
ghost use Rattle.settle.specs.Test.{either};
ghost use Rattle.words.specs.Words.{member};
ghost use Rattle.steps.specs.Walk.{leads};

// The states of `known`, and those with a step to a member of the set, by the row that begins at `base`.
#[tactic(auto, using(crate::proofs::Leads::one_walked, crate::proofs::Leads::all_walked, words::proofs::Lowest::rest_in))]
pub fn gather(into: &[u64], base: usize, known: u64, set: u64) -> u64
    requires { (u : ℕ) → So (member set u) → base + u < length into.now }
    ensures { (s : ℕ) → member result s ≡ either (member known s) (leads into.now base set s) }
{
    let mut out = known;
    for u in words::members(set) {
        out |= into[base + u];
    }
    out
}
