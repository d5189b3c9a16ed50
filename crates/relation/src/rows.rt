// The relation as 64 words while it is worked out: bit q of word p is set where (p, q) is in it. Rows and bits from n on are 0.
ghost use Rattle.std.specs.Prelude.{◌≡◌, ℕ, ◌≤◌, get_or};
ghost use Rattle.settle.specs.Chain.{full};
ghost use Rattle.words.specs.Words.{member};
ghost use Rattle.relation.specs.Rows.{Holds, struck};

// All pairs of n states.
pub fn all_pairs(n: usize) -> [u64; 64]
    requires { n ≤ 64 }
    ensures { Holds n full result }
{
    let mut rows = [0u64; 64];
    rows[..n].fill(words::all(n));
    rows
}

// Each row of a member of the set keeps only what is in `kept`.
#[tactic(auto, using(crate::proofs::Keeping::struck_walked, crate::proofs::Keeping::all_struck))]
pub fn strike(rows: &mut [u64; 64], set: u64, kept: u64)
    ensures { (p : ℕ) → get_or rows.new p 0 ≡ struck (member set p) (get_or rows.old p 0) kept }
{
    for p in words::members(set) {
        rows[p] &= kept;
    }
}
