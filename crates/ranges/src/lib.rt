// The triples of a chart, which are sorted by source, and where the steps of each state stand among them.
#![tactic(auto)]

ghost use Rattle.std.specs.Prelude.{◌≡◌, ℕ, Bool, ◌+◌, ◌*◌, ◌≤◌, ◌<◌, length, get_or};
ghost use Rattle.ranges.specs.Sources.{Stands, Past, Sorted, Ordered, Ranged, Leads, action_at, target_at};

use chart::{AcceptedChart, Shape};

// Rising triples of n states, as those of an accepted chart are: t of them, from `at` on in the bytes. The steps of p are the triples
// first[p] .. first[p + 1].
#[derive(Drop)]
pub struct Triples<'a> {
    pub bytes: &'a [u8],
    pub shape: Shape,
    pub at: usize,
    pub first: [usize; 65],
    ghost ranged: { Ordered bytes.now shape at first },
}

// The first triple from `from` on whose source is not below s; t where there is none.
fn past(bytes: &[u8], at: usize, t: usize, from: usize, s: usize) -> usize
    requires t_in_bounds { at + 3 * t ≤ length bytes.now }
    requires from_le_t { from ≤ t }
    ensures { Past bytes.now at t from s result }
{
    for i in from..t {
        if usize::from(bytes[at + 3 * i]) >= s {
            return i;
        }
    }
    t
}

// Entry s is how many triples have a source below s.
#[tactic(auto, using(crate::proofs::Counting::sources_more, crate::proofs::Counting::sorted_by, crate::proofs::Counting::sources_all))]
pub fn sources(bytes: &[u8], at: usize, t: usize, n: usize) -> [usize; 65]
    requires { Stands bytes.now at t n }
    ensures sorted { Sorted bytes.now at n result }
    ensures n_value { get_or result n 0 ≡ t }
{
    let mut first = [0usize; 65];
    for s in 0..n {
        first[s + 1] = past(bytes, at, t, first[s], s + 1);
    }
    first
}

impl<'a> Triples<'a> {
    // The triples of the chart.
    #[tactic(auto, using(crate::proofs::Ranges::stands_read, crate::proofs::Ranges::shape_few, crate::proofs::Rising::rise_read))]
    pub fn of(chart: &AcceptedChart<'a>) -> Triples<'a>
        ensures { (result.bytes.now ≡ chart.now.bytes.now) × (result.shape ≡ chart.now.shape) × (result.at ≡ 4 + result.shape.n + result.shape.m) × Ranged result.bytes.now result.shape result.at result.first }
    {
        let bytes = chart.bytes;
        let shape = chart.shape;
        let at = 4 + shape.n + shape.m;
        let first = sources(bytes, at, shape.t, shape.n);
        Triples {
            bytes,
            shape,
            at,
            first,
        }
    }

    // The action of triple number i.
    pub fn action(&self, i: usize) -> u8
        requires { i < self.now.shape.t }
        ensures { result ≡ action_at self.now.bytes.now self.now.at i }
    {
        self.bytes[self.at + 3 * i + 1]
    }

    // The target of triple number i.
    pub fn target(&self, i: usize) -> u8
        requires { i < self.now.shape.t }
        ensures { result ≡ target_at self.now.bytes.now self.now.at i }
    {
        self.bytes[self.at + 3 * i + 2]
    }

    // Whether each step of s that bears the action leads to a state that passes.
    pub fn each_leads<F: Fn(u8) -> bool>(&self, s: usize, action: u8, passes: F) -> bool
        requires s_in { s < self.now.shape.n }
        requires asked { (u : ℕ) → u < self.now.shape.n → F.pre passes u }
        ensures { (ok : ℕ → Bool) → ((u : ℕ) (b : Bool) → F.post passes u b → b ≡ ok u) → Leads self.now.bytes.now self.now.at self.now.first s action ok result }
    {
        for i in self.first[s]..self.first[s + 1] {
            if self.action(i) == action && !passes(self.target(i)) {
                return false;
            }
        }
        true
    }
}
