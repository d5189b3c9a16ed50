// A round of marks: two states fall apart where only one of them is able to step into some class by some action. A class that the last round did not
// make split all that it can before.
ghost use Rattle.std.specs.Prelude.{◌≡◌, ℕ, ◌+◌, ◌*◌, ◌^◌, ◌≤◌, ◌<◌, get_or};
ghost use Rattle.settle.specs.Test.{same, each};
ghost use Rattle.settle.specs.Finite.{below};
ghost use Rattle.words.specs.Words.{member};
ghost use Rattle.relation.specs.Rows.{Within, Keeps};
ghost use Rattle.classes.specs.Splitting.{Sharing, undivided};

use crate::marking::Left;
use steps::filled::Filled;

// Two states stay together where both or neither are able. Only states that share their class can be parted, those of `shared`.
fn split(rows: &mut [u64; 64], n: usize, shared: u64, able: u64)
    requires within { Within n rows.old × Sharing shared rows.old }
    requires n_bound { (n ≤ 64) × (able < 2 ^ n) }
    ensures { Keeps n (λ p q. same (member able p) (member able q)) rows.old rows.new }
{
    let side = able & shared;
    if side == 0 || side == shared {
        return;
    }
    let others = words::all(n) - able;
    relation::rows::strike(rows, side, able);
    relation::rows::strike(rows, others & shared, others);
}

// Splits the rows by each action into the class.
fn split_by(rows: &mut [u64; 64], shared: u64, steps: &Filled, class: u64)
    requires within { Within steps.now.n rows.old × Sharing shared rows.old }
    requires class_bound { class < 2 ^ steps.now.n }
    ensures { Keeps steps.now.n (undivided steps.now.words.now steps.now.n steps.now.m class) rows.old rows.new }
{
    for a in 0..steps.m {
        split(rows, steps.n, shared, steps.sources(a + 1, class));
    }
}

// Splits the rows by each class that the last round made.
pub fn round(near: [u64; 64], left: Left, steps: &Filled) -> [u64; 64]
    requires within { Within steps.now.n near × Sharing left.shared near }
    ensures { Keeps steps.now.n (λ p q. each (member left.made) (λ x. undivided steps.now.words.now steps.now.n steps.now.m (get_or near x 0) p q) (below 64)) near result }
{
    let mut next = near;
    for x in words::members(left.made) {
        split_by(&mut next, left.shared, steps, near[x]);
    }
    next
}
