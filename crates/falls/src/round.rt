// A round of simulation on words. A state x whose row became smaller in the last round, and an action: the states that lost their last such step into
// the row are struck from the rows of those that have such a step to x.
ghost use Rattle.std.specs.Prelude.{◌≡◌, ℕ, ◌+◌, ◌*◌, ◌^◌, ◌≤◌, ◌<◌, eqb, length, get_or, set};
ghost use Rattle.std.proofs.Math.Bool.{So};
ghost use Rattle.settle.specs.Test.{pick, both, implies, neg};
ghost use Rattle.words.specs.Words.{member, word_of};
ghost use Rattle.steps.specs.Table.{Sized};
ghost use Rattle.steps.specs.Walk.{leads};
ghost use Rattle.relation.specs.Rows.{Within, Keeps};
ghost use Rattle.falls.specs.Round.{apart, one_if, fewer_left, keeps_step, survives, outlasts, able_too, Noted, Fallen};

use steps::filled::Filled;

// The table of a chart's steps, and the words of that of the steps turned back.
#[derive(Clone, Copy)]
pub struct Tables<'a> {
    pub into: Filled<'a>,
    pub out: &'a [u64],
    ghost sized: { Sized into.n into.m out.now },
}

// The states whose rows the last round made smaller, and what fell from each.
#[derive(Clone, Copy)]
pub struct Fell {
    pub rows: [u64; 64],
    pub changed: u64,
}

// A row that became smaller: what is left of it, what fell from it, and whether what is left is the shorter walk. Both walks end the same, so this
// decides the time alone. That both are sets of states is asked by three functions: as a ghost field it would need the tables within, by longer paths.
#[derive(Clone, Copy)]
struct Smaller {
    left: u64,
    gone: u64,
    by_left: bool,
    ghost shorter: { by_left ≡ fewer_left left gone },
}

impl Smaller {
    fn of(left: u64, gone: u64) -> Smaller
        requires { 0 < gone }
        ensures { (result.left ≡ left) × (result.gone ≡ gone) }
    {
        Smaller {
            left,
            gone,
            by_left: gone & (gone - 1) != 0 && left.count_ones() <= gone.count_ones(),
        }
    }
}

// The set of q alone where the two words have no member in common, else the empty set.
fn one_apart(q: usize, v: u64, w: u64) -> u64
    requires { q < 64 }
    ensures { result ≡ one_if (apart v w) q }
{
    if v & w == 0 { 1u64 << q } else { 0 }
}

// Of the candidates, those whose word has no member in the row.
fn lost(out: &[u64], base: usize, candidates: u64, row: u64) -> u64
    requires { (q : ℕ) → So (member candidates q) → base + q < length out.now }
    ensures { (q : ℕ) → member result q ≡ both (member candidates q) (apart (get_or out.now (base + q) 0) row) }
{
    let mut gone = 0;
    for q in words::members(candidates) {
        gone |= one_apart(q, out[base + q], row);
    }
    gone
}

// The states that keep a step into the row that became smaller, by one row of the tables: those with a step to what is left of it, or all but those
// that had one to what fell from it and have none to what is left.
fn keeping(tables: &Tables, row: usize, change: &Smaller) -> u64
    requires row_there { row ≤ tables.now.into.m }
    requires states { (change.now.left < 2 ^ tables.now.into.n) × (change.now.gone < 2 ^ tables.now.into.n) }
    ensures { result ≡ word_of tables.now.into.n (keeps_step change.now.by_left tables.now.into.words.now tables.now.out.now (row * tables.now.into.n) change.now.left change.now.gone) }
{
    let into = &tables.into;
    let (left, gone) = (change.left, change.gone);
    if change.by_left {
        return into.sources(row, left);
    }
    words::all(into.n) - lost(tables.out, row * into.n, into.sources(row, gone), left)
}

// The rows of the sources lose the states that do not keep a step into the row that became smaller.
fn strike_sources(next: &mut [u64; 64], sources: u64, tables: &Tables, row: usize, change: &Smaller)
    requires within { Within tables.now.into.n next.old }
    requires row_there { row ≤ tables.now.into.m }
    requires states { (change.now.left < 2 ^ tables.now.into.n) × (change.now.gone < 2 ^ tables.now.into.n) }
    ensures { Keeps tables.now.into.n (λ p q. implies (member sources p) (keeps_step change.now.by_left tables.now.into.words.now tables.now.out.now (row * tables.now.into.n) change.now.left change.now.gone q)) next.old next.new }
{
    if sources != 0 {
        relation::rows::strike(next, sources, keeping(tables, row, change));
    }
}

// The same for every action, of a state x.
fn strike_into(next: &mut [u64; 64], tables: &Tables, x: usize, change: &Smaller)
    requires within { Within tables.now.into.n next.old }
    requires state { x < tables.now.into.n }
    requires states { (change.now.left < 2 ^ tables.now.into.n) × (change.now.gone < 2 ^ tables.now.into.n) }
    ensures { Keeps tables.now.into.n (survives tables.now.into.words.now tables.now.out.now tables.now.into.n tables.now.into.m x change.now.left change.now.gone) next.old next.new }
{
    let into = &tables.into;
    for a in 0..into.m {
        let row = a + 1;
        strike_sources(next, into.words[row * into.n + x], tables, row, change);
    }
}

// Notes what fell from row p, if anything did: then the set of p alone, else the empty set.
#[tactic(auto, using(words::proofs::Words::shl_one, crate::proofs::Walks::one_none, crate::proofs::Walks::one_some))]
fn note_row(fell: &mut [u64; 64], p: usize, gone: u64) -> u64
    requires { p < 64 }
    ensures value { result ≡ one_if (neg (eqb gone 0)) p }
    ensures fell_after { fell.new ≡ pick (eqb gone 0) fell.old (set fell.old p gone) }
{
    if gone == 0 {
        return 0;
    }
    fell[p] = gone;
    1u64 << p
}

// Of the states in `among`, those whose rows became smaller, and what fell from these rows, are noted.
pub fn note(near: &[u64; 64], next: &[u64; 64], n: usize, among: u64, fell: &mut Fell)
    requires { (n ≤ 64) × Within n next.now }
    ensures { Noted n (member among) near.now next.now fell.old.rows fell.new.rows fell.new.changed }
{
    let all = words::all(n);
    let mut changed = 0;
    for p in words::members(among) {
        changed |= note_row(&mut fell.rows, p, near[p] & (all - next[p]));
    }
    fell.changed = changed;
}

// The relation after one more round, where `fell` is what the last one took; it is then what this one took. A row changes only where its state has a
// step to one that the last round made smaller.
pub fn round(near: [u64; 64], fell: &mut Fell, tables: &Tables) -> [u64; 64]
    requires within { Within tables.now.into.n near }
    requires fallen { Fallen tables.now.into.n fell.old.rows fell.old.changed }
    ensures keeps { Keeps tables.now.into.n (outlasts tables.now.into.words.now tables.now.out.now tables.now.into.n tables.now.into.m near fell.old.rows fell.old.changed) near result }
    ensures noted { Noted tables.now.into.n (leads tables.now.into.words.now 0 fell.old.changed) near result fell.old.rows fell.new.rows fell.new.changed }
{
    let was = fell.changed;
    let mut next = near;
    for x in words::members(was) {
        strike_into(&mut next, tables, x, &Smaller::of(near[x], fell.rows[x]));
    }
    note(
        &near,
        &next,
        tables.into.n,
        tables.into.sources(0, was),
        fell,
    );
    next
}

// The relation after the first round: a state that is able to an action keeps those that are able to it too.
pub fn first_round(near: [u64; 64], steps: &Filled) -> [u64; 64]
    requires { Within steps.now.n near }
    ensures { Keeps steps.now.n (able_too steps.now.words.now steps.now.n steps.now.m) near result }
{
    let all = words::all(steps.n);
    let mut next = near;
    for a in 0..steps.m {
        let able = steps.sources(a + 1, all);
        relation::rows::strike(&mut next, able, able);
    }
    next
}
