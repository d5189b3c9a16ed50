// Reading a property sheet: each byte judged as read, the first fault refused.
#![tactic(auto)]

ghost use Rattle.std.specs.Prelude.{◌+◌, ◌*◌, ◌≤◌, ◌<◌, ◌≡◌, true, ◌⊎◌, ◌↔◌, length, take, get_or, leb, Ok, Err};
ghost use Rattle.settle.specs.Test.{pick};
ghost use Rattle.refusal.specs.Refusal.{sheet_refusal};
ghost use Rattle.sheet.specs.Kinds.{kind_number, kind_read};
ghost use Rattle.sheet.specs.Reading.{parse, formula_read, ended_read, read_nodes, read_sheet, sheet_read, AcceptedExactly};

use refusal::Refusal;

// The solution that a sheet asks for. Where that is unsaid, it is the least.
#[derive(Clone, Copy, PartialEq, Eq)]
pub enum Kind {
    Unsaid,
    Least,
    Greatest,
}

// The kind that stands in byte 1 of a sheet.
impl TryFrom<u8> for Kind {
    type Error = Refusal;

    ghost try_from_gives = { λ byte kind. kind ≡ kind_read byte };

    fn try_from(byte: u8) -> Result<Kind, Refusal> {
        match byte {
            0 => Ok(Kind::Unsaid),
            1 => Ok(Kind::Least),
            2 => Ok(Kind::Greatest),
            _ => Err(Refusal::of_sheet(9, 1)),
        }
    }
}

// The byte of a kind.
impl From<Kind> for u8 {
    ghost from_gives = { λ kind byte. byte ≡ kind_number kind };

    fn from(kind: Kind) -> u8 {
        match kind {
            Kind::Unsaid => 0,
            Kind::Least => 1,
            Kind::Greatest => 2,
        }
    }
}

// The kind of an accepted sheet and how many nodes its formula has: the nodes stand from byte 3 on.
#[derive(Clone, Copy, PartialEq, Eq)]
pub struct Outline {
    pub kind: Kind,
    pub nodes: usize,
}

// What is unread where a formula ends: the place after it, and how many nodes are left.
#[derive(Clone, Copy)]
pub struct Unread {
    pub at: usize,
    pub left: usize,
}

// The byte at p, which has to be there.
fn needed(bytes: &[u8], p: usize) -> Result<u8, Refusal>
    ensures { result ≡ pick (leb (length bytes.now) p) (Err (sheet_refusal 1 (length bytes.now))) (Ok (get_or bytes.now p 0)) }
{
    bytes
        .get(p)
        .copied()
        .ok_or_else(|| Refusal::of_sheet(1, bytes.len()))
}

// Whether the action byte of a node is an action's index, or 255 for every action.
fn action_known(action: u8, m: usize) -> bool
    ensures { (result ≡ true) ↔ ((action < m) ⊎ (action ≡ 255)) }
{
    usize::from(action) < m || action == 255
}

// How reading a formula ends: after all of it, or at its first fault.
#[derive(Clone, Copy)]
enum Ended {
    Whole,
    UsedUp,
    Absent,
    UnknownNode,
    UnknownAction,
}

impl Ended {
    // What is unread after all of the formula, or the refusal, of a sheet of so many bytes.
    fn read(self, next: Unread, len: usize) -> Result<Unread, Refusal>
        ensures { result ≡ ended_read len next self }
    {
        match self {
            Ended::Whole => Ok(next),
            Ended::UsedUp => Err(Refusal::of_sheet(13, next.at)),
            Ended::Absent => Err(Refusal::of_sheet(1, len)),
            Ended::UnknownNode => Err(Refusal::of_sheet(11, next.at)),
            Ended::UnknownAction => Err(Refusal::of_sheet(12, next.at)),
        }
    }
}

// The formula at the next place, of at most so many nodes as are left, in the first len bytes; then what is unread goes on after it, or from its first
// fault. Nodes used up are told before the next byte is looked at. The answer is one small value, and no `Result`: by it the call for a last operand is
// a jump, so that diamonds, boxes and last operands keep no frame, however deeply they are nested; a first operand keeps one.
#[tactic(auto, using(crate::proofs::Reading::formula_by_node))]
fn read_formula(bytes: &[u8; 512], len: usize, m: usize, next: &mut Unread) -> Ended
    requires { (length bytes.now ≡ 512) × (next.old.at + 2 * next.old.left ≤ 510) }
    ensures { ended_read len next.new result ≡ formula_read (parse next.old.left (take len bytes.now) m next.old.at next.old.left) }
{
    if next.left == 0 {
        return Ended::UsedUp;
    }
    if len <= next.at {
        return Ended::Absent;
    }
    next.left -= 1;
    match bytes[next.at] {
        0..=2 => {
            next.at += 1;
            Ended::Whole
        }
        3 | 4 => {
            next.at += 1;
            match read_formula(bytes, len, m, next) {
                Ended::Whole => read_formula(bytes, len, m, next),
                fault => fault,
            }
        }
        5 | 6 => {
            if len <= next.at + 1 {
                return Ended::Absent;
            }
            if action_known(bytes[next.at + 1], m) {
                next.at += 2;
                return read_formula(bytes, len, m, next);
            }
            next.at += 1; // the action byte's place
            Ended::UnknownAction
        }
        _ => Ended::UnknownNode,
    }
}

// The formula of a sheet, which begins at byte 3. It is read in a copy of the sheet's first 512 bytes, more than 200 nodes can take: what is handed
// on to each operand is one reference to them, and no slice.
#[tactic(auto, using(crate::proofs::Reading::copied, crate::proofs::Reading::copy_parse))]
fn formula_after(bytes: &[u8], m: usize, nodes: usize) -> Result<Unread, Refusal>
    requires { nodes ≤ 200 }
    ensures { result ≡ formula_read (parse nodes bytes.now m 3 nodes) }
{
    let mut first = [0u8; 512];
    let end = bytes.len().min(512);
    first[..end].copy_from_slice(&bytes[..end]);
    let mut next = Unread { at: 3, left: nodes };
    let ended = read_formula(&first, bytes.len(), m, &mut next);
    ended.read(next, bytes.len())
}

// The count of nodes and the formula, after the kind.
#[tactic(auto, using(crate::proofs::Reading::nodes_read))]
fn read_nodes(bytes: &[u8], m: usize, kind: Kind) -> Result<Outline, Refusal>
    ensures { result ≡ sheet_read (read_nodes bytes.now m (kind_number kind)) }
{
    let nodes = usize::from(needed(bytes, 2)?);
    if nodes < 1 || 200 < nodes {
        return Err(Refusal::of_sheet(10, 2));
    }
    let after = formula_after(bytes, m, nodes)?;
    if 0 < after.left {
        return Err(Refusal::of_sheet(13, after.at));
    }
    if after.at < bytes.len() {
        return Err(Refusal::of_sheet(8, after.at));
    }
    Ok(Outline { kind, nodes })
}

// The equation count, which stands first, the kind, and what follows.
#[tactic(auto, using(crate::proofs::KindBytes::kind_back), unfolding(crate::specs::Reading::read_sheet))]
fn read_equation(bytes: &[u8], m: usize) -> Result<Outline, Refusal>
    ensures { result ≡ sheet_read (read_sheet bytes.now m) }
{
    if needed(bytes, 0)? != 1 {
        return Err(Refusal::of_sheet(9, 0));
    }
    let kind = Kind::try_from(needed(bytes, 1)?)?;
    read_nodes(bytes, m, kind)
}

// The sheet in the bytes, for a chart of m actions, or the first fault.
pub fn read_sheet(bytes: &[u8], m: usize) -> Result<Outline, Refusal>
    ensures value { result ≡ sheet_read (read_sheet bytes.now m) }
    ensures accepted_exactly { AcceptedExactly bytes.now m result }
{
    read_equation(bytes, m)
}
