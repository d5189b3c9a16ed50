// The sheet of a short form: document 01's table of four, with name 3 by T-05 and the kinds by T-06, for F without variable and a name.
#![tactic(auto)]

ghost use Rattle.std.specs.Prelude.{◌≡◌, ◌∷◌, ◌++◌, ℕ, ◌+◌, ◌≤◌, None, Some, length, drop};
ghost use Rattle.settle.specs.Test.{pick};
ghost use Rattle.sheet.specs.Formula.{Formula, nodes, variable_free};
ghost use Rattle.sheet.specs.Layout.{encode};
ghost use Rattle.sheet.specs.Reading.{read_sheet};
ghost use Rattle.text.specs.Text.{placed, Puts};
ghost use Rattle.lent.specs.Lent.{LentPromise};
ghost use Rattle.short_form.specs.ShortForm.{kind_written};
ghost use Rattle.short_form.specs.Promise.{before_variable, form_of, form_of_sheet, outcome_of, ShortFormPromise};
ghost use Rattle.short_form.specs.Pieces.{operator_of, operand_of, more_nodes, number_of, name_read};

use refusal::Refusal;
use text::Page;

// The names of the four forms. (C gives a name as its number, so `short_form` takes one.)
#[derive(Clone, Copy)]
enum Name {
    Always,
    Possible,
    SafePath,
    Eventually,
}

impl TryFrom<u64> for Name {
    type Error = Refusal;

    ghost try_from_gives = { λ number name. name ≡ name_read number };

    fn try_from(number: u64) -> Result<Name, Refusal> {
        match number {
            0 => Ok(Name::Always),
            1 => Ok(Name::Possible),
            2 => Ok(Name::SafePath),
            3 => Ok(Name::Eventually),
            _ => Err(Refusal::of_lent(17)),
        }
    }
}

// What the table has for a name.
impl Name {
    // The kind: 1 asks for the least solution, 2 for the greatest.
    fn kind_written(self) -> u8
        ensures { result ≡ kind_written (number_of self) }
    {
        match self {
            Name::Always | Name::SafePath => 2,
            Name::Possible | Name::Eventually => 1,
        }
    }

    // The and or the or that the form begins with.
    fn operator(self) -> u8
        ensures { result ≡ operator_of (number_of self) }
    {
        match self {
            Name::Always | Name::SafePath => 3,
            Name::Possible | Name::Eventually => 4,
        }
    }

    // How many nodes the form has beside those of F.
    fn more_nodes(self) -> usize
        ensures { result ≡ more_nodes (number_of self) }
    {
        match self {
            Name::Always | Name::Possible => 3,
            Name::SafePath | Name::Eventually => 6,
        }
    }

    // How many bytes follow F.
    fn operand_size(self) -> usize
        ensures { result ≡ length (operand_of (number_of self)) }
    {
        match self {
            Name::Always | Name::Possible => 3,
            Name::SafePath | Name::Eventually => 7,
        }
    }

    // The second operand of the form, after F.
    fn put_operand(self, page: &mut Page)
        ensures { Puts page.old (operand_of (number_of self)) page.new }
    {
        match self {
            Name::Always => page.put_bytes(&[6, 255, 0]),
            Name::Possible => page.put_bytes(&[5, 255, 0]),
            Name::SafePath => page.put_bytes(&[4, 6, 255, 2, 5, 255, 0]),
            Name::Eventually => page.put_bytes(&[3, 5, 255, 1, 6, 255, 0]),
        }
    }
}

// The place of a sheet's first variable. Where `action` is true the byte is an action byte, and no node.
#[tactic(auto, using(crate::proofs::Scan::scan_here, crate::proofs::Scan::scan_next, crate::proofs::Scan::variable_found, crate::proofs::Scan::variable_missed))]
fn first_variable(sheet: &[u8]) -> Option<usize>
    ensures { (kind : ℕ) (f : Formula) → sheet.now ≡ encode kind f → result ≡ pick (variable_free f) None (Some (3 + before_variable f)) }
{
    let mut action = false;
    for at in 3..sheet.len() {
        if !action && sheet[at] == 0 {
            return Some(at);
        }
        action = !action && 4 < sheet[at];
    }
    None
}

// The form's sheet, which has room, in the start of the buffer.
#[tactic(auto, using(crate::proofs::Pieces::pieces_put))]
fn put_form(buffer: &mut [u8], sheet: &[u8], name: Name, total: u8)
    requires in_bounds { 3 ≤ length sheet.now }
    requires room { length sheet.now + 1 + length (operand_of (number_of name)) ≤ length buffer.old }
    ensures { buffer.new ≡ placed buffer.old 0 (1 ∷ kind_written (number_of name) ∷ total ∷ operator_of (number_of name) ∷ (drop 3 sheet.now ++ operand_of (number_of name))) }
{
    let mut page = Page::new(buffer);
    page.put_bytes(&[1, name.kind_written(), total, name.operator()]);
    page.put_bytes(&sheet[3..]);
    name.put_operand(&mut page);
}

// The form of an accepted sheet of so many nodes.
fn of_formula(sheet: &[u8], count: usize, name: u64, buffer: &mut [u8]) -> Result<usize, Refusal>
    requires count_bound { count ≤ 200 }
    requires in_bounds { 3 ≤ length sheet.now }
    ensures { (kind : ℕ) (f : Formula) → sheet.now ≡ encode kind f → count ≡ nodes f → LentPromise (outcome_of (form_of name f)) buffer.old buffer.new result }
{
    if let Some(variable) = first_variable(sheet) {
        return Err(Refusal::of_sheet(16, variable));
    }
    let name = Name::try_from(name)?;
    let total = count + name.more_nodes();
    if 200 < total {
        return Err(Refusal::of_sheet(10, 2));
    }
    let size = sheet.len() + 1 + name.operand_size();
    if buffer.len() < size {
        return Err(Refusal::of_lent(14));
    }
    put_form(buffer, sheet, name, total as u8);
    Ok(size)
}

// The form of a sheet, or its refusal.
fn of_sheet(sheet: &[u8], m: usize, name: u64, buffer: &mut [u8]) -> Result<usize, Refusal>
    ensures { LentPromise (outcome_of (form_of_sheet name (read_sheet sheet.now m))) buffer.old buffer.new result }
{
    let outline = sheet::read_sheet(sheet, m)?;
    of_formula(sheet, outline.nodes, name, buffer)
}

// The sheet of a short form, in the start of the lent buffer.
pub fn short_form(
    chart: &[u8],
    sheet: &[u8],
    name: u64,
    buffer: &mut [u8],
) -> Result<usize, Refusal>
    ensures { ShortFormPromise chart.now sheet.now name buffer.old buffer.new result }
{
    let shape = chart::read_chart(chart)?;
    of_sheet(sheet, shape.m, name, buffer)
}
