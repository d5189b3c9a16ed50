// The questions for the C viewer, on byte slices and numbers. Each call answers 0, or the refusal as number | input << 8 | place << 16
// | byte << 48; the lent numbers and bytes are written only where it answers 0.
#![tactic(auto)]

ghost use Rattle.std.specs.Prelude.{◌≡◌, ◌≤◌};
ghost use Rattle.calls.specs.Packing.{packed};
ghost use Rattle.calls.specs.Shown.{lent, solved_in, BothShown, CheckShown, CompareShown, EqualPairsShown, EqualRowsShown, MarksShown, PropertyShown, ReasonsShown, ShortFormShown, SimulationShown};

use refusal::Refusal;
use solve::Solved;

// The refusal in one number. Its parts are small: a place is at most 3,172 in a chart, 403 in a sheet and 4,032 in a list,
// a byte at most 2.
fn pack(refusal: Refusal) -> u64
    requires { (refusal.place ≤ 4032) × (refusal.byte ≤ 2) }
    ensures { result ≡ packed refusal }
{
    u64::from(refusal.number)
        + 256 * u64::from(u8::from(refusal.input))
        + 65536 * (refusal.place as u64)
        + 281474976710656 * u64::from(refusal.byte)
}

// The marks of all pairs, in the buffer; the number of states and the rounds.
#[unsafe(no_mangle)]
pub extern "C" fn rebatelion_marks(
    chart: &[u8],
    buffer: &mut [u8],
    states: &mut u64,
    rounds: &mut u64,
) -> u64
    ensures { MarksShown chart.now buffer.old buffer.new (lent states.old states.new) (lent rounds.old rounds.new) result }
{
    match marks::marks(chart, buffer) {
        Ok(matrix) => {
            *states = matrix.states as u64;
            *rounds = matrix.rounds as u64;
            0
        }
        Err(r) => pack(r),
    }
}

// The largest simulation, in the buffer; the number of states and the rounds.
#[unsafe(no_mangle)]
pub extern "C" fn rebatelion_simulation(
    chart: &[u8],
    buffer: &mut [u8],
    states: &mut u64,
    rounds: &mut u64,
) -> u64
    ensures { SimulationShown chart.now buffer.old buffer.new (lent states.old states.new) (lent rounds.old rounds.new) result }
{
    match simulation::simulation(chart, buffer) {
        Ok(held) => {
            *states = held.states as u64;
            *rounds = held.rounds as u64;
            0
        }
        Err(r) => pack(r),
    }
}

// The equal states, a word for each state, in 64 words; the number of states.
#[unsafe(no_mangle)]
pub extern "C" fn rebatelion_equal_rows(chart: &[u8], rows: &mut [u64; 64], states: &mut u64) -> u64
    ensures { EqualRowsShown chart.now rows.old rows.new (lent states.old states.new) result }
{
    match equal::equal_rows(chart, rows) {
        Ok(count) => {
            *states = count as u64;
            0
        }
        Err(r) => pack(r),
    }
}

// How many pairs of equal states there are.
#[unsafe(no_mangle)]
pub extern "C" fn rebatelion_equal_pairs(chart: &[u8], pairs: &mut u64) -> u64
    ensures { EqualPairsShown chart.now (lent pairs.old pairs.new) result }
{
    match equal::equal_pairs(chart) {
        Ok(total) => {
            *pairs = total as u64;
            0
        }
        Err(r) => pack(r),
    }
}

// The states that satisfy the sheet: word, count and rounds.
#[unsafe(no_mangle)]
pub extern "C" fn rebatelion_property(
    chart: &[u8],
    sheet: &[u8],
    word: &mut u64,
    count: &mut u64,
    rounds: &mut u64,
) -> u64
    ensures { PropertyShown chart.now sheet.now (lent word.old word.new) (lent count.old count.new) (lent rounds.old rounds.new) result }
{
    match property::property(chart, sheet) {
        Ok(solved) => {
            *word = solved.word;
            *count = solved.count as u64;
            *rounds = solved.rounds as u64;
            0
        }
        Err(r) => pack(r),
    }
}

// The word, the count and the rounds of a solution.
fn put_solved(numbers: &mut [u64; 3], solved: Solved)
    ensures { numbers.new ≡ solved_in numbers.old solved }
{
    numbers[0] = solved.word;
    numbers[1] = solved.count as u64;
    numbers[2] = solved.rounds as u64;
}

// Both solutions of the sheet, whatever its kind says: word, count and rounds of the least, and of the greatest.
#[unsafe(no_mangle)]
pub extern "C" fn rebatelion_both_solutions(
    chart: &[u8],
    sheet: &[u8],
    least: &mut [u64; 3],
    greatest: &mut [u64; 3],
) -> u64
    ensures { BothShown chart.now sheet.now least.old least.new greatest.old greatest.new result }
{
    match both_solutions::both_solutions(chart, sheet) {
        Ok(solutions) => {
            put_solved(least, solutions.least);
            put_solved(greatest, solutions.greatest);
            0
        }
        Err(r) => pack(r),
    }
}

// The sheet of a short form, in the start of the buffer, and its length.
#[unsafe(no_mangle)]
pub extern "C" fn rebatelion_short_form(
    chart: &[u8],
    sheet: &[u8],
    name: u64,
    buffer: &mut [u8],
    written: &mut u64,
) -> u64
    ensures { ShortFormShown chart.now sheet.now name buffer.old buffer.new (lent written.old written.new) result }
{
    match short_form::short_form(chart, sheet, name, buffer) {
        Ok(length) => {
            *written = length as u64;
            0
        }
        Err(r) => pack(r),
    }
}

// The mark of the two start states and the states without a partner, in the start of the buffer; their length and the rounds.
#[unsafe(no_mangle)]
pub extern "C" fn rebatelion_compare(
    first: &[u8],
    second: &[u8],
    buffer: &mut [u8],
    written: &mut u64,
    rounds: &mut u64,
) -> u64
    ensures { CompareShown first.now second.now buffer.old buffer.new (lent written.old written.new) (lent rounds.old rounds.new) result }
{
    match compare::compare(first, second, buffer) {
        Ok(comparison) => {
            *written = comparison.written as u64;
            *rounds = comparison.rounds as u64;
            0
        }
        Err(r) => pack(r),
    }
}

// The list of reasons, a line for each two unequal states, in the start of the buffer, and its length.
#[unsafe(no_mangle)]
pub extern "C" fn rebatelion_reasons(chart: &[u8], buffer: &mut [u8], written: &mut u64) -> u64
    ensures { ReasonsShown chart.now buffer.old buffer.new (lent written.old written.new) result }
{
    match reasons::reasons(chart, buffer) {
        Ok(size) => {
            *written = size as u64;
            0
        }
        Err(r) => pack(r),
    }
}

// The number of lines of a good list.
#[unsafe(no_mangle)]
pub extern "C" fn rebatelion_check_reasons(chart: &[u8], list: &[u8], lines: &mut u64) -> u64
    ensures { CheckShown chart.now list.now (lent lines.old lines.new) result }
{
    match check_reasons::check_reasons(chart, list) {
        Ok(count) => {
            *lines = count as u64;
            0
        }
        Err(r) => pack(r),
    }
}
