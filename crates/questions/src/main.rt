// Document 01's boards and edges on the questions, and worked examples of the source documents: what is printed is held to the file stdout.
#![tactic(auto)]

use refusal::Refusal;
use relation::Matrix;
use solve::Solved;
use std::io;

fn refused(rt: &impl Print, r: Refusal) -> io::Result<()> {
    let number = r.number;
    let place = r.place;
    let byte = r.byte;
    let input = u8::from(r.input);
    println!(rt; "refused {input} {number} {place} {byte}")
}

fn show_solved(rt: &impl Print, solved: Solved) -> io::Result<()> {
    let word = solved.word;
    let count = solved.count;
    let rounds = solved.rounds;
    println!(rt; "word, states, rounds: {word} {count} {rounds}")
}

fn show_property(rt: &impl Print, chart: &[u8], sheet: &[u8]) -> io::Result<()> {
    match property::property(chart, sheet) {
        Ok(solved) => show_solved(rt, solved),
        Err(r) => refused(rt, r),
    }
}

// The least solution, then the greatest.
fn show_both(rt: &impl Print, chart: &[u8], sheet: &[u8]) -> io::Result<()> {
    match both_solutions::both_solutions(chart, sheet) {
        Ok(solutions) => {
            show_solved(rt, solutions.least)?;
            show_solved(rt, solutions.greatest)
        }
        Err(r) => refused(rt, r),
    }
}

// Row after row, n cells each.
fn show_cells(rt: &impl Print, cells: &[u8], n: usize) -> io::Result<()> {
    let mut column: usize = 0;
    for cell in cells {
        print!(rt; " {cell}")?;
        column += 1;
        if column == n {
            println!(rt)?;
            column = 0;
        }
    }
    Ok(())
}

fn show_matrix(rt: &impl Print, answer: Result<Matrix, Refusal>, cells: &[u8]) -> io::Result<()> {
    match answer {
        Ok(matrix) => {
            let states = matrix.states;
            let rounds = matrix.rounds;
            println!(rt; "states, rounds: {states} {rounds}")?;
            show_cells(rt, cells, states)
        }
        Err(r) => refused(rt, r),
    }
}

fn show_marks(rt: &impl Print, chart: &[u8], cells: &mut [u8]) -> io::Result<()> {
    let answer = marks::marks(chart, cells);
    show_matrix(rt, answer, cells)
}

fn show_simulation(rt: &impl Print, chart: &[u8], cells: &mut [u8]) -> io::Result<()> {
    let answer = simulation::simulation(chart, cells);
    show_matrix(rt, answer, cells)
}

// Every word of the array.
fn show_words(rt: &impl Print, words: &[u64; 64]) -> io::Result<()> {
    for word in words {
        print!(rt; " {word}")?;
    }
    println!(rt)
}

fn show_counted(rt: &impl Print, what: &str, answer: Result<usize, Refusal>) -> io::Result<()> {
    match answer {
        Ok(counted) => println!(rt; "{what}: {counted}"),
        Err(r) => refused(rt, r),
    }
}

// The states and all the words, sevens before; then the pairs.
fn show_equal(rt: &impl Print, chart: &[u8]) -> io::Result<()> {
    let mut words = [7u64; 64];
    let rows = equal::equal_rows(chart, &mut words);
    show_counted(rt, "states", rows)?;
    show_words(rt, &words)?;
    show_counted(rt, "pairs", equal::equal_pairs(chart))
}

fn properties(rt: &impl Print, e: &[u8], l: &[u8]) -> io::Result<()> {
    println!(rt;
        "E, its sheet; L, or (box 0 false) (diamond 0 X), least, greatest; L, and (diamond 0 true) (box 0 X), greatest, least, unsaid"
    )?;
    show_property(rt, e, b"\x01\x01\x06\x06\x00\x03\x05\x01\x01\x05\x02\x01")?;
    show_property(rt, l, b"\x01\x01\x05\x04\x06\x00\x02\x05\x00\x00")?;
    show_property(rt, l, b"\x01\x02\x05\x04\x06\x00\x02\x05\x00\x00")?;
    show_property(rt, l, b"\x01\x02\x05\x03\x05\x00\x01\x06\x00\x00")?;
    show_property(rt, l, b"\x01\x01\x05\x03\x05\x00\x01\x06\x00\x00")?;
    show_property(rt, l, b"\x01\x00\x05\x03\x05\x00\x01\x06\x00\x00")?;
    println!(rt; "one state, no action: diamond 255 true, box 255 false")?;
    show_property(rt, b"\x01\x00\x00\x00\x00", b"\x01\x01\x02\x05\xff\x01")?;
    show_property(rt, b"\x01\x00\x00\x00\x00", b"\x01\x01\x02\x06\xff\x02")?;
    println!(rt; "the chart's refusal before the sheet's; then the sheet's")?;
    show_property(rt, b"\x00", b"\x00")?;
    show_property(rt, l, b"\x00")?;
    println!(rt;
        "both solutions of L's two formulas, least first, unsaid and greatest; the chart's refusal; the sheet's"
    )?;
    show_both(rt, l, b"\x01\x00\x05\x04\x06\x00\x02\x05\x00\x00")?;
    show_both(rt, l, b"\x01\x02\x05\x03\x05\x00\x01\x06\x00\x00")?;
    show_both(rt, b"\x00", b"\x00")?;
    show_both(rt, l, b"\x00")
}

fn all_marks(rt: &impl Print, e: &[u8], l: &[u8], q: &[u8], p: &[u8]) -> io::Result<()> {
    let mut six = [7u8; 36];
    let mut three = [7u8; 9];
    let mut four = [7u8; 16];
    let mut five = [7u8; 25];
    let mut one = [7u8; 1];
    let mut short = [7u8; 8];
    let mut long = [7u8; 12];
    println!(rt; "marks: E, L, 004's Q, 004's P, one state")?;
    show_marks(rt, e, &mut six)?;
    show_marks(rt, l, &mut three)?;
    show_marks(rt, q, &mut four)?;
    show_marks(rt, p, &mut five)?;
    show_marks(rt, b"\x01\x00\x00\x00\x00", &mut one)?;
    println!(rt; "a buffer of one byte less, which stays, and of three bytes more")?;
    show_marks(rt, l, &mut short)?;
    show_cells(rt, &short, 8)?;
    show_marks(rt, l, &mut long)
}

fn all_simulations(rt: &impl Print, e: &[u8], l: &[u8]) -> io::Result<()> {
    let mut six = [7u8; 36];
    let mut three = [7u8; 9];
    let mut one = [7u8; 1];
    let mut short = [7u8; 8];
    let mut long = [7u8; 12];
    println!(rt; "simulation: E, L, one state")?;
    show_simulation(rt, e, &mut six)?;
    show_simulation(rt, l, &mut three)?;
    show_simulation(rt, b"\x01\x00\x00\x00\x00", &mut one)?;
    println!(rt; "a buffer of one byte less, which stays, and of three bytes more")?;
    show_simulation(rt, l, &mut short)?;
    show_cells(rt, &short, 8)?;
    show_simulation(rt, l, &mut long)
}

fn all_equal(rt: &impl Print, e: &[u8], l: &[u8], q: &[u8], p: &[u8]) -> io::Result<()> {
    println!(rt; "equal states: E, L, 004's Q, 004's P, one state")?;
    show_equal(rt, e)?;
    show_equal(rt, l)?;
    show_equal(rt, q)?;
    show_equal(rt, p)?;
    show_equal(rt, b"\x01\x00\x00\x00\x00")?;
    println!(rt; "64 states at rest; the last of them steps to itself")?;
    show_equal(
        rt,
        b"\x40................................................................\x00\x00\x00",
    )?;
    show_equal(
        rt,
        b"\x40................................................................\x01\x0a\x01\x00\x3f\x00\x3f",
    )?;
    println!(rt; "a refused chart: the words stay")?;
    show_equal(rt, b"\x00")
}

// A sheet of so many nodes: diamonds of every action, and at the end true.
fn deep(nodes: u8) -> [u8; 404] {
    let mut bytes = [255u8; 404];
    bytes[0] = 1;
    bytes[1] = 0;
    bytes[2] = nodes;
    for i in 0..200usize {
        bytes[3 + 2 * i] = 5;
    }
    bytes
}

fn show_form(
    rt: &impl Print,
    chart: &[u8],
    sheet: &[u8],
    name: u64,
    buffer: &mut [u8],
) -> io::Result<()> {
    match short_form::short_form(chart, sheet, name, buffer) {
        Ok(written) => println!(rt; "written {written}"),
        Err(r) => refused(rt, r),
    }
}

// The short form of a sheet's first so many bytes, the last of which becomes the formula's end, true.
fn show_deep_form(
    rt: &impl Print,
    l: &[u8],
    bytes: &mut [u8],
    length: usize,
    name: u64,
) -> io::Result<()> {
    let mut buffer = [7u8; 404];
    if length == 0 {
        return Ok(());
    }
    if bytes.len() < length {
        return Ok(());
    }
    bytes[length - 1] = 1;
    show_form(rt, l, &bytes[..length], name, &mut buffer)
}

fn deep_forms(rt: &impl Print, l: &[u8]) -> io::Result<()> {
    println!(rt;
        "short forms of 197 and 198 nodes with name 0; of 194 and 195 with names 2 and 3; of 198 with name 4"
    )?;
    let mut most = deep(197);
    show_deep_form(rt, l, &mut most, 396, 0)?;
    let mut above = deep(198);
    show_deep_form(rt, l, &mut above, 398, 0)?;
    let mut path = deep(194);
    show_deep_form(rt, l, &mut path, 390, 2)?;
    let mut longer = deep(195);
    show_deep_form(rt, l, &mut longer, 392, 2)?;
    show_deep_form(rt, l, &mut path, 390, 3)?;
    show_deep_form(rt, l, &mut longer, 392, 3)?;
    let mut unnamed = deep(198);
    show_deep_form(rt, l, &mut unnamed, 398, 4)
}

// The short form, and every byte of a buffer of sevens after it.
fn show_small_form(rt: &impl Print, l: &[u8], sheet: &[u8], name: u64) -> io::Result<()> {
    let mut buffer = [7u8; 16];
    show_form(rt, l, sheet, name, &mut buffer)?;
    show_cells(rt, &buffer, 16)
}

fn small_forms(rt: &impl Print, l: &[u8]) -> io::Result<()> {
    let f = b"\x01\x02\x02\x05\x00\x01";
    println!(rt;
        "F is diamond 0 true: always, possible, safe path, eventually, each with the bytes of its buffer; name 4"
    )?;
    show_small_form(rt, l, f, 0)?;
    show_small_form(rt, l, f, 1)?;
    show_small_form(rt, l, f, 2)?;
    show_small_form(rt, l, f, 3)?;
    show_small_form(rt, l, f, 4)?;
    println!(rt; "F is and (diamond 0 true) X: always; name 4")?;
    show_small_form(rt, l, b"\x01\x00\x04\x03\x05\x00\x01\x00", 0)?;
    show_small_form(rt, l, b"\x01\x00\x04\x03\x05\x00\x01\x00", 4)?;
    let mut enough = [7u8; 14];
    let mut short = [7u8; 13];
    println!(rt; "safe path of diamond 0 true: a buffer of its 14 bytes, and of one byte less")?;
    show_form(rt, l, f, 2, &mut enough)?;
    show_form(rt, l, f, 2, &mut short)?;
    show_cells(rt, &short, 13)
}

// T-05's board: a resting state does not come to F.
fn eventually_false(rt: &impl Print, l: &[u8]) -> io::Result<()> {
    let mut buffer = [7u8; 12];
    println!(rt; "L, eventually false: the old form; the new, its bytes, and what satisfies it")?;
    show_property(rt, l, b"\x01\x01\x04\x04\x02\x06\xff\x00")?;
    show_form(rt, l, b"\x01\x00\x01\x02", 3, &mut buffer)?;
    show_cells(rt, &buffer, 12)?;
    show_property(rt, l, &buffer)
}

fn main(rt: HostRuntime) -> io::Result<()> {
    let e =
        b"\x06\x01\x02\x03\x04\x05\x06\x03\x0a\x14\x1e\x07\x00\x00\x00\x02\x01\x00\x03\x01\x00\x04\x02\x01\x05\x02\x02\x05\x03\x01\x05\x04\x02\x05";
    let l = b"\x03\x01\x02\x03\x01\x0a\x03\x00\x00\x00\x00\x01\x00\x01\x01\x00\x02";
    let q =
        b"\x04\x01\x02\x03\x04\x03\x61\x62\x63\x07\x00\x00\x00\x02\x00\x01\x01\x01\x02\x03\x02\x02\x03\x03\x00\x00\x03\x00\x02\x03\x01\x01";
    let p =
        b"\x05\x01\x02\x03\x04\x05\x01\x61\x06\x00\x00\x00\x01\x01\x00\x00\x02\x00\x01\x02\x00\x03\x03\x00\x02\x03\x00\x04";
    properties(&rt, e, l)?;
    all_marks(&rt, e, l, q, p)?;
    all_simulations(&rt, e, l)?;
    all_equal(&rt, e, l, q, p)?;
    deep_forms(&rt, l)?;
    small_forms(&rt, l)?;
    eventually_false(&rt, l)
}
