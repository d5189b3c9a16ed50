// The boards and edges of document 01 that are not starred, run on the proved functions.
#![tactic(auto)]

ghost use Rattle.std.specs.Prelude.{◌≡◌, IsTrue};
ghost use Rattle.chart.specs.Reading.{read_chart};
ghost use Rattle.sheet.specs.Kinds.{kind_number};
ghost use Rattle.sheet.specs.Reading.{read_sheet, sheet_read};
ghost use Rattle.boards.specs.Outcome.{chart_accepted, chart_refused, sheet_accepted, sheet_refused};

use chart::Shape;
use refusal::Refusal;
use sheet::{Kind, Outline};
use std::io;

fn chart_accepted(bytes: &[u8], n: usize, m: usize, t: usize) -> bool
    ensures { result ≡ chart_accepted n m t (read_chart bytes.now) }
{
    chart::read_chart(bytes) == Ok(Shape { n, m, t })
}

fn chart_refused(bytes: &[u8], number: u8, place: usize, byte: u8) -> bool
    ensures { result ≡ chart_refused number place byte (read_chart bytes.now) }
{
    chart::read_chart(bytes) == Err(Refusal::of_chart(number, place, byte))
}

fn sheet_accepted(bytes: &[u8], m: usize, kind: Kind, nodes: usize) -> bool
    ensures { result ≡ sheet_accepted (kind_number kind) nodes (sheet_read (read_sheet bytes.now m)) }
{
    sheet::read_sheet(bytes, m) == Ok(Outline { kind, nodes })
}

fn sheet_refused(bytes: &[u8], m: usize, number: u8, place: usize) -> bool
    ensures { result ≡ sheet_refused number place (sheet_read (read_sheet bytes.now m)) }
{
    sheet::read_sheet(bytes, m) == Err(Refusal::of_sheet(number, place))
}

// A check that has to be proved where it is made. It is run all the same: a division by zero would end a run in which it is false.
fn expect(holds: bool)
    requires { IsTrue holds }
{
    let one: u8 = 1;
    let _quotient = one / u8::from(holds);
}

// The counts: n, m and t at their limits and beyond.
#[tactic(auto, unfolding(chart::specs::Reading::read_chart, chart::specs::Reading::read_actions, chart::specs::Reading::read_transitions, chart::specs::Reading::judge_codes, chart::specs::Reading::judge_triples))]
fn chart_counts() {
    expect(chart_refused(b"", 1, 0, 0));
    expect(chart_refused(b"\x00", 2, 0, 0));
    expect(chart_refused(b"\x41", 2, 0, 0));
    expect(chart_accepted(
        b"\x40\x61\x61\x61\x61\x61\x61\x61\x61\x61\x61\x61\x61\x61\x61\x61\x61\x61\x61\x61\x61\x61\x61\x61\x61\x61\x61\x61\x61\x61\x61\x61\x61\x61\x61\x61\x61\x61\x61\x61\x61\x61\x61\x61\x61\x61\x61\x61\x61\x61\x61\x61\x61\x61\x61\x61\x61\x61\x61\x61\x61\x61\x61\x61\x61\x00\x00\x00",
        64,
        0,
        0,
    ));
    expect(chart_refused(
        b"\x40\x61\x61\x61\x61\x61\x61\x61\x61\x61\x61\x61\x61\x61\x61\x61\x61\x61\x61\x61\x61\x61\x61\x61\x61\x61\x61\x61\x61\x61\x61\x61\x61\x61\x61\x61\x61\x61\x61\x61\x61\x61\x61\x61\x61\x61\x61\x61\x61\x61\x61\x61\x61\x61\x61\x61\x61\x61\x61\x61\x61\x61\x61\x61",
        1,
        64,
        0,
    ));
    expect(chart_accepted(
        b"\x01\x00\x20\x20\x21\x22\x23\x24\x25\x26\x27\x28\x29\x2a\x2b\x2c\x2d\x2e\x2f\x30\x31\x32\x33\x34\x35\x36\x37\x38\x39\x3a\x3b\x3c\x3d\x3e\x3f\x00\x00",
        1,
        32,
        0,
    ));
    expect(chart_refused(b"\x01\x00\x21", 3, 2, 0));
    expect(chart_refused(b"\x01\x00\x00\x01\x04", 5, 3, 0));
    expect(chart_refused(b"\x01\x00\x00", 1, 3, 0));
    expect(chart_refused(b"\x01\x00\x00\x01", 1, 4, 0));
}

// The codes and the triples, these by their numbers and bytes, and what is left over.
#[tactic(auto, unfolding(chart::specs::Reading::read_chart, chart::specs::Reading::read_actions, chart::specs::Reading::read_transitions, chart::specs::Reading::judge_codes, chart::specs::Reading::judge_triples))]
fn chart_items() {
    expect(chart_refused(b"\x01\x00\x02\x05\x05", 4, 4, 0));
    expect(chart_refused(b"\x01\x00\x02\x05\x04", 4, 4, 0));
    expect(chart_refused(b"\x01\x00\x00\x00\x04", 1, 5, 0));
    expect(chart_refused(b"\x01\x00\x00\x01\x00\x00\x00\x00", 6, 0, 1));
    expect(chart_refused(b"\x01\x00\x01\x07\x01\x00\x01\x00\x00", 6, 0, 0));
    expect(chart_refused(b"\x01\x00\x01\x07\x01\x00\x00\x00\x01", 6, 0, 2));
    expect(chart_accepted(b"\x01\x00\x01\x07\x01\x00\x00\x00\x00", 1, 1, 1));
    expect(chart_refused(b"\x01\x00\x01\x07\x02\x00\x00\x00\x00\x00\x00\x00", 7, 1, 0));
    expect(chart_refused(
        b"\x06\x01\x02\x03\x04\x05\x06\x03\x0a\x14\x1e\x08\x00\x00\x00\x02\x01\x00\x03\x01\x00\x04\x02\x01\x05\x02\x02\x05\x03\x01\x05\x04\x02\x05\x04\x02\x05",
        7,
        7,
        0,
    ));
    expect(chart_refused(b"\x01\x00\x00\x00\x00\x09", 8, 5, 0));
    expect(chart_refused(
        b"\x02\x00\x00\x01\x07\x02\x00\x00\x00\x00\x01\x00\x02",
        6,
        1,
        2,
    ));
    expect(chart_refused(
        b"\x02\x00\x00\x01\x07\x02\x00\x00\x00\x00\x01\x00",
        1,
        12,
        0,
    ));
}

// The count of equations, the kind and the count of nodes.
#[tactic(auto, unfolding(sheet::specs::Reading::read_sheet, sheet::specs::Reading::read_nodes, sheet::specs::Reading::parse, sheet::specs::Reading::node_at))]
fn sheet_heads() {
    expect(sheet_refused(b"", 3, 1, 0));
    expect(sheet_refused(b"\x00", 3, 9, 0));
    expect(sheet_refused(b"\x02", 3, 9, 0));
    expect(sheet_refused(b"\x01", 3, 1, 1));
    expect(sheet_refused(b"\x01\x03", 3, 9, 1));
    expect(sheet_refused(b"\x01\x02", 3, 1, 2));
    expect(sheet_refused(b"\x01\x02\x00", 3, 10, 2));
    expect(sheet_refused(b"\x01\x02\xc9", 3, 10, 2));
    expect(sheet_accepted(b"\x01\x00\x02\x05\xff\x01", 0, Kind::Unsaid, 2));
}

// A node above 6, an action byte out of range, an absent one, bytes left over.
#[tactic(auto, unfolding(sheet::specs::Reading::read_sheet, sheet::specs::Reading::read_nodes, sheet::specs::Reading::parse, sheet::specs::Reading::node_at))]
fn sheet_nodes() {
    expect(sheet_refused(b"\x01\x00\x01", 3, 1, 3));
    expect(sheet_refused(b"\x01\x00\x01\x07", 3, 11, 3));
    expect(sheet_refused(b"\x01\x00\x02\x05\x03\x01", 3, 12, 4));
    expect(sheet_refused(b"\x01\x00\x02\x06\xfe\x01", 3, 12, 4));
    expect(sheet_refused(b"\x01\x00\x01\x05", 3, 1, 4));
    expect(sheet_refused(b"\x01\x00\x01\x05\x09", 3, 12, 4));
    expect(sheet_refused(b"\x01\x00\x03\x03\x01", 3, 1, 5));
    expect(sheet_refused(b"\x01\x00\x01\x01\x00", 3, 8, 4));
}

// 13: the formula is complete, or the nodes are used up; before 1, 8 and 11 at the same place.
#[tactic(auto, unfolding(sheet::specs::Reading::read_sheet, sheet::specs::Reading::read_nodes, sheet::specs::Reading::parse, sheet::specs::Reading::node_at))]
fn sheet_thirteen() {
    expect(sheet_refused(b"\x01\x00\x02\x01", 3, 13, 4));
    expect(sheet_refused(b"\x01\x00\x01\x03", 3, 13, 4));
    expect(sheet_refused(b"\x01\x00\x02\x01\x01", 3, 13, 4));
    expect(sheet_refused(b"\x01\x00\x02\x01\x09", 3, 13, 4));
    expect(sheet_refused(b"\x01\x00\x01\x03\x09", 3, 13, 4));
    expect(sheet_refused(b"\x01\x00\x01\x05\x00", 3, 13, 5));
    expect(sheet_refused(b"\x01\x00\x02\x04\x01", 3, 13, 5));
}

// The codes 0 to 31 after their count, which stands at 65.
fn with_codes(chart: [u8; 3172]) -> [u8; 3172] {
    let mut bytes = chart;
    bytes[65] = 32;
    for a in 0..32u8 {
        bytes[66 + usize::from(a)] = a;
    }
    bytes
}

// 1,024 triples, sixteen for each source, after their count, which stands at 98.
fn with_triples(chart: [u8; 3172]) -> [u8; 3172] {
    let mut bytes = chart;
    bytes[99] = 4;
    for i in 0..1024usize {
        bytes[100 + 3 * i] = (i / 16) as u8;
        bytes[101 + 3 * i] = (i % 16) as u8;
        bytes[102 + 3 * i] = (i % 64) as u8;
    }
    bytes
}

// The longest chart: 3,172 bytes.
fn longest() -> [u8; 3172] {
    let mut bytes = [0u8; 3172];
    bytes[0] = 64;
    with_triples(with_codes(bytes))
}

fn print(rt: &impl Print, title: &str, ok: bool) -> io::Result<()> {
    if ok {
        return println!(rt; "{title}: as it should be");
    }
    println!(rt; "{title}: NOT as it should be")
}

// The same bytes and one more.
fn one_more(chart: [u8; 3172]) -> [u8; 3173] {
    let mut bytes = [0u8; 3173];
    bytes[..3172].copy_from_slice(&chart);
    bytes
}

// What is too long for a proof to compute.
fn longest_charts(rt: &impl Print) -> io::Result<()> {
    let mut bytes = longest();
    print(rt, "t of 1,024 read", chart_accepted(&bytes, 64, 32, 1024))?;
    let longer = one_more(bytes);
    print(
        rt,
        "a byte after the longest chart refused 8 at 3172",
        chart_refused(&longer, 8, 3172, 0),
    )?;
    bytes[98] = 1;
    print(
        rt,
        "t of 1,025 refused 5 at its first byte",
        chart_refused(&bytes, 5, 98, 0),
    )
}

fn main(rt: HostRuntime) -> io::Result<()> {
    println!(rt; "proved, and run before the line that names it:")?;
    chart_counts();
    println!(rt;
        "empty chart refused 1 at 0; n of 64 read, 65 refused 2 at 0; m of 32 read, 33 refused 3; t of 1,025 refused 5"
    )?;
    chart_items();
    println!(rt;
        "codes that do not rise refused 4; triples out of range 6; the same triple twice 7; bytes left over 8"
    )?;
    sheet_heads();
    println!(rt; "a sheet's count of equations and kind refused 9, its count of nodes 10")?;
    sheet_nodes();
    println!(rt;
        "a node above 6 refused 11, an action byte out of range 12, an absent one 1, bytes left over 8"
    )?;
    sheet_thirteen();
    println!(rt; "a formula complete too early or not at all refused 13, before 1, 8 and 11")?;
    println!(rt; "too long to be computed in a proof, and run:")?;
    longest_charts(&rt)
}
