// Two charts side by side, written out as the one chart that they are then; its marks are worked out as those of any chart.
#![tactic(auto)]

ghost use Rattle.std.specs.Prelude.{◌≡◌, ◌+◌, ◌*◌, ◌≤◌, ◌<◌, length};
ghost use Rattle.chart.specs.Layout.{step_bytes, Bytes};
ghost use Rattle.chart.specs.Reading.{bytes_at};
ghost use Rattle.text.specs.Text.{HasRoom, Added};
ghost use Rattle.side_by_side.specs.Table.{Flagged, Numbered};
ghost use Rattle.side_by_side.specs.Written.{head, tabled_steps};
ghost use Rattle.side_by_side.specs.Promise.{TogetherPromise, JoinPromise};

use arrayvec::ArrayVec;
use chart::AcceptedChart;
use refusal::Refusal;
use text::Page;

// The length of the chart that was written, and how many states the two charts have.
#[derive(Clone, Copy)]
pub struct Joined {
    pub length: usize,
    pub first: usize,
    pub second: usize,
}

// These codes get their flags.
#[tactic(auto, using(crate::proofs::Table::flagged_none, crate::proofs::Table::flagged_more, crate::proofs::Table::flagged_all))]
fn flag(codes: &[u8], flags: &mut [bool; 256])
    ensures { Flagged codes.now flags.old flags.new }
{
    for code in codes {
        flags[usize::from(*code)] = true;
    }
}

// The codes that bear the flag, rising; each code's place among them goes to `places`.
#[tactic(auto, using(crate::proofs::Table::numbering_none, crate::proofs::Table::numbering_more, crate::proofs::Table::numbering_skip, crate::proofs::Table::numbering_all))]
fn number(flags: &[bool; 256], places: &mut [u8; 256]) -> ArrayVec<u8, 256>
    ensures { Numbered flags.now places.new result.items }
{
    let mut codes = ArrayVec::new();
    for code in 0..256 {
        if flags[code] {
            places[code] = codes.len() as u8;
            codes.push(code as u8);
        }
    }
    codes
}

// The counts, the mode codes of both charts and the action codes, up to the first triple.
#[tactic(auto, using(crate::proofs::Written::head_written))]
fn put_head(first: &AcceptedChart, second: &AcceptedChart, codes: &[u8], t: usize, page: &mut Page)
    requires few { (first.now.shape.n + second.now.shape.n ≤ 64) × (length codes.now ≤ 32) × (t ≤ 1024) }
    requires room { HasRoom page.old (head (bytes_at first.now.bytes.now 1 first.now.shape.n) (bytes_at second.now.bytes.now 1 second.now.shape.n) codes.now t) }
    ensures { Added page.old (head (bytes_at first.now.bytes.now 1 first.now.shape.n) (bytes_at second.now.bytes.now 1 second.now.shape.n) codes.now t) page.new }
{
    let n = first.shape.n;
    let more = second.shape.n;
    page.put_bytes(&[(n + more) as u8]);
    page.put_bytes(&first.bytes[1..1 + n]);
    page.put_bytes(&second.bytes[1..1 + more]);
    page.put_bytes(&[codes.len() as u8]);
    page.put_bytes(codes);
    page.put_bytes(&[(t % 256) as u8, (t / 256) as u8]);
}

// The triples of a chart, each action by its code's place and each state by `shift` further on.
#[tactic(auto, using(crate::proofs::Written::front_all))]
fn put_steps(chart: &AcceptedChart, places: &[u8; 256], shift: usize, page: &mut Page)
    requires few { shift + chart.now.shape.n ≤ 64 }
    requires room { page.old.at + 3 * chart.now.shape.t ≤ length page.old.bytes.now }
    ensures { Added page.old (step_bytes (tabled_steps chart.now.bytes.now chart.now.shape places.now shift)) page.new }
{
    let codes = 2 + chart.shape.n;
    let at = 4 + chart.shape.n + chart.shape.m;
    for i in 0..chart.shape.t {
        let step = at + 3 * i;
        let source = shift + usize::from(chart.bytes[step]);
        let code = chart.bytes[codes + usize::from(chart.bytes[step + 1])];
        let target = shift + usize::from(chart.bytes[step + 2]);
        page.put_bytes(&[source as u8, places[usize::from(code)], target as u8]);
    }
}

// Two accepted charts.
fn together(
    first: &AcceptedChart,
    second: &AcceptedChart,
    out: &mut [u8; 3172],
) -> Result<Joined, Refusal>
    requires { Bytes first.now.bytes.now × Bytes second.now.bytes.now }
    ensures { TogetherPromise first.now.bytes.now first.now.shape second.now.bytes.now second.now.shape out.old out.new result }
{
    let a = first.shape;
    let b = second.shape;
    let mut flags = [false; 256];
    flag(&first.bytes[2 + a.n..2 + a.n + a.m], &mut flags);
    flag(&second.bytes[2 + b.n..2 + b.n + b.m], &mut flags);
    let mut places = [0u8; 256];
    let codes = number(&flags, &mut places);
    if 64 < a.n + b.n {
        return Err(Refusal::of_lent(18));
    }
    if 32 < codes.len() {
        return Err(Refusal::of_lent(19));
    }
    if 1024 < a.t + b.t {
        return Err(Refusal::of_lent(20));
    }
    let mut page = Page::new(out);
    put_head(first, second, codes.as_slice(), a.t + b.t, &mut page);
    put_steps(first, &places, 0, &mut page);
    put_steps(second, &places, a.n, &mut page);
    Ok(Joined {
        length: page.at,
        first: a.n,
        second: b.n,
    })
}

// The two charts side by side, from the start of `out` on, or the first refusal.
#[tactic(auto, using(crate::proofs::Promise::refused_first, crate::proofs::Promise::refused_second, crate::proofs::Promise::both_accepted))]
pub fn join(first: &[u8], second: &[u8], out: &mut [u8; 3172]) -> Result<Joined, Refusal>
    ensures { JoinPromise first.now second.now out.old out.new result }
{
    let one = AcceptedChart::read(first)?;
    let other = AcceptedChart::read(second).map_err(Refusal::of_second)?;
    together(&one, &other, out)
}
