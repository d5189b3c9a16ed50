// The text that the program prints for a chart's bytes.
#![tactic(auto)]

ghost use Rattle.std.specs.Prelude.{◌≡◌, [], ◌∷◌, ◌++◌, ◌+◌, ◌-◌, ◌*◌, ◌≤◌, ◌<◌, length};
ghost use Rattle.relation.specs.Promise.{byte_at};
ghost use Rattle.text.specs.Text.{line, HasRoom, Added};
ghost use Rattle.report.specs.Text.{refused_text, pair_text, row_text, rows_text, chart_text};
ghost use Rattle.report.specs.Promise.{ReportPromise};
ghost use Rattle.report.specs.Page.{Made, Reported};

use refusal::Refusal;
use text::Page;

// A word, a number and a line feed.
fn put_count(page: &mut Page, word: &[u8], x: usize)
    requires { HasRoom page.old (word.now ++ line (x ∷ [])) }
    ensures { Added page.old (word.now ++ line (x ∷ [])) page.new }
{
    page.put_bytes(word);
    page.put_number(x);
    page.put_bytes(b"\n");
}

// The line of a pair, where its mark is not 0.
fn put_pair(page: &mut Page, p: usize, q: usize, mark: usize)
    requires { HasRoom page.old (pair_text p q mark) }
    ensures { Added page.old (pair_text p q mark) page.new }
{
    if mark != 0 {
        page.put_line(p, q, mark);
    }
}

// The lines of p with each state above it.
fn put_row(page: &mut Page, matrix: &[u8], n: usize, p: usize)
    requires n_bound { (n ≤ 64) × (p < n) × (n * n ≤ length matrix.now) }
    requires room { HasRoom page.old (row_text (byte_at n matrix.now) p (n - 1 - p)) }
    ensures { Added page.old (row_text (byte_at n matrix.now) p (n - 1 - p)) page.new }
{
    for q in p + 1..n {
        put_pair(page, p, q, usize::from(matrix[p * n + q]));
    }
}

// The lines of all pairs.
fn put_rows(page: &mut Page, matrix: &[u8], n: usize)
    requires n_bound { (n ≤ 64) × (n * n ≤ length matrix.now) }
    requires room { HasRoom page.old (rows_text (byte_at n matrix.now) n n) }
    ensures { Added page.old (rows_text (byte_at n matrix.now) n n) page.new }
{
    for p in 0..n {
        put_row(page, matrix, n, p);
    }
}

// The states, the rounds and the pairs' lines.
fn put_chart(page: &mut Page, matrix: &[u8], n: usize, rounds: usize)
    requires n_bound { (n ≤ 64) × (n * n ≤ length matrix.now) }
    requires room { HasRoom page.old (chart_text n rounds (byte_at n matrix.now)) }
    ensures { Added page.old (chart_text n rounds (byte_at n matrix.now)) page.new }
{
    put_count(page, b"states ", n);
    put_count(page, b"rounds ", rounds);
    put_rows(page, matrix, n);
}

// The line of a refusal.
fn put_refusal(page: &mut Page, r: Refusal)
    requires { HasRoom page.old (refused_text r) }
    ensures { Added page.old (refused_text r) page.new }
{
    page.put_bytes(b"refused ");
    page.put_number(usize::from(u8::from(r.input)));
    page.put_bytes(b" ");
    page.put_line(usize::from(r.number), r.place, usize::from(r.byte));
}

// The text, on an empty page that has room for the longest.
fn put_report(page: &mut Page, chart: &[u8])
    requires { (page.old.at ≡ 0) × (20480 ≤ length page.old.bytes.now) }
    ensures { Reported chart.now page.old page.new }
{
    let mut matrix = [0u8; 4096];
    match marks::marks(chart, &mut matrix) {
        Err(r) => put_refusal(page, r),
        Ok(given) => put_chart(page, &matrix, given.states, given.rounds),
    }
}

// The text, from the start of bytes that have room for the longest, and its length.
fn make(chart: &[u8], bytes: &mut [u8]) -> usize
    requires { 20480 ≤ length bytes.old }
    ensures { Made chart.now result bytes.new }
{
    let mut page = Page::new(bytes);
    put_report(&mut page, chart);
    page.at
}

// The report on a chart's bytes, in the start of the lent buffer.
pub fn report(chart: &[u8], buffer: &mut [u8]) -> Result<usize, Refusal>
    ensures { ReportPromise chart.now buffer.old buffer.new result }
{
    let mut bytes = [0u8; 20480];
    let size = make(chart, &mut bytes);
    lent::fill(buffer, &bytes[..size])
}
