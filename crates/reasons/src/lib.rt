// Showing why: the list that tells each two unequal states apart, a line for each of them in both orders.
#![tactic(auto)]

ghost use Rattle.std.specs.Prelude.{◌≡◌, ℕ, ◌-◌, ◌*◌, ◌≤◌, ◌<◌, length};
ghost use Rattle.reason.specs.Line.{lines_in};
ghost use Rattle.reasons.specs.Marked.{cells, longest, LinkedFrom, BegunBy, MarkPutBy, ListPutBy, ReasonsBy};
ghost use Rattle.reasons.specs.Promise.{ReasonsPromise};

use chart::AcceptedChart;
use choice::Marked;
use ranges::Triples;
use refusal::Refusal;

// Links the cells by their marks, from the last to the first: head[d] becomes the first that bears d, and next[y] the next after y that bears what
// y does. 4,096 is none: cells of an Option would take twice the room.
fn link(marked: &Marked, head: &mut [u16; 64], next: &mut [u16; 4096])
    requires { LinkedFrom marked.now (cells marked.now) head.old next.old }
    ensures { LinkedFrom marked.now 0 head.new next.new }
{
    let n = marked.triples.shape.n;
    for y in (0..n * n).rev() {
        let mark = usize::from(marked.matrix[y]);
        next[y] = head[mark];
        head[mark] = y as u16;
    }
}

// The lines of the pairs that bear the mark, after the k lines of smaller marks. Answers how many lines stand then.
fn put_mark(
    marked: &Marked,
    head: &[u16; 64],
    next: &[u16; 4096],
    mark: usize,
    list: &mut [u8],
    k: usize,
) -> usize
    requires room { longest marked.now ≤ length list.old }
    requires linked { LinkedFrom marked.now 0 head.now next.now }
    requires mark_nonzero { (0 < mark) × (mark < 64) }
    requires begun { BegunBy marked.now mark 0 (lines_in list.old k) }
    ensures { MarkPutBy marked.now mark list.old k list.new result }
{
    let n = marked.triples.shape.n;
    let mut y = usize::from(head[mark]);
    let mut lines = k;
    // from link to link: an iterator of our own over them would be no plainer than these two lines
    while y < n * n {
        marked.put_line(y / n, y % n, list, 5 * lines);
        lines += 1;
        y = usize::from(next[y]);
    }
    lines
}

// The list, mark by mark, from the start of `list` on, which has room for a line of each two states. Answers how many lines it has.
fn put_list(marked: &Marked, list: &mut [u8]) -> usize
    requires { longest marked.now ≤ length list.old }
    ensures { ListPutBy marked.now list.old list.new result }
{
    let mut head = [4096u16; 64];
    let mut next = [0u16; 4096];
    link(marked, &mut head, &mut next);
    let mut lines = 0;
    for mark in 1..marked.triples.shape.n {
        lines = put_mark(marked, &head, &next, mark, list, lines);
    }
    lines
}

// The list in a room of its own first, for a buffer that may be too short for it.
fn write_aside(marked: &Marked, buffer: &mut [u8]) -> Result<usize, Refusal>
    ensures { ReasonsBy marked.now buffer.old buffer.new result }
{
    let mut list = [0u8; 20160];
    let lines = put_list(marked, &mut list);
    lent::fill(buffer, &list[..5 * lines])
}

// The list of a chart whose marks are known, in the start of the lent buffer: at once where there is room for a line of each two states.
fn write(marked: &Marked, buffer: &mut [u8]) -> Result<usize, Refusal>
    ensures { ReasonsBy marked.now buffer.old buffer.new result }
{
    let n = marked.triples.shape.n;
    if buffer.len() < 5 * (n * n - n) {
        return write_aside(marked, buffer);
    }
    Ok(5 * put_list(marked, buffer))
}

// One line for each two unequal states, in the start of the lent buffer.
pub fn reasons(chart: &[u8], buffer: &mut [u8]) -> Result<usize, Refusal>
    ensures { ReasonsPromise chart.now buffer.old buffer.new result }
{
    let chart = AcceptedChart::read(chart)?;
    let mut matrix = [0u8; 4096];
    // it is never refused here (the law `always_answered` of marks)
    marks::marks(chart.bytes, &mut matrix)?;
    let triples = Triples::of(&chart);
    write(
        &Marked {
            triples: &triples,
            matrix: &matrix,
        },
        buffer,
    )
}
