// The largest simulation of a chart's states: 1 at (p, q) where q simulates p, else 0.
#![tactic(auto)]

ghost use Rattle.std.specs.Prelude.{◌≡◌, ◌+◌, ◌*◌, ◌≤◌, length};
ghost use Rattle.simulation.specs.Promise.{SimulationPromise};
ghost use Rattle.simulation.specs.Working.{RowPut, CellsPut};

use chart::AcceptedChart;
use refusal::Refusal;
use relation::Matrix;

// The n cells from `base` on: 1 where the bit of the row is set, else 0.
fn put_row(buffer: &mut [u8], base: usize, row: u64, n: usize)
    requires { (n ≤ 64) × (base + n ≤ length buffer.old) }
    ensures { RowPut row base n buffer.old buffer.new }
{
    for q in 0..n {
        buffer[base + q] = ((row >> q) % 2) as u8;
    }
}

// The cells of the n rows, one row after the other.
fn put_cells(buffer: &mut [u8], rows: &[u64; 64], n: usize)
    requires { (n ≤ 64) × (n * n ≤ length buffer.old) }
    ensures { CellsPut n rows.now (n * n) buffer.old buffer.new }
{
    for p in 0..n {
        put_row(buffer, p * n, rows[p], n);
    }
}

// The byte at p * n + q of the buffer becomes 1 where q simulates p, and else 0.
pub fn simulation(chart: &[u8], buffer: &mut [u8]) -> Result<Matrix, Refusal>
    ensures { SimulationPromise chart.now buffer.old buffer.new result }
{
    let chart = AcceptedChart::read(chart)?;
    let n = chart.shape.n;
    if buffer.len() < n * n {
        return Err(Refusal::of_lent(14));
    }
    let settled = falls::work_out(&chart);
    put_cells(buffer, &settled.rows, n);
    Ok(Matrix {
        states: n,
        rounds: settled.rounds,
    })
}
