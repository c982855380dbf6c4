// The chart while it is filled: the cells of a row that end at one place stand side by side. Nothing outside this module knows where.
ghost use Rattle.std.specs.Prelude.{◌≡◌, ℕ, ◌+◌, ◌-◌, ◌*◌, ◌<◌, ◌≤◌, max, length, get_or, set};
ghost use Rattle.common.specs.Region.{Region};
ghost use Rattle.theory.specs.Steps.{cap};
ghost use Rattle.chart.specs.Layout.{text_limit, places, row_limit, span_count, cell_at, entry_at};
ghost use Rattle.chart.specs.ByEnds.{column_at, place_at, RowTurned, Turned};

use crate::cells::{PLACES, put, span_count};
use crate::sums::{capped_byte, larger};

// Most spans of a text.
const SPANS: usize = PLACES * (PLACES + 1) / 2;

// How many spans end before j.
fn column_at(j: usize) -> usize
    requires { j ≤ places }
    ensures { result ≡ column_at j }
{
    j * (j + 1) / 2
}

// The place of a cell.
fn place_at(n: usize, row: usize, i: usize, j: usize) -> usize
    requires { (n ≤ text_limit) × (row < row_limit) × (i ≤ j) × (j ≤ n) }
    ensures { result ≡ place_at n row i j }
{
    row * span_count(n) + column_at(j) + i
}

// Sets the cell of a row for the span from i to j.
pub fn store(chart: &mut [u8], n: usize, row: usize, i: usize, j: usize, value: u8)
    requires n_le_text_limit { (n ≤ text_limit) × (row < row_limit) × (i ≤ j) × (j ≤ n) }
    requires n_in_bounds { (row + 1) * span_count n ≤ length chart.old }
    ensures { chart.new ≡ set chart.old (place_at n row i j) value }
{
    chart[place_at(n, row, i, j)] = value;
}

// Zeros for `count` bytes from `at` on.
pub fn clear(bytes: &mut [u8], at: usize, count: usize)
    requires { at + count ≤ length bytes.old }
    ensures { Region (λ (k : ℕ) (v : ℕ). v ≡ 0) 0 at count bytes.old bytes.new }
{
    bytes[at..at + count].fill(0);
}

// Zeros for the cells of a row that end at j and start before it.
pub fn clear_row(chart: &mut [u8], n: usize, row: usize, j: usize)
    requires n_le_text_limit { (n ≤ text_limit) × (row < row_limit) × (j ≤ n) }
    requires n_in_bounds { (row + 1) * span_count n ≤ length chart.old }
    ensures { Region (λ (k : ℕ) (v : ℕ). v ≡ 0) 0 (place_at n row 0 j) j chart.old chart.new }
{
    clear(chart, place_at(n, row, 0, j), j);
}

// Adds the splits of a row at m to its sums, which begin at `at`, for each start before m: the cell from there to m, times what may stand behind it.
// This is the inner loop of filling.
pub fn add_row(
    chart: &[u8],
    n: usize,
    row: usize,
    m: usize,
    argument: u8,
    sums: &mut [u8],
    at: usize,
    live: &mut [u8],
)
    requires n_le_text_limit { (n ≤ text_limit) × (row < row_limit) × (m ≤ n) × (argument ≤ 2) }
    requires n_in_bounds { ((row + 1) * span_count n ≤ length chart.now) × (at + m ≤ length sums.old) × (m ≤ length live.old) }
    requires by_index { ((k : ℕ) → k < m → get_or sums.old (at + k) 0 ≤ 2) × ((k : ℕ) → k < m → entry_at chart.now (place_at n row k m) ≤ 2) }
    ensures region { Region (λ (k : ℕ) (v : ℕ). v ≡ cap (get_or sums.old (at + k) 0 + entry_at chart.now (place_at n row k m) * argument)) 0 at m sums.old sums.new }
    ensures region_2 { Region (λ (k : ℕ) (v : ℕ). v ≡ max (get_or live.old k 0) (cap (get_or sums.old (at + k) 0 + entry_at chart.now (place_at n row k m) * argument))) 0 0 m live.old live.new }
{
    let from = place_at(n, row, 0, m);
    for k in 0..m {
        let sum = capped_byte(sums[at + k] + chart[from + k] * argument);
        sums[at + k] = sum;
        live[k] = larger(live[k], sum);
    }
}

// Copies `count` bytes from `at` on.
fn copy(bytes: &[u8], at: usize, count: usize, out: &mut [u8])
    requires { (at + count ≤ length bytes.now) × (count ≤ length out.old) }
    ensures { Region (λ (k : ℕ) (v : ℕ). v ≡ get_or bytes.now (at + k) 0) 0 0 count out.old out.new }
{
    out[..count].copy_from_slice(&bytes[at..at + count]);
}

// Writes the cells of a row that start at i where the chart has them, from a copy of the row by ends.
fn turn_start(chart: &mut [u8], n: usize, row: usize, i: usize, cells: &[u8])
    requires n_le_text_limit { (n ≤ text_limit) × (row < row_limit) × (i ≤ n) }
    requires n_in_bounds { ((row + 1) * span_count n ≤ length chart.old) × (span_count n ≤ length cells.now) }
    ensures { Region (λ (k : ℕ) (v : ℕ). v ≡ get_or cells.now (column_at (i + k) + i) 0) 0 (cell_at n row i i) (n + 1 - i) chart.old chart.new }
{
    // i..=n would have a second way out, with a goal of its own.
    for j in i..n + 1 {
        put(chart, n, row, i, j, cells[column_at(j) + i]);
    }
}

// Turns a row: its cells stand where the chart has them. `cells` has room for a copy of the row, and holds it afterwards.
fn turn_row(chart: &mut [u8], n: usize, row: usize, cells: &mut [u8])
    requires n_le_text_limit { (n ≤ text_limit) × (row < row_limit) }
    requires n_in_bounds { ((row + 1) * span_count n ≤ length chart.old) × (span_count n ≤ length cells.old) }
    ensures row_turned { RowTurned n row chart.old chart.new }
    ensures region { Region (λ (k : ℕ) (v : ℕ). v ≡ get_or chart.old (row * span_count n + k) 0) 0 0 (span_count n) cells.old cells.new }
{
    copy(chart, row * span_count(n), span_count(n), cells);
    for i in 0..n + 1 {
        turn_start(chart, n, row, i, cells);
    }
}

// Turns the rows: all cells stand where the chart has them.
pub fn turn_rows(chart: &mut [u8], n: usize, rows: usize)
    requires n_le_text_limit { (n ≤ text_limit) × (rows ≤ row_limit) }
    requires n_in_bounds { rows * span_count n ≤ length chart.old }
    ensures { Turned n rows chart.old chart.new }
{
    let mut cells = [0; SPANS];
    for r in 0..rows {
        turn_row(chart, n, r, &mut cells);
    }
}
