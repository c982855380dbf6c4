// A column of the chart: the sums of splits for its spans, by row and start, and what is stored of a span once it is settled.
#![tactic(auto)]

ghost use Rattle.std.specs.Prelude.{◌≡◌, ◌&&◌, ℕ, ◌+◌, ◌*◌, ◌<◌, ◌≤◌, eqb, length, get_or};
ghost use Rattle.common.specs.Below.{bit_of};
ghost use Rattle.common.specs.Zeros.{AllZero};
ghost use Rattle.layout.specs.Limits.{production_limit, argument_limit};
ghost use Rattle.tables.specs.Layout.{slot, table_words, takes_char};
ghost use Rattle.chart.specs.Layout.{text_limit, places, row_limit, span_count, entry_at};
ghost use Rattle.chart.specs.ByEnds.{place_at};
ghost use Rattle.column.specs.Sums.{ColumnCleared, RowAdded, SplitsAdded};
ghost use Rattle.column.specs.Scattered.{Scattered};
ghost use Rattle.chart.specs.Rows.{RowsFilled};

use chart::by_ends::{add_row, clear_row, store};
use chart::cells::{PLACES, ROW_LIMIT};
use chart::rows::fill_rows;
use chart::sums::capped;
use common::wide;
use layout::limits::ARGUMENT_LIMIT;
use tables::takes_char;

// The length of the table of sums of a column.
pub const SUMS: usize = ROW_LIMIT * PLACES;

// ---- sums

// Zeros for all cells that end at j and start before it.
pub fn clear_column(chart: &mut [u8], n: usize, rows: usize, j: usize)
    requires n_le_text_limit { (n ≤ text_limit) × (rows ≤ row_limit) × (j ≤ n) }
    requires n_in_bounds { rows * span_count n ≤ length chart.old }
    ensures { ColumnCleared n rows j chart.old chart.new }
{
    for r in 0..rows {
        clear_row(chart, n, r, j);
    }
}

// Writes the sums of all rows for start i.
pub fn sums_at(sums: &[u8], rows: usize, i: usize, out: &mut [u8])
    requires { (length sums.now ≡ row_limit * places) × (rows ≤ row_limit) × (i < places) × (length out.old ≡ row_limit) }
    ensures { ((r : ℕ) → r < rows → get_or out.new r 0 ≡ get_or sums.now (r * places + i) 0) × ((r : ℕ) → rows ≤ r → get_or out.new r 0 ≡ get_or out.old r 0) }
{
    for r in 0..rows {
        out[r] = sums[r * PLACES + i];
    }
}

// Adds the splits of one row at m, unless nothing may stand behind them.
fn add_split(
    chart: &[u8],
    n: usize,
    row: usize,
    m: usize,
    argument: u8,
    sums: &mut [u8],
    live: &mut [u8],
)
    requires n_le_text_limit { (n ≤ text_limit) × (row < row_limit) × (m ≤ n) }
    requires n_in_bounds { ((row + 1) * span_count n ≤ length chart.now) × (length sums.old ≡ row_limit * places) × (length live.old ≡ places) }
    requires by_index { ((i : ℕ) → i < m → get_or sums.old (row * places + i) 0 ≤ 2) × ((i : ℕ) → i < m → entry_at chart.now (place_at n row i m) ≤ 2) }
    ensures { RowAdded n row m argument chart.now sums.old live.old sums.new live.new }
{
    if argument == 0 {
        return;
    }
    add_row(
        chart,
        n,
        row,
        m,
        capped(wide(argument)),
        sums,
        row * PLACES,
        live,
    );
}

// The same for each row.
pub fn add_splits(
    chart: &[u8],
    n: usize,
    rows: usize,
    m: usize,
    args: &[u8],
    sums: &mut [u8],
    live: &mut [u8],
)
    requires n_le_text_limit { (n ≤ text_limit) × (rows ≤ row_limit) × (m ≤ n) × (length args.now ≡ row_limit) }
    requires n_in_bounds { (rows * span_count n ≤ length chart.now) × (length sums.old ≡ row_limit * places) × (length live.old ≡ places) }
    requires by_index { ((r i : ℕ) → r < rows → i < m → get_or sums.old (r * places + i) 0 ≤ 2) × ((r i : ℕ) → r < rows → i < m → entry_at chart.now (place_at n r i m) ≤ 2) }
    ensures { SplitsAdded n rows m chart.now args.now sums.old live.old sums.new live.new }
{
    for r in 0..rows {
        add_split(chart, n, r, m, args[r], sums, live);
    }
}

// ---- characters

// Writes for each row, over zeros, 1 if the text from i to j is a character that may stand as its next argument.
pub fn bare_args(text: &[u8], counts: &[u8], tables: &[u64], i: usize, j: usize, out: &mut [u8])
    requires counts_len_bound { (length counts.now ≤ production_limit) × ((p : ℕ) → get_or counts.now p 0 ≤ argument_limit) × (length tables.now ≡ table_words) }
    requires i_lt_j { (i < j) × (j ≤ length text.now) }
    requires all_zero { AllZero row_limit out.old }
    ensures { RowsFilled (λ p d. bit_of (eqb (i + 1) j && takes_char tables.now (slot p d) (get_or text.now i 0))) counts.now (length counts.now) out.new }
{
    if i + 1 != j {
        return;
    }
    let character = text[i];
    fill_rows(
        counts,
        |p, d| takes_char(tables, p * ARGUMENT_LIMIT + d, character) as u8,
        out,
    );
}

// ---- cells

// Stores the cells of all rows for the span from i to j.
pub fn store_cells(chart: &mut [u8], n: usize, rows: usize, i: usize, j: usize, cells: &[u8])
    requires n_le_text_limit { (n ≤ text_limit) × (rows ≤ row_limit) × (i ≤ j) × (j ≤ n) }
    requires n_in_bounds { (rows * span_count n ≤ length chart.old) × (length cells.now ≡ row_limit) }
    ensures { Scattered (λ r. place_at n r i j) (λ r. get_or cells.now r 0) rows chart.old chart.new }
{
    for r in 0..rows {
        store(chart, n, r, i, j, cells[r]);
    }
}
