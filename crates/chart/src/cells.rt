// Where a cell of the chart stands (01, "Readings, listings and the chart"). Nothing outside this module knows it.
ghost use Rattle.std.specs.Prelude.{◌≡◌, ◌+◌, ◌*◌, ◌<◌, ◌≤◌, length, set};
ghost use Rattle.tables.specs.Layout.{counts_of, arity_in, ParserTables};
ghost use Rattle.chart.specs.Layout.{text_limit, row_limit, span_count, chart_need, start_at, cell_at, entry_at, ChartFits};
ghost use Rattle.chart.specs.Counted.{entry_of};

use layout::limits::{ARGUMENT_LIMIT, PRODUCTION_LIMIT};
use tables::{first_row, row_count};

// Most characters of a text.
pub const TEXT_LIMIT: usize = 200;
// The places between and around them.
pub const PLACES: usize = TEXT_LIMIT + 1;
// A row is a production with a count of arguments. Most rows.
pub const ROW_LIMIT: usize = PRODUCTION_LIMIT * (ARGUMENT_LIMIT + 1);

// How many spans a text of n characters has: a row has a cell for each.
pub fn span_count(n: usize) -> usize
    requires { n ≤ text_limit }
    ensures { result ≡ span_count n }
{
    (n + 1) * (n + 2) / 2
}

// How many bytes the chart of such a text needs.
pub fn chart_need(tables: &[u64], n: usize) -> usize
    requires { ParserTables tables.now × (n ≤ text_limit) }
    ensures { result ≡ chart_need tables.now n }
{
    row_count(tables) * span_count(n)
}

// How many spans start before i.
fn start_at(n: usize, i: usize) -> usize
    requires { (n ≤ text_limit) × (i ≤ n) }
    ensures { result ≡ start_at n i }
{
    i * (2 * n + 3 - i) / 2
}

// The place of a cell.
fn cell_at(n: usize, row: usize, i: usize, j: usize) -> usize
    requires { (n ≤ text_limit) × (row < row_limit) × (i ≤ j) × (j ≤ n) }
    ensures { result ≡ cell_at n row i j }
{
    row * span_count(n) + start_at(n, i) + (j - i)
}

// The cell of a row for the span from i to j.
fn get(chart: &[u8], n: usize, row: usize, i: usize, j: usize) -> u8
    requires n_le_text_limit { (n ≤ text_limit) × (row < row_limit) × (i ≤ j) × (j ≤ n) }
    requires n_in_bounds { (row + 1) * span_count n ≤ length chart.now }
    ensures { result ≡ entry_at chart.now (cell_at n row i j) }
{
    chart[cell_at(n, row, i, j)]
}

// The entry for production p, the first d of its arguments, and the span from i to j of a text of n characters.
pub fn entry_of(
    chart: &[u8],
    tables: &[u64],
    n: usize,
    p: usize,
    d: usize,
    i: usize,
    j: usize,
) -> u8
    requires chart_fits { ChartFits tables.now n chart.now }
    requires p_in_bounds { (p < length (counts_of tables.now)) × (d ≤ arity_in (counts_of tables.now) p) × (i ≤ j) × (j ≤ n) }
    ensures { result ≡ entry_of (arity_in (counts_of tables.now)) n chart.now p d i j }
{
    get(chart, n, first_row(tables, p) + d, i, j)
}

// Sets that cell.
pub fn put(chart: &mut [u8], n: usize, row: usize, i: usize, j: usize, value: u8)
    requires n_le_text_limit { (n ≤ text_limit) × (row < row_limit) × (i ≤ j) × (j ≤ n) }
    requires n_in_bounds { (row + 1) * span_count n ≤ length chart.old }
    ensures { chart.new ≡ set chart.old (cell_at n row i j) value }
{
    chart[cell_at(n, row, i, j)] = value;
}
