// Fills a chart: columns rising, in each the starts falling, so that every span inside one is done before it.
#![tactic(auto)]

ghost use Rattle.std.specs.Prelude.{◌≡◌, not, ◌&&◌, eqb, ℕ, ◌+◌, ◌*◌, ◌<◌, ◌≤◌, length, get_or};
ghost use Rattle.common.specs.Zeros.{AllZero};
ghost use Rattle.tables.specs.Layout.{ParserTables};
ghost use Rattle.tables.specs.Theory.{theory_of};
ghost use Rattle.chart.specs.Layout.{row_limit, places, chart_need, ChartFits};
ghost use Rattle.chart.specs.Counted.{CountedBy};
ghost use Rattle.theory.specs.Steps.{everything};
ghost use Rattle.prepare.specs.Prepared.{Prepared, empty_in, back_in};
ghost use Rattle.span.specs.Tables.{Loads};
ghost use Rattle.fill.specs.Filling.{SmallCells};
ghost use Rattle.fill.specs.Tables.{rows_of, CharArgs, SpanSettled, Ready, Small, Further, Onward};

use chart::by_ends::{clear, turn_rows};
use chart::cells::PLACES;
use chart::sums::zero_row;
use column::{SUMS, add_splits, bare_args, clear_column, store_cells, sums_at};
use prepare::{BACK_AT, COUNTS_AT, EMPTY_AT, PREPARED, USES_AT};
use span::{LinkTables, settle};
use tables::{production_count, row_count};

// No split lies inside the span, and it is no character: nothing spells it.
fn is_dead(live: &[u8], i: usize, j: usize) -> bool
    requires { (i < j) × (j < length live.now) }
    ensures { result ≡ (not (eqb (i + 1) j) && eqb (get_or live.now i 0) 0) }
{
    i + 1 != j && live[i] == 0
}

// Settles a span, whose inner splits are summed up, by the prepared links and an empty span's cells and arguments, front and back.
fn settle_by_links(
    tables: &[u64],
    prepared: &[u8],
    inner: &[u8],
    front: &[u8],
    back: &[u8],
    args: &mut [u8],
    cells: &mut [u8],
)
    requires parser_tables { ParserTables tables.now × Prepared tables.now prepared.now }
    requires loads { Loads inner.now front.now back.now args.old cells.old × AllZero row_limit cells.old }
    requires by_index { (r : ℕ) → get_or args.old r 0 ≤ 1 }
    ensures { SpanSettled tables.now prepared.now inner.now front.now back.now args.old cells.old args.new cells.new }
{
    let count = production_count(tables);
    let links = LinkTables {
        counts: &prepared[COUNTS_AT..COUNTS_AT + count],
        rows: row_count(tables),
        users: &prepared[..USES_AT],
        uses: &prepared[USES_AT..COUNTS_AT],
    };
    settle(&links, inner, front, back, args, cells);
}

// Settles a span by all that is prepared.
fn settle_span(tables: &[u64], prepared: &[u8], inner: &[u8], args: &mut [u8], cells: &mut [u8])
    requires parser_tables { ParserTables tables.now × Prepared tables.now prepared.now }
    requires inner_len { (length inner.now ≡ row_limit) × (length args.old ≡ row_limit) × AllZero row_limit cells.old }
    requires by_index { (r : ℕ) → get_or args.old r 0 ≤ 1 }
    ensures { SpanSettled tables.now prepared.now inner.now (empty_in prepared.now) (back_in prepared.now) args.old cells.old args.new cells.new }
{
    settle_by_links(
        tables,
        prepared,
        inner,
        &prepared[EMPTY_AT..BACK_AT],
        &prepared[BACK_AT..PREPARED],
        args,
        cells,
    );
}

// Writes for each row, over zeros, 1 if the text from i to j is a character that may stand as its next argument.
fn char_args(text: &[u8], tables: &[u64], prepared: &[u8], i: usize, j: usize, args: &mut [u8])
    requires parser_tables { ParserTables tables.now × Prepared tables.now prepared.now }
    requires i_lt_j { (i < j) × (j ≤ length text.now) }
    requires all_zero { AllZero row_limit args.old }
    ensures { CharArgs tables.now text.now i j args.new }
{
    let count = production_count(tables);
    bare_args(
        text,
        &prepared[COUNTS_AT..COUNTS_AT + count],
        tables,
        i,
        j,
        args,
    );
}

// A part of the text.
#[derive(Clone, Copy)]
struct Span {
    start: usize,
    end: usize,
}

// One span: it is settled, its cells are stored, and its arguments are added to the sums of the starts before it. A row to work in is lent.
fn fill_span(
    chart: &mut [u8],
    text: &[u8],
    tables: &[u64],
    prepared: &[u8],
    sums: &mut [u8],
    live: &mut [u8],
    inner: &mut [u8],
    span: Span,
)
    requires ready { Ready tables.now prepared.now text.now chart.old sums.old live.old }
    requires start_lt_end { (span.start < span.end) × (span.end ≤ length text.now) × (length inner.old ≡ row_limit) }
    requires small { Small tables.now text.now chart.old sums.old span.end }
    ensures further { Further tables.now prepared.now text.now chart.old sums.old live.old (span.start + 1) span.end chart.new sums.new live.new span.start }
    ensures small_2 { Small tables.now text.now chart.new sums.new span.end }
{
    let i = span.start;
    let j = span.end;
    if is_dead(live, i, j) {
        return;
    }
    let rows = row_count(tables);
    sums_at(sums, rows, i, inner);
    let mut cells = zero_row();
    let mut args = zero_row();
    char_args(text, tables, prepared, i, j, &mut args);
    settle_span(tables, prepared, inner, &mut args, &mut cells);
    store_cells(chart, text.len(), rows, i, j, &cells);
    add_splits(chart, text.len(), rows, i, &args, sums, live);
}

// The spans of a column, from the shortest to the longest.
fn fill_spans(
    chart: &mut [u8],
    text: &[u8],
    tables: &[u64],
    prepared: &[u8],
    sums: &mut [u8],
    live: &mut [u8],
    j: usize,
)
    requires ready { Ready tables.now prepared.now text.now chart.old sums.old live.old }
    requires j_in_bounds { j ≤ length text.now }
    requires small { Small tables.now text.now chart.old sums.old j }
    ensures further { Further tables.now prepared.now text.now chart.old sums.old live.old j j chart.new sums.new live.new 0 }
    ensures small_2 { Small tables.now text.now chart.new sums.new j }
{
    let mut inner = zero_row();
    for i in (0..j).rev() {
        let span = Span { start: i, end: j };
        fill_span(chart, text, tables, prepared, sums, live, &mut inner, span);
    }
}

// One column: zeros first, then its spans, and last the empty one.
fn fill_column(
    chart: &mut [u8],
    text: &[u8],
    tables: &[u64],
    prepared: &[u8],
    sums: &mut [u8],
    live: &mut [u8],
    j: usize,
)
    requires ready { Ready tables.now prepared.now text.now chart.old sums.old live.old }
    requires j_in_bounds { j ≤ length text.now }
    requires small_cells { SmallCells (length text.now) (rows_of tables.now) j chart.old }
    ensures onward { Onward tables.now prepared.now text.now chart.old j chart.new (j + 1) }
    ensures small_cells_2 { SmallCells (length text.now) (rows_of tables.now) (j + 1) chart.new }
{
    let rows = row_count(tables);
    clear_column(chart, text.len(), rows, j);
    clear(sums, 0, rows * PLACES);
    clear(live, 0, j);
    fill_spans(chart, text, tables, prepared, sums, live, j);
    store_cells(chart, text.len(), rows, j, j, &prepared[EMPTY_AT..BACK_AT]);
}

// All columns.
fn fill_columns(
    chart: &mut [u8],
    text: &[u8],
    tables: &[u64],
    prepared: &[u8],
    sums: &mut [u8],
    live: &mut [u8],
)
    requires { Ready tables.now prepared.now text.now chart.old sums.old live.old }
    ensures onward { Onward tables.now prepared.now text.now chart.old 0 chart.new (length text.now + 1) }
    ensures small_cells { SmallCells (length text.now) (rows_of tables.now) (length text.now + 1) chart.new }
{
    for j in 0..text.len() + 1 {
        fill_column(chart, text, tables, prepared, sums, live, j);
    }
}

fn zero_sums() -> [u8; SUMS]
    ensures { AllZero (row_limit * places) result }
{
    [0; SUMS]
}

// Fills the chart of a text by the flat tables and what is prepared for them. Bytes beyond the chart stay.
pub fn fill(chart: &mut [u8], text: &[u8], tables: &[u64], prepared: &[u8])
    requires chart_fits { ChartFits tables.now (length text.now) chart.old }
    requires prepared { Prepared tables.now prepared.now }
    ensures counted_by { CountedBy (theory_of tables.now) text.now everything chart.new }
    ensures by_index { (k : ℕ) → chart_need tables.now (length text.now) ≤ k → get_or chart.new k 0 ≡ get_or chart.old k 0 }
{
    let mut sums = zero_sums();
    let mut live = [0; PLACES];
    fill_columns(chart, text, tables, prepared, &mut sums, &mut live);
    turn_rows(chart, text.len(), row_count(tables));
}
