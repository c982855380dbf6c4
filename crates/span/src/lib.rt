// One span of the chart: the cells of all rows for it, raised until none is below what its equation says.
//
// `cells` has the cell of each row; there are `rows` of them. `args` has for each row how many trees may stand there as the next argument, over the whole span;
// `users` says which rows take production q as their next argument, `uses` which productions have such a row.
// `inner` counts, for each row, the splits within the span; `front` the cells of the empty span at its start; `back` the arguments of the empty span at its end.
#![tactic(auto)]

ghost use Rattle.std.specs.Prelude.{◌≡◌, ℕ, ◌+◌, ◌*◌, ◌<◌, ◌≤◌, max, length, get_or};
ghost use Rattle.theory.specs.Steps.{cap};
ghost use Rattle.layout.specs.Limits.{production_limit};
ghost use Rattle.chart.specs.Layout.{row_limit, row_of};
ghost use Rattle.tables.specs.Layout.{arity_in, row_count};
ghost use Rattle.span.specs.Tables.{span_of, advanced, Exact, Founded, Links, Loads, Visited, Settled};
ghost use Rattle.common.specs.Bytes.{byte_values};

use chart::cells::ROW_LIMIT;
use chart::sums::{capped, larger};
use common::wide;
use layout::limits::PRODUCTION_LIMIT;

// The tables of a grammar: how many arguments each production has, how many rows there are, which rows take a production as their next argument, and
// which productions have such a row.
#[derive(Clone, Copy)]
pub struct LinkTables<'a> {
    pub counts: &'a [u8],
    pub rows: usize,
    pub users: &'a [u8],
    pub uses: &'a [u8],
    pub ghost linked: { Links counts.now users.now uses.now },
    pub ghost all_rows: { rows ≡ row_count (arity_in counts.now) (length counts.now) },
}

// What the equation of a cell gives: the inner splits, the split at the start, and the split at the end.
fn step(inner: u8, front: u8, argument: u8, prefix: u8, back: u8) -> u8
    ensures { result ≡ cap (inner + front * argument + prefix * back) }
{
    capped(wide(inner) + wide(front) * wide(argument) + wide(prefix) * wide(back))
}

// Raises the cells of one production, argument by argument.
fn advance(
    inner: &[u8],
    front: &[u8],
    back: &[u8],
    args: &[u8],
    cells: &mut [u8],
    base: usize,
    arity: usize,
)
    requires loads { Loads inner.now front.now back.now args.now cells.old }
    requires arity_bound { base + arity < row_limit }
    ensures { cells.new ≡ advanced inner.now front.now back.now args.now base arity cells.old }
{
    for d in 0..arity {
        cells[base + d + 1] = larger(
            cells[base + d + 1],
            step(
                inner[base + d],
                front[base + d],
                args[base + d],
                cells[base + d],
                back[base + d],
            ),
        );
    }
}

// A production's count rose: so do the arguments of the rows that take it, which are all among the first `rows`.
pub fn spread(args: &mut [u8], users: &[u8], rows: usize, by: u8)
    requires args_len { (length args.old ≡ row_limit) × (length users.now ≡ row_limit) }
    requires rows_le_row_limit { (rows ≤ row_limit) × ((r : ℕ) → rows ≤ r → r < row_limit → get_or users.now r 0 ≡ 0) }
    requires by_index { (r : ℕ) → r < row_limit → get_or args.old r 0 + by * get_or users.now r 0 < byte_values }
    ensures { (r : ℕ) → r < row_limit → get_or args.new r 0 ≡ get_or args.old r 0 + by * get_or users.now r 0 }
{
    for r in 0..rows {
        args[r] += by * users[r];
    }
}

// The productions that use it are to be looked at again.
fn mark(pending: &mut [u8], uses: &[u8])
    requires { (length pending.old ≡ production_limit) × (length uses.now ≡ production_limit) }
    ensures { (p : ℕ) → p < production_limit → get_or pending.new p 0 ≡ max (get_or pending.old p 0) (get_or uses.now p 0) }
{
    for p in 0..PRODUCTION_LIMIT {
        pending[p] = larger(pending[p], uses[p]);
    }
}

// Looks at production q, whose rows begin at `base`: true if its count rose.
// `inner`, `front` and `back` are three slices: as one struct they take a quarter more time.
fn visit(
    links: &LinkTables,
    inner: &[u8],
    front: &[u8],
    back: &[u8],
    pending: &mut [u8],
    args: &mut [u8],
    cells: &mut [u8],
    q: usize,
    base: usize,
) -> bool
    requires loads { Loads inner.now front.now back.now args.old cells.old }
    requires founded { Founded links.now.counts.now links.now.users.now inner.now front.now back.now args.old cells.old }
    requires pending_len { length pending.old ≡ production_limit }
    requires q_in_bounds { (q < length links.now.counts.now) × (base ≡ row_of (arity_in links.now.counts.now) q 0) }
    ensures { (bare : ℕ → ℕ) → Exact (span_of links.now.counts.now links.now.users.now inner.now front.now back.now bare) cells.old args.old → Visited (span_of links.now.counts.now links.now.users.now inner.now front.now back.now bare) q (q + 1) pending.old args.old cells.old pending.new args.new cells.new result }
{
    pending[q] = 0;
    let whole = base + wide(links.counts[q]);
    let before = cells[whole];
    advance(inner, front, back, args, cells, base, wide(links.counts[q]));
    if cells[whole] == before {
        return false;
    }
    spread(
        args,
        &links.users[q * ROW_LIMIT..(q + 1) * ROW_LIMIT],
        links.rows,
        cells[whole] - before,
    );
    mark(
        pending,
        &links.uses[q * PRODUCTION_LIMIT..(q + 1) * PRODUCTION_LIMIT],
    );
    true
}

// Looks at every pending production once: true if a count rose.
// Whether one is pending is asked here, once its rows are counted: in other forms this loop is slower at some addresses (docs/BENCHMARKS.md).
fn round(
    links: &LinkTables,
    inner: &[u8],
    front: &[u8],
    back: &[u8],
    pending: &mut [u8],
    args: &mut [u8],
    cells: &mut [u8],
) -> bool
    requires loads { Loads inner.now front.now back.now args.old cells.old }
    requires founded { Founded links.now.counts.now links.now.users.now inner.now front.now back.now args.old cells.old }
    requires pending_len { length pending.old ≡ production_limit }
    ensures { (bare : ℕ → ℕ) → Exact (span_of links.now.counts.now links.now.users.now inner.now front.now back.now bare) cells.old args.old → Visited (span_of links.now.counts.now links.now.users.now inner.now front.now back.now bare) 0 (length links.now.counts.now) pending.old args.old cells.old pending.new args.new cells.new result }
{
    let mut rose = false;
    let mut base = 0;
    for (q, count) in links.counts.iter().enumerate() {
        let first = base;
        base += wide(*count) + 1;
        if pending[q] != 0 {
            rose |= visit(links, inner, front, back, pending, args, cells, q, first);
        }
    }
    rose
}

// Raises the cells until each production is closed.
pub fn settle(
    links: &LinkTables,
    inner: &[u8],
    front: &[u8],
    back: &[u8],
    args: &mut [u8],
    cells: &mut [u8],
)
    requires loads { Loads inner.now front.now back.now args.old cells.old }
    requires founded { Founded links.now.counts.now links.now.users.now inner.now front.now back.now args.old cells.old }
    ensures { (bare : ℕ → ℕ) → Exact (span_of links.now.counts.now links.now.users.now inner.now front.now back.now bare) cells.old args.old → Settled (span_of links.now.counts.now links.now.users.now inner.now front.now back.now bare) cells.old args.new cells.new }
{
    let mut pending = [1; PRODUCTION_LIMIT];
    let mut rose = true;
    while rose {
        rose = round(links, inner, front, back, &mut pending, args, cells);
    }
}
