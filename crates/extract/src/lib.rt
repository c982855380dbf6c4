// Writes the listing of the only tree that a filled chart counts. The chart says where each argument ends and which production stands there;
// a stack of levels says what is written. No walk is longer than the buffer.
#![tactic(auto)]

ghost use Rattle.std.specs.Prelude.{◌≡◌, true, ◌&&◌, ◌↔◌, ◌+◌, ◌-◌, ◌*◌, ◌<◌, ◌≤◌, eqb, leb, length, get_or};
ghost use Rattle.theory.specs.Tree.{Tree};
ghost use Rattle.theory.specs.Grammar.{Stands};
ghost use Rattle.tables.specs.Layout.{slot, slots, counts_of, arity_in, table_words, takes_char, takes_production};
ghost use Rattle.tables.specs.Theory.{theory_of};
ghost use Rattle.numbers.specs.Written.{room};
ghost use Rattle.levels.specs.Levels.{level_bytes, production_of, written_of};
ghost use Rattle.extract.specs.Walk.{level_limit, Midway, Further, WrittenOut, OnlyWritten};
ghost use Rattle.extract.specs.Places.{Walkable, cell_of, FirstChild, Splits};

use chart::cells::{PLACES, entry_of};
use common::wide;
use layout::limits::{ARGUMENT_LIMIT, PRODUCTION_LIMIT};
use levels::{Due, ENDS, LEVEL, count_argument, due_at, narrow, open_level};
use numbers::put_number;
use tables::{FIRST_PRODUCTION, argument_count, production_count, takes_char, takes_production};

// What writing has come to.
#[derive(Clone, Copy)]
pub struct Progress {
    // How many levels are open.
    pub levels: usize,
    // The next place in the buffer, or one past its room.
    pub next: usize,
}

// Production q may stand as argument d of p, and has a tree from m to j.
fn child_fits(
    chart: &[u8],
    text: &[u8],
    tables: &[u64],
    p: usize,
    d: usize,
    q: usize,
    m: usize,
    j: usize,
) -> bool
    requires walkable { Walkable tables.now text.now chart.now }
    requires p_in_bounds { (p < length (counts_of tables.now)) × (d < arity_in (counts_of tables.now) p) × (q < length (counts_of tables.now)) × (m ≤ j) × (j ≤ length text.now) }
    ensures { result ≡ (takes_production tables.now (slot p d) q && leb 1 (cell_of tables.now text.now chart.now q (arity_in (counts_of tables.now) q) m j)) }
{
    takes_production(tables, p * ARGUMENT_LIMIT + d, q)
        && 0 < entry_of(
            chart,
            tables,
            text.len(),
            q,
            argument_count(tables, q),
            m,
            j,
        )
}

// The first production that does, or how many productions there are.
fn first_child(
    chart: &[u8],
    text: &[u8],
    tables: &[u64],
    p: usize,
    d: usize,
    m: usize,
    j: usize,
) -> usize
    requires walkable { Walkable tables.now text.now chart.now }
    requires p_in_bounds { (p < length (counts_of tables.now)) × (d < arity_in (counts_of tables.now) p) × (m ≤ j) × (j ≤ length text.now) }
    ensures { FirstChild tables.now text.now chart.now p d m j result }
{
    let count = production_count(tables);
    for q in 0..count {
        if child_fits(chart, text, tables, p, d, q, m, j) {
            return q;
        }
    }
    count
}

// The text from m to j is one character that may stand as argument d of p.
fn char_fits(text: &[u8], tables: &[u64], p: usize, d: usize, m: usize, j: usize) -> bool
    requires { (slot p d < slots) × (length tables.now ≡ table_words) × (m ≤ j) × (j ≤ length text.now) }
    ensures { result ≡ (eqb (m + 1) j && takes_char tables.now (slot p d) (get_or text.now m 0)) }
{
    m + 1 == j && takes_char(tables, p * ARGUMENT_LIMIT + d, text[m])
}

// A tree may stand as argument d of p from m to j, with a list of trees for the arguments before it from i to m.
fn split_fits(
    chart: &[u8],
    text: &[u8],
    tables: &[u64],
    p: usize,
    d: usize,
    i: usize,
    m: usize,
    j: usize,
) -> bool
    requires walkable { Walkable tables.now text.now chart.now }
    requires p_in_bounds { (p < length (counts_of tables.now)) × (d < arity_in (counts_of tables.now) p) × (i ≤ m) × (m ≤ j) × (j ≤ length text.now) }
    ensures { (result ≡ true) ↔ ((1 ≤ cell_of tables.now text.now chart.now p d i m) × ((t : Tree) × Stands (theory_of tables.now) text.now p d t m j)) }
{
    entry_of(chart, tables, text.len(), p, d, i, m) != 0
        && (char_fits(text, tables, p, d, m, j)
            || first_child(chart, text, tables, p, d, m, j) < production_count(tables))
}

// Where argument d of p begins, if the list of its first d + 1 arguments goes from i to j.
fn find_split(
    chart: &[u8],
    text: &[u8],
    tables: &[u64],
    p: usize,
    d: usize,
    i: usize,
    j: usize,
) -> usize
    requires walkable { Walkable tables.now text.now chart.now }
    requires p_in_bounds { (p < length (counts_of tables.now)) × (d < arity_in (counts_of tables.now) p) × (i ≤ j) × (j ≤ length text.now) }
    requires bound { 1 ≤ cell_of tables.now text.now chart.now p (d + 1) i j }
    ensures { (i ≤ result) × (result ≤ j) × (1 ≤ cell_of tables.now text.now chart.now p d i result) × ((t : Tree) × Stands (theory_of tables.now) text.now p d t result j) }
{
    let mut m = j;
    while !split_fits(chart, text, tables, p, d, i, m, j) {
        m -= 1;
    }
    m
}

// Where each argument of p begins, and where the last one ends.
fn find_splits(
    chart: &[u8],
    text: &[u8],
    tables: &[u64],
    p: usize,
    i: usize,
    j: usize,
) -> [u8; ENDS]
    requires walkable { Walkable tables.now text.now chart.now }
    requires p_in_bounds { (p < length (counts_of tables.now)) × (i ≤ j) × (j ≤ length text.now) }
    requires bound { 1 ≤ cell_of tables.now text.now chart.now p (arity_in (counts_of tables.now) p) i j }
    ensures { Splits (theory_of tables.now) text.now p 0 i j result }
{
    let mut ends = [0; ENDS];
    let arity = argument_count(tables, p);
    ends[arity] = narrow(j);
    for d in (0..arity).rev() {
        ends[d] = narrow(find_split(chart, text, tables, p, d, i, wide(ends[d + 1])));
    }
    ends
}

// Writes the number of what stands as the next argument of the last level: a character, or a production, which opens a level if it has arguments.
fn write_next(
    chart: &[u8],
    text: &[u8],
    tables: &[u64],
    levels: &mut [u8],
    n: usize,
    out: &mut [u8],
    at: usize,
) -> Progress
    requires midway { Midway tables.now text.now chart.now levels.old n out.old at }
    requires le_n { (1 ≤ n) × (at ≤ room out.old) }
    requires n_bound { written_of levels.old (n - 1) < arity_in (counts_of tables.now) (production_of levels.old (n - 1)) }
    ensures { Further (theory_of tables.now) text.now levels.old n out.old at levels.new result.levels out.new result.next }
{
    let due = due_at(levels, n - 1);
    let Due {
        production: p,
        argument: d,
        from: m,
        to: j,
    } = due;
    count_argument(levels, n - 1);
    if char_fits(text, tables, p, d, m, j) {
        return Progress {
            levels: n,
            next: put_number(out, at, wide(text[m])),
        };
    }
    let q = first_child(chart, text, tables, p, d, m, j);
    let next = put_number(out, at, FIRST_PRODUCTION + q);
    if argument_count(tables, q) == 0 {
        return Progress {
            levels: n,
            next: next,
        };
    }
    let ends = find_splits(chart, text, tables, q, m, j);
    open_level(levels, n, q, ends);
    Progress {
        levels: n + 1,
        next: next,
    }
}

// A step: the last level is closed if all its arguments are written; otherwise its next argument is begun.
fn write_step(
    chart: &[u8],
    text: &[u8],
    tables: &[u64],
    levels: &mut [u8],
    n: usize,
    out: &mut [u8],
    at: usize,
) -> Progress
    requires midway { Midway tables.now text.now chart.now levels.old n out.old at }
    requires le_n { (1 ≤ n) × (at ≤ room out.old) }
    ensures { Further (theory_of tables.now) text.now levels.old n out.old at levels.new result.levels out.new result.next }
{
    let k = (n - 1) * LEVEL;
    if wide(levels[k + 1]) == argument_count(tables, wide(levels[k])) {
        return Progress {
            levels: n - 1,
            next: at,
        };
    }
    write_next(chart, text, tables, levels, n, out, at)
}

// Step by step to the end: all levels are closed, or a number finds no room.
fn write_levels(
    chart: &[u8],
    text: &[u8],
    tables: &[u64],
    levels: &mut [u8],
    out: &mut [u8],
    at: usize,
) -> usize
    requires { Midway tables.now text.now chart.now levels.old 1 out.old at }
    ensures { WrittenOut (theory_of tables.now) text.now levels.old 1 out.old at out.new result }
{
    let mut next = at;
    let mut n = 1;
    while 0 < n {
        if out.len() / 2 < next {
            return next;
        }
        let step = write_step(chart, text, tables, levels, n, out, next);
        n = step.levels;
        next = step.next;
    }
    next
}

// Writes the only tree of production q over the whole text, with levels that have room for as many as there are productions and places.
fn write_tree(
    chart: &[u8],
    text: &[u8],
    tables: &[u64],
    levels: &mut [u8],
    out: &mut [u8],
    q: usize,
) -> usize
    requires walkable { Walkable tables.now text.now chart.now }
    requires q_in_bounds { (q < length (counts_of tables.now)) × (cell_of tables.now text.now chart.now q (arity_in (counts_of tables.now) q) 0 (length text.now) ≡ 1) }
    requires level_bytes_in_bounds { length (counts_of tables.now) * (length text.now + 1) * level_bytes ≤ length levels.old }
    ensures { OnlyWritten (theory_of tables.now) text.now q out.old out.new result }
{
    let ends = find_splits(chart, text, tables, q, 0, text.len());
    open_level(levels, 0, q, ends);
    let next = put_number(out, 0, FIRST_PRODUCTION + q);
    write_levels(chart, text, tables, levels, out, next)
}

// Most levels: an only tree is no higher than there are productions and places.
const LEVELS: usize = PRODUCTION_LIMIT * PLACES;

// Levels that are enough for a short text; it is spared the clearing of many.
const FEW_LEVELS: usize = 2048;

// The bytes of as many, and of a few.
const MOST_BYTES: usize = LEVELS * LEVEL;

const FEW_BYTES: usize = FEW_LEVELS * LEVEL;

// The same with levels of its own, of N bytes in all.
fn write_with<const N: usize>(
    chart: &[u8],
    text: &[u8],
    tables: &[u64],
    out: &mut [u8],
    q: usize,
) -> usize
    requires walkable { Walkable tables.now text.now chart.now }
    requires q_in_bounds { (q < length (counts_of tables.now)) × (cell_of tables.now text.now chart.now q (arity_in (counts_of tables.now) q) 0 (length text.now) ≡ 1) }
    requires enough { (length (counts_of tables.now) * (length text.now + 1) * level_bytes ≤ N) × (N ≤ level_limit * level_bytes) }
    ensures { OnlyWritten (theory_of tables.now) text.now q out.old out.new result }
{
    let mut levels = [0; N];
    write_tree(chart, text, tables, &mut levels, out, q)
}

// Writes the only tree of production q over the whole text: as many of its numbers as there is room for. The next place comes back, or one past the room.
pub fn write_only(chart: &[u8], text: &[u8], tables: &[u64], out: &mut [u8], q: usize) -> usize
    requires walkable { Walkable tables.now text.now chart.now }
    requires q_in_bounds { (q < length (counts_of tables.now)) × (cell_of tables.now text.now chart.now q (arity_in (counts_of tables.now) q) 0 (length text.now) ≡ 1) }
    ensures { OnlyWritten (theory_of tables.now) text.now q out.old out.new result }
{
    if production_count(tables) * (text.len() + 1) <= FEW_LEVELS {
        return write_with::<FEW_BYTES>(chart, text, tables, out, q);
    }
    write_with::<MOST_BYTES>(chart, text, tables, out, q)
}
