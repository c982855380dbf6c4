// Priorities: "higher" closed under transitivity in a table of yes-or-no entries, and the whole check of a grammar.
#![tactic(auto)]

ghost use Rattle.std.specs.Prelude.{◌≡◌, true, false, ◌&&◌, ◌||◌, ◌↔◌, ℕ, ◌<◌, ◌≤◌, get_or};
ghost use Rattle.common.specs.Below.{any_below, between};
ghost use Rattle.grammar.specs.Formed.{WellFormed};
ghost use Rattle.refusal.specs.Verdict.{first_refusal};
ghost use Rattle.layout.specs.Layout.{declarations, declaration_at};
ghost use Rattle.layout.specs.Limits.{production_limit};
ghost use Rattle.priority.specs.Chain.{Chain, entry, Square};
ghost use Rattle.priority.specs.Priorities.{said_kind, declaration_of, DeclaredPairs, WithGroup, Higher};
ghost use Rattle.priority.specs.Check.{checked, on_diagonal};

use grammar::check::{check_bodies, check_frame, is_group};
use layout::limits::{DECLARATION_LENGTH, GROUP_STEP, PRODUCTION_LIMIT};
use layout::{byte_at, declaration_at, declaration_count, production_count};
use refusal::{Fault, Refusal};

// 01's numbers of the kinds of declaration.
pub const HIGHER: usize = 1;

pub const LEFT: usize = 2;

pub const RIGHT: usize = 3;
// "Not together".
pub const NONASSOC: usize = 4;

// A declaration (a line of 01's ranks): its kind's number, and the two productions in the order in which it names them.
#[derive(Clone, Copy)]
pub struct Declaration {
    pub kind: usize,
    pub first: usize,
    pub second: usize,
}

// The operation "checking a grammar" (01's checking a book): accepted, or refused with number 1 to 9 and place.
pub fn check_grammar(book: &[u8]) -> Result<(), Refusal>
    ensures { result ≡ checked book.now }
{
    check_frame(book)?;
    check_bodies(book)?;
    check_circles(priorities(book), production_count(book))
}

// "Higher" of a grammar that refusals 1 to 8 let through, closed: row x, column y says whether x is higher than y.
pub fn priorities(book: &[u8]) -> [[bool; PRODUCTION_LIMIT]; PRODUCTION_LIMIT]
    requires { WellFormed book.now }
    ensures { (x y : ℕ) → (entry result x y ≡ true) ↔ Higher book.now x y }
{
    closed(declared_pairs(book, HIGHER, HIGHER), production_count(book))
}

// 9: the lowest production higher than itself.
fn check_circles(
    table: [[bool; PRODUCTION_LIMIT]; PRODUCTION_LIMIT],
    count: usize,
) -> Result<(), Refusal>
    requires { count ≤ production_limit }
    ensures { result ≡ first_refusal count (on_diagonal table) }
{
    for p in 0..count {
        if table[p][p] {
            return Err(Fault::Circle.at(p));
        }
    }
    Ok(())
}

// The pairs that declarations of kind `kind` or `also` cover: "higher" as it is written, the other kinds both ways round, and of a group every two.
pub fn declared_pairs(
    book: &[u8],
    kind: usize,
    also: usize,
) -> [[bool; PRODUCTION_LIMIT]; PRODUCTION_LIMIT]
    requires { WellFormed book.now }
    ensures { DeclaredPairs book.now kind also result }
{
    let mut table = no_pairs();
    let start = declaration_at(book, 0);
    for d in 0..declaration_count(book) {
        let own = read_declaration(book, start, d);
        let first = own.first;
        let second = own.second;
        let said = said_kind(own.kind);
        let written = (said == kind) | (said == also);
        table[first][second] |= written;
        table[second][first] |= written & (said != HIGHER);
        if written & is_group(own.kind) {
            table = with_group(table, first, second);
        }
    }
    table
}

// Declaration d of those that begin at `start`.
pub fn read_declaration(book: &[u8], start: usize, d: usize) -> Declaration
    requires well_formed { WellFormed book.now }
    requires d_bound { (d < declarations book.now) × (start ≡ declaration_at book.now 0) }
    ensures value { result ≡ declaration_of book.now d }
    ensures first_lt_production_limit { (result.first < production_limit) × (result.second < production_limit) }
{
    let at = start + DECLARATION_LENGTH * d;
    Declaration {
        kind: byte_at(book, at),
        first: byte_at(book, at + 1),
        second: byte_at(book, at + 2),
    }
}

// The kind that is said: a kind of groups says what the one `GROUP_STEP` below it says of two productions.
pub fn said_kind(own: usize) -> usize
    ensures { result ≡ said_kind own }
{
    if is_group(own) {
        return own - GROUP_STEP;
    }
    own
}

fn no_pairs() -> [[bool; PRODUCTION_LIMIT]; PRODUCTION_LIMIT]
    ensures square { Square production_limit result }
    ensures by_index { (x y : ℕ) → entry result x y ≡ false }
{
    [[false; PRODUCTION_LIMIT]; PRODUCTION_LIMIT]
}

// The pairs of a group, from `first` to `second`, with those of the table: a row at a time.
fn with_group(
    table: [[bool; PRODUCTION_LIMIT]; PRODUCTION_LIMIT],
    first: usize,
    second: usize,
) -> [[bool; PRODUCTION_LIMIT]; PRODUCTION_LIMIT]
    requires { (second < production_limit) × Square production_limit table }
    ensures square { Square production_limit result }
    ensures with_group { WithGroup first second table result }
{
    let mut wider = table;
    let group = members(first, second);
    for x in first..second + 1 {
        wider[x] = merged(wider[x], group);
    }
    wider
}

// The row whose true entries are those from `first` to `second`.
fn members(first: usize, second: usize) -> [bool; PRODUCTION_LIMIT]
    requires { second < production_limit }
    ensures { (y : ℕ) → get_or result y false ≡ between first second y }
{
    let mut row = [false; PRODUCTION_LIMIT];
    for y in first..second + 1 {
        row[y] = true;
    }
    row
}

// The closure of a table whose true entries stand in its first `count` rows: an entry is true exactly if a chain of true entries leads there.
pub fn closed(
    table: [[bool; PRODUCTION_LIMIT]; PRODUCTION_LIMIT],
    count: usize,
) -> [[bool; PRODUCTION_LIMIT]; PRODUCTION_LIMIT]
    requires { (count ≤ production_limit) × ((x y : ℕ) → entry table x y ≡ true → x < count) }
    ensures { (x y : ℕ) → (entry result x y ≡ true) ↔ Chain (entry table) x y }
{
    let mut closure = table;
    for middle in 0..count {
        if leads_on(closure[middle]) {
            closure = with_middle(closure, middle);
        }
    }
    closure
}

// Whether a row has a true entry: if not, no chain goes on from there.
pub fn leads_on(row: [bool; PRODUCTION_LIMIT]) -> bool
    ensures value { result ≡ any_below production_limit (λ y. get_or row y false) }
    ensures false_value { result ≡ false → (y : ℕ) → get_or row y false ≡ false }
{
    let mut found = false;
    for y in 0..PRODUCTION_LIMIT {
        found |= row[y];
    }
    found
}

// Chains that may also pass through `middle`: a row that leads there gets the row beyond it too.
fn with_middle(
    table: [[bool; PRODUCTION_LIMIT]; PRODUCTION_LIMIT],
    middle: usize,
) -> [[bool; PRODUCTION_LIMIT]; PRODUCTION_LIMIT]
    requires { middle < production_limit }
    ensures { (x y : ℕ) → entry result x y ≡ (entry table x y || entry table x middle && entry table middle y) }
{
    let mut wider = table;
    let beyond = wider[middle];
    for x in 0..PRODUCTION_LIMIT {
        if wider[x][middle] {
            wider[x] = merged(wider[x], beyond);
        }
    }
    wider
}

// A row with another row.
pub fn merged(
    row: [bool; PRODUCTION_LIMIT],
    other: [bool; PRODUCTION_LIMIT],
) -> [bool; PRODUCTION_LIMIT]
    ensures { (y : ℕ) → get_or result y false ≡ (get_or row y false || get_or other y false) }
{
    let mut out = row;
    for y in 0..PRODUCTION_LIMIT {
        out[y] |= other[y];
    }
    out
}
