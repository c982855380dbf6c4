// The rows of a listing that is right: for each number how deep it stands, and where its text starts and ends.
#![tactic(auto)]

ghost use Rattle.std.specs.Prelude.{◌≡◌, ◌≤◌, ◌<◌, length, get_or, set};
ghost use Rattle.numbers.specs.Numbers.{listing_limit, numbers_of};
ghost use Rattle.theory.specs.Tree.{Tree};
ghost use Rattle.rows.specs.Table.{packed, unpacked};
ghost use Rattle.rows.specs.Walk.{ListedAt, WalkFrom, Placed};

use charset::CHARACTERS;
use common::BYTE_VALUES;
use layout::argument_count;
use numbers::number_at;
use tables::FIRST_PRODUCTION;

// Every place in a text is below this: it fits a byte.
pub const PLACES: usize = BYTE_VALUES;

// Where a number of a listing stands: how far below the root; the number; where its text starts, and the index after the text's last byte.
#[derive(Clone, Copy)]
pub struct Row {
    pub depth: usize,
    pub number: usize,
    pub start: usize,
    pub end: usize,
}

// Where numbers and text go on behind a tree.
#[derive(Clone, Copy)]
pub struct Next {
    pub number: usize,
    pub byte: usize,
}

// The walk over the tree that begins at number `at`, and whose text begins at `place`: its rows go to the table. The end of a production's text is known when the
// trees of its arguments are placed.
pub fn place_tree(
    book: &[u8],
    listing: &[u8],
    table: &mut [u64],
    depth: usize,
    at: usize,
    place: usize,
) -> Next
    requires { WalkFrom book.now (numbers_of listing.now) table.old depth at place }
    ensures { (t : Tree) → ListedAt book.now (numbers_of listing.now) at t → Placed t depth at place table.old table.new result }
{
    let n = number_at(listing, at);
    if n < CHARACTERS {
        put_row(table, at, depth, place, place + 1);
        return Next {
            number: at + 1,
            byte: place + 1,
        };
    }
    let mut next = Next {
        number: at + 1,
        byte: place,
    };
    for _ in 0..argument_count(book, n - FIRST_PRODUCTION) {
        next = place_tree(book, listing, table, depth + 1, next.number, next.byte);
    }
    put_row(table, at, depth, place, next.byte);
    next
}

// Puts a row into the table.
fn put_row(table: &mut [u64], at: usize, depth: usize, start: usize, end: usize)
    requires { (at < length table.old) × (depth ≤ listing_limit) × (start ≤ listing_limit) × (end ≤ listing_limit) }
    ensures { table.new ≡ set table.old at (packed depth start end) }
{
    table[at] = ((depth * PLACES + start) * PLACES + end) as u64;
}

// The row of number k that the table has.
pub fn row_at(listing: &[u8], table: &[u64], k: usize) -> Row
    requires { (k < length (numbers_of listing.now)) × (k < length table.now) }
    ensures { result ≡ unpacked (get_or (numbers_of listing.now) k 0) (get_or table.now k 0) }
{
    let word = table[k] as usize;
    Row {
        depth: word / PLACES / PLACES,
        number: number_at(listing, k),
        start: word / PLACES % PLACES,
        end: word % PLACES,
    }
}
