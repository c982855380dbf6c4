// The lines of a page: for each row its numbers in columns, and the first bytes of its text.
#![tactic(auto)]

ghost use Rattle.std.specs.Prelude.{◌≡◌, ℕ, ◌+◌, ◌≤◌, ◌<◌, length, get_or};
ghost use Rattle.common.specs.Lists.{tabulate};
ghost use Rattle.numbers.specs.Numbers.{listing_limit, numbers_of};
ghost use Rattle.rows.specs.Table.{unpacked, table_rows};
ghost use Rattle.writing.specs.Put.{Put, farthest};
ghost use Rattle.lines.specs.Text.{printed, shown, column, row_text, page_text, text_width, line_length, RowFits};

use rows::{Row, row_at};
use writing::{put, put_right};

// How wide depths and numbers are set.
const NUMBER_WIDTH: usize = 4;

// How wide places in the text are set.
const PLACE_WIDTH: usize = 3;

// How many bytes of a text are shown.
const TEXT_WIDTH: usize = 54;

// How long a line is, its line feed included.
pub const LINE_LENGTH: usize = 73;

// A line for each number, with the row that the table has for it; how long they are together comes back.
pub fn put_rows(out: &mut [u8], text: &[u8], listing: &[u8], table: &[u64]) -> usize
    requires listing_in_bounds { (length (numbers_of listing.now) ≤ length table.now) × (length table.now ≤ listing_limit) }
    requires by_index { (k : ℕ) → k < length (numbers_of listing.now) → RowFits text.now (unpacked (get_or (numbers_of listing.now) k 0) (get_or table.now k 0)) }
    ensures { Put (page_text text.now (table_rows (numbers_of listing.now) table.now)) out.old 0 out.new result }
{
    let mut place = 0;
    for k in 0..listing.len() / 2 {
        place = put_row(out, place, text, row_at(listing, table, k));
    }
    place
}

// The line of a row.
fn put_row(out: &mut [u8], at: usize, text: &[u8], row: Row) -> usize
    requires row_fits { RowFits text.now row }
    requires line_length_bound { at + line_length ≤ farthest }
    ensures { Put (row_text text.now row) out.old at out.new result }
{
    let depth = put_column(out, at, NUMBER_WIDTH, row.depth);
    let number = put_column(out, depth, NUMBER_WIDTH, row.number);
    let start = put_column(out, number, PLACE_WIDTH, row.start);
    let end = put_column(out, start, PLACE_WIDTH, row.end);
    let shown = put_text(out, end, text, row.start, row.end);
    put(out, shown, b'\n')
}

// A number set right, and a space.
fn put_column(out: &mut [u8], at: usize, width: usize, n: usize) -> usize
    requires { at + length (column width n) ≤ farthest }
    ensures { Put (column width n) out.old at out.new result }
{
    let next = put_right(out, at, width, n);
    put(out, next, b' ')
}

// The first bytes of the text from start to end, filled with spaces.
fn put_text(out: &mut [u8], at: usize, text: &[u8], start: usize, end: usize) -> usize
    requires { (end ≤ length text.now) × (start < farthest) × (at + text_width ≤ farthest) }
    ensures { Put (tabulate text_width (shown text.now start end)) out.old at out.new result }
{
    let mut place = at;
    for c in 0..TEXT_WIDTH {
        place = put(out, place, shown(text, start, end, c));
    }
    place
}

// Column c of the text from start to end.
fn shown(text: &[u8], start: usize, end: usize, c: usize) -> u8
    requires { (end ≤ length text.now) × (start < farthest) × (c < text_width) }
    ensures { result ≡ shown text.now start end c }
{
    if start + c < end {
        return printed(text[start + c]);
    }
    b' '
}

// A byte as it is printed.
fn printed(byte: u8) -> u8
    ensures { result ≡ printed byte }
{
    if byte < b' ' {
        return b'.';
    }
    if b'~' < byte {
        return b'.';
    }
    byte
}
