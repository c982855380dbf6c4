// A parse as a page for the binder, a line for each number of its listing; and the part of the text under a number.
#![tactic(auto)]

ghost use Rattle.std.specs.Prelude.{◌≡◌, Ok};
ghost use Rattle.listing.specs.Answer.{listing_answer};
ghost use Rattle.listing.specs.declared.Judgement.TheVariants.{Right};
ghost use Rattle.rows.specs.Rows.{no_row};
ghost use Rattle.page.specs.Answer.{PageOutcome, RowUnder, TextUnder, PlacesUnder};

use lines::{LINE_LENGTH, put_rows};
use listing::{Judgement, check_listing};
use numbers::LISTING_LIMIT;
use refusal::{Fault, Refusal};
use rows::{PLACES, Row, place_tree, row_at};

// ---- the page

// The operation "the page of a reading". A page longer than the buffer is refused and changes nothing.
pub fn write_page(
    book: &[u8],
    text: &[u8],
    listing: &[u8],
    page: &mut [u8],
) -> Result<usize, Refusal>
    ensures { PageOutcome book.now text.now listing.now page.old result page.new }
{
    let judgement = check_listing(book, text, listing)?;
    match judgement {
        Judgement::Wrong(index) => Err(Fault::WrongListing.at(index)),
        Judgement::Right => write_right(book, text, listing, page),
    }
}

// The same for a listing that is right.
fn write_right(book: &[u8], text: &[u8], listing: &[u8], page: &mut [u8]) -> Result<usize, Refusal>
    requires { listing_answer book.now text.now listing.now ≡ Ok Right }
    ensures { PageOutcome book.now text.now listing.now page.old result page.new }
{
    let needed = LINE_LENGTH * (listing.len() / 2);
    if page.len() < needed {
        return Err(Fault::LongPage.at(needed));
    }
    let mut table = [0u64; LISTING_LIMIT];
    place_tree(book, listing, &mut table, 0, 0, 0);
    put_rows(page, text, listing, &table);
    Ok(needed)
}

// ---- the text under a number

// The operation "the text under a number": that part of the lent text, handed back and not copied.
pub fn text_under<'a>(book: &[u8], text: &'a [u8], listing: &[u8], index: usize) -> &'a [u8]
    ensures { TextUnder book.now text.now listing.now index result.now }
{
    let row = row_under(book, text, listing, index);
    let start = row.start;
    let end = row.end;
    &text[start..end]
}

// The row of a number, which says which part that is. Without such a number it is the empty part at the start.
pub fn row_under(book: &[u8], text: &[u8], listing: &[u8], index: usize) -> Row
    ensures { RowUnder book.now text.now listing.now index result }
{
    match check_listing(book, text, listing) {
        Err(_) => no_row(),
        Ok(judgement) => match judgement {
            Judgement::Wrong(_) => no_row(),
            Judgement::Right => row_of_right(book, text, listing, index),
        },
    }
}

// The start and the end of that part in one number, for programs that take no slice.
pub fn places_under(book: &[u8], text: &[u8], listing: &[u8], index: usize) -> u64
    ensures { PlacesUnder book.now text.now listing.now index result }
{
    let row = row_under(book, text, listing, index);
    (PLACES * row.start + row.end) as u64
}

// The same for a listing that is right.
fn row_of_right(book: &[u8], text: &[u8], listing: &[u8], index: usize) -> Row
    requires { listing_answer book.now text.now listing.now ≡ Ok Right }
    ensures { RowUnder book.now text.now listing.now index result }
{
    if listing.len() / 2 <= index {
        return no_row();
    }
    let mut table = [0u64; LISTING_LIMIT];
    place_tree(book, listing, &mut table, 0, 0, 0);
    row_at(listing, &table, index)
}

// That of a number that is not there.
fn no_row() -> Row
    ensures { result ≡ no_row }
{
    Row {
        depth: 0,
        number: 0,
        start: 0,
        end: 0,
    }
}
