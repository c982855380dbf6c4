// The text under a number.
ghost use Rattle.page.specs.Answer.{PlacesUnder};

use page::places_under;

// Which part of the text is under a number: 256 times its start, plus its end.
#[unsafe(no_mangle)]
pub extern "C" fn meadowsink_text_under(
    book: &[u8],
    text: &[u8],
    listing: &[u8],
    index: usize,
) -> u64
    ensures { PlacesUnder book.now text.now listing.now index result }
{
    places_under(book, text, listing, index)
}
