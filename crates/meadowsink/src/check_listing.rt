// Checking a listing.
ghost use Rattle.std.specs.Prelude.{◌≡◌};
ghost use Rattle.listing.specs.Answer.{listing_answer};
ghost use Rattle.reply.specs.Answers.{listing_reply};
ghost use Rattle.reply.specs.Reply.{refused, number_of, place_of};

use listing::check_listing;
use reply::check_listing::listing_reply;
use reply::{number, place};

// Whether numbers are the listing of a parse of the text.
#[unsafe(no_mangle)]
pub extern "C" fn meadowsink_check_listing(book: &[u8], text: &[u8], listing: &[u8]) -> u64
    ensures { result ≡ number_of (listing_reply refused (listing_answer book.now text.now listing.now)) }
{
    number(listing_reply(check_listing(book, text, listing)))
}

// Where the check is refused.
#[unsafe(no_mangle)]
pub extern "C" fn meadowsink_check_listing_place(book: &[u8], text: &[u8], listing: &[u8]) -> u64
    ensures { result ≡ place_of (listing_reply refused (listing_answer book.now text.now listing.now)) }
{
    place(listing_reply(check_listing(book, text, listing)))
}
