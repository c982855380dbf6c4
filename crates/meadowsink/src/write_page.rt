// The page of a parse.
ghost use Rattle.meadowsink.specs.Page.{PageCall};
ghost use Rattle.reply.specs.Reply.{number_of, place_of};

use page::write_page;
use reply::count::count_reply;
use reply::{number, place};

// The page of the parse whose listing is lent, written to the start of the buffer.
#[unsafe(no_mangle)]
pub extern "C" fn meadowsink_page(book: &[u8], text: &[u8], listing: &[u8], page: &mut [u8]) -> u64
    ensures { PageCall number_of book.now text.now listing.now page.old result page.new }
{
    number(count_reply(write_page(book, text, listing, page)))
}

// Where the page is refused. It writes as the call before does.
#[unsafe(no_mangle)]
pub extern "C" fn meadowsink_page_place(
    book: &[u8],
    text: &[u8],
    listing: &[u8],
    page: &mut [u8],
) -> u64
    ensures { PageCall place_of book.now text.now listing.now page.old result page.new }
{
    place(count_reply(write_page(book, text, listing, page)))
}
