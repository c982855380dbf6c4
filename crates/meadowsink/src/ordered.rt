// Which of two parses of a text is lower.
ghost use Rattle.meadowsink.specs.Compare.{CompareCall};
ghost use Rattle.reply.specs.Reply.{number_of, place_of};

use compare::compare;
use reply::ordered::compare_reply;
use reply::{number, place};

// How the first parse stands to the second.
#[unsafe(no_mangle)]
pub extern "C" fn meadowsink_compare(book: &[u8], text: &[u8], first: &[u8], second: &[u8]) -> u64
    ensures { CompareCall number_of book.now text.now first.now second.now result }
{
    number(compare_reply(compare(book, text, first, second)))
}

// Where the comparison is refused.
#[unsafe(no_mangle)]
pub extern "C" fn meadowsink_compare_place(
    book: &[u8],
    text: &[u8],
    first: &[u8],
    second: &[u8],
) -> u64
    ensures { CompareCall place_of book.now text.now first.now second.now result }
{
    place(compare_reply(compare(book, text, first, second)))
}
