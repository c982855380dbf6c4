// Why production q may not stand as argument i of production p.
ghost use Rattle.meadowsink.specs.Reason.{ReasonCall};
ghost use Rattle.reply.specs.Reply.{number_of, place_of};

use reason::reason;
use reply::why::reason_reply;
use reply::{number, place};

// Whether there is a conflict, and what is behind it.
#[unsafe(no_mangle)]
pub extern "C" fn meadowsink_reason(
    book: &[u8],
    p: usize,
    i: usize,
    q: usize,
    chain: &mut [u8],
) -> u64
    ensures { ReasonCall number_of book.now p i q chain.old result chain.new }
{
    number(reason_reply(reason(book, p, i, q, chain)))
}

// Where the question is refused. It writes as the call before does.
#[unsafe(no_mangle)]
pub extern "C" fn meadowsink_reason_place(
    book: &[u8],
    p: usize,
    i: usize,
    q: usize,
    chain: &mut [u8],
) -> u64
    ensures { ReasonCall place_of book.now p i q chain.old result chain.new }
{
    place(reason_reply(reason(book, p, i, q, chain)))
}
