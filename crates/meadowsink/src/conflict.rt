// The conflict question.
ghost use Rattle.std.specs.Prelude.{◌≡◌};
ghost use Rattle.question.specs.Answer.{conflict_answer};
ghost use Rattle.reply.specs.Answers.{conflict_reply};
ghost use Rattle.reply.specs.Reply.{refused, number_of, place_of};

use question::conflict;
use reply::conflict::conflict_reply;
use reply::{number, place};

// Whether production q as argument i of production p is a conflict.
#[unsafe(no_mangle)]
pub extern "C" fn meadowsink_conflict(book: &[u8], p: usize, i: usize, q: usize) -> u64
    ensures { result ≡ number_of (conflict_reply refused (conflict_answer book.now p i q)) }
{
    number(conflict_reply(conflict(book, p, i, q)))
}

// Where the question is refused.
#[unsafe(no_mangle)]
pub extern "C" fn meadowsink_conflict_place(book: &[u8], p: usize, i: usize, q: usize) -> u64
    ensures { result ≡ place_of (conflict_reply refused (conflict_answer book.now p i q)) }
{
    place(conflict_reply(conflict(book, p, i, q)))
}
