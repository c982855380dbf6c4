// Checking a grammar.
ghost use Rattle.std.specs.Prelude.{◌≡◌};
ghost use Rattle.priority.specs.Check.{checked};
ghost use Rattle.reply.specs.Answers.{check_reply};
ghost use Rattle.reply.specs.Reply.{refused, number_of, place_of};

use priority::check_grammar;
use reply::check::check_reply;
use reply::{number, place};

// Whether a grammar is accepted.
#[unsafe(no_mangle)]
pub extern "C" fn meadowsink_check(book: &[u8]) -> u64
    ensures { result ≡ number_of (check_reply refused (checked book.now)) }
{
    number(check_reply(check_grammar(book)))
}

// Where it is refused.
#[unsafe(no_mangle)]
pub extern "C" fn meadowsink_check_place(book: &[u8]) -> u64
    ensures { result ≡ place_of (check_reply refused (checked book.now)) }
{
    place(check_reply(check_grammar(book)))
}
