// Writing a character class grammar.
ghost use Rattle.std.specs.Prelude.{◌≡◌, length};
ghost use Rattle.flatten.specs.Flat.{flat_grammar};
ghost use Rattle.ccg.specs.Text.{grammar_text};
ghost use Rattle.flatten.specs.Answer.{flat_answer};
ghost use Rattle.writing.specs.Answer.{buffer_after};
ghost use Rattle.reply.specs.Answers.{count_reply};
ghost use Rattle.reply.specs.Reply.{refused, number_of, place_of};

use flatten::write_flat;
use reply::count::count_reply;
use reply::{number, place};

// The text of the grammar's character class grammar, written to the start of the buffer.
#[unsafe(no_mangle)]
pub extern "C" fn meadowsink_flat(book: &[u8], out: &mut [u8]) -> u64
    ensures value { result ≡ number_of (count_reply refused (flat_answer book.now (length out.old))) }
    ensures out_after { out.new ≡ buffer_after (flat_answer book.now (length out.old)) (grammar_text (flat_grammar book.now)) out.old }
{
    number(count_reply(write_flat(book, out)))
}

// Where writing is refused. It writes as the call before does.
#[unsafe(no_mangle)]
pub extern "C" fn meadowsink_flat_place(book: &[u8], out: &mut [u8]) -> u64
    ensures value { result ≡ place_of (count_reply refused (flat_answer book.now (length out.old))) }
    ensures out_after { out.new ≡ buffer_after (flat_answer book.now (length out.old)) (grammar_text (flat_grammar book.now)) out.old }
{
    place(count_reply(write_flat(book, out)))
}
