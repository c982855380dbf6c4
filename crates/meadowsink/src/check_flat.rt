// Checking a flat text.
ghost use Rattle.reply.specs.Reply.{number_of, place_of};
ghost use Rattle.meadowsink.specs.Flat.{CheckCall};

use load::check_flat;
use reply::count::count_reply;
use reply::{number, place};

// How many lines a flat text has.
#[unsafe(no_mangle)]
pub extern "C" fn meadowsink_check_flat(flat: &[u8]) -> u64
    ensures { CheckCall number_of flat.now result }
{
    number(count_reply(check_flat(flat)))
}

// Where it is refused.
#[unsafe(no_mangle)]
pub extern "C" fn meadowsink_check_flat_place(flat: &[u8]) -> u64
    ensures { CheckCall place_of flat.now result }
{
    place(count_reply(check_flat(flat)))
}
