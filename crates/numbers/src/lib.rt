// A listing's numbers as bytes: two a number, the low one first.
#![tactic(auto)]

ghost use Rattle.std.specs.Prelude.{◌≡◌, [], ◌∷◌, ◌+◌, ◌*◌, ◌<◌, ◌≤◌, length, get_or};
ghost use Rattle.common.specs.Bytes.{byte_values};
ghost use Rattle.numbers.specs.Numbers.{numbers_of};
ghost use Rattle.numbers.specs.Written.{room, Written};

use common::{BYTE_VALUES, two_bytes};

// Most numbers of a listing that is lent.
pub const LISTING_LIMIT: usize = 4096;

// Number `at` of the listing: two bytes, the low one first.
pub fn number_at(listing: &[u8], at: usize) -> usize
    requires { at < length (numbers_of listing.now) }
    ensures { result ≡ get_or (numbers_of listing.now) at 0 }
{
    two_bytes(listing, 2 * at)
}

// Writes a number at place `at`, if there is room: the next place, or one past the room.
pub fn put_number(out: &mut [u8], at: usize, number: usize) -> usize
    requires { (number < byte_values * byte_values) × (at ≤ room out.old + 1) }
    ensures { Written (number ∷ []) out.old at out.new result }
{
    if out.len() / 2 <= at {
        return out.len() / 2 + 1;
    }
    out[2 * at] = (number % BYTE_VALUES) as u8;
    out[2 * at + 1] = (number / BYTE_VALUES) as u8;
    at + 1
}
