// Writing into a lent buffer. What does not fit the buffer is dropped and still counted, so a first pass over an empty buffer gives the length.
#![tactic(auto)]

ghost use Rattle.std.specs.Prelude.{◌≡◌, [], ◌∷◌, ◌+◌, ◌<◌, ◌≤◌, length};
ghost use Rattle.writing.specs.Put.{Put, farthest};
ghost use Rattle.writing.specs.Numeral.{digit_zero, numeral_base, numeral, set_right};

const NUMERAL_BASE: usize = 10;

// One byte.
pub fn put(out: &mut [u8], at: usize, byte: u8) -> usize
    requires { at < farthest }
    ensures { Put (byte ∷ []) out.old at out.new result }
{
    if at < out.len() {
        out[at] = byte;
    }
    at + 1
}

// A numeral in base ten, no leading zeros.
pub fn put_numeral(out: &mut [u8], at: usize, n: usize) -> usize
    requires { at + length (numeral n) ≤ farthest }
    ensures { Put (numeral n) out.old at out.new result }
{
    if n < NUMERAL_BASE {
        return put(out, at, digit(n));
    }
    let next = put_numeral(out, at, n / NUMERAL_BASE);
    put(out, next, digit(n % NUMERAL_BASE))
}

pub fn digit(n: usize) -> u8
    requires { n < numeral_base }
    ensures { result ≡ digit_zero + n }
{
    b'0' + n as u8
}

// A numeral set right in so many columns: spaces, then the numeral. One that is longer has the columns that it needs.
pub fn put_right(out: &mut [u8], at: usize, width: usize, n: usize) -> usize
    requires { at + length (set_right width n) ≤ farthest }
    ensures { Put (set_right width n) out.old at out.new result }
{
    let mut place = at;
    for _ in 0..width.saturating_sub(numeral_length(n)) {
        place = put(out, place, b' ');
    }
    put_numeral(out, place, n)
}

// How many digits a numeral has.
fn numeral_length(n: usize) -> usize
    ensures { result ≡ length (numeral n) }
{
    if n < NUMERAL_BASE {
        return 1;
    }
    numeral_length(n / NUMERAL_BASE) + 1
}
