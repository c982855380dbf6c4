// What the crates above share: bytes as numbers, copying words, and definitions and laws of lists, sums and tests over the numbers below a bound.
#![tactic(auto)]

ghost use Rattle.std.specs.Prelude.{◌≡◌, ℕ, ◌+◌, ◌<◌, ◌≤◌, length, get_or};
ghost use Rattle.common.specs.Bytes.{number_at};
ghost use Rattle.common.specs.Region.{Region};

// How many values a byte has.
pub const BYTE_VALUES: usize = 256;

// A byte as a number.
pub fn wide(x: u8) -> usize
    ensures { result ≡ x }
{
    usize::from(x)
}

// The number of two bytes, the low one first.
pub fn two_bytes(bytes: &[u8], at: usize) -> usize
    requires { at + 1 < length bytes.now }
    ensures { result ≡ number_at bytes.now at }
{
    usize::from(bytes[at]) + BYTE_VALUES * usize::from(bytes[at + 1])
}

// Copies words to a place of a longer row of them.
pub fn put_words(out: &mut [u64], at: usize, words: &[u64])
    requires { at + length words.now ≤ length out.old }
    ensures { Region (λ (k : ℕ) (v : ℕ). v ≡ get_or words.now k 0) 0 at (length words.now) out.old out.new }
{
    out[at..at + words.len()].copy_from_slice(words);
}
