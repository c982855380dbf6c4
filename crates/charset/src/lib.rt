// Sets of numbers, a bit to each, in 64-bit words; the sets of bytes, in four of them, with their ranges as written; and the normal ranges of any set.
// (01, "The book": a class of characters is a set of bytes held as one record.)
#![tactic(auto)]

ghost use Rattle.std.specs.Prelude.{◌≡◌, Bool, false, not, ◌&&◌, ◌*◌, ◌||◌, ℕ, ◌+◌, ◌-◌, ◌/◌, ◌%◌, ◌<◌, ◌≤◌, length, get_or};
ghost use Rattle.charset.specs.Set.{characters, word_bits, set_words, bit, has, in_range, spans, same_set};
ghost use Rattle.charset.specs.Runs.{runs, first_run};
ghost use Rattle.charset.specs.Sought.{Sought, Computed};

// How many characters there are.
pub const CHARACTERS: usize = 256;

// How many words hold a set of characters.
pub const SET_WORDS: usize = 4;

// A set of numbers, a bit for each of the 64 of a word.
#[derive(Clone, Copy)]
pub struct Bits<const W: usize> {
    pub words: [u64; W],
}

// A set of characters.
pub type CharSet = Bits<SET_WORDS>;

impl<const W: usize> Bits<W> {
    // The set with no number in it.
    pub fn empty() -> Self
        ensures { (c : ℕ) → c < W * word_bits → has result.words c ≡ false }
    {
        Bits { words: [0; W] }
    }

    // The set whose words stand at `at`.
    pub fn read(words: &[u64], at: usize) -> Self
        requires { at + W ≤ length words.now }
        ensures { (c : ℕ) → c < W * word_bits → has result.words c ≡ bit (get_or words.now (at + c / word_bits) 0) (c % word_bits) }
    {
        let mut own = [0; W];
        own.copy_from_slice(&words[at..at + W]);
        Bits { words: own }
    }

    // The set of the numbers whose entry of the row is set.
    pub fn of<const N: usize>(row: [bool; N]) -> Self
        requires { N ≡ W * word_bits }
        ensures { (c : ℕ) → c < W * word_bits → has result.words c ≡ get_or row.entry c false }
    {
        let mut words = [0; W];
        for k in 0..W {
            words[k] = word_of(&row, 64 * k);
        }
        Bits { words }
    }

    // Whether the number is in the set.
    pub fn contains(&self, c: usize) -> bool
        ensures { result ≡ has self.now.words c }
    {
        if W <= c / 64 {
            return false;
        }
        (self.words[c / 64] >> (c % 64)) % 2 == 1
    }

    // The set without the others, if these are barred.
    pub fn without(self, barred: bool, others: Self) -> Self
        ensures { (c : ℕ) → c < W * word_bits → has result.words c ≡ (has self.entry.words c && not (barred && has others.entry.words c)) }
    {
        if !barred {
            return self;
        }
        self.minus(others)
    }

    fn minus(self, others: Self) -> Self
        ensures { (c : ℕ) → c < W * word_bits → has result.words c ≡ (has self.entry.words c && not (has others.entry.words c)) }
    {
        let mut words = self.words;
        for k in 0..W {
            words[k] ^= words[k] & others.words[k];
        }
        Bits { words }
    }
}

impl CharSet {
    // The set with the bytes of a written range more: those from low to high or, if low is above high, from high to low.
    pub fn insert_range(self, low: u8, high: u8) -> Self
        ensures { (b : ℕ) → b < characters → has result.words b ≡ (has self.words b || spans low high b) }
    {
        if high < low {
            return self.insert_rising(high, low);
        }
        self.insert_rising(low, high)
    }

    // The set with the bytes from low to high more.
    fn insert_rising(self, low: u8, high: u8) -> Self
        requires { low ≤ high }
        ensures { (b : ℕ) → b < characters → has result.words b ≡ (has self.words b || in_range low high b) }
    {
        let w = self.words;
        Bits {
            words: [
                w[0] | range_mask(low, high, 0),
                w[1] | range_mask(low, high, 64),
                w[2] | range_mask(low, high, 128),
                w[3] | range_mask(low, high, 192),
            ],
        }
    }

    // Whether the two sets have the same bytes.
    pub fn same(self, other: CharSet) -> bool
        ensures { result ≡ same_set (has self.words) (has other.words) }
    {
        same_words(&self.words, &other.words)
    }
}

// A bit for each of the 64 entries of the row from `at` on.
fn word_of(row: &[bool], at: usize) -> u64
    requires { at + word_bits ≤ length row.now }
    ensures { (b : ℕ) → b < word_bits → bit result b ≡ get_or row.now (at + b) false }
{
    let mut word = 0u64;
    for b in 0..64 {
        word |= (row[at + b] as u64) << b;
    }
    word
}

// Whether the two sets in words are the same: whether the words are. Slices, since words are known to be below 2^64 there and not in arrays.
fn same_words(v: &[u64], w: &[u64]) -> bool
    requires { (set_words ≤ length v.now) × (set_words ≤ length w.now) }
    ensures { result ≡ same_set (has v.now) (has w.now) }
{
    v[..SET_WORDS] == w[..SET_WORDS]
}

// The first of the normal ranges of the members from `from` on, below the limit.
pub fn next_run<F: Fn(usize) -> bool>(
    from: usize,
    limit: usize,
    member: &F,
) -> Option<(usize, usize)>
    requires { (k : ℕ) → from ≤ k → k < limit → F.pre member.now k }
    ensures { (f : ℕ → Bool) → Computed F.post member.now from limit f → result ≡ first_run (runs f from (limit - from)) }
{
    let low = seek(from, limit, member, true);
    if limit <= low {
        return None;
    }
    Some((low, seek(low + 1, limit, member, false) - 1))
}

// The first place from `from` on whose membership is as wanted; the limit if there is none below it, or `from` if that is beyond it.
fn seek<F: Fn(usize) -> bool>(from: usize, limit: usize, member: &F, wanted: bool) -> usize
    requires { (k : ℕ) → from ≤ k → k < limit → F.pre member.now k }
    ensures after { from ≤ result }
    ensures sought { (f : ℕ → Bool) → Computed F.post member.now from limit f → Sought limit f wanted from result }
{
    for at in from..limit {
        if member(at) == wanted {
            return at;
        }
    }
    from.max(limit)
}

// The bits of the word of the 64 bytes from `base` on at which a byte of the range stands.
fn range_mask(low: u8, high: u8, base: u8) -> u64
    requires low_le_high { low ≤ high }
    requires word_bits_bound { base + word_bits ≤ characters }
    ensures { (b : ℕ) → b < word_bits → bit result b ≡ in_range low high (base + b) }
{
    if high < base {
        return 0;
    }
    if base + 63 < low {
        return 0;
    }
    let from = low.saturating_sub(base);
    let to = (high - base).min(63);
    (u64::MAX >> (63 - (to - from))) << from
}
