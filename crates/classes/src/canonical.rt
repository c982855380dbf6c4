// One byte for all the argument bytes that are the same argument (02, [5]): of the classes with the same characters, the lowest.
// So sets of characters are compared once for each two classes, and bytes after that.
ghost use Rattle.std.specs.Prelude.{◌≡◌, ℕ, ◌+◌, ◌*◌, ◌<◌, ◌≤◌, length, get_or};
ghost use Rattle.charset.specs.Set.{characters, set_words, has};
ghost use Rattle.classes.specs.Canonical.{set_has, SetsHeld, LowestSame, stands_for, Canonical};
ghost use Rattle.common.specs.Bytes.{byte_values};
ghost use Rattle.layout.specs.Framed.{Framed};
ghost use Rattle.layout.specs.Layout.{classes, class_at};
ghost use Rattle.layout.specs.Limits.{class_limit};

use crate::ranges_set;
use charset::{CharSet, SET_WORDS};
use common::{BYTE_VALUES, put_words};
use layout::limits::{CLASS_BASE, CLASS_LIMIT};
use layout::{class_at, class_count, range_count};

// A table that says of each byte how far below it the byte is that stands for it: 0 for one that stands for itself. So it starts as zeros.
pub fn canonical_arguments(book: &[u8]) -> [u8; BYTE_VALUES]
    requires { Framed book.now }
    ensures { Canonical book.now result }
{
    let mut table = [0u8; BYTE_VALUES];
    let mut sets = [0u64; CLASS_LIMIT * SET_WORDS];
    let mut at = class_at(book, 0);
    for k in 0..class_count(book) {
        hold_set(&mut sets, book, k, at);
        table[CLASS_BASE + k] = (k - lowest_same(&sets, k)) as u8;
        at += 2 * range_count(book, k);
    }
    table
}

// What stands for argument byte x.
pub fn stands_for(table: &[u8], x: u8) -> u8
    requires { (length table.now ≡ byte_values) × (get_or table.now x 0 ≤ x) }
    ensures { result ≡ stands_for table.now x }
{
    x - table[usize::from(x)]
}

// Writes the set of class k, whose ranges stand at `at`, behind those of the classes before it.
fn hold_set(sets: &mut [u64], book: &[u8], k: usize, at: usize)
    requires framed { Framed book.now }
    requires k_bound { k < classes book.now }
    requires at_value { at ≡ class_at book.now k }
    requires sets_held { SetsHeld book.now k sets.old }
    ensures { SetsHeld book.now (k + 1) sets.new }
{
    put_words(sets, SET_WORDS * k, &ranges_set(book, k, at).words);
}

// Set k.
fn held_set(sets: &[u64], k: usize) -> CharSet
    requires { (length sets.now ≡ class_limit * set_words) × (k < class_limit) }
    ensures { (c : ℕ) → c < characters → has result.words c ≡ set_has sets.now k c }
{
    CharSet::read(sets, SET_WORDS * k)
}

// The lowest set that is the same as set k.
fn lowest_same(sets: &[u64], k: usize) -> usize
    requires { (length sets.now ≡ class_limit * set_words) × (k < class_limit) }
    ensures { LowestSame sets.now k result }
{
    let own = held_set(sets, k);
    for j in 0..k {
        if own.same(held_set(sets, j)) {
            return j;
        }
    }
    k
}
