// The character classes of a grammar, as sets.
#![tactic(auto)]

pub mod canonical;

ghost use Rattle.std.specs.Prelude.{◌≡◌, ◌<◌};
ghost use Rattle.classes.specs.Classes.{SetOf};
ghost use Rattle.layout.specs.Framed.{Framed};
ghost use Rattle.layout.specs.Layout.{classes, class_at};

use charset::CharSet;
use layout::{class_at, range_count};

// The characters of class k.
pub fn class_set(book: &[u8], k: usize) -> CharSet
    requires framed { Framed book.now }
    requires k_bound { k < classes book.now }
    ensures { SetOf book.now k result.words }
{
    ranges_set(book, k, class_at(book, k))
}

// The characters of class k, whose ranges stand at `at`.
pub fn ranges_set(book: &[u8], k: usize, at: usize) -> CharSet
    requires framed { Framed book.now }
    requires k_bound { k < classes book.now }
    requires at_value { at ≡ class_at book.now k }
    ensures { SetOf book.now k result.words }
{
    let mut set = CharSet::empty();
    for r in 0..range_count(book, k) {
        set = set.insert_range(book[at + 2 * r], book[at + 2 * r + 1]);
    }
    set
}
