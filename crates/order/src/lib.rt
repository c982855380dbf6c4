// Which of two parses is lower, by how often they use each production (02, [9]): the one that does with fewer uses of the highest productions.
#![tactic(auto)]

ghost use Rattle.std.specs.Prelude.{◌≡◌, true, false, ◌↔◌, ℕ, ◌≤◌, get_or};
ghost use Rattle.grammar.specs.Formed.{WellFormed};
ghost use Rattle.layout.specs.Limits.{production_limit};
ghost use Rattle.order.specs.Order.{OrderIs, counted};
ghost use Rattle.order.specs.Rows.{Marks, OneAbove, Outweighed, Weighs};

use layout::limits::PRODUCTION_LIMIT;
use layout::production_count;
use priority::{leads_on, merged, priorities};

// How the first of two parses stands to the second.
#[derive(Clone, Copy)]
pub enum Order {
    // It is lower.
    Below,
    // Both use each production equally often. They may be different parses.
    Equal,
    // The second is lower.
    Above,
    // None of these.
    Neither,
}

// The order of two parses of an accepted grammar, each given by how often it uses each production.
pub fn compare_uses(
    book: &[u8],
    first: [usize; PRODUCTION_LIMIT],
    second: [usize; PRODUCTION_LIMIT],
) -> Order
    requires { WellFormed book.now }
    ensures { OrderIs book.now (counted first) (counted second) result }
{
    let count = production_count(book);
    let more = used_more(first, second, count);
    let less = used_more(second, first, count);
    if !(leads_on(more) | leads_on(less)) {
        return Order::Equal;
    }
    weigh(priorities(book), more, less)
}

// The order of two parses that differ, by the productions that the first uses more often, and less often.
fn weigh(
    higher: [[bool; PRODUCTION_LIMIT]; PRODUCTION_LIMIT],
    more: [bool; PRODUCTION_LIMIT],
    less: [bool; PRODUCTION_LIMIT],
) -> Order
    ensures { Weighs higher more less result }
{
    if is_outweighed(higher, more, less) {
        return Order::Below;
    }
    if is_outweighed(higher, less, more) {
        return Order::Above;
    }
    Order::Neither
}

// The productions, of `count` that there are, that are used more often by these counts than by the others.
fn used_more(
    counts: [usize; PRODUCTION_LIMIT],
    others: [usize; PRODUCTION_LIMIT],
    count: usize,
) -> [bool; PRODUCTION_LIMIT]
    requires { count ≤ production_limit }
    ensures { Marks count (counted counts) (counted others) result }
{
    let mut more = [false; PRODUCTION_LIMIT];
    for p in 0..count {
        more[p] = others[p] < counts[p];
    }
    more
}

// Whether each production that is used more often has a higher one that is used less often.
fn is_outweighed(
    higher: [[bool; PRODUCTION_LIMIT]; PRODUCTION_LIMIT],
    more: [bool; PRODUCTION_LIMIT],
    less: [bool; PRODUCTION_LIMIT],
) -> bool
    ensures { (result ≡ true) ↔ Outweighed higher more less }
{
    is_within(more, lower_than(higher, less))
}

// The productions that one of these is higher than.
fn lower_than(
    higher: [[bool; PRODUCTION_LIMIT]; PRODUCTION_LIMIT],
    these: [bool; PRODUCTION_LIMIT],
) -> [bool; PRODUCTION_LIMIT]
    ensures { (p : ℕ) → (get_or result p false ≡ true) ↔ OneAbove higher these p }
{
    let mut lower = [false; PRODUCTION_LIMIT];
    for q in 0..PRODUCTION_LIMIT {
        if these[q] {
            let wider = merged(lower, higher[q]);
            lower = wider;
        }
    }
    lower
}

// Whether each of these productions is one of those.
fn is_within(these: [bool; PRODUCTION_LIMIT], those: [bool; PRODUCTION_LIMIT]) -> bool
    ensures { (result ≡ true) ↔ ((p : ℕ) → get_or these p false ≡ true → get_or those p false ≡ true) }
{
    for p in 0..PRODUCTION_LIMIT {
        if these[p] && !those[p] {
            return false;
        }
    }
    true
}
