// Which of two parses of a text is lower (02, [9], "Which of two readings is lower"), as their listings give them.
#![tactic(auto)]

ghost use Rattle.std.specs.Prelude.{◌≡◌, [], ◌∷◌, ℕ, ◌<◌};
ghost use Rattle.compare.specs.Answer.{found_right, not_right, compare_lines, Compared};
ghost use Rattle.compare.specs.Uses.{uses};
ghost use Rattle.grammar.specs.Formed.{WellFormed};
ghost use Rattle.refusal.specs.Verdict.{in_order};
ghost use Rattle.layout.specs.Limits.{production_limit};
ghost use Rattle.listing.specs.Parts.{judged_by};
ghost use Rattle.order.specs.Order.{counted};
ghost use Rattle.tables.specs.Layout.{ParserTables};

use flatten::flatten;
use layout::limits::PRODUCTION_LIMIT;
use listing::{Judgement, check_bytes, check_input, judge};
use numbers::number_at;
use order::{Order, compare_uses};
use priority::check_grammar;
use refusal::{Fault, Refusal};
use tables::{FIRST_PRODUCTION, zero_tables};

// The operation "which of two readings is lower". All four areas are lent and stay.
pub fn compare(book: &[u8], text: &[u8], first: &[u8], second: &[u8]) -> Result<Order, Refusal>
    ensures { Compared book.now text.now first.now second.now result }
{
    check_pair(book, text, first, second)?;
    Ok(compare_uses(book, count_uses(first), count_uses(second)))
}

// The refusals in order: the grammar's, 10, 11 of each listing, 29 of each.
fn check_pair(book: &[u8], text: &[u8], first: &[u8], second: &[u8]) -> Result<(), Refusal>
    ensures { result ≡ in_order (compare_lines book.now text.now first.now second.now) }
{
    check_grammar(book)?;
    check_input(text, first)?;
    check_bytes(second)?;
    check_right(book, text, first, second)
}

// 29: both are listings of parses of the text. The first is looked at first.
fn check_right(book: &[u8], text: &[u8], first: &[u8], second: &[u8]) -> Result<(), Refusal>
    requires { WellFormed book.now }
    ensures { result ≡ in_order (not_right book.now text.now first.now 0 ∷ not_right book.now text.now second.now 1 ∷ []) }
{
    let mut tables = zero_tables();
    flatten(book, &mut tables);
    if !is_right(&tables, text, first) {
        return Err(Fault::WrongPair.at(0));
    }
    if !is_right(&tables, text, second) {
        return Err(Fault::WrongPair.at(1));
    }
    Ok(())
}

// Whether a listing is right, by the tables of the grammar.
fn is_right(tables: &[u64], text: &[u8], listing: &[u8]) -> bool
    requires { ParserTables tables.now }
    ensures { result ≡ found_right (judged_by tables.now text.now listing.now) }
{
    match judge(tables, text, listing) {
        Judgement::Right => true,
        Judgement::Wrong(_) => false,
    }
}

// How often a listing has the number of each production.
fn count_uses(listing: &[u8]) -> [usize; PRODUCTION_LIMIT]
    ensures { (p : ℕ) → p < production_limit → counted result p ≡ uses listing.now p }
{
    let mut counts = [0; PRODUCTION_LIMIT];
    for k in 0..listing.len() / 2 {
        let n = number_at(listing, k);
        let counted = (FIRST_PRODUCTION <= n) & (n < FIRST_PRODUCTION + PRODUCTION_LIMIT);
        if counted {
            counts[n - FIRST_PRODUCTION] += 1;
        }
    }
    counts
}
