// The operation "checking a listing": whether numbers are the listing of a parse of a text, and if not, where they go wrong.
#![tactic(auto)]

ghost use Rattle.std.specs.Prelude.{◌≡◌, ◌&&◌, List, [], ◌∷◌, ◌-◌, ◌<◌, ◌≤◌, ltb, leb, length, drop, Ok};
ghost use Rattle.grammar.specs.Formed.{WellFormed};
ghost use Rattle.refusal.specs.Verdict.{in_order, unless_refused};
ghost use Rattle.theory.specs.Tree.{production_number};
ghost use Rattle.tables.specs.Layout.{slots, counts_of, table_words, takes_char, takes_production, ParserTables};
ghost use Rattle.ccg.specs.Ccg.{Line};
ghost use Rattle.ccg.specs.Tables.{table_class, table_grammar};
ghost use Rattle.engine.specs.Refusals.{too_long};
ghost use Rattle.numbers.specs.Numbers.{numbers_of};
ghost use Rattle.listing.specs.Judge.{is_next};
ghost use Rattle.listing.specs.Answer.{bad_listing, judged, listing_answer};
ghost use Rattle.listing.specs.Parts.{judged_by, after_part, Walked, dues_from};

use charset::CHARACTERS;
use common::wide;
use engine::check_text;
use flatten::flatten;
use layout::limits::ARGUMENT_LIMIT;
use numbers::{LISTING_LIMIT, number_at};
use priority::check_grammar;
use refusal::{Fault, Refusal};
use tables::{
    FIRST_PRODUCTION, ROOT_SLOT, argument_count, production_count, takes_char, takes_production,
    zero_tables,
};

// Most bytes of a listing that is checked.
const BYTE_LIMIT: usize = 2 * LISTING_LIMIT;

// What checking a listing finds.
#[derive(Clone, Copy)]
pub enum Judgement {
    // It is the listing of a parse of the text.
    Right,
    // It is not: the index of the first number that is wrong, or how many there are if one is missing.
    Wrong(usize),
}

// Where numbers and text go on behind a part of a listing that is complete.
#[derive(Clone, Copy)]
pub struct Next {
    pub number: usize,
    pub place: usize,
}

// Checks a listing. The book, the text and the listing are lent and stay.
#[tactic(auto, unfolding(crate::specs::Answer::listing_answer))]
pub fn check_listing(book: &[u8], text: &[u8], listing: &[u8]) -> Result<Judgement, Refusal>
    ensures { result ≡ listing_answer book.now text.now listing.now }
{
    check_grammar(book)?;
    check_accepted(book, text, listing)
}

// The same for an accepted grammar. At the root a production of the start sort is due.
fn check_accepted(book: &[u8], text: &[u8], listing: &[u8]) -> Result<Judgement, Refusal>
    requires { WellFormed book.now }
    ensures { result ≡ unless_refused (in_order (too_long text.now ∷ bad_listing listing.now ∷ [])) (Ok (judged book.now text.now listing.now)) }
{
    check_input(text, listing)?;
    let mut tables = zero_tables();
    flatten(book, &mut tables);
    Ok(judge(&tables, text, listing))
}

// The same by tables of a grammar, for a text and a listing that are within their limits.
pub fn judge(tables: &[u64], text: &[u8], listing: &[u8]) -> Judgement
    requires { ParserTables tables.now }
    ensures { result ≡ judged_by tables.now text.now listing.now }
{
    let whole = check_tree(tables, text, listing, ROOT_SLOT, 0, 0);
    answer(whole, text, listing)
}

// 10, and then 11.
pub fn check_input(text: &[u8], listing: &[u8]) -> Result<(), Refusal>
    ensures { result ≡ in_order (too_long text.now ∷ bad_listing listing.now ∷ []) }
{
    check_text(text)?;
    check_bytes(listing)
}

// 11: an odd byte count, or one over the limit.
pub fn check_bytes(listing: &[u8]) -> Result<(), Refusal>
    ensures { result ≡ bad_listing listing.now }
{
    if listing.len() % 2 == 1 {
        return Err(Fault::BadListing.at(listing.len()));
    }
    if BYTE_LIMIT < listing.len() {
        return Err(Fault::BadListing.at(listing.len()));
    }
    Ok(())
}

// A complete tree is right if the listing and the text end with it.
fn answer(whole: Result<Next, usize>, text: &[u8], listing: &[u8]) -> Judgement
    ensures { (g : List Line) → result ≡ after_part g (numbers_of listing.now) [] text.now whole }
{
    match whole {
        Err(index) => Judgement::Wrong(index),
        Ok(next) => {
            if next.number < listing.len() / 2 {
                return Judgement::Wrong(next.number);
            }
            if next.place < text.len() {
                return Judgement::Wrong(next.number);
            }
            Judgement::Right
        }
    }
}

// Character n may stand at slot s, and is the next byte of the text.
fn char_right(text: &[u8], tables: &[u64], s: usize, place: usize, n: usize) -> bool
    requires { (length tables.now ≡ table_words) × (s ≤ slots) }
    ensures { result ≡ (takes_char tables.now s n && is_next (drop place text.now) n) }
{
    if text.len() <= place {
        return false;
    }
    if wide(text[place]) != n {
        return false;
    }
    takes_char(tables, s, text[place])
}

// n is the number of a production that is there and may stand at slot s.
fn production_right(tables: &[u64], s: usize, n: usize) -> bool
    requires { ParserTables tables.now × (s ≤ slots) }
    ensures { result ≡ ((leb (production_number 0) n && ltb n (production_number (length (counts_of tables.now)))) && takes_production tables.now s (n - production_number 0)) }
{
    if n < FIRST_PRODUCTION {
        return false;
    }
    if production_count(tables) <= n - FIRST_PRODUCTION {
        return false;
    }
    takes_production(tables, s, n - FIRST_PRODUCTION)
}

// The walk over the tree that stands at slot s, from number `at` and from `place` in the text on.
#[cycle(check_arguments_check_tree)]
fn check_tree(
    tables: &[u64],
    text: &[u8],
    listing: &[u8],
    s: usize,
    at: usize,
    place: usize,
) -> Result<Next, usize>
    requires parser_tables { ParserTables tables.now }
    requires s_le_slots { (s ≤ slots) × (place ≤ length text.now) }
    ensures { Walked (table_grammar tables.now) (numbers_of listing.now) text.now (table_class tables.now s ∷ []) at place result }
{
    if listing.len() / 2 <= at {
        return Err(at);
    }
    let n = number_at(listing, at);
    if n < CHARACTERS {
        if char_right(text, tables, s, place, n) {
            return Ok(Next {
                number: at + 1,
                place: place + 1,
            });
        }
        return Err(at);
    }
    if !production_right(tables, s, n) {
        return Err(at);
    }
    let next = at + 1;
    check_arguments(tables, text, listing, n - FIRST_PRODUCTION, 0, next, place)
}

// The walk over the trees of production q from argument d on.
#[cycle(check_arguments_check_tree)]
fn check_arguments(
    tables: &[u64],
    text: &[u8],
    listing: &[u8],
    q: usize,
    d: usize,
    at: usize,
    place: usize,
) -> Result<Next, usize>
    requires parser_tables { ParserTables tables.now }
    requires q_in_bounds { (q < length (counts_of tables.now)) × (at ≤ length (numbers_of listing.now)) × (place ≤ length text.now) }
    ensures { Walked (table_grammar tables.now) (numbers_of listing.now) text.now (dues_from tables.now q d) at place result }
{
    if argument_count(tables, q) <= d {
        return Ok(Next { number: at, place });
    }
    let next = check_tree(tables, text, listing, q * ARGUMENT_LIMIT + d, at, place)?;
    check_arguments(tables, text, listing, q, d + 1, next.number, next.place)
}
