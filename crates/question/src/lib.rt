// The conflict question (01's clash question): may production q stand as argument i of production p?
#![tactic(auto)]

ghost use Rattle.std.specs.Prelude.{◌≡◌, true, ◌↔◌, ℕ, ◌<◌};
ghost use Rattle.grammar.specs.Formed.{WellFormed};
ghost use Rattle.layout.specs.Limits.{production_limit};
ghost use Rattle.priority.specs.Chain.{entry};
ghost use Rattle.priority.specs.Priorities.{Higher, is_higher};
ghost use Rattle.priority.specs.Conflict.{conflicts};
ghost use Rattle.question.specs.Answer.{There, is_there, own_answer, conflict_answer};

use layout::limits::PRODUCTION_LIMIT;
use layout::{argument, argument_count, production_count, result};
use priority::{LEFT, NONASSOC, RIGHT, check_grammar, declared_pairs, priorities};
use refusal::{Fault, Refusal};

// What asking over the closed priorities gives: the answer, and the priorities as they were passed.
#[derive(Clone, Copy)]
pub struct Asked {
    pub conflict: bool,
    pub higher: [[bool; PRODUCTION_LIMIT]; PRODUCTION_LIMIT],
}

// The operation "conflict question": productions and arguments are counted from 0.
#[tactic(auto, unfolding(crate::specs::Answer::conflict_answer))]
pub fn conflict(book: &[u8], p: usize, i: usize, q: usize) -> Result<bool, Refusal>
    ensures { result ≡ conflict_answer book.now p i q }
{
    check_grammar(book)?;
    answer(book, p, i, q)
}

// The answer for an accepted grammar.
fn answer(book: &[u8], p: usize, i: usize, q: usize) -> Result<bool, Refusal>
    requires { WellFormed book.now }
    ensures { result ≡ own_answer book.now p i q }
{
    if !is_there(book, p, i, q) {
        return Err(Fault::Absent.at(0));
    }
    let asked = ask(priorities(book), book, p, i, q);
    Ok(asked.conflict)
}

// Whether both productions are there, and argument i of p.
#[tactic(auto, unfolding(crate::specs::Answer::is_there))]
fn is_there(book: &[u8], p: usize, i: usize, q: usize) -> bool
    requires { WellFormed book.now }
    ensures { result ≡ is_there book.now p i q }
{
    p < production_count(book) && i < argument_count(book, p) && q < production_count(book)
}

// The question over the closed priorities, which come back with the answer, so that a caller can ask again.
pub fn ask(
    higher: [[bool; PRODUCTION_LIMIT]; PRODUCTION_LIMIT],
    book: &[u8],
    p: usize,
    i: usize,
    q: usize,
) -> Asked
    requires well_formed { WellFormed book.now }
    requires by_index { (x y : ℕ) → (entry higher x y ≡ true) ↔ Higher book.now x y }
    requires there { There book.now p i q }
    ensures conflict_value { result.conflict ≡ conflicts book.now p i q }
    ensures higher_value { result.higher ≡ higher }
{
    give_back(is_conflict(entry_at(higher, p, q), book, p, i, q), higher)
}

// The answer and the table in one value.
fn give_back(conflict: bool, higher: [[bool; PRODUCTION_LIMIT]; PRODUCTION_LIMIT]) -> Asked
    ensures { (result.conflict ≡ conflict) × (result.higher ≡ higher) }
{
    Asked { conflict, higher }
}

// The three lines of 01 in order, where `above` says whether p is higher than q.
fn is_conflict(above: bool, book: &[u8], p: usize, i: usize, q: usize) -> bool
    requires well_formed { WellFormed book.now }
    requires above_value { above ≡ is_higher book.now p q }
    requires there { There book.now p i q }
    ensures { result ≡ conflicts book.now p i q }
{
    if argument(book, p, i) != result(book, q) {
        return false;
    }
    if above {
        return true;
    }
    let count = argument_count(book, p);
    if count < 2 {
        return false;
    }
    if i == 0 {
        return entry_at(declared_pairs(book, RIGHT, NONASSOC), p, q);
    }
    if i + 1 == count {
        return entry_at(declared_pairs(book, LEFT, NONASSOC), p, q);
    }
    false
}

// One entry of a table.
pub fn entry_at(pairs: [[bool; PRODUCTION_LIMIT]; PRODUCTION_LIMIT], p: usize, q: usize) -> bool
    requires { (p < production_limit) × (q < production_limit) }
    ensures { result ≡ entry pairs p q }
{
    pairs[p][q]
}
