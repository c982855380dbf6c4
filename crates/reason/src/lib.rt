// Why production q may not stand as argument i of production p (02, [8], "Why it clashes").
#![tactic(auto)]

ghost use Rattle.std.specs.Prelude.{◌≡◌, true, ◌||◌, Ok, Some};
ghost use Rattle.common.specs.Below.{between};
ghost use Rattle.grammar.specs.Formed.{WellFormed};
ghost use Rattle.priority.specs.Priorities.{Kind, nonassoc, names_pair, covers};
ghost use Rattle.question.specs.Answer.{conflict_answer};
ghost use Rattle.reason.specs.Reason.{LowestDeclaration, Reasoned};
ghost use Rattle.reason.specs.Side.{IsSide, Covered};

use grammar::check::is_group;
use layout::declaration_at;
use priority::{Declaration, LEFT, NONASSOC, RIGHT, priorities, read_declaration, said_kind};
use question::{conflict, entry_at};
use refusal::Refusal;
use shortest::write_chain;

// What is behind a conflict, by the lines of 01, "Ranks and clashes"; declarations are counted from 0.
#[derive(Clone, Copy)]
pub enum Cause {
    // Line 1: p is higher than q, by a chain of so many declarations.
    Higher(usize),
    // Line 2: q may not be p's first argument, by this declaration.
    AtFirst(usize),
    // Line 3: nor its last, by this one.
    AtLast(usize),
}

// The operation "why it clashes": nothing if there is no conflict. For line 1 the indices of the chain stand at the start of `chain`, as many as fit; all its
// other bytes stay.
pub fn reason(
    book: &[u8],
    p: usize,
    i: usize,
    q: usize,
    chain: &mut [u8],
) -> Result<Option<Cause>, Refusal>
    ensures { Reasoned book.now p i q chain.old result chain.new }
{
    let conflicts = conflict(book, p, i, q)?;
    if conflicts {
        return Ok(Some(behind(book, p, i, q, chain)));
    }
    Ok(None)
}

// What is behind a conflict: the three lines in order.
fn behind(book: &[u8], p: usize, i: usize, q: usize, chain: &mut [u8]) -> Cause
    requires { conflict_answer book.now p i q ≡ Ok true }
    ensures { Reasoned book.now p i q chain.old (Ok (Some result)) chain.new }
{
    if entry_at(priorities(book), p, q) {
        return Cause::Higher(write_chain(book, p, q, chain));
    }
    if i == 0 {
        return Cause::AtFirst(lowest(book, RIGHT, p, q));
    }
    Cause::AtLast(lowest(book, LEFT, p, q))
}

// The lowest declaration that covers the pair with this kind or as not together, if one does.
fn lowest(book: &[u8], kind: usize, p: usize, q: usize) -> usize
    requires well_formed { WellFormed book.now }
    requires side { (k : Kind) × IsSide k kind × Covered book.now k p q }
    ensures { (k : Kind) → IsSide k kind → LowestDeclaration book.now k p q result }
{
    let start = declaration_at(book, 0);
    let mut d = 0;
    while !covers_side(read_declaration(book, start, d), kind, p, q) {
        d += 1;
    }
    d
}

// Whether a declaration covers the pair with this kind, one that holds either way round, or as not together.
fn covers_side(own: Declaration, kind: usize, p: usize, q: usize) -> bool
    ensures { (k : Kind) → IsSide k kind → result ≡ (covers own k p q || covers own nonassoc p q) }
{
    let said = said_kind(own.kind);
    let named = names_pair(own, p, q) | names_pair(own, q, p);
    ((said == kind) | (said == NONASSOC)) & named
}

// Whether a declaration names x first and y second.
fn names_pair(own: Declaration, x: usize, y: usize) -> bool
    ensures { result ≡ names_pair own x y }
{
    if is_group(own.kind) {
        return is_member(own, x) & is_member(own, y);
    }
    (own.first == x) & (own.second == y)
}

// Whether a production is one of a group.
fn is_member(own: Declaration, x: usize) -> bool
    ensures { result ≡ between own.first own.second x }
{
    own.first <= x && x <= own.second
}
