// Refusals 1 to 8, in the order of 01: the frame of the bytes, then what stands in it. There is no refusal 6: the ends of a range may stand either way round.
ghost use Rattle.std.specs.Prelude.{◌≡◌, ◌+◌, ◌<◌, ◌≤◌, length};
ghost use Rattle.classes.specs.Canonical.{Canonical};
ghost use Rattle.classes.specs.Classes.{same_argument};
ghost use Rattle.common.specs.Below.{any_below, all_below};
ghost use Rattle.grammar.specs.Check.{bad_header, header_bytes, bad_argument_counts, bad_range_counts, bad_length, frame_check, bad_productions, bad_production, bad_arguments, names_argument, bad_declarations, bad_declaration, is_group, declaration_bytes, repeated_productions, same_production, bodies_check};
ghost use Rattle.layout.specs.Framed.{Framed};
ghost use Rattle.layout.specs.Layout.{byte_at, sorts, productions, classes, declarations, bodies_at, production_at, declaration_at};
ghost use Rattle.layout.specs.Limits.{header_length};

use classes::canonical::{canonical_arguments, stands_for};
use layout::limits::{
    ARGUMENT_LIMIT, CLASS_BASE, CLASS_LIMIT, DECLARATION_LENGTH, HEADER_LENGTH, KIND_LIMIT,
    PAIR_KIND_LIMIT, PRODUCTION_LIMIT, RANGE_LIMIT, SORT_LIMIT,
};
use layout::{
    argument_count, bodies_at, byte_at, class_count, declaration_at, declaration_count,
    production_count, range_count, sort_count, start_sort,
};
use refusal::{Fault, Refusal};

// Refusals 1 to 4.
#[tactic(auto, unfolding(crate::specs::Check::frame_check, crate::specs::Check::short_header, crate::specs::Check::short_contents))]
pub fn check_frame(book: &[u8]) -> Result<(), Refusal>
    ensures { result ≡ frame_check book.now }
{
    if book.len() < HEADER_LENGTH {
        return Err(Fault::Short.at(book.len()));
    }
    check_header(book)?;
    if book.len() < bodies_at(book) {
        return Err(Fault::Short.at(book.len()));
    }
    check_argument_counts(book)?;
    check_range_counts(book)?;
    check_length(book)
}

// 2: the lowest header byte outside its range.
#[tactic(auto, unfolding(crate::specs::Check::bad_header))]
fn check_header(book: &[u8]) -> Result<(), Refusal>
    requires { header_length ≤ length book.now }
    ensures { result ≡ bad_header book.now }
{
    check_header_bytes(
        sort_count(book),
        production_count(book),
        class_count(book),
        start_sort(book),
        byte_at(book, 5),
    )
}

#[tactic(auto, unfolding(crate::specs::Check::header_bytes))]
fn check_header_bytes(
    sorts: usize,
    productions: usize,
    classes: usize,
    start: usize,
    last: usize,
) -> Result<(), Refusal>
    ensures { result ≡ header_bytes sorts productions classes start last }
{
    if sorts < 1 || SORT_LIMIT < sorts {
        return Err(Fault::Header.at(0));
    }
    if productions < 1 || PRODUCTION_LIMIT < productions {
        return Err(Fault::Header.at(1));
    }
    if CLASS_LIMIT < classes {
        return Err(Fault::Header.at(2));
    }
    if sorts <= start {
        return Err(Fault::Header.at(4));
    }
    if 0 < last {
        return Err(Fault::Header.at(5));
    }
    Ok(())
}

// 3, for the productions.
fn check_argument_counts(book: &[u8]) -> Result<(), Refusal>
    requires { bodies_at book.now ≤ length book.now }
    ensures { result ≡ bad_argument_counts book.now }
{
    for p in 0..production_count(book) {
        if ARGUMENT_LIMIT < argument_count(book, p) {
            return Err(Fault::Count.at(HEADER_LENGTH + p));
        }
    }
    Ok(())
}

// 3, for the classes.
fn check_range_counts(book: &[u8]) -> Result<(), Refusal>
    requires { bodies_at book.now ≤ length book.now }
    ensures { result ≡ bad_range_counts book.now }
{
    for k in 0..class_count(book) {
        if RANGE_LIMIT < range_count(book, k) {
            return Err(Fault::Count.at(HEADER_LENGTH + production_count(book) + k));
        }
    }
    Ok(())
}

// 4: the length is not the one called for.
#[tactic(auto, unfolding(crate::specs::Check::bad_length))]
fn check_length(book: &[u8]) -> Result<(), Refusal>
    requires { bodies_at book.now ≤ length book.now }
    ensures { result ≡ bad_length book.now }
{
    let needed = declaration_at(book, declaration_count(book));
    if book.len() != needed {
        return Err(Fault::Length.at(book.len().min(needed)));
    }
    Ok(())
}

// Refusals 5 to 8.
#[tactic(auto, unfolding(crate::specs::Check::bodies_check))]
pub fn check_bodies(book: &[u8]) -> Result<(), Refusal>
    requires { Framed book.now }
    ensures { result ≡ bodies_check book.now }
{
    check_productions(book)?;
    check_declarations(book)?;
    check_repeated(book)
}

// 5: a byte that names nothing.
fn check_productions(book: &[u8]) -> Result<(), Refusal>
    requires { Framed book.now }
    ensures { result ≡ bad_productions book.now }
{
    let mut at = bodies_at(book);
    for p in 0..production_count(book) {
        check_production(book, p, at)?;
        at += 1 + argument_count(book, p);
    }
    Ok(())
}

// 5 in production p, which stands at `at`.
#[tactic(auto, unfolding(crate::specs::Check::bad_production))]
fn check_production(book: &[u8], p: usize, at: usize) -> Result<(), Refusal>
    requires framed { Framed book.now }
    requires p_bound { p < productions book.now }
    requires at_value { at ≡ production_at book.now p }
    ensures { result ≡ bad_production book.now p }
{
    if sort_count(book) <= byte_at(book, at) {
        return Err(Fault::Name.at(at));
    }
    check_arguments(book, p, at)
}

fn check_arguments(book: &[u8], p: usize, at: usize) -> Result<(), Refusal>
    requires framed { Framed book.now }
    requires p_bound { p < productions book.now }
    requires at_value { at ≡ production_at book.now p }
    ensures { result ≡ bad_arguments book.now p }
{
    for i in 0..argument_count(book, p) {
        if !names_argument(book, byte_at(book, at + 1 + i)) {
            return Err(Fault::Name.at(at + 1 + i));
        }
    }
    Ok(())
}

// Whether an argument byte names a sort or a class.
#[tactic(auto, unfolding(crate::specs::Check::names_argument))]
fn names_argument(book: &[u8], x: usize) -> bool
    requires { header_length ≤ length book.now }
    ensures { result ≡ names_argument book.now x }
{
    x < sort_count(book) || CLASS_BASE <= x && x < CLASS_BASE + class_count(book)
}

// 7: a kind or a production that isn't there, or a group whose first production is above its second.
fn check_declarations(book: &[u8]) -> Result<(), Refusal>
    requires { Framed book.now }
    ensures { result ≡ bad_declarations book.now }
{
    let mut at = declaration_at(book, 0);
    for d in 0..declaration_count(book) {
        check_declaration(book, d, at)?;
        at += DECLARATION_LENGTH;
    }
    Ok(())
}

// 7 in declaration d, which stands at `at`.
#[tactic(auto, unfolding(crate::specs::Check::bad_declaration))]
fn check_declaration(book: &[u8], d: usize, at: usize) -> Result<(), Refusal>
    requires framed { Framed book.now }
    requires d_bound { d < declarations book.now }
    requires at_value { at ≡ declaration_at book.now d }
    ensures { result ≡ bad_declaration book.now d }
{
    check_declaration_bytes(
        at,
        production_count(book),
        byte_at(book, at),
        byte_at(book, at + 1),
        byte_at(book, at + 2),
    )
}

// Whether a declaration of this kind is of a whole group: the productions from the first that it names to the second.
#[tactic(auto, unfolding(crate::specs::Check::is_group))]
pub fn is_group(kind: usize) -> bool
    ensures { result ≡ is_group kind }
{
    PAIR_KIND_LIMIT < kind && kind <= KIND_LIMIT
}

#[tactic(auto, unfolding(crate::specs::Check::declaration_bytes))]
fn check_declaration_bytes(
    at: usize,
    productions: usize,
    kind: usize,
    first: usize,
    second: usize,
) -> Result<(), Refusal>
    requires { at < 1000000 }
    ensures { result ≡ declaration_bytes at productions kind first second }
{
    if kind < 1 || KIND_LIMIT < kind {
        return Err(Fault::Absent.at(at));
    }
    if productions <= first {
        return Err(Fault::Absent.at(at + 1));
    }
    if productions <= second {
        return Err(Fault::Absent.at(at + 2));
    }
    if is_group(kind) && second < first {
        return Err(Fault::Absent.at(at + 1));
    }
    Ok(())
}

// 8: a production equal to an earlier one.
fn check_repeated(book: &[u8]) -> Result<(), Refusal>
    requires { Framed book.now }
    ensures { result ≡ repeated_productions book.now }
{
    let table = canonical_arguments(book);
    let mut at = bodies_at(book);
    for p in 0..production_count(book) {
        if repeats(book, &table, p, at) {
            return Err(Fault::Repeated.at(at));
        }
        at += 1 + argument_count(book, p);
    }
    Ok(())
}

// Whether production p, which stands at `at`, is equal to an earlier one.
fn repeats(book: &[u8], table: &[u8], p: usize, at: usize) -> bool
    requires framed { Framed book.now }
    requires canonical { Canonical book.now table.now }
    requires p_bound { p < productions book.now }
    requires at_value { at ≡ production_at book.now p }
    ensures { result ≡ any_below p (same_production book.now p) }
{
    let mut other = bodies_at(book);
    for q in 0..p {
        if same_production(book, table, p, at, q, other) {
            return true;
        }
        other += 1 + argument_count(book, q);
    }
    false
}

// Whether productions p and q, which stand at `at` and `other`, are equal.
#[tactic(auto, unfolding(crate::specs::Check::same_production))]
fn same_production(book: &[u8], table: &[u8], p: usize, at: usize, q: usize, other: usize) -> bool
    requires framed { Framed book.now }
    requires canonical { Canonical book.now table.now }
    requires p_bound { p < productions book.now }
    requires at_value { at ≡ production_at book.now p }
    requires q_bound { q < productions book.now }
    requires other_value { other ≡ production_at book.now q }
    ensures { result ≡ same_production book.now p q }
{
    if byte_at(book, at) != byte_at(book, other) {
        return false;
    }
    let count = argument_count(book, p);
    if count != argument_count(book, q) {
        return false;
    }
    same_arguments(book, table, at + 1, other + 1, count)
}

// Whether the arguments from `at` on are the same as the `count` arguments from `other` on.
fn same_arguments(book: &[u8], table: &[u8], at: usize, other: usize, count: usize) -> bool
    requires canonical { Canonical book.now table.now }
    requires count_in_bounds { at + count ≤ length book.now }
    requires count_in_bounds_2 { other + count ≤ length book.now }
    ensures { result ≡ all_below count (λ i. same_argument book.now (byte_at book.now (at + i)) (byte_at book.now (other + i))) }
{
    for i in 0..count {
        if stands_for(table, book[at + i]) != stands_for(table, book[other + i]) {
            return false;
        }
    }
    true
}
