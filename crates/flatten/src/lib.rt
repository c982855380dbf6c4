// The character class grammar of a grammar (01's flat book): the operation that writes it, and its tables.
#![tactic(auto)]

ghost use Rattle.std.specs.Prelude.{◌≡◌, not, ◌&&◌, ◌||◌, ℕ, ◌+◌, ◌-◌, ◌<◌, eqb, leb, length};
ghost use Rattle.charset.specs.Set.{characters, has};
ghost use Rattle.classes.specs.Classes.{is_class, class_has};
ghost use Rattle.grammar.specs.Formed.{WellFormed};
ghost use Rattle.layout.specs.Layout.{productions, classes, production_at};
ghost use Rattle.layout.specs.Limits.{production_limit, class_base};
ghost use Rattle.tables.specs.Layout.{slot, table_words};
ghost use Rattle.flatten.specs.Tables.{BarringSets, result_has, ByResult, WrittenBelow, FlatTables};
ghost use Rattle.flatten.specs.Flat.{flat_grammar};
ghost use Rattle.ccg.specs.Text.{grammar_text};
ghost use Rattle.flatten.specs.Answer.{flat_answer};
ghost use Rattle.writing.specs.Answer.{fitted, buffer_after};
ghost use Rattle.refusal.specs.declared.Fault.TheVariants.{LongFlat};

use ccg::put_grammar;
use charset::CharSet;
use classes::class_set;
use common::wide;
use layout::limits::{ARGUMENT_LIMIT, CLASS_BASE, HEADER_LENGTH, SORT_LIMIT};
use layout::{argument_count, bodies_at, production_count};
use priority::{LEFT, NONASSOC, RIGHT, check_grammar, declared_pairs, priorities};
use refusal::{Fault, Refusal};
use tables::{PRODUCTION_WORDS, ProductionSet, ROOT_SLOT, put_class, put_counts, zero_tables};

// The operation "writing a character class grammar" (01's writing a flat book). A text longer than the buffer is refused and changes nothing.
#[tactic(auto, unfolding(crate::specs::Answer::flat_answer))]
pub fn write_flat(book: &[u8], out: &mut [u8]) -> Result<usize, Refusal>
    ensures value { result ≡ flat_answer book.now (length out.old) }
    ensures out_after { out.new ≡ buffer_after (flat_answer book.now (length out.old)) (grammar_text (flat_grammar book.now)) out.old }
{
    check_grammar(book)?;
    write_accepted(book, out)
}

// The same for an accepted grammar: the length first, and then, if it fits, the text.
fn write_accepted(book: &[u8], out: &mut [u8]) -> Result<usize, Refusal>
    requires { WellFormed book.now }
    ensures value { result ≡ fitted LongFlat (length (grammar_text (flat_grammar book.now))) (length out.old) }
    ensures out_after { out.new ≡ buffer_after (fitted LongFlat (length (grammar_text (flat_grammar book.now))) (length out.old)) (grammar_text (flat_grammar book.now)) out.old }
{
    let mut tables = zero_tables();
    flatten(book, &mut tables);
    let needed = put_grammar(&mut out[..0], &tables);
    if out.len() < needed {
        return Err(Fault::LongFlat.at(needed));
    }
    put_grammar(out, &tables);
    Ok(needed)
}

// ---- the tables: at each argument the characters and the productions that may stand there, and at the root the productions of the start sort

// How many words hold a set of productions for each sort.
const RESULT_WORDS: usize = SORT_LIMIT * PRODUCTION_WORDS;

// For each sort the productions with that result, one set behind the other.
fn by_result(book: &[u8]) -> [u64; RESULT_WORDS]
    requires { WellFormed book.now }
    ensures { ByResult book.now (productions book.now) result }
{
    let mut sets = [0u64; RESULT_WORDS];
    let mut at = bodies_at(book);
    for q in 0..production_count(book) {
        let word = wide(book[at]) * PRODUCTION_WORDS + q / 64;
        sets[word] |= 1u64 << (q % 64);
        at += 1 + argument_count(book, q);
    }
    sets
}

// The productions with result x: none if x is a class.
fn with_result(sets: [u64; RESULT_WORDS], x: u8) -> ProductionSet
    ensures { (q : ℕ) → q < production_limit → has result.words q ≡ result_has sets x q }
{
    if SORT_LIMIT <= wide(x) {
        return ProductionSet::empty();
    }
    ProductionSet::read(&sets, wide(x) * PRODUCTION_WORDS)
}

// The characters that argument byte x lets stand: none if x is a sort.
fn argument_set(book: &[u8], x: usize) -> CharSet
    requires well_formed { WellFormed book.now }
    requires x_bound { x < class_base + classes book.now }
    ensures { (c : ℕ) → c < characters → has result.words c ≡ (is_class book.now x && class_has book.now (x - class_base) c) }
{
    if x < CLASS_BASE {
        return CharSet::empty();
    }
    class_set(book, x - CLASS_BASE)
}

// The productions that may stand at argument i of a production with `count` arguments: of those that fit it, the ones that no line of 01 bars.
fn standing(
    fitting: ProductionSet,
    above: ProductionSet,
    firsts: ProductionSet,
    lasts: ProductionSet,
    count: usize,
    i: usize,
) -> ProductionSet
    requires { i < count }
    ensures { (q : ℕ) → q < production_limit → has result.words q ≡ (has fitting.words q && not (has above.words q || (eqb i 0 && leb 2 count) && has firsts.words q || (eqb (i + 1) count && leb 2 count) && has lasts.words q)) }
{
    let lower = fitting.without(true, above);
    let inner = lower.without((i == 0) & (2 <= count), firsts);
    inner.without((i + 1 == count) & (2 <= count), lasts)
}

// Writes the argument counts, and the class of the root: the productions of the start sort, which is byte 4.
fn write_counts_and_root(book: &[u8], sets: [u64; RESULT_WORDS], tables: &mut [u64])
    requires well_formed { WellFormed book.now }
    requires by_result { ByResult book.now (productions book.now) sets }
    requires tables_len { length tables.old ≡ table_words }
    ensures { WrittenBelow book.now (slot 0 0) tables.new }
{
    let count = production_count(book);
    put_counts(tables, &book[HEADER_LENGTH..HEADER_LENGTH + count]);
    put_class(
        tables,
        ROOT_SLOT,
        CharSet::empty(),
        with_result(sets, book[4]),
    );
}

// Writes the classes of the arguments of production p, which stands at `at`.
fn write_production(
    book: &[u8],
    p: usize,
    at: usize,
    above: ProductionSet,
    firsts: ProductionSet,
    lasts: ProductionSet,
    sets: [u64; RESULT_WORDS],
    tables: &mut [u64],
)
    requires well_formed { WellFormed book.now }
    requires p_bound { (p < productions book.now) × (at ≡ production_at book.now p) }
    requires barring_sets { BarringSets book.now p above.words firsts.words lasts.words }
    requires by_result { ByResult book.now (productions book.now) sets }
    requires written_below { WrittenBelow book.now (slot p 0) tables.old }
    ensures { WrittenBelow book.now (slot (p + 1) 0) tables.new }
{
    let count = argument_count(book, p);
    for i in 0..count {
        let x = book[at + 1 + i];
        let stands = standing(with_result(sets, x), above, firsts, lasts, count, i);
        put_class(
            tables,
            p * ARGUMENT_LIMIT + i,
            argument_set(book, wide(x)),
            stands,
        );
    }
}

// Fills the tables, whatever they held before.
pub fn flatten(book: &[u8], tables: &mut [u64])
    requires well_formed { WellFormed book.now }
    requires tables_len { length tables.old ≡ table_words }
    ensures { FlatTables book.now tables.new }
{
    let above = priorities(book);
    let firsts = declared_pairs(book, RIGHT, NONASSOC);
    let lasts = declared_pairs(book, LEFT, NONASSOC);
    let sets = by_result(book);
    write_counts_and_root(book, sets, tables);
    let mut at = bodies_at(book);
    for p in 0..production_count(book) {
        write_production(
            book,
            p,
            at,
            ProductionSet::of(above[p]),
            ProductionSet::of(firsts[p]),
            ProductionSet::of(lasts[p]),
            sets,
            tables,
        );
        at += 1 + argument_count(book, p);
    }
}
