// The flat tables: a character class grammar (01's flat book) as words in one array, read through one slice. They know nothing of the grammar that they come from.
// First how many productions there are; then for each how many arguments it has; for each its first row; and a class for each slot.
#![tactic(auto)]

ghost use Rattle.std.specs.Prelude.{◌≡◌, ℕ, ◌+◌, ◌<◌, ◌≤◌, length, get_or};
ghost use Rattle.charset.specs.Set.{characters, has};
ghost use Rattle.common.specs.Zeros.{AllZero};
ghost use Rattle.layout.specs.Limits.{production_limit};
ghost use Rattle.tables.specs.Layout.{slots, counts_of, arity_in, row_count, slot_at, class_words, class_bits, production_octets, production_octet, table_words, takes_char, takes_production, ParserTables};
ghost use Rattle.tables.specs.Put.{CountsPut, ClassesKept, ClassPut, MemberAdded};

use charset::{Bits, CharSet, SET_WORDS};
use common::put_words;
use layout::limits::{ARGUMENT_LIMIT, PRODUCTION_LIMIT};

// The number of production 0.
pub const FIRST_PRODUCTION: usize = 258;
// How many slots there are: an argument of a production is one.
pub const SLOTS: usize = PRODUCTION_LIMIT * ARGUMENT_LIMIT;
// The slot of the root stands behind them.
pub const ROOT_SLOT: usize = SLOTS;
// Where the argument counts, the first rows and the classes stand.
const COUNTS_AT: usize = 1;

const ROWS_AT: usize = COUNTS_AT + PRODUCTION_LIMIT;

const CLASSES_AT: usize = ROWS_AT + PRODUCTION_LIMIT + 1;
// A class has the words of its characters, and then a bit for each production.
pub const PRODUCTION_WORDS: usize = PRODUCTION_LIMIT / 64;

const CLASS_WORDS: usize = SET_WORDS + PRODUCTION_WORDS;
// How many productions an octet has.
pub const OCTET_BITS: usize = 8;
// The length of the tables.
pub const TABLE_WORDS: usize = CLASSES_AT + (SLOTS + 1) * CLASS_WORDS;

// Room for the tables.
pub fn zero_tables() -> [u64; TABLE_WORDS]
    ensures { AllZero table_words result }
{
    [0; TABLE_WORDS]
}

// ---- reading

// The first word of a slot's class.
fn slot_at(s: usize) -> usize
    requires { s ≤ slots }
    ensures place { result ≡ slot_at s }
    ensures within { result + class_words ≤ table_words }
{
    CLASSES_AT + s * CLASS_WORDS
}

// How many productions there are.
pub fn production_count(tables: &[u64]) -> usize
    requires { ParserTables tables.now }
    ensures { result ≡ length (counts_of tables.now) }
{
    tables[0] as usize
}

// How many arguments production p has.
pub fn argument_count(tables: &[u64], p: usize) -> usize
    requires { ParserTables tables.now × (p < length (counts_of tables.now)) }
    ensures { result ≡ arity_in (counts_of tables.now) p }
{
    tables[COUNTS_AT + p] as usize
}

// The first row of production p; for p past them all, the count of rows.
pub fn first_row(tables: &[u64], p: usize) -> usize
    requires { ParserTables tables.now × (p ≤ length (counts_of tables.now)) }
    ensures { result ≡ row_count (arity_in (counts_of tables.now)) p }
{
    tables[ROWS_AT + p] as usize
}

// How many rows there are.
pub fn row_count(tables: &[u64]) -> usize
    requires { ParserTables tables.now }
    ensures { result ≡ row_count (arity_in (counts_of tables.now)) (length (counts_of tables.now)) }
{
    first_row(tables, production_count(tables))
}

// The argument counts as bytes.
pub fn argument_counts(tables: &[u64]) -> [u8; PRODUCTION_LIMIT]
    requires { ParserTables tables.now }
    ensures { (p : ℕ) → p < length (counts_of tables.now) → get_or result p 0 ≡ arity_in (counts_of tables.now) p }
{
    let mut counts = [0; PRODUCTION_LIMIT];
    for p in 0..production_count(tables) {
        counts[p] = argument_count(tables, p) as u8;
    }
    counts
}

// Whether character c may stand at slot s.
pub fn takes_char(tables: &[u64], s: usize, c: u8) -> bool
    requires { (length tables.now ≡ table_words) × (s ≤ slots) }
    ensures { result ≡ takes_char tables.now s c }
{
    (tables[slot_at(s) + usize::from(c / 64)] >> (c % 64)) % 2 == 1
}

// Whether production q may stand at slot s.
pub fn takes_production(tables: &[u64], s: usize, q: usize) -> bool
    requires { (length tables.now ≡ table_words) × (s ≤ slots) × (q < production_limit) }
    ensures { result ≡ takes_production tables.now s q }
{
    (tables[slot_at(s) + SET_WORDS + q / 64] >> (q % 64)) % 2 == 1
}

// The characters that may stand at slot s.
pub fn class_chars(tables: &[u64], s: usize) -> CharSet
    requires { (length tables.now ≡ table_words) × (s ≤ slots) }
    ensures { (c : ℕ) → c < characters → has result.words c ≡ takes_char tables.now s c }
{
    CharSet::read(tables, slot_at(s))
}

// The productions that may stand at slot s.
pub fn class_productions(tables: &[u64], s: usize) -> ProductionSet
    requires { (length tables.now ≡ table_words) × (s ≤ slots) }
    ensures { (q : ℕ) → q < production_limit → has result.words q ≡ takes_production tables.now s q }
{
    ProductionSet::read(tables, slot_at(s) + SET_WORDS)
}

// Eight of the productions that may stand at slot s, from 8 k on: a bit for each.
pub fn class_octet(tables: &[u64], s: usize, k: usize) -> u8
    requires { (length tables.now ≡ table_words) × (s ≤ slots) × (k < production_octets) }
    ensures { result ≡ production_octet tables.now s k }
{
    let first = k * OCTET_BITS;
    let own = tables[slot_at(s) + SET_WORDS + first / 64];
    ((own >> (first % 64)) % 256) as u8
}

// ---- writing

// Writes how many productions there are, the argument count of each, and the rows; the classes stay.
pub fn put_counts(tables: &mut [u64], counts: &[u8])
    requires { (length tables.old ≡ table_words) × (length counts.now ≤ production_limit) }
    ensures counts_put { CountsPut counts.now (length counts.now) tables.new }
    ensures classes_kept { ClassesKept tables.old tables.new }
{
    tables[0] = counts.len() as u64;
    tables[ROWS_AT] = 0;
    let mut row = 0;
    for p in 0..counts.len() {
        row += u64::from(counts[p]) + 1;
        tables[COUNTS_AT + p] = u64::from(counts[p]);
        tables[ROWS_AT + p + 1] = row;
    }
}

// A set of productions.
pub type ProductionSet = Bits<PRODUCTION_WORDS>;

// Writes the class of slot s.
pub fn put_class(tables: &mut [u64], s: usize, chars: CharSet, productions: ProductionSet)
    requires { (length tables.old ≡ table_words) × (s ≤ slots) }
    ensures { ClassPut s (has chars.words) (has productions.words) tables.old tables.new }
{
    let at = slot_at(s);
    put_words(tables, at, &chars.words);
    put_words(tables, at + SET_WORDS, &productions.words);
}

// Adds one member to the class of slot s: a character, or behind all of these a production.
pub fn add_member(tables: &mut [u64], s: usize, x: usize)
    requires { (length tables.old ≡ table_words) × (s ≤ slots) × (x < class_bits) }
    ensures { MemberAdded s x tables.old tables.new }
{
    let at = slot_at(s) + x / 64;
    tables[at] |= 1u64 << (x % 64);
}
