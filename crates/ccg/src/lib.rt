// The written form of a character class grammar. What does not fit the buffer is dropped and still counted, so a first pass over an empty buffer
// gives the length.
#![tactic(auto)]

ghost use Rattle.std.specs.Prelude.{◌≡◌, ℕ, ◌*◌, ◌∷◌, ◌+◌, ◌-◌, ◌<◌, ◌≤◌, length};
ghost use Rattle.layout.specs.Limits.{production_limit};
ghost use Rattle.theory.specs.Tree.{production_number};
ghost use Rattle.charset.specs.Set.{word_bits, has};
ghost use Rattle.charset.specs.Runs.{range, runs};
ghost use Rattle.common.specs.Lists.{joined};
ghost use Rattle.writing.specs.Put.{Put, farthest};
ghost use Rattle.writing.specs.Numeral.{numeral};
ghost use Rattle.ccg.specs.Text.{backslash, number_limit, range_text, class_text, result_text, line_text, grammar_text};
ghost use Rattle.tables.specs.Layout.{slots, table_words, counts_of, ParserTables};
ghost use Rattle.ccg.specs.Tables.{table_class, table_line, table_grammar};

use charset::{Bits, next_run};
use layout::limits::ARGUMENT_LIMIT;
use tables::{FIRST_PRODUCTION, argument_count, class_chars, class_productions, production_count};
use writing::{put, put_numeral};

// A range: \n for one number, \a-\b for more.
fn put_range(out: &mut [u8], at: usize, low: usize, high: usize) -> usize
    requires { at + length (range_text (range low high)) ≤ farthest }
    ensures { Put (range_text (range low high)) out.old at out.new result }
{
    let first = put_number(out, at, low);
    if low == high {
        return first;
    }
    let dash = put(out, first, b'-');
    put_number(out, dash, high)
}

// A backslash and a numeral.
fn put_number(out: &mut [u8], at: usize, n: usize) -> usize
    requires { at + length (backslash ∷ numeral n) ≤ farthest }
    ensures { Put (backslash ∷ numeral n) out.old at out.new result }
{
    let next = put(out, at, b'\\');
    put_numeral(out, next, n)
}

// ---- classes

// The normal ranges of a set of numbers, the first of which stands for `first`.
fn put_runs<const W: usize>(out: &mut [u8], at: usize, first: usize, set: Bits<W>) -> usize
    requires numbers { first + W * word_bits ≤ number_limit }
    requires room { at + length (joined range_text (runs (λ (n : ℕ). has set.words (n - first)) first (W * word_bits))) ≤ farthest }
    ensures { Put (joined range_text (runs (λ (n : ℕ). has set.entry.words (n - first)) first (W * word_bits))) out.old at out.new result }
{
    let limit = first + W * 64;
    let member = |n: usize| -> bool
        requires { (first ≤ n) × (n - first < W * word_bits) }
        ensures { result ≡ has set.words (n - first) }
    { set.contains(n - first) };
    let mut place = at;
    let mut from = first;
    while let Some((low, high)) = next_run(from, limit, &member) {
        place = put_range(out, place, low, high);
        from = high + 1;
    }
    place
}

// The class of slot s.
fn put_class(out: &mut [u8], at: usize, tables: &[u64], s: usize) -> usize
    requires tables_len { (length tables.now ≡ table_words) × (s ≤ slots) }
    requires s_bound { at + length (class_text (table_class tables.now s)) ≤ farthest }
    ensures { Put (class_text (table_class tables.now s)) out.old at out.new result }
{
    let open = put(out, at, b'[');
    let characters = put_runs(out, open, 0, class_chars(tables, s));
    let productions = put_runs(
        out,
        characters,
        FIRST_PRODUCTION,
        class_productions(tables, s),
    );
    put(out, productions, b']')
}

// ---- lines

// What follows the arguments of production p.
fn put_result(out: &mut [u8], at: usize, p: usize) -> usize
    requires p_lt_production_limit { p < production_limit }
    requires p_bound { at + length (result_text (production_number p)) ≤ farthest }
    ensures { Put (result_text (production_number p)) out.old at out.new result }
{
    let dash = put(out, at, b'-');
    let arrow = put(out, dash, b'>');
    let space = put(out, arrow, b' ');
    let open = put(out, space, b'[');
    let number = put_number(out, open, FIRST_PRODUCTION + p);
    let close = put(out, number, b']');
    put(out, close, b'\n')
}

// The line of production p.
fn put_line(out: &mut [u8], at: usize, tables: &[u64], p: usize) -> usize
    requires parser_tables { ParserTables tables.now × (p < length (counts_of tables.now)) }
    requires p_bound { at + length (line_text (table_line tables.now p)) ≤ farthest }
    ensures { Put (line_text (table_line tables.now p)) out.old at out.new result }
{
    let mut place = at;
    for i in 0..argument_count(tables, p) {
        let class = put_class(out, place, tables, p * ARGUMENT_LIMIT + i);
        place = put(out, class, b' ');
    }
    put_result(out, place, p)
}

// The grammar that tables hold. What does not fit is dropped; the length of the whole comes back.
pub fn put_grammar(out: &mut [u8], tables: &[u64]) -> usize
    requires { ParserTables tables.now }
    ensures { Put (grammar_text (table_grammar tables.now)) out.old 0 out.new result }
{
    let mut place = 0;
    for p in 0..production_count(tables) {
        place = put_line(out, place, tables, p);
    }
    place
}
