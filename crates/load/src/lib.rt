// A flat text (01's flat book, written) is read into tables, byte by byte; and the operation "checking a flat text" (02, [7]).
#![tactic(auto)]

ghost use Rattle.std.specs.Prelude.{◌≡◌, true, ◌+◌, ◌≤◌, ◌<◌, length};
ghost use Rattle.ccg.specs.Tables.{table_class, table_line, table_grammar};
ghost use Rattle.ccg.specs.Text.{number_limit};
ghost use Rattle.common.specs.Zeros.{AllZero};
ghost use Rattle.form.specs.Read.{range_to, ends_range};
ghost use Rattle.layout.specs.Limits.{production_limit};
ghost use Rattle.tables.specs.Put.{CountsPut, ClassesKept};
ghost use Rattle.tables.specs.Layout.{slots, class_bits, table_words, counts_of, ParserTables};
ghost use Rattle.load.specs.Absent.{absent_in, absent_in_line, absent_names};
ghost use Rattle.load.specs.Check.{lines_answer, Checked, Loaded};
ghost use Rattle.load.specs.Held.{number_bit, BitsAdded, RangeNoted, Noted, Notable, end_answer, LinesRead, Few};

use charset::CHARACTERS;
use form::{Spot, State, goes_on, may_end, start, step};
use layout::limits::{ARGUMENT_LIMIT, PRODUCTION_LIMIT};
use refusal::{Fault, Refusal};
use tables::{
    FIRST_PRODUCTION, add_member, argument_count, production_count, put_counts, takes_production,
    zero_tables,
};

// ---- what is complete behind one byte more

// The bit of a number in a class: characters first, and behind them productions.
fn number_bit(n: usize) -> usize
    ensures { result ≡ number_bit n }
{
    if n < CHARACTERS {
        return n;
    }
    n - (FIRST_PRODUCTION - CHARACTERS)
}

// Adds the bits from first to last to the class of slot s.
fn add_bits(tables: &mut [u64], s: usize, first: usize, last: usize)
    requires { (length tables.old ≡ table_words) × (s ≤ slots) × (last < class_bits) }
    ensures { BitsAdded s first (last + 1) tables.old tables.new }
{
    for x in first..last + 1 {
        add_member(tables, s, x);
    }
}

// Whether a byte ends a range if it stands behind a number.
#[tactic(auto, unfolding(form::specs::Read::ends_range))]
fn ends_range(byte: u8) -> bool
    ensures { result ≡ ends_range byte }
{
    byte == b'\\' || byte == b']'
}

// Where the range that v ends begins.
fn range_start(dashed: bool, low: usize, v: usize) -> usize
    requires { dashed ≡ true → 1 ≤ low }
    ensures { result ≡ (range_to dashed low v).low }
{
    if dashed {
        return low - 1;
    }
    v
}

// Adds the range that v ends, if the byte behind it ends it.
fn note_range(tables: &mut [u64], s: usize, dashed: bool, low: usize, v: usize, byte: u8)
    requires { (length tables.old ≡ table_words) × (s ≤ slots) × (v < number_limit) × (dashed ≡ true → 1 ≤ low) }
    ensures { RangeNoted (ends_range byte) s (range_to dashed low v) tables.old tables.new }
{
    if ends_range(byte) {
        add_bits(
            tables,
            s,
            number_bit(range_start(dashed, low, v)),
            number_bit(v),
        );
    }
}

// Writes a range that is complete behind one byte more, or how many arguments a line has that ends.
fn note(state: State, byte: u8, tables: &mut [u64], counts: &mut [u8])
    requires notable { Notable state.line state.argument state.spot }
    requires tables_len { (length tables.old ≡ table_words) × (length counts.old ≡ production_limit) }
    ensures { Noted state.line state.argument state.spot byte tables.old counts.old tables.new counts.new }
{
    let line = state.line;
    let argument = state.argument;
    let spot = state.spot;
    match spot {
        Spot::Between => (),
        Spot::Opened => (),
        Spot::Slash(_, _) => (),
        Spot::Number(dashed, low, v) => note_range(
            tables,
            line * ARGUMENT_LIMIT + argument,
            dashed,
            low,
            v,
            byte,
        ),
        Spot::Dash(_) => (),
        Spot::Closed => (),
        Spot::Ending(_) => counts[line] = argument as u8,
        Spot::Stuck => (),
    }
}

// ---- all bytes

// At the end of a text: all its lines, or 27.
fn end_answer(i: usize, state: State) -> Result<usize, Refusal>
    ensures { result ≡ end_answer i state }
{
    if may_end(state) {
        return Ok(state.line);
    }
    Err(Fault::Form.at(i))
}

// Reads a text as far as one of the form begins so.
fn read_lines(text: &[u8], tables: &mut [u64], counts: &mut [u8]) -> Result<usize, Refusal>
    requires { AllZero table_words tables.old × (length counts.old ≡ production_limit) }
    ensures { LinesRead text.now result tables.new counts.new }
{
    let mut state = start();
    for i in 0..text.len() {
        let next = step(state, text[i]);
        if !goes_on(next.spot) {
            return Err(Fault::Form.at(i));
        }
        note(state, text[i], tables, counts);
        state = next;
    }
    end_answer(text.len(), state)
}

// ---- numbers of lines that are not there

// 28 for the class of slot s, if there are so many lines.
pub fn check_class(tables: &[u64], s: usize, count: usize) -> Result<(), Refusal>
    requires { (length tables.now ≡ table_words) × (s ≤ slots) × (count ≤ production_limit) }
    ensures { result ≡ absent_in count (table_class tables.now s) }
{
    for k in 0..PRODUCTION_LIMIT - count {
        if takes_production(tables, s, count + k) {
            return Err(Fault::NoLine.at(FIRST_PRODUCTION + (count + k)));
        }
    }
    Ok(())
}

// 28 for the arguments of line p.
fn check_line(tables: &[u64], p: usize) -> Result<(), Refusal>
    requires { ParserTables tables.now × (p < length (counts_of tables.now)) }
    ensures { result ≡ absent_in_line (length (counts_of tables.now)) (table_line tables.now p) }
{
    let count = production_count(tables);
    for i in 0..argument_count(tables, p) {
        check_class(tables, p * ARGUMENT_LIMIT + i, count)?;
    }
    Ok(())
}

// 28 for all lines.
fn check_names(tables: &[u64]) -> Result<(), Refusal>
    requires { ParserTables tables.now }
    ensures { result ≡ absent_names (table_grammar tables.now) }
{
    for p in 0..production_count(tables) {
        check_line(tables, p)?;
    }
    Ok(())
}

// ---- the whole text

// Puts the counts to the classes that were read, and answers.
fn with_counts(tables: &mut [u64], counts: &[u8]) -> Result<usize, Refusal>
    requires { (length tables.old ≡ table_words) × (length counts.now ≤ production_limit) × Few counts.now }
    ensures counts_put { CountsPut counts.now (length counts.now) tables.new }
    ensures classes_kept { ClassesKept tables.old tables.new }
    ensures value { result ≡ lines_answer (table_grammar tables.new) }
{
    put_counts(tables, counts);
    check_names(tables)?;
    Ok(counts.len())
}

// Reads a flat text into tables that hold nothing: 27, and 28 for a class.
pub fn load(text: &[u8], tables: &mut [u64]) -> Result<usize, Refusal>
    requires { AllZero table_words tables.old }
    ensures { Loaded text.now result tables.new }
{
    let mut counts = [0; PRODUCTION_LIMIT];
    let count = read_lines(text, tables, &mut counts)?;
    with_counts(tables, &counts[..count])
}

// The operation "checking a flat text": how many lines it has, or 27, or 28.
pub fn check_flat(text: &[u8]) -> Result<usize, Refusal>
    ensures { Checked text.now result }
{
    let mut tables = zero_tables();
    load(text, &mut tables)
}
