// A sheet: each line is read from its own part of it. The operations "a sheet", which writes a summary byte for each line, and "a step down a sheet".
#![tactic(auto)]

ghost use Rattle.std.specs.Prelude.{◌≡◌, ◌≤◌, ltb, length};
ghost use Rattle.grammar.specs.Formed.{WellFormed};
ghost use Rattle.prepare.specs.Prepared.{Prepared};
ghost use Rattle.tables.specs.Layout.{ParserTables};
ghost use Rattle.split.specs.Lines.{lines};
ghost use Rattle.sheet.specs.Refusals.{step_refusal, sheet_refusal};
ghost use Rattle.sheet.specs.Outcome.{byte_of, fault_byte, TablesLine, Summed, LineBy, SheetOutcome, StepFrom, StepOutcome};

use engine::{Answer, parse_prepared};
use flatten::flatten;
use parse::parse_accepted;
use prepare::{prepare, zero_prepared};
use priority::check_grammar;
use refusal::{Fault, Refusal};
use split::{behind, count_lines, line_end};
use tables::zero_tables;

// Most bytes of a sheet.
const SHEET_LIMIT: usize = 65535;

// Bytes of a buffer that has room for no number: no listing is written.
const NO_LISTING: usize = 1;

// A step down a sheet: the summary byte of a line, nothing if no line is left, or why it is refused, here by a Refusal; and where the next line starts after it.
#[derive(Clone, Copy)]
pub struct Stepped<R> {
    pub step: Result<Option<u8>, R>,
    pub next: usize,
}

// Goes down a sheet: the sheet, and where the next line starts.
#[derive(Drop)]
pub struct Walker<'a> {
    pub sheet: &'a [u8],
    pub next: usize,
}

// ---- refusals

// The grammar's, and then 25: the sheet is over its limit.
fn check_sheet(book: &[u8], sheet: &[u8]) -> Result<(), Refusal>
    ensures { result ≡ step_refusal book.now sheet.now }
{
    check_grammar(book)?;
    if SHEET_LIMIT < sheet.len() {
        return Err(Fault::LongSheet.at(sheet.len()));
    }
    Ok(())
}

// These, and then 26: the summary is too short.
fn check_summary(book: &[u8], sheet: &[u8], summary: &[u8]) -> Result<(), Refusal>
    ensures { result ≡ sheet_refusal book.now sheet.now summary.now }
{
    check_sheet(book, sheet)?;
    let needed = count_lines(sheet);
    if summary.len() < needed {
        return Err(Fault::ShortSummary.at(needed));
    }
    Ok(())
}

// ---- a line

// The summary byte of what reading a line answers. By 22 there is one reading, whose listing has no room.
fn summary_byte(answer: Answer<Refusal>) -> u8
    ensures { result ≡ byte_of answer }
{
    match answer {
        Answer::None => 0,
        Answer::One(_) => 1,
        Answer::Several => 2,
        Answer::Refused(refusal) => refused_byte(refusal.fault),
    }
}

// That of a line that is refused.
fn refused_byte(fault: Fault) -> u8
    ensures { result ≡ fault_byte fault }
{
    match fault {
        Fault::LongListing => 1,
        _ => 3,
    }
}

// Reads a line by tables and what is prepared for them.
fn read_line(tables: &[u64], prepared: &[u8], line: &[u8], chart: &mut [u8]) -> u8
    requires parser_tables { ParserTables tables.now }
    requires prepared { Prepared tables.now prepared.now }
    ensures { TablesLine tables.now line.now chart.old result chart.new }
{
    let mut listing = [0; NO_LISTING];
    let answer = parse_prepared(tables, prepared, line, chart, &mut listing);
    summary_byte(answer)
}

// ---- the sheet

// Reads each line in turn, and writes its byte.
fn read_lines(tables: &[u64], prepared: &[u8], sheet: &[u8], chart: &mut [u8], summary: &mut [u8])
    requires parser_tables { ParserTables tables.now }
    requires prepared { Prepared tables.now prepared.now }
    requires sheet_in_bounds { length (lines sheet.now) ≤ length summary.old }
    ensures { Summed (TablesLine tables.now) sheet.now chart.old summary.old chart.new summary.new }
{
    let mut line = 0;
    let mut start = 0;
    while start < sheet.len() {
        let end = line_end(sheet, start);
        summary[line] = read_line(tables, prepared, &sheet[start..end], chart);
        start = behind(sheet, end);
        line += 1;
    }
}

// The grammar is flattened and its tables prepared once for all lines.
fn read_accepted(book: &[u8], sheet: &[u8], chart: &mut [u8], summary: &mut [u8])
    requires well_formed { WellFormed book.now }
    requires sheet_in_bounds { length (lines sheet.now) ≤ length summary.old }
    ensures { Summed (LineBy book.now) sheet.now chart.old summary.old chart.new summary.new }
{
    let mut tables = zero_tables();
    flatten(book, &mut tables);
    let mut prepared = zero_prepared();
    prepare(&tables, &mut prepared);
    read_lines(&tables, &prepared, sheet, chart, summary);
}

// The operation "a sheet": a summary byte for each line, and how many lines there are.
pub fn read_sheet(
    book: &[u8],
    sheet: &[u8],
    chart: &mut [u8],
    summary: &mut [u8],
) -> Result<usize, Refusal>
    ensures { SheetOutcome book.now sheet.now chart.old summary.old result chart.new summary.new }
{
    check_summary(book, sheet, summary)?;
    read_accepted(book, sheet, chart, summary);
    Ok(count_lines(sheet))
}

// ---- a step

// The operation "a step down a sheet": the line that starts at a place, and where the next one starts.
pub fn step_at(book: &[u8], sheet: &[u8], start: usize, chart: &mut [u8]) -> Stepped<Refusal>
    ensures { StepOutcome book.now sheet.now start chart.old result.step result.next chart.new }
{
    match check_sheet(book, sheet) {
        Err(refusal) => Stepped {
            step: Err(refusal),
            next: start,
        },
        Ok(()) => step_accepted(book, sheet, start, chart),
    }
}

// The same for an accepted grammar and a sheet within its limit.
fn step_accepted(book: &[u8], sheet: &[u8], start: usize, chart: &mut [u8]) -> Stepped<Refusal>
    requires { WellFormed book.now }
    ensures { StepFrom (ltb start (length sheet.now)) book.now sheet.now start chart.old result.step result.next chart.new }
{
    if sheet.len() <= start {
        return Stepped {
            step: Ok(None),
            next: start,
        };
    }
    let end = line_end(sheet, start);
    let byte = read_alone(book, &sheet[start..end], chart);
    Stepped {
        step: Ok(Some(byte)),
        next: behind(sheet, end),
    }
}

// Reads one line by a grammar.
fn read_alone(book: &[u8], line: &[u8], chart: &mut [u8]) -> u8
    requires { WellFormed book.now }
    ensures { LineBy book.now line.now chart.old result chart.new }
{
    let mut listing = [0; NO_LISTING];
    let answer = parse_accepted(book, line, chart, &mut listing);
    summary_byte(answer)
}

// ---- the walker

// A walker that begins at a place of the sheet.
pub fn walk_from<'a>(sheet: &'a [u8], start: usize) -> Walker<'a>
    ensures { (result.sheet ≡ sheet.entry) × (result.next ≡ start) }
{
    Walker { sheet, next: start }
}

// One step: the walker moves to where the next line starts. Refused, or with no line left, it stays where it is.
pub fn next_line<'s, 'a, 'b, 'c>(
    walker: &'s mut Walker<'a>,
    book: &'b [u8],
    chart: &'c mut [u8],
) -> Result<Option<u8>, Refusal>
    ensures { (walker.new.sheet ≡ walker.old.sheet) × StepOutcome book.now walker.old.sheet.now walker.old.next chart.old result walker.new.next chart.new }
{
    let stepped = step_at(book, walker.sheet, walker.next, chart);
    walker.next = stepped.next;
    stepped.step
}

// One step of a walker that begins at a place, for callers that keep the place themselves.
pub fn walk_once(book: &[u8], sheet: &[u8], from: usize, chart: &mut [u8]) -> Stepped<Refusal>
    ensures { StepOutcome book.now sheet.now from chart.old result.step result.next chart.new }
{
    let mut walker = walk_from(sheet, from);
    let step = next_line(&mut walker, book, chart);
    Stepped {
        step,
        next: walker.next,
    }
}
