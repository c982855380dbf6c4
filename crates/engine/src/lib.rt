// Parses a text by the flat tables, whichever grammar they come from; and the refusals of a text and of its chart.
#![tactic(auto)]

ghost use Rattle.std.specs.Prelude.{◌≡◌, ◌<◌, ◌≤◌, length};
ghost use Rattle.common.specs.Below.{sum_below};
ghost use Rattle.common.specs.Bytes.{byte_values};
ghost use Rattle.chart.specs.Layout.{ChartFits};
ghost use Rattle.tables.specs.Layout.{counts_of, ParserTables};
ghost use Rattle.theory.specs.Counts.{Counts};
ghost use Rattle.prepare.specs.Prepared.{Prepared};
ghost use Rattle.engine.specs.Outcome.{Answered, ChartAfter, Parsed};
ghost use Rattle.engine.specs.Refusals.{too_long, text_refusal};
ghost use Rattle.engine.specs.Roots.{ParseBy, root_term, parsing_by, Filled, TablesOutcome};

use chart::cells::{TEXT_LIMIT, chart_need, entry_of};
use chart::sums::capped;
use common::wide;
use extract::write_only;
use fill::fill;
use prepare::{prepare, zero_prepared};
use refusal::{Fault, Refusal};
use tables::{ROOT_SLOT, argument_count, production_count, takes_production};

// What parsing a text gives: how many parses it has, or why it is refused, here by a Refusal. An enum with these four cases, since 01 names that form.
#[derive(Clone, Copy)]
pub enum Answer<R> {
    None,
    // One; its listing has this many numbers.
    One(usize),
    // Two or more.
    Several,
    Refused(R),
}

// ---- refusals

// 10: the text is over its limit.
pub fn check_text(text: &[u8]) -> Result<(), Refusal>
    ensures { result ≡ too_long text.now }
{
    if TEXT_LIMIT < text.len() {
        return Err(Fault::LongText.at(text.len()));
    }
    Ok(())
}

// 10, and then 20: the chart is too short.
fn check_input(tables: &[u64], text: &[u8], chart: &[u8]) -> Result<(), Refusal>
    requires { ParserTables tables.now }
    ensures { result ≡ text_refusal tables.now text.now chart.now }
{
    check_text(text)?;
    let needed = chart_need(tables, text.len());
    if chart.len() < needed {
        return Err(Fault::ShortChart.at(needed));
    }
    Ok(())
}

// ---- counting

// How many trees production p has for the whole text, if it is allowed at the root: 0, 1, or 2 for more.
fn root_at(chart: &[u8], text: &[u8], tables: &[u64], p: usize) -> usize
    requires chart_fits { ChartFits tables.now (length text.now) chart.now }
    requires p_in_bounds { p < length (counts_of tables.now) }
    ensures value { result ≡ root_term tables.now text.now chart.now p }
    ensures upper_bound { result < byte_values }
{
    if !takes_production(tables, ROOT_SLOT, p) {
        return 0;
    }
    let arity = argument_count(tables, p);
    wide(entry_of(chart, tables, text.len(), p, arity, 0, text.len()))
}

// How many trees all of them have together.
fn root_sum(chart: &[u8], text: &[u8], tables: &[u64]) -> usize
    requires { ChartFits tables.now (length text.now) chart.now }
    ensures { result ≡ sum_below (length (counts_of tables.now)) (root_term tables.now text.now chart.now) }
{
    let mut sum = 0;
    for p in 0..production_count(tables) {
        sum += root_at(chart, text, tables, p);
    }
    sum
}

// The first production that has one.
fn first_root(chart: &[u8], text: &[u8], tables: &[u64]) -> usize
    requires chart_fits { ChartFits tables.now (length text.now) chart.now }
    requires bound { 1 ≤ sum_below (length (counts_of tables.now)) (root_term tables.now text.now chart.now) }
    ensures { (result < length (counts_of tables.now)) × (1 ≤ root_term tables.now text.now chart.now result) }
{
    for p in 0..production_count(tables) {
        if root_at(chart, text, tables, p) > 0 {
            return p;
        }
    }
    unreachable!()
}

// Fills the chart by the tables and what is prepared for them, and counts the parses: 0, 1, or 2 for more.
pub fn count_parses(tables: &[u64], prepared: &[u8], text: &[u8], chart: &mut [u8]) -> u8
    requires chart_fits { ChartFits tables.now (length text.now) chart.old }
    requires prepared { Prepared tables.now prepared.now }
    ensures counts { Counts (ParseBy tables.now text.now) result }
    ensures filled { Filled tables.now text.now chart.new }
    ensures chart_after { ChartAfter (parsing_by tables.now text.now) chart.old chart.new }
{
    fill(chart, text, tables, prepared);
    capped(root_sum(chart, text, tables))
}

// ---- parsing

// Writes the listing of the only parse, as far as there is room.
pub fn write_parse(tables: &[u64], text: &[u8], chart: &[u8], listing: &mut [u8]) -> Answer<Refusal>
    requires filled { Filled tables.now text.now chart.now }
    requires counts { Counts (ParseBy tables.now text.now) 1 }
    ensures { Answered (ParseBy tables.now text.now) listing.old result listing.new }
{
    let root = first_root(chart, text, tables);
    let next = write_only(chart, text, tables, listing, root);
    if listing.len() / 2 < next {
        return Answer::Refused(Fault::LongListing.at(listing.len() / 2));
    }
    Answer::One(next)
}

// Fills a chart that fits; a text with one parse has its listing written, as far as there is room.
fn parse_fitting(
    tables: &[u64],
    prepared: &[u8],
    text: &[u8],
    chart: &mut [u8],
    listing: &mut [u8],
) -> Answer<Refusal>
    requires chart_fits { ChartFits tables.now (length text.now) chart.old }
    requires prepared { Prepared tables.now prepared.now }
    ensures { Parsed (parsing_by tables.now text.now) chart.old listing.old result chart.new listing.new }
{
    let found = count_parses(tables, prepared, text, chart);
    if found == 0 {
        return Answer::None;
    }
    if 1 < found {
        return Answer::Several;
    }
    write_parse(tables, text, chart, listing)
}

// Parses a text by tables and what is prepared for them, which serves any number of texts: 10, 20, and then the answer.
pub fn parse_prepared(
    tables: &[u64],
    prepared: &[u8],
    text: &[u8],
    chart: &mut [u8],
    listing: &mut [u8],
) -> Answer<Refusal>
    requires parser_tables { ParserTables tables.now }
    requires prepared { Prepared tables.now prepared.now }
    ensures { TablesOutcome tables.now text.now chart.old listing.old result chart.new listing.new }
{
    match check_input(tables, text, chart) {
        Ok(()) => parse_fitting(tables, prepared, text, chart, listing),
        Err(refusal) => Answer::Refused(refusal),
    }
}

// Parses one text by tables.
pub fn parse_tables(
    tables: &[u64],
    text: &[u8],
    chart: &mut [u8],
    listing: &mut [u8],
) -> Answer<Refusal>
    requires { ParserTables tables.now }
    ensures { TablesOutcome tables.now text.now chart.old listing.old result chart.new listing.new }
{
    let mut prepared = zero_prepared();
    prepare(tables, &mut prepared);
    parse_prepared(tables, &prepared, text, chart, listing)
}
