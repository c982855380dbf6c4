// The operation "reading a text": the parses of a text by a grammar.
#![tactic(auto)]

ghost use Rattle.grammar.specs.Formed.{WellFormed};
ghost use Rattle.parse.specs.Outcome.{Outcome, AcceptedOutcome};

use engine::{Answer, parse_tables};
use flatten::flatten;
use priority::check_grammar;
use refusal::Refusal;
use tables::zero_tables;

// Parses a text. The chart and the listing are lent; what they held before is never read.
pub fn parse(book: &[u8], text: &[u8], chart: &mut [u8], listing: &mut [u8]) -> Answer<Refusal>
    ensures { Outcome book.now text.now chart.old listing.old result chart.new listing.new }
{
    match check_grammar(book) {
        Ok(()) => parse_accepted(book, text, chart, listing),
        Err(refusal) => Answer::Refused(refusal),
    }
}

// The same for an accepted grammar.
pub fn parse_accepted(
    book: &[u8],
    text: &[u8],
    chart: &mut [u8],
    listing: &mut [u8],
) -> Answer<Refusal>
    requires { WellFormed book.now }
    ensures { AcceptedOutcome book.now text.now chart.old listing.old result chart.new listing.new }
{
    let mut tables = zero_tables();
    flatten(book, &mut tables);
    parse_tables(&tables, text, chart, listing)
}
