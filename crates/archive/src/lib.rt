// The operation "reading by a flat text" (02, [7]): the parses of a text by a written character class grammar (01's flat book) alone.
#![tactic(auto)]

ghost use Rattle.std.specs.Prelude.{◌≡◌};
ghost use Rattle.ccg.specs.Tables.{table_grammar};
ghost use Rattle.refusal.specs.Verdict.{accepted};
ghost use Rattle.load.specs.Absent.{absent_names};
ghost use Rattle.tables.specs.Layout.{ParserTables};
ghost use Rattle.archive.specs.Outcome.{GrammarOutcome, FlatOutcome};

use charset::CharSet;
use engine::{Answer, parse_tables};
use layout::limits::PRODUCTION_LIMIT;
use load::{check_class, load};
use refusal::Refusal;
use tables::{ProductionSet, ROOT_SLOT, production_count, put_class, zero_tables};

// Parses a text by a flat text and the lines allowed at the root: 27, 28, 10 and 20 in order, and then the answer. What chart and listing held before is never read.
pub fn parse_flat(
    flat: &[u8],
    roots: [bool; PRODUCTION_LIMIT],
    text: &[u8],
    chart: &mut [u8],
    listing: &mut [u8],
) -> Answer<Refusal>
    ensures { FlatOutcome flat.now roots text.now chart.old listing.old result chart.new listing.new }
{
    let mut tables = zero_tables();
    match load(flat, &mut tables) {
        Ok(_) => parse_loaded(&mut tables, roots, text, chart, listing),
        Err(flaw) => Answer::Refused(flaw),
    }
}

// By tables none of whose classes names a line that isn't there: 28 for the root, and then as by any tables.
fn parse_loaded(
    tables: &mut [u64],
    roots: [bool; PRODUCTION_LIMIT],
    text: &[u8],
    chart: &mut [u8],
    listing: &mut [u8],
) -> Answer<Refusal>
    requires { ParserTables tables.old × (absent_names (table_grammar tables.old) ≡ accepted) }
    ensures { GrammarOutcome (table_grammar tables.old) roots text.now chart.old listing.old result chart.new listing.new }
{
    put_class(
        tables,
        ROOT_SLOT,
        CharSet::empty(),
        ProductionSet::of(roots),
    );
    match check_class(tables, ROOT_SLOT, production_count(tables)) {
        Ok(()) => parse_tables(tables, text, chart, listing),
        Err(refusal) => Answer::Refused(refusal),
    }
}
