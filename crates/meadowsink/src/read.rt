// Reading a text.
ghost use Rattle.std.specs.Prelude.{◌≡◌, min};
ghost use Rattle.parse.specs.Outcome.{Outcome};
ghost use Rattle.meadowsink.specs.Viewer.{used_limit, UsedOutcome, ViewerOutcome, PlaceOutcome};

use engine::Answer;
use parse::parse;
use refusal::Refusal;
use reply::read::read_reply;
use reply::{number, place};

// Most bytes of the listing's buffer that a call uses.
pub const USED_LIMIT: usize = 65536;

// How many bytes of a buffer of n a call uses.
pub fn used_part(n: usize) -> usize
    ensures { result ≡ min n used_limit }
{
    n.min(USED_LIMIT)
}

// Parses with at most the first 65,536 bytes of the listing's buffer.
fn parse_used(book: &[u8], text: &[u8], chart: &mut [u8], listing: &mut [u8]) -> Answer<Refusal>
    ensures { UsedOutcome (Outcome book.now text.now) chart.old listing.old result chart.new listing.new }
{
    let most = used_part(listing.len());
    parse(book, text, chart, &mut listing[..most])
}

// The sheet viewer's call (01): the answer of parsing.
#[unsafe(no_mangle)]
pub extern "C" fn meadowsink_read(
    book: &[u8],
    text: &[u8],
    chart: &mut [u8],
    listing: &mut [u8],
) -> u64
    ensures { ViewerOutcome book.now text.now chart.old listing.old result chart.new listing.new }
{
    number(read_reply(parse_used(book, text, chart, listing)))
}

// Where parsing is refused. It parses as the call before does.
#[unsafe(no_mangle)]
pub extern "C" fn meadowsink_read_place(
    book: &[u8],
    text: &[u8],
    chart: &mut [u8],
    listing: &mut [u8],
) -> u64
    ensures { PlaceOutcome book.now text.now chart.old listing.old result chart.new listing.new }
{
    place(read_reply(parse_used(book, text, chart, listing)))
}
