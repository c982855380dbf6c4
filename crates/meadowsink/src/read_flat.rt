// Reading by a flat text.
ghost use Rattle.std.specs.Prelude.{◌≡◌, not, eqb, get_or};
ghost use Rattle.archive.specs.Outcome.{FlatOutcome};
ghost use Rattle.reply.specs.Reply.{number_of, place_of};
ghost use Rattle.meadowsink.specs.Viewer.{UsedOutcome};
ghost use Rattle.meadowsink.specs.Flat.{root_entries, FlatCall};

use crate::read::used_part;
use archive::parse_flat;
use engine::Answer;
use layout::limits::PRODUCTION_LIMIT;
use refusal::Refusal;
use reply::read::read_reply;
use reply::{number, place};

// The entries for the root: yes if the byte is there and is not 0.
fn root_entries(bytes: &[u8]) -> [bool; PRODUCTION_LIMIT]
    ensures { result ≡ root_entries bytes.now }
{
    let mut entries = [false; PRODUCTION_LIMIT];
    for r in 0..PRODUCTION_LIMIT {
        entries[r] = is_yes(bytes, r);
    }
    entries
}

fn is_yes(bytes: &[u8], r: usize) -> bool
    ensures { result ≡ not (eqb (get_or bytes.now r 0) 0) }
{
    r < bytes.len() && bytes[r] != 0
}

// Parses with at most the first 65,536 bytes of the listing's buffer.
fn parse_used(
    flat: &[u8],
    roots: &[u8],
    text: &[u8],
    chart: &mut [u8],
    listing: &mut [u8],
) -> Answer<Refusal>
    ensures { UsedOutcome (FlatOutcome flat.now (root_entries roots.now) text.now) chart.old listing.old result chart.new listing.new }
{
    let most = used_part(listing.len());
    parse_flat(flat, root_entries(roots), text, chart, &mut listing[..most])
}

// The answer of parsing by a flat text.
#[unsafe(no_mangle)]
pub extern "C" fn meadowsink_read_flat(
    flat: &[u8],
    roots: &[u8],
    text: &[u8],
    chart: &mut [u8],
    listing: &mut [u8],
) -> u64
    ensures { FlatCall number_of flat.now roots.now text.now chart.old listing.old result chart.new listing.new }
{
    number(read_reply(parse_used(flat, roots, text, chart, listing)))
}

// Where it is refused. It parses as the call before does.
#[unsafe(no_mangle)]
pub extern "C" fn meadowsink_read_flat_place(
    flat: &[u8],
    roots: &[u8],
    text: &[u8],
    chart: &mut [u8],
    listing: &mut [u8],
) -> u64
    ensures { FlatCall place_of flat.now roots.now text.now chart.old listing.old result chart.new listing.new }
{
    place(read_reply(parse_used(flat, roots, text, chart, listing)))
}
