// A step down a sheet.
ghost use Rattle.meadowsink.specs.Sheet.{StepCall};
ghost use Rattle.reply.specs.Reply.{number_of, place_of};

use reply::step::step_reply;
use reply::{number, place};
use sheet::walk_once;

// The line that starts at a place of the sheet.
#[unsafe(no_mangle)]
pub extern "C" fn meadowsink_sheet_step(
    book: &[u8],
    sheet: &[u8],
    start: usize,
    chart: &mut [u8],
) -> u64
    ensures { StepCall number_of book.now sheet.now start chart.old result chart.new }
{
    number(step_reply(walk_once(book, sheet, start, chart)))
}

// Where the step is refused. It reads as the call before does.
#[unsafe(no_mangle)]
pub extern "C" fn meadowsink_sheet_step_place(
    book: &[u8],
    sheet: &[u8],
    start: usize,
    chart: &mut [u8],
) -> u64
    ensures { StepCall place_of book.now sheet.now start chart.old result chart.new }
{
    place(step_reply(walk_once(book, sheet, start, chart)))
}
