// The lines of a sheet.
ghost use Rattle.meadowsink.specs.Sheet.{SheetCall};
ghost use Rattle.reply.specs.Reply.{number_of, place_of};

use reply::count::count_reply;
use reply::{number, place};
use sheet::read_sheet;

// A summary byte for each line of the sheet.
#[unsafe(no_mangle)]
pub extern "C" fn meadowsink_sheet(
    book: &[u8],
    sheet: &[u8],
    chart: &mut [u8],
    summary: &mut [u8],
) -> u64
    ensures { SheetCall number_of book.now sheet.now chart.old summary.old result chart.new summary.new }
{
    number(count_reply(read_sheet(book, sheet, chart, summary)))
}

// Where the sheet is refused. It reads and writes as the call before does.
#[unsafe(no_mangle)]
pub extern "C" fn meadowsink_sheet_place(
    book: &[u8],
    sheet: &[u8],
    chart: &mut [u8],
    summary: &mut [u8],
) -> u64
    ensures { SheetCall place_of book.now sheet.now chart.old summary.old result chart.new summary.new }
{
    place(count_reply(read_sheet(book, sheet, chart, summary)))
}
