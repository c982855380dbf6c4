// The lines of a sheet: where one ends and the next one starts, and how many there are.
#![tactic(auto)]

ghost use Rattle.std.specs.Prelude.{◌≡◌, suc, min, ◌≤◌, length};
ghost use Rattle.split.specs.Lines.{lines, line_end};

// The byte that ends a line.
const LINE_FEED: u8 = 10;

// Where the line that starts at a place ends: at its line feed, or at the end of the sheet.
pub fn line_end(sheet: &[u8], start: usize) -> usize
    requires { start ≤ length sheet.now }
    ensures { (result ≡ line_end sheet.now start) × (start ≤ result) × (result ≤ length sheet.now) }
{
    for end in start..sheet.len() {
        if sheet[end] == LINE_FEED {
            return end;
        }
    }
    sheet.len()
}

// Where the line behind one that ends at a place starts.
pub fn behind(sheet: &[u8], end: usize) -> usize
    requires { end ≤ length sheet.now }
    ensures { result ≡ min (suc end) (length sheet.now) }
{
    (end + 1).min(sheet.len())
}

// How many lines a sheet has.
pub fn count_lines(sheet: &[u8]) -> usize
    ensures { result ≡ length (lines sheet.now) }
{
    let mut count = 0;
    let mut start = 0;
    while start < sheet.len() {
        start = behind(sheet, line_end(sheet, start));
        count += 1;
    }
    count
}
