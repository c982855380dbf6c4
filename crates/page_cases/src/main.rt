// Writes the page of each case of its input and prints it, or why it is refused; then the text under number 0 and the text under an index.
// A case is five fields: the grammar, the text, the listing, the length of the page's buffer and the index, these two as numbers of up to three bytes, low byte first.
// The buffer is filled with `#` before. Of a page of more than 20 lines the first and the last two are printed; behind a page comes a line with what the buffer
// has beyond it, behind a refusal one with all that it has. Of a text, a byte outside 32 to 126 is printed as `\` and its number.
#![tactic(auto)]

ghost use Rattle.std.specs.Prelude.{◌<◌, ◌≤◌, length, IfOk};

use lines::LINE_LENGTH;
use page::{text_under, write_page};
use records::{bytes_of, field_at, field_from, number_of};
use report::{print_line, print_quoted, print_refusal, print_start, read_input};
use std::io;
use std::io::Write;

// Enough for the longest page, of 4,096 lines.
const LARGEST_BUFFER: usize = 300000;

// How long a page is that is printed whole.
const SHORT_PAGE: usize = 20 * LINE_LENGTH;

fn main(rt: HostRuntime) -> io::Result<()> {
    let input = read_input(rt.alloc(), rt.stdin())?;
    run_cases(&mut rt.stdout(), &input)
}

// ---- the input

fn run_cases<W: Write>(out: &mut W, input: &[u8]) -> io::Result<()> {
    let mut at = 0;
    while at < input.len() {
        at = run_case(out, input, at)?;
    }
    Ok(())
}

// One case; the place behind it comes back.
fn run_case<W: Write>(out: &mut W, input: &[u8], at: usize) -> io::Result<usize>
    requires { at < length input.now }
    ensures { IfOk result (λ next. (at < next) × (next ≤ length input.now)) }
{
    let book = field_at(input, at);
    let text = field_from(input, book.end);
    let listing = field_from(input, text.end);
    run_rest(
        out,
        input,
        listing.end,
        bytes_of(input, book),
        bytes_of(input, text),
        bytes_of(input, listing),
    )
}

// The same, with its first three fields found; the others stand at `at`.
fn run_rest<W: Write>(
    out: &mut W,
    input: &[u8],
    at: usize,
    book: &[u8],
    text: &[u8],
    listing: &[u8],
) -> io::Result<usize>
    requires { at ≤ length input.now }
    ensures { IfOk result (λ next. (at ≤ next) × (next ≤ length input.now)) }
{
    let room = field_from(input, at);
    let index = field_from(input, room.end);
    print_page(out, book, text, listing, number_of(input, room))?;
    print_texts(out, book, text, listing, number_of(input, index))?;
    Ok(index.end)
}

// ---- the page

fn print_page<W: Write>(
    out: &mut W,
    book: &[u8],
    text: &[u8],
    listing: &[u8],
    room: usize,
) -> io::Result<()> {
    let mut buffer = [b'#'; LARGEST_BUFFER];
    print_page_in(out, book, text, listing, &mut buffer, room)
}

// Uses only the first `room` bytes of the buffer, or all of it.
fn print_page_in<W: Write>(
    out: &mut W,
    book: &[u8],
    text: &[u8],
    listing: &[u8],
    buffer: &mut [u8],
    room: usize,
) -> io::Result<()> {
    let used = room.min(buffer.len());
    print_answer(out, book, text, listing, &mut buffer[..used])
}

fn print_answer<W: Write>(
    out: &mut W,
    book: &[u8],
    text: &[u8],
    listing: &[u8],
    page: &mut [u8],
) -> io::Result<()> {
    match write_page(book, text, listing, page) {
        Ok(length) => print_written(out, page, length),
        Err(refusal) => {
            print_refusal(out, refusal.fault.number(), refusal.place)?;
            print_line(out, page)
        }
    }
}

fn print_written<W: Write>(out: &mut W, page: &[u8], length: usize) -> io::Result<()> {
    writeln!(out, "written {length}")?;
    if length <= page.len() {
        print_lines(out, page, length)?;
        print_line(out, &page[length..])?;
    }
    Ok(())
}

// The page in the first n bytes.
fn print_lines<W: Write>(out: &mut W, page: &[u8], n: usize) -> io::Result<()>
    requires { n ≤ length page.now }
{
    if n <= SHORT_PAGE {
        return print_start(out, page, n);
    }
    let last = n - 2 * LINE_LENGTH;
    print_start(out, page, LINE_LENGTH)?;
    out.write_all(&page[last..n])
}

// ---- the text under a number

// Both parts of the text are held before either is printed.
fn print_texts<W: Write>(
    out: &mut W,
    book: &[u8],
    text: &[u8],
    listing: &[u8],
    index: usize,
) -> io::Result<()> {
    let first = text_under(book, text, listing, 0);
    let other = text_under(book, text, listing, index);
    print_quoted(out, first)?;
    print_quoted(out, other)
}
