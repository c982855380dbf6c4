// Reads each sheet of its input and takes a step down it; prints what both answer, and what the buffers hold then.
// A case is five fields: the grammar, the sheet, the lengths of the chart and of the summary, and the start of the step.
// Chart and summary are filled with `#` before. Of each the first 12 bytes are printed, a byte outside 32 to 126 as `\` and its number.
#![tactic(auto)]

ghost use Rattle.std.specs.Prelude.{◌<◌, ◌≤◌, length, IfOk};

use records::{bytes_of, field_at, field_from, number_of};
use refusal::Refusal;
use report::{print_quoted, print_refusal, read_input};
use sheet::{read_sheet, walk_once};
use std::io;
use std::io::Write;

// Enough for a line of 200 characters by a grammar of ten rows, and for the summary of the longest sheet.
const LARGEST_BUFFER: usize = 210000;

// How many bytes of a buffer are printed.
const SHOWN: usize = 12;

fn main(rt: HostRuntime) -> io::Result<()> {
    let input = read_input(rt.alloc(), rt.stdin())?;
    run_cases(&mut rt.stdout(), &input)
}

// ---- the input

fn run_cases<W: Write>(out: &mut W, input: &[u8]) -> io::Result<()> {
    let mut at = 0;
    while at < input.len() {
        at = run_case(out, input, at)?;
    }
    Ok(())
}

// One case; the place behind it comes back.
fn run_case<W: Write>(out: &mut W, input: &[u8], at: usize) -> io::Result<usize>
    requires { at < length input.now }
    ensures { IfOk result (λ next. (at < next) × (next ≤ length input.now)) }
{
    let book = field_at(input, at);
    let sheet = field_from(input, book.end);
    run_rest(
        out,
        input,
        sheet.end,
        bytes_of(input, book),
        bytes_of(input, sheet),
    )
}

// The same, with its first two fields found; the others stand at `at`.
fn run_rest<W: Write>(
    out: &mut W,
    input: &[u8],
    at: usize,
    book: &[u8],
    sheet: &[u8],
) -> io::Result<usize>
    requires { at ≤ length input.now }
    ensures { IfOk result (λ next. (at ≤ next) × (next ≤ length input.now)) }
{
    let chart = field_from(input, at);
    let summary = field_from(input, chart.end);
    let start = field_from(input, summary.end);
    let room = number_of(input, chart);
    print_sheet(out, book, sheet, room, number_of(input, summary))?;
    print_step(out, book, sheet, number_of(input, start), room)?;
    Ok(start.end)
}

// ---- the sheet

fn print_sheet<W: Write>(
    out: &mut W,
    book: &[u8],
    sheet: &[u8],
    chart_room: usize,
    summary_room: usize,
) -> io::Result<()> {
    let mut chart = [b'#'; LARGEST_BUFFER];
    let mut summary = [b'#'; LARGEST_BUFFER];
    print_sheet_in(
        out,
        book,
        sheet,
        &mut chart,
        &mut summary,
        chart_room,
        summary_room,
    )
}

// Uses only the first bytes of the buffers, or all of them.
fn print_sheet_in<W: Write>(
    out: &mut W,
    book: &[u8],
    sheet: &[u8],
    chart: &mut [u8],
    summary: &mut [u8],
    chart_room: usize,
    summary_room: usize,
) -> io::Result<()> {
    let chart_length = chart_room.min(chart.len());
    let summary_length = summary_room.min(summary.len());
    print_answer(
        out,
        book,
        sheet,
        &mut chart[..chart_length],
        &mut summary[..summary_length],
    )?;
    print_shown(out, summary)?;
    print_shown(out, chart)
}

fn print_answer<W: Write>(
    out: &mut W,
    book: &[u8],
    sheet: &[u8],
    chart: &mut [u8],
    summary: &mut [u8],
) -> io::Result<()> {
    match read_sheet(book, sheet, chart, summary) {
        Ok(count) => print_number(out, b"lines ", count),
        Err(refusal) => print_refusal(out, refusal.fault.number(), refusal.place),
    }
}

// ---- a step

fn print_step<W: Write>(
    out: &mut W,
    book: &[u8],
    sheet: &[u8],
    start: usize,
    room: usize,
) -> io::Result<()> {
    let mut chart = [b'#'; LARGEST_BUFFER];
    print_step_in(out, book, sheet, start, &mut chart, room)
}

fn print_step_in<W: Write>(
    out: &mut W,
    book: &[u8],
    sheet: &[u8],
    start: usize,
    chart: &mut [u8],
    room: usize,
) -> io::Result<()> {
    let length = room.min(chart.len());
    let stepped = walk_once(book, sheet, start, &mut chart[..length]);
    let step = stepped.step;
    let next = stepped.next;
    print_came(out, step)?;
    print_number(out, b"next ", next)?;
    print_shown(out, chart)
}

fn print_came<W: Write>(out: &mut W, step: Result<Option<u8>, Refusal>) -> io::Result<()> {
    match step {
        Ok(line) => match line {
            None => out.write_all(b"end\n"),
            Some(byte) => print_number(out, b"line ", usize::from(byte)),
        },
        Err(refusal) => print_refusal(out, refusal.fault.number(), refusal.place),
    }
}

// ---- printing

fn print_number<W: Write>(out: &mut W, word: &[u8], n: usize) -> io::Result<()> {
    out.write_all(word)?;
    writeln!(out, "{n}")
}

fn print_shown<W: Write>(out: &mut W, buffer: &[u8]) -> io::Result<()> {
    if SHOWN <= buffer.len() {
        print_quoted(out, &buffer[..SHOWN])?;
    }
    Ok(())
}
