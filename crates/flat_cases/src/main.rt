// Writes the character class grammar of each grammar of its input and prints it, or why it is refused.
// A case is two fields: the grammar, and two bytes with the length of the buffer, low byte first.
#![tactic(auto)]

ghost use Rattle.std.specs.Prelude.{◌≤◌, length, IfOk};

use common::two_bytes;
use flatten::write_flat;
use records::field_at;
use refusal::Refusal;
use report::{large_buffer, print_refusal, print_start, read_input};
use std::alloc::Global;
use std::io;
use std::io::Write;

fn main(rt: HostRuntime) -> io::Result<()> {
    let input = read_input(rt.alloc(), rt.stdin())?;
    write_cases(rt.alloc(), &mut rt.stdout(), &input)
}

fn write_cases<W: Write>(alloc: Global, printer: &mut W, input: &[u8]) -> io::Result<()> {
    let mut at = 0;
    while at < input.len() {
        let book = field_at(input, at);
        let start = book.start;
        let end = book.end;
        at = write_case(alloc, printer, input, start, end)?;
    }
    Ok(())
}

// One case; the place behind it comes back.
fn write_case<W: Write>(
    alloc: Global,
    printer: &mut W,
    input: &[u8],
    start: usize,
    end: usize,
) -> io::Result<usize>
    requires { (start ≤ end) × (end ≤ length input.now) }
    ensures { IfOk result (λ next. (end ≤ next) × (next ≤ length input.now)) }
{
    if end == input.len() {
        return Ok(end);
    }
    let room = field_at(input, end);
    let from = room.start;
    let to = room.end;
    if to - from == 2 {
        print_flat(alloc, printer, &input[start..end], two_bytes(input, from))?;
    }
    Ok(to)
}

fn print_flat<W: Write>(
    alloc: Global,
    printer: &mut W,
    book: &[u8],
    room: usize,
) -> io::Result<()> {
    let mut out = large_buffer(alloc)?;
    match write_within(book, &mut out, room) {
        Ok(length) => print_start(printer, &out, length),
        Err(refusal) => print_refusal(printer, refusal.fault.number(), refusal.place),
    }
}

// Uses only the first `room` bytes of the buffer, or all of it.
fn write_within(book: &[u8], out: &mut [u8], room: usize) -> Result<usize, Refusal> {
    let used = room.min(out.len());
    write_flat(book, &mut out[..used])
}
