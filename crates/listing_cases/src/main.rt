// Checks each listing of its input and prints the answers, a line each.
// A case is three fields: the grammar, the text and the listing.
#![tactic(auto)]

ghost use Rattle.std.specs.Prelude.{◌≤◌, length, IfOk};

use listing::{Judgement, check_listing};
use records::field_at;
use refusal::Refusal;
use report::{print_refusal, read_input};
use std::io;
use std::io::Write;

fn main(rt: HostRuntime) -> io::Result<()> {
    let input = read_input(rt.alloc(), rt.stdin())?;
    check_all(&mut rt.stdout(), &input)
}

fn check_all<W: Write>(out: &mut W, input: &[u8]) -> io::Result<()> {
    let mut at = 0;
    while at < input.len() {
        let book = field_at(input, at);
        let start = book.start;
        let end = book.end;
        at = check_text(out, input, start, end)?;
    }
    Ok(())
}

// One case, whose grammar stands from start to end; the place behind the case comes back.
fn check_text<W: Write>(out: &mut W, input: &[u8], start: usize, end: usize) -> io::Result<usize>
    requires { (start ≤ end) × (end ≤ length input.now) }
    ensures { IfOk result (λ next. (end ≤ next) × (next ≤ length input.now)) }
{
    if end == input.len() {
        return Ok(end);
    }
    let text = field_at(input, end);
    let from = text.start;
    let to = text.end;
    check_case(out, input, start, end, from, to)
}

// The same, its text from `from` to `to`.
fn check_case<W: Write>(
    out: &mut W,
    input: &[u8],
    start: usize,
    end: usize,
    from: usize,
    to: usize,
) -> io::Result<usize>
    requires { (start ≤ end) × (end ≤ to) × (from ≤ to) × (to ≤ length input.now) }
    ensures { IfOk result (λ next. (to ≤ next) × (next ≤ length input.now)) }
{
    if to == input.len() {
        return Ok(to);
    }
    let listing = field_at(input, to);
    let first = listing.start;
    let last = listing.end;
    print(
        out,
        check_listing(&input[start..end], &input[from..to], &input[first..last]),
    )?;
    Ok(last)
}

fn print<W: Write>(out: &mut W, answer: Result<Judgement, Refusal>) -> io::Result<()> {
    match answer {
        Ok(judgement) => match judgement {
            Judgement::Right => out.write_all(b"right\n"),
            Judgement::Wrong(index) => print_index(out, index),
        },
        Err(refusal) => print_refusal(out, refusal.fault.number(), refusal.place),
    }
}

fn print_index<W: Write>(out: &mut W, index: usize) -> io::Result<()> {
    writeln!(out, "wrong {index}")
}
