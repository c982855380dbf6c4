// Asks the conflict question for each grammar of its input and prints the answers, a line each.
// A case is two fields: the grammar, and three bytes for production p, argument i and production q.
#![tactic(auto)]

ghost use Rattle.std.specs.Prelude.{◌≤◌, length, IfOk};

use common::wide;
use question::conflict;
use records::field_at;
use refusal::Refusal;
use report::{print_refusal, read_input};
use std::io;
use std::io::Write;

fn main(rt: HostRuntime) -> io::Result<()> {
    let input = read_input(rt.alloc(), rt.stdin())?;
    ask_all(&mut rt.stdout(), &input)
}

fn ask_all<W: Write>(out: &mut W, input: &[u8]) -> io::Result<()> {
    let mut at = 0;
    while at < input.len() {
        let book = field_at(input, at);
        let start = book.start;
        let end = book.end;
        at = ask(out, input, start, end)?;
    }
    Ok(())
}

// One case; the place behind it comes back.
fn ask<W: Write>(out: &mut W, input: &[u8], start: usize, end: usize) -> io::Result<usize>
    requires { (start ≤ end) × (end ≤ length input.now) }
    ensures { IfOk result (λ next. (end ≤ next) × (next ≤ length input.now)) }
{
    if end == input.len() {
        return Ok(end);
    }
    let question = field_at(input, end);
    let from = question.start;
    let to = question.end;
    if to - from == 3 {
        let answer = conflict(
            &input[start..end],
            wide(input[from]),
            wide(input[from + 1]),
            wide(input[from + 2]),
        );
        print(out, answer)?;
    }
    Ok(to)
}

fn print<W: Write>(out: &mut W, answer: Result<bool, Refusal>) -> io::Result<()> {
    match answer {
        Ok(true) => out.write_all(b"yes\n"),
        Ok(false) => out.write_all(b"no\n"),
        Err(refusal) => print_refusal(out, refusal.fault.number(), refusal.place),
    }
}
