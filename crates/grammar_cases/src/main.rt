// Checks each grammar of its input and prints the verdicts, a line each.
#![tactic(auto)]

use priority::check_grammar;
use refusal::Refusal;
use report::{print_refusal, read_input};
use std::io;
use std::io::Write;

fn main(rt: HostRuntime) -> io::Result<()> {
    let input = read_input(rt.alloc(), rt.stdin())?;
    check_all(&mut rt.stdout(), &input)
}

fn check_all<W: Write>(out: &mut W, input: &[u8]) -> io::Result<()> {
    let mut at = 0;
    while at < input.len() {
        let field = records::field_at(input, at);
        let start = field.start;
        let end = field.end;
        print(out, check_grammar(&input[start..end]))?;
        at = end;
    }
    Ok(())
}

fn print<W: Write>(out: &mut W, verdict: Result<(), Refusal>) -> io::Result<()> {
    match verdict {
        Ok(()) => out.write_all(b"accepted\n"),
        Err(refusal) => print_refusal(out, refusal.fault.number(), refusal.place),
    }
}
