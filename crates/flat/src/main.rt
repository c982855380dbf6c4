// Reads a grammar (01's book) from standard input and prints its character class grammar (01's flat book), or why it is refused.
#![tactic(auto)]

use flatten::write_flat;
use report::{large_buffer, print_refusal, print_start, read_input};
use std::io;

fn main(rt: HostRuntime) -> io::Result<()> {
    let input = read_input(rt.alloc(), rt.stdin())?;
    let mut out = large_buffer(rt.alloc())?;
    let mut printer = rt.stdout();
    match write_flat(&input, &mut out) {
        Ok(length) => print_start(&mut printer, &out, length),
        Err(refusal) => print_refusal(&mut printer, refusal.fault.number(), refusal.place),
    }
}
