// Reads a grammar (01's book) from the file `book` and a text from standard input, and prints the answer: none, several, one and the numbers of the listing,
// or why it is refused.
#![tactic(auto)]

ghost use Rattle.std.specs.Prelude.{◌+◌, ◌*◌, ◌++◌, ◌≤◌, ◌<◌, length, codes, IfOk, OnOk, vec_len};
ghost use Rattle.std.specs.Io.KnownBytes.{Appends};
ghost use Rattle.engine.specs.declared.Answer.{Answer};
ghost use Rattle.parse.specs.Outcome.{Outcome};
ghost use Rattle.refusal.specs.declared.Refusal.{Refusal};
ghost use Rattle.reading.specs.Line.{spaced, spaced_numbers, answer_line};

use common::two_bytes;
use engine::Answer;
use parse::parse;
use report::{large_buffer, print_refusal, read_input};
use std::fs::{File, Files};
use std::io;
use std::io::Write;

fn main(rt: HostRuntime) -> io::Result<()> {
    let book = read_book(&rt)?;
    let text = read_input(rt.alloc(), rt.stdin())?;
    let mut chart = large_buffer(rt.alloc())?;
    let mut listing = large_buffer(rt.alloc())?;
    print_answer(&mut rt.stdout(), &book, &text, &mut chart, &mut listing)
}

// Reads the text by the grammar, in the buffers, and prints the answer: an outcome of parsing, and for a listing the numbers that the buffer then has.
fn print_answer<W: Write>(
    out: &mut W,
    book: &[u8],
    text: &[u8],
    chart: &mut [u8],
    listing: &mut [u8],
) -> io::Result<()>
    ensures { OnOk result ((answer : Answer Refusal) × Outcome book.now text.now chart.old listing.old answer chart.new listing.new
        × Appends (W.contents out.old) (W.contents out.new) (answer_line answer listing.new)) }
{
    match parse(book, text, chart, listing) {
        Answer::None => print_word(out, b"none\n"),
        Answer::One(count) => print_listing(out, listing, count),
        Answer::Several => print_word(out, b"several\n"),
        Answer::Refused(refusal) => print_refusal(out, refusal.fault.number(), refusal.place),
    }
}

// The bytes of the file `book`, or of a longer one the first 65,536; a file that can't be opened counts as empty.
fn read_book(rt: &(impl Files + AllocGlobal)) -> io::Result<Vec<u8>>
    ensures { IfOk result (λ book. vec_len book ≤ 65536) }
{
    match File::open(rt, "book") {
        Ok(file) => read_input(rt.alloc(), file),
        Err(_) => Ok(Vec::new(rt.alloc())),
    }
}

fn print_word<W: Write>(out: &mut W, word: &[u8]) -> io::Result<()>
    ensures { OnOk result (Appends (W.contents out.old) (W.contents out.new) word.now) }
{
    out.write_all(word)
}

// The first `count` numbers of a listing, each behind a space: number by number, since the line may be longer than a buffer.
fn print_listing<W: Write>(out: &mut W, listing: &[u8], count: usize) -> io::Result<()>
    requires { 2 * count ≤ length listing.now }
    ensures { OnOk result (Appends (W.contents out.old) (W.contents out.new) (codes "one" ++ (spaced_numbers listing.now count ++ codes "\n"))) }
{
    print_word(out, b"one")?;
    for at in 0..count {
        print_number(out, listing, 2 * at)?;
    }
    print_word(out, b"\n")
}

// The number at a place of the buffer: two bytes, low byte first.
fn print_number<W: Write>(out: &mut W, listing: &[u8], at: usize) -> io::Result<()>
    requires { at + 1 < length listing.now }
    ensures { OnOk result (Appends (W.contents out.old) (W.contents out.new) (spaced listing.now at)) }
{
    let number = two_bytes(listing, at);
    write!(out, " {number}")
}
