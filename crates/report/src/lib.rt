// What the programs read and print: an input's bytes, the buffers for an answer, and the lines of an answer.
// A contract names the bytes where the reader or the writer says which it has; standard input and output don't.
#![tactic(auto)]

ghost use Rattle.std.specs.Prelude.{◌≡◌, ◌++◌, ◌≤◌, ◌<◌, length, take, replicate, codes, decimal, IfOk, OnOk, IfSome, vec_len};
ghost use Rattle.std.specs.Io.KnownBytes.{Appends, Keeps};
ghost use Rattle.report.specs.Lines.{refusal_line, quoted_byte, quoted_line};

use std::alloc::{AllocError, Global};
use std::io;
use std::io::{Read, Write};

// How many bytes of an input count, and how long a buffer for an answer is.
const BUFFER_LENGTH: usize = 65536;

// ---- input and buffers

// The bytes of an input; of a longer one the first 65,536.
pub fn read_input<R: Read + Drop>(alloc: Global, reader: R) -> io::Result<Vec<u8>>
    ensures longest { IfOk result (λ bytes. vec_len bytes ≤ 65536) }
    ensures value { IfOk result (λ bytes. IfSome (R.remaining reader) (λ all. bytes.items ≡ take 65536 all)) }
{
    let mut bytes = Vec::new(alloc);
    reader.take(BUFFER_LENGTH as u64).read_to_end(&mut bytes)?;
    bytes.truncate(BUFFER_LENGTH);
    Ok(bytes)
}

// 65,536 zeros.
pub fn large_buffer(alloc: Global) -> Result<Vec<u8>, AllocError>
    ensures { IfOk result (λ buffer. buffer.items ≡ replicate 65536 0) }
{
    let buffer = vec![in alloc; 0; BUFFER_LENGTH]?;
    Ok(buffer)
}

// ---- output

// The first `count` bytes of a buffer; nothing if it has fewer.
pub fn print_start<W: Write>(out: &mut W, buffer: &[u8], count: usize) -> io::Result<()>
    ensures start { count ≤ length buffer.now → OnOk result (Appends (W.contents out.old) (W.contents out.new) (take count buffer.now)) }
    ensures nothing { length buffer.now < count → OnOk result (Keeps (W.contents out.old) (W.contents out.new)) }
{
    if count <= buffer.len() {
        out.write_all(&buffer[..count])?;
    }
    Ok(())
}

// 01's line for a refusal.
pub fn print_refusal<W: Write>(out: &mut W, number: usize, place: usize) -> io::Result<()>
    ensures { OnOk result (Appends (W.contents out.old) (W.contents out.new) (refusal_line number place)) }
{
    writeln!(out, "refused {number} {place}")
}

// Bytes as they are, and a line feed.
pub fn print_line<W: Write>(out: &mut W, bytes: &[u8]) -> io::Result<()>
    ensures { OnOk result (Appends (W.contents out.old) (W.contents out.new) (bytes.now ++ codes "\n")) }
{
    out.write_all(bytes)?;
    out.write_all(b"\n")
}

// Bytes in quotes, and a line feed; a byte outside 32 to 126 as `\` and its number.
pub fn print_quoted<W: Write>(out: &mut W, bytes: &[u8]) -> io::Result<()>
    ensures { OnOk result (Appends (W.contents out.old) (W.contents out.new) (quoted_line bytes.now)) }
{
    out.write_all(b"\"")?;
    for byte in bytes {
        print_byte(out, *byte)?;
    }
    out.write_all(b"\"\n")
}

fn print_byte<W: Write>(out: &mut W, byte: u8) -> io::Result<()>
    ensures { OnOk result (Appends (W.contents out.old) (W.contents out.new) (quoted_byte byte)) }
{
    if byte < b' ' || b'~' < byte {
        return print_number(out, byte);
    }
    out.write_all(&[byte])
}

fn print_number<W: Write>(out: &mut W, byte: u8) -> io::Result<()>
    ensures { OnOk result (Appends (W.contents out.old) (W.contents out.new) (codes "\\" ++ decimal byte)) }
{
    write!(out, "\\{byte}")
}
