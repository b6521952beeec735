// What the programs that replay recorded answers share: a list read whole, and bytes in hexadecimal.
#![tactic(auto)]

ghost use Rattle.std.specs.Prelude.{◌≡◌, ◌≤◌, length, IfOk, OnErr};

use std::io::{self, Read, Write};

// Reads until the buffer is full or the input ends, and returns how many bytes it put at the start of the buffer. An error is the input's own,
// and leaves there what was read before it; a read that a signal interrupts counts as one that failed.
pub fn read_full<R: Read>(input: &mut R, buffer: &mut [u8]) -> io::Result<usize>
    ensures ok { IfOk result (λ n. n ≤ length buffer.new) }
    ensures err { OnErr result (length buffer.new ≡ length buffer.old) }
{
    let mut done = 0;
    while done < buffer.len() {
        let n = input.read(&mut buffer[done..])?;
        if n == 0 {
            break;
        }
        done += n;
    }
    Ok(done)
}

// A nibble as a hexadecimal digit.
fn nibble(x: u8) -> u8 {
    let n = x % 16;
    if n < 10 {
        return 48 + n;
    }
    55 + n
}

fn put<W: Write>(out: &mut W, b: u8) -> io::Result<()> {
    let pair = [nibble(b / 16), nibble(b)];
    out.write_all(&pair)
}

// The first n bytes, or nothing where there are fewer. An error is the writer's own, after which some of them may have been written.
pub fn hex<W: Write>(out: &mut W, bytes: &[u8], n: usize) -> io::Result<()> {
    if bytes.len() < n {
        return Ok(());
    }
    for b in &bytes[..n] {
        put(out, *b)?;
    }
    Ok(())
}
