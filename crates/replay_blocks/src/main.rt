// Replays recorded answers of the Rust: each record of standard input is a block's length and a parity, two bytes each, and the block. A
// line for each: the refusal number, the count, and the block as it is left. `compare/run record blocks` made stdin, and stdout from the
// Rust's answers.
#![tactic(auto)]

ghost use Rattle.std.specs.Prelude.{◌≡◌, ◌≤◌, ◌<◌, length, IfOk, OnErr};

use corrector::Correction;
use std::io::{self, Write};

fn two(high: u8, low: u8) -> usize
    ensures { result < 65536 }
{
    bits::as_usize(high) * 256 + bits::as_usize(low)
}

fn number<W: Write>(out: &mut W, n: usize) -> io::Result<()> {
    write!(out, "{n} ")
}

fn one<W: Write>(out: &mut W, block: &mut [u8], parity: usize) -> io::Result<()> {
    match corrector::correct(block, parity) {
        Correction::Corrected(n) => {
            number(out, 0)?;
            number(out, n)?;
        }
        Correction::Unfit => {
            number(out, 5)?;
            number(out, 0)?;
        }
        Correction::TooManyErased => {
            number(out, 15)?;
            number(out, 0)?;
        }
        Correction::OutOfReach => {
            number(out, 6)?;
            number(out, 0)?;
        }
    }
    replay::hex(out, block, block.len())?;
    out.write_all(b"\n")
}

// The record at a place, and the place behind it; the end of the list where no whole record is left. An error is the writer's own, after which
// the record's block is as it was corrected.
fn next<W: Write>(out: &mut W, list: &mut [u8], at: usize) -> io::Result<usize>
    requires { (at < length list.old) × (length list.old ≤ 65536) }
    ensures ok { IfOk result (λ to. (at < to) × (to ≤ length list.old)) }
    ensures err { OnErr result (length list.new ≡ length list.old) }
{
    let n = list.len();
    if n - at < 4 {
        return Ok(n);
    }
    let size = two(list[at], list[at + 1]);
    let parity = two(list[at + 2], list[at + 3]);
    let from = at + 4;
    if n - from < size {
        return Ok(n);
    }
    let to = from + size;
    one(out, &mut list[from..to], parity)?;
    Ok(to)
}

fn all<W: Write>(out: &mut W, list: &mut [u8]) -> io::Result<()>
    requires { length list.old ≤ 65536 }
{
    let mut at = 0;
    while at < list.len() {
        at = next(out, list, at)?;
    }
    Ok(())
}

fn main(rt: HostRuntime) -> io::Result<()> {
    let mut buffer = [0u8; 65536];
    let n = replay::read_full(&mut rt.reader(), &mut buffer)?;
    all(&mut io::writer(&rt), &mut buffer[..n])
}
