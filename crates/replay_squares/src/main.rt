// Replays recorded squares: from standard input, records of a side and its modules, 8 to a byte, row by row. A line for each: the payload
// in hexadecimal and the count of corrections, or `-` where the square is refused. The stored output is the original's (`decode_matrix`).
#![tactic(auto)]

ghost use Rattle.std.specs.Prelude.{◌<◌, ◌≤◌};

use std::io::{self, Write};
use symbol::Version;

// Module i of modules that stand 8 to a byte, high bit first.
fn module(packed: &[u8], i: usize) -> u8 {
    let at = i / 8;
    if packed.len() <= at {
        return 0;
    }
    let shift = 7 - i % 8;
    (packed[at] >> shift) % 2
}

// All modules of a buffer, with zeros behind those that are packed.
fn unpack(buffer: &mut [u8], packed: &[u8]) {
    let mut i: usize = 0;
    while i < buffer.len() {
        buffer[i] = module(packed, i);
        i += 1;
    }
}

fn line<W: Write>(out: &mut W, payload: &[u8], receipt: &[u8]) -> io::Result<()> {
    if receipt.len() < 12 {
        return Ok(());
    }
    replay::hex(
        out,
        payload,
        bits::as_usize(receipt[7]) * 256 + bits::as_usize(receipt[8]),
    )?;
    let count = bits::as_usize(receipt[4]) * 256 + bits::as_usize(receipt[5]);
    writeln!(out, " {count}")
}

fn one<W: Write>(out: &mut W, square: &[u8], side: usize) -> io::Result<()> {
    let mut payload = [0u8; 12288];
    let mut script = [0u8; 12288];
    let mut receipt = [0u8; 12];
    let number = reader::read_square(square, side, &mut payload, &mut script, &mut receipt);
    if number == 0 {
        return line(out, &payload, &receipt);
    }
    out.write_all(b"-\n")
}

// The square at the start of a buffer.
fn first<W: Write>(out: &mut W, buffer: &[u8], n: usize, side: usize) -> io::Result<()> {
    if buffer.len() < n {
        return Ok(());
    }
    one(out, &buffer[0..n], side)
}

fn area(side: usize) -> usize
    requires { side ≤ 189 }
    ensures { result ≤ 35721 }
{
    side * side
}

// A record: the modules of a side, 8 to a byte.
fn record<W: Write>(out: &mut W, packed: &[u8], side: usize) -> io::Result<()>
    requires { side ≤ 189 }
{
    let mut buffer = [0u8; Version::MAX_SQUARE];
    unpack(&mut buffer, packed);
    first(out, &buffer, area(side), side)
}

fn all<W: Write>(out: &mut W, records: &[u8]) -> io::Result<()> {
    let mut i: usize = 0;
    while i < records.len() {
        let side = bits::as_usize(records[i]);
        if Version::MAX_SIDE < side {
            return Ok(());
        }
        let from = i + 1;
        let n = area(side) / 8 + 1;
        if records.len() - from < n {
            return Ok(());
        }
        let end = from + n;
        record(out, &records[from..end], side)?;
        i = end;
    }
    Ok(())
}

fn main(rt: HostRuntime) -> io::Result<()> {
    let mut buffer = [0u8; 65536];
    let n = replay::read_full(&mut rt.reader(), &mut buffer)?;
    all(&mut io::writer(&rt), &buffer[..n])
}
