// Replays recorded answers of the Rust: each record of standard input has 18 bytes: a kind, a version, and two numbers of eight bytes. A
// line for each. Kind 1: the layout in a buffer of the first number's length, its refusal number and two sums over the buffer; 2: the
// information word of a level and a mask; 3: the nearest word to two copies; 4: the version of a side. `compare/run record symbol` made
// stdin, and stdout from the Rust's answers.
#![tactic(auto)]

ghost use Rattle.std.specs.Prelude.{◌+◌, ◌≤◌, ◌<◌, length};

use information::{InfoBits, NearestInfo};
use std::io::{self, Write};
use symbol::{FromSide, LayoutAnswer, Version};

fn as_u64(x: u8) -> u64
    ensures { result < 256 }
{
    x as u64
}

fn as_usize(x: u8) -> usize {
    x as usize
}

fn four(list: &[u8], at: usize) -> u64
    requires { (at + 4 ≤ length list.now) × (at < 65536) }
    ensures { result < 4294967296 }
{
    as_u64(list[at]) * 16777216
        + as_u64(list[at + 1]) * 65536
        + as_u64(list[at + 2]) * 256
        + as_u64(list[at + 3])
}

fn eight(list: &[u8], at: usize) -> u64
    requires { (at + 8 ≤ length list.now) × (at < 65530) }
{
    four(list, at) * 4294967296 + four(list, at + 4)
}

fn number<W: Write>(to: &mut W, n: u64) -> io::Result<()> {
    write!(to, "{n} ")
}

fn last<W: Write>(to: &mut W, n: u64) -> io::Result<()> {
    writeln!(to, "{n}")
}

// Two sums over bytes.
fn sums(bytes: &[u8]) -> u64 {
    let mut a: u64 = 1;
    let mut b: u64 = 0;
    let mut i: usize = 0;
    while i < bytes.len() {
        a = (a + as_u64(bytes[i])) % 65521;
        b = (b + a) % 65521;
        i += 1;
    }
    b * 65536 + a
}

fn layout_in<W: Write>(to: &mut W, version: usize, out: &mut [u8]) -> io::Result<()> {
    match symbol::layout(version, out) {
        LayoutAnswer::Filled => number(to, 0)?,
        LayoutAnswer::NoVersion => number(to, 1)?,
        LayoutAnswer::TooShort => number(to, 2)?,
    }
    last(to, sums(out))
}

fn layout_front<W: Write>(
    to: &mut W,
    version: usize,
    out: &mut [u8],
    length: usize,
) -> io::Result<()> {
    if length <= out.len() {
        layout_in(to, version, &mut out[..length])?;
    }
    Ok(())
}

fn layout<W: Write>(to: &mut W, version: usize, length: usize) -> io::Result<()> {
    let mut out = [7u8; Version::MAX_SQUARE];
    layout_front(to, version, &mut out, length)
}

fn word<W: Write>(to: &mut W, version: usize, level: usize, mask: usize) -> io::Result<()> {
    match information::info_bits(version, level, mask) {
        InfoBits::Word(w) => {
            number(to, 0)?;
            last(to, w)
        }
        InfoBits::OutOfRange => {
            number(to, 1)?;
            last(to, 0)
        }
    }
}

fn nearest<W: Write>(to: &mut W, version: usize, first: u64, second: u64) -> io::Result<()> {
    match information::nearest_info(version, first, second) {
        NearestInfo::Nearest {
            level,
            mask,
            distance,
        } => {
            number(to, 0)?;
            number(to, level as u64)?;
            number(to, mask as u64)?;
            last(to, distance as u64)
        }
        NearestInfo::NoVersion => {
            number(to, 1)?;
            number(to, 0)?;
            number(to, 0)?;
            last(to, 0)
        }
    }
}

fn side<W: Write>(to: &mut W, n: usize) -> io::Result<()> {
    match Version::from_side(n) {
        FromSide::Found(v) => last(to, v.number as u64),
        FromSide::NoVersion => last(to, 0),
    }
}

fn one<W: Write>(to: &mut W, kind: u8, version: usize, first: u64, second: u64) -> io::Result<()> {
    if kind == 1 {
        layout(to, version, first as usize)
    } else if kind == 2 {
        word(to, version, first as usize, second as usize)
    } else if kind == 3 {
        nearest(to, version, first, second)
    } else {
        side(to, first as usize)
    }
}

fn all<W: Write>(to: &mut W, list: &[u8]) -> io::Result<()>
    requires { length list.now ≤ 65536 }
{
    let mut at: usize = 0;
    while at + 18 <= list.len() {
        one(
            to,
            list[at],
            as_usize(list[at + 1]),
            eight(list, at + 2),
            eight(list, at + 10),
        )?;
        at += 18;
    }
    Ok(())
}

fn main(rt: HostRuntime) -> io::Result<()> {
    let mut buffer = [0u8; 65536];
    let n = replay::read_full(&mut rt.reader(), &mut buffer)?;
    all(&mut io::writer(&rt), &buffer[..n])
}
