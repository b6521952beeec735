// Replays recorded inputs of the original's `parse`: from standard input, records of a 2-byte length and as many bytes of data. A line
// for each: the payload in hexadecimal, or `-` where the data are refused. The stored output is the original's.
#![tactic(auto)]

ghost use Rattle.std.specs.Prelude.{◌<◌};

use segments::Answer;
use std::io::{self, Write};

fn one<W: Write>(out: &mut W, codewords: &[u8]) -> io::Result<()> {
    let mut payload = [0u8; 12288];
    let mut script = [0u8; 12288];
    let answer = parse::from_data(codewords, &mut payload, &mut script);
    if let Answer::Read(n, _) = answer {
        replay::hex(out, &payload, n)?;
        out.write_all(b"\n")
    } else {
        out.write_all(b"-\n")
    }
}

fn all<W: Write>(out: &mut W, records: &[u8]) -> io::Result<()> {
    let mut i: usize = 0;
    while i < records.len() {
        if records.len() - i < 2 {
            return Ok(());
        }
        let n = bits::as_usize(records[i]) * 256 + bits::as_usize(records[i + 1]);
        let from = i + 2;
        if records.len() - from < n {
            return Ok(());
        }
        let end = from + n;
        one(out, &records[from..end])?;
        i = end;
    }
    Ok(())
}

fn main(rt: HostRuntime) -> io::Result<()> {
    let mut buffer = [0u8; 65536];
    let n = replay::read_full(&mut rt.reader(), &mut buffer)?;
    all(&mut io::writer(&rt), &buffer[..n])
}
