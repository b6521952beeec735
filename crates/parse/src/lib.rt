// SPECIFICATION 10.7: Segments from data (han_xin.rs: `parse`), all segments of the data codewords, one after the other.
#![tactic(auto)]

ghost use Rattle.std.specs.Prelude.{◌≡◌, ◌++◌, ◌≤◌, length, take, drop};
ghost use Rattle.segments.specs.Segments.{segments_of};
ghost use Rattle.segments.specs.Positions.{Parses};
ghost use Rattle.segments.specs.FromData.{from_data, data_outcome};

use bits::Word;
use segments::{Answer, Count, Place, Step};

// One pass over the data.
fn parse(s: &[u8], out: &mut [u8], script: &mut [u8]) -> Count
    requires { length s.now ≤ 4096 }
    ensures { Parses 0 0 out.old script.old (segments_of s.now) result out.new script.new }
{
    let mut at: usize = 0;
    let mut n: usize = 0;
    let mut m: usize = 0;
    loop {
        let got = bits::mode(s, at);
        let Word::Value(mode) = got else {
            return Count::Done(n, m);
        };
        if mode == 0 {
            return Count::Done(n, m);
        }
        let place = Place {
            at: at + 4,
            payload: n,
            script: m,
        };
        let next = segments::segment(s, place, mode, out, script);
        match next {
            Step::On(place, k, j) => {
                at = place;
                n = k;
                m = j;
            }
            Step::Cut => {
                return Count::Cut;
            }
            Step::Lacking => {
                return Count::Lacking;
            }
        }
    }
}

// Copies the first n bytes.
fn copy(to: &mut [u8], from: &[u8], n: usize)
    requires { (n ≤ length to.old) × (n ≤ length from.now) }
    ensures { to.new ≡ take n from.now ++ drop n to.old }
{
    let mut i: usize = 0;
    while i < n {
        to[i] = from[i];
        i += 1;
    }
}

// Segments from data: payload and script in lent buffers, which a refusal leaves as they were. The first pass stores into spare buffers of
// any length; what fits them is copied, so that data are decoded once, and only for what does not fit is there a second pass.
pub fn from_data_with(
    data: &[u8],
    payload: &mut [u8],
    script: &mut [u8],
    spare: &mut [u8],
    other: &mut [u8],
) -> Answer
    ensures { data_outcome result payload.new script.new ≡ from_data «data».now payload.old script.old }
{
    if segments::MAX_DATA < data.len() {
        return Answer::TooLong;
    }
    let first = parse(data, spare, other);
    match first {
        Count::Done(n, m) => {
            if n == 0 {
                return Answer::Empty;
            }
            if payload.len() < n {
                return Answer::PayloadFull;
            }
            if script.len() < m {
                return Answer::ScriptFull;
            }
            if spare.len() < n {
                parse(data, payload, script);
                return Answer::Read(n, m);
            }
            if other.len() < m {
                parse(data, payload, script);
                return Answer::Read(n, m);
            }
            copy(payload, spare, n);
            copy(script, other, m);
            Answer::Read(n, m)
        }
        Count::Cut => Answer::Broken,
        Count::Lacking => Answer::Broken,
    }
}

// The same with spare buffers of its own.
pub fn from_data(data: &[u8], payload: &mut [u8], script: &mut [u8]) -> Answer
    ensures { data_outcome result payload.new script.new ≡ from_data «data».now payload.old script.old }
{
    let mut spare = [0u8; 8192];
    let mut other = [0u8; 4096];
    from_data_with(data, payload, script, &mut spare, &mut other)
}
