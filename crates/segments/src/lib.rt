// SPECIFICATION 8: one segment of the data codewords (han_xin.rs: the functions that `parse` calls). The crate `parse` reads them all.
//
// What does not fit a lent buffer is counted and not stored. So a pass over spare buffers writes nothing that a refusal would have to undo,
// and the same functions serve the second pass, where the spare buffers were too short.
#![tactic(auto)]

ghost use Rattle.std.specs.Prelude.{◌≡◌, true, false, [], ◌∷◌, ◌+◌, ◌*◌, ◌<◌, ◌≤◌, length, drop, set};
ghost use Rattle.std.proofs.lemmas.List.Edits.{sets};
ghost use Rattle.bits.specs.Bits.{bits_of};
ghost use Rattle.segments.specs.Script.{command_of, eci};
ghost use Rattle.segments.specs.Segments.{high_of, low_of, region_size, segment_of};
ghost use Rattle.segments.specs.Positions.{count_of, Left, Inside, RegionLeft, Stepped, bytes_run_at, bytes_at, region_at, run_at, run_command};

use crate::eci::eci_value;
use crate::gb18030::{double_byte, four_byte};
use crate::numeric::numeric;
use crate::text::text_mode;
use bits::Word;

pub mod eci;
pub mod gb18030;
pub mod numeric;
pub mod text;

// The modes of segments. Mode 0 ends the data.
pub const NUMERIC: usize = 1;

pub const TEXT: usize = 2;

pub const BYTES: usize = 3;

pub const REGION_ONE: usize = 4;

pub const REGION_TWO: usize = 5;

pub const TWO_BYTE: usize = 6;

pub const FOUR_BYTE: usize = 7;

pub const ECI: usize = 8;

// The most data that are decoded, in bytes. No version has more codewords, and none as many of them for data (SPECIFICATION 7.6).
pub const MAX_DATA: usize = 3886;

// Two numbers: a position with the payload bytes there or with an ECI's value, or the lengths of payload and script.
#[derive(Clone, Copy)]
pub enum Count {
    Done(usize, usize),
    Cut,
    Lacking,
}

// Stores a byte where the buffer has the place.
fn put(out: &mut [u8], n: usize, b: usize)
    requires { b < 256 }
    ensures { out.new ≡ set out.old n b }
{
    if n < out.len() {
        out[n] = b as u8;
    }
}

// Stores two bytes where the buffer has their places.
fn put_pair(out: &mut [u8], n: usize, a: usize, b: usize)
    requires { (n < 65536) × (a < 256) × (b < 256) }
    ensures { out.new ≡ sets out.old n (a ∷ b ∷ []) }
{
    put(out, n, a);
    put(out, n + 1, b);
}

// The k bytes of a bytes segment.
fn bytes_run(s: &[u8], from: usize, out: &mut [u8], to: usize, k: usize) -> Count
    requires { (length s.now ≤ 4096) × (from ≤ 8 * length s.now) × (to ≤ from) }
    ensures left { Left (bytes_run_at s.now from to out.old k) result out.new }
    ensures inside { Inside s.now from to result }
{
    let mut at = from;
    let mut n = to;
    let mut i: usize = 0;
    while i < k {
        let got = bits::read_bits(s, at, 8);
        let Word::Value(w) = got else {
            return Count::Cut;
        };
        put(out, n, w);
        at += 8;
        n += 1;
        i += 1;
    }
    Count::Done(at, n)
}

// Bytes mode: a length of 13 bits, then the bytes.
fn bytes_mode(s: &[u8], from: usize, out: &mut [u8], to: usize) -> Count
    requires { (length s.now ≤ 4096) × (from ≤ 8 * length s.now) × (to ≤ from) }
    ensures left { Left (bytes_at s.now from to out.old) result out.new }
    ensures inside { Inside s.now from to result }
{
    let got = bits::read_bits(s, from, 13);
    let Word::Value(k) = got else {
        return Count::Cut;
    };
    bytes_run(s, from + 13, out, to, k)
}

// How many values a region has.
pub fn region_size(one: bool) -> usize
    ensures { result ≡ region_size one }
{
    if one { 4074 } else { 3008 }
}

// The two bytes of a character.
#[derive(Clone, Copy)]
pub struct Pair {
    pub high: usize,
    pub low: usize,
}

// The bytes of a value in a region.
pub fn pair_of(one: bool, w: usize) -> Pair
    requires { w < region_size one }
    ensures { (result.high < 256) × (result.low < 256) × (result.high ≡ high_of one w) × (result.low ≡ low_of one w) }
{
    if one {
        if w < 3760 {
            return Pair {
                high: 0xB0 + w / 94,
                low: 0xA1 + w % 94,
            };
        }
        if w < 4042 {
            return Pair {
                high: 0xA1 + (w - 3760) / 94,
                low: 0xA1 + (w - 3760) % 94,
            };
        }
        return Pair {
            high: 0xA8,
            low: 0xA1 + (w - 4042),
        };
    }
    Pair {
        high: 0xD8 + w / 94,
        low: 0xA1 + w % 94,
    }
}

// How a run of characters in one region ends.
#[derive(Clone, Copy)]
pub enum Region {
    End(usize, usize),
    Switch(usize, usize),
    Cut,
    Lacking,
}

// The characters of one region up to a switch or the end.
fn same_region(s: &[u8], from: usize, out: &mut [u8], to: usize, one: bool) -> Region
    requires { (length s.now ≤ 4096) × (from ≤ 8 * length s.now) × (to ≤ from) }
    ensures { RegionLeft s.now from to out.old one result out.new }
{
    let mut at = from;
    let mut n = to;
    loop {
        let got = bits::read_bits(s, at, 12);
        let Word::Value(w) = got else {
            return Region::Cut;
        };
        at += 12;
        if w == 4095 {
            return Region::End(at, n);
        }
        if w == 4094 {
            return Region::Switch(at, n);
        }
        if w >= region_size(one) {
            return Region::Lacking;
        }
        let pair = pair_of(one, w);
        put_pair(out, n, pair.high, pair.low);
        n += 2;
    }
}

// Region one: 12 bits a character; hands over to region two at 4094. The answer is one number, 0 for cut, 1 for lacking, else 2 more than
// position and bytes: a switch then needs less of the stack, and less time.
#[cycle(region_one_region_two)]
fn region_one(s: &[u8], from: usize, out: &mut [u8], to: usize) -> usize
    requires { (length s.now ≤ 4096) × (from ≤ 8 * length s.now) × (to ≤ from) }
    ensures left { Left (region_at s.now from to out.old true) (count_of result) out.new }
    ensures inside { Inside s.now from to (count_of result) }
{
    let ran = same_region(s, from, out, to, true);
    match ran {
        Region::End(at, n) => at * 65536 + n + 2,
        Region::Switch(at, n) => region_two(s, at, out, n),
        Region::Cut => 0,
        Region::Lacking => 1,
    }
}

// Region two: 12 bits a character; hands back to region one at 4094.
#[cycle(region_one_region_two)]
fn region_two(s: &[u8], from: usize, out: &mut [u8], to: usize) -> usize
    requires { (length s.now ≤ 4096) × (from ≤ 8 * length s.now) × (to ≤ from) }
    ensures left { Left (region_at s.now from to out.old false) (count_of result) out.new }
    ensures inside { Inside s.now from to (count_of result) }
{
    let ran = same_region(s, from, out, to, false);
    match ran {
        Region::End(at, n) => at * 65536 + n + 2,
        Region::Switch(at, n) => region_one(s, at, out, n),
        Region::Cut => 0,
        Region::Lacking => 1,
    }
}

// What the answer of a region says.
fn region_count(r: usize) -> Count
    ensures { result ≡ count_of r }
{
    if r == 0 {
        return Count::Cut;
    }
    if r == 1 {
        return Count::Lacking;
    }
    Count::Done((r - 2) / 65536, (r - 2) % 65536)
}

// A segment of modes 1 to 7.
fn run_of_mode(s: &[u8], from: usize, out: &mut [u8], to: usize, mode: usize) -> Count
    requires { (length s.now ≤ 4096) × (from ≤ 8 * length s.now) × (to ≤ from) }
    ensures left { Left (run_at s.now from to out.old mode) result out.new }
    ensures inside { Inside s.now from to result }
{
    match mode {
        NUMERIC => numeric(s, from, out, to),
        TEXT => text_mode(s, from, out, to),
        BYTES => bytes_mode(s, from, out, to),
        REGION_ONE => region_count(region_one(s, from, out, to)),
        REGION_TWO => region_count(region_two(s, from, out, to)),
        TWO_BYTE => double_byte(s, from, out, to),
        FOUR_BYTE => four_byte(s, from, out, to),
        _ => Count::Lacking,
    }
}

// The command of a segment of n bytes in modes 1 to 7; the number of its bytes.
fn put_command(script: &mut [u8], m: usize, mode: usize, n: usize) -> usize
    requires { (mode < 16) × (n < 65536) × (m < 65535) }
    ensures { (result ≡ length (run_command mode n)) × (script.new ≡ sets script.old m (run_command mode n)) }
{
    if mode == FOUR_BYTE {
        put(script, m, FOUR_BYTE);
        return 1;
    }
    put(script, m, mode);
    put_pair(script, m + 1, n / 256, n % 256);
    3
}

// The command of an ECI.
fn put_eci(script: &mut [u8], m: usize, v: usize)
    requires { (v < 16777216) × (m < 65533) }
    ensures { script.new ≡ sets script.old m (command_of (eci v)) }
{
    put_pair(script, m, ECI, v / 65536);
    put_pair(script, m + 2, v / 256 % 256, v % 256);
}

// Where a pass goes on after a segment: the position, and the lengths of payload and script so far.
#[derive(Clone, Copy)]
pub enum Step {
    On(usize, usize, usize),
    Cut,
    Lacking,
}

// Where a pass stands: the position, and the lengths of payload and script so far.
#[derive(Clone, Copy)]
pub struct Place {
    pub at: usize,
    pub payload: usize,
    pub script: usize,
}

// One segment of a mode, and its command.
pub fn segment(s: &[u8], place: Place, mode: usize, out: &mut [u8], script: &mut [u8]) -> Step
    requires { (length s.now ≤ 4096) × (place.at ≤ 8 * length s.now) × (place.payload ≤ place.at) × (place.script + 4 ≤ place.at) × (mode < 16) }
    ensures { Stepped s.now place.at place.payload place.script out.old script.old
        (segment_of mode (drop place.at (bits_of s.now))) result out.new script.new }
{
    let from = place.at;
    let n = place.payload;
    let m = place.script;
    if mode == ECI {
        let designator = eci_value(s, from);
        return match designator {
            Count::Done(at, v) => {
                put_eci(script, m, v);
                Step::On(at, n, m + 4)
            }
            Count::Cut => Step::Cut,
            Count::Lacking => Step::Lacking,
        };
    }
    let read = run_of_mode(s, from, out, n, mode);
    match read {
        Count::Done(at, k) => {
            let used = put_command(script, m, mode, k - n);
            Step::On(at, k, m + used)
        }
        Count::Cut => Step::Cut,
        Count::Lacking => Step::Lacking,
    }
}

// The answers of Segments from data; specs/FromData.antt has their numbers.
#[derive(Clone, Copy)]
pub enum Answer {
    Read(usize, usize),
    TooLong,
    Broken,
    Empty,
    PayloadFull,
    ScriptFull,
}
