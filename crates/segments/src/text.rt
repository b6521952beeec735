// SPECIFICATION 8.6: the text mode.
ghost use Rattle.std.specs.Prelude.{◌≡◌, true, ◌+◌, ◌*◌, ◌<◌, ◌≤◌, length};
ghost use Rattle.segments.specs.Segments.{char_of};
ghost use Rattle.segments.specs.Positions.{Left, Inside, text_at};

use crate::{Count, put};
use bits::Word;

// What is added to a 6-bit value for its byte in a subset of the text mode. The answers are constants, so that the compiler picks one without
// a jump, which in text would often be guessed wrong.
fn offset(first: bool, w: usize) -> usize
    requires { w < 62 }
    ensures { (result < 128) × (w + result ≡ char_of first w) }
{
    if first {
        if w < 10 {
            return 48;
        }
        if w < 36 {
            return 55;
        }
        return 61;
    }
    if w < 28 {
        return 0;
    }
    if w < 44 {
        return 4;
    }
    if w < 51 {
        return 14;
    }
    if w < 57 {
        return 40;
    }
    66
}

// The byte of a 6-bit value in a subset of the text mode.
pub fn text_char(first: bool, w: usize) -> usize
    requires { w < 62 }
    ensures { (result < 256) × (result ≡ char_of first w) }
{
    w + offset(first, w)
}

// Text mode: two subsets of 6-bit values, switched by 62 and ended by 63. Each segment starts in the first.
pub fn text_mode(s: &[u8], from: usize, out: &mut [u8], to: usize) -> Count
    requires { (length s.now ≤ 4096) × (from ≤ 8 * length s.now) × (to ≤ from) }
    ensures left { Left (text_at s.now from to out.old true) result out.new }
    ensures inside { Inside s.now from to result }
{
    let mut first = true;
    let mut at = from;
    let mut n = to;
    loop {
        let got = bits::read_bits(s, at, 6);
        let Word::Value(w) = got else {
            return Count::Cut;
        };
        at += 6;
        if w == 63 {
            return Count::Done(at, n);
        }
        if w == 62 {
            first = !first;
        } else {
            put(out, n, text_char(first, w));
            n += 1;
        }
    }
}
