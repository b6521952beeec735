// SPECIFICATION 8.8 and 8.9: the two-byte and the four-byte mode, characters of GB 18030.
ghost use Rattle.std.specs.Prelude.{◌≡◌, ◌+◌, ◌*◌, ◌<◌, ◌≤◌, length};
ghost use Rattle.std.proofs.lemmas.List.Edits.{sets};
ghost use Rattle.segments.specs.Segments.{first_byte, second_byte, four_bytes};
ghost use Rattle.segments.specs.Positions.{Left, Inside, double_byte_at, four_byte_at};

use crate::{Count, put_pair};
use bits::Word;

// The two bytes of a 15-bit value.
pub fn first_byte(w: usize) -> usize
    requires { w < 23940 }
    ensures { (result < 256) × (result ≡ first_byte w) }
{
    0x81 + w / 190
}

pub fn second_byte(w: usize) -> usize
    ensures { (result < 256) × (result ≡ second_byte w) }
{
    let rest = w % 190;
    if rest < 63 {
        return 0x40 + rest;
    }
    0x41 + rest
}

// Two-byte mode: 15 bits a character, ended by 32767.
pub fn double_byte(s: &[u8], from: usize, out: &mut [u8], to: usize) -> Count
    requires { (length s.now ≤ 4096) × (from ≤ 8 * length s.now) × (to ≤ from) }
    ensures left { Left (double_byte_at s.now from to out.old) result out.new }
    ensures inside { Inside s.now from to result }
{
    let mut at = from;
    let mut n = to;
    loop {
        let got = bits::read_bits(s, at, 15);
        let Word::Value(w) = got else {
            return Count::Cut;
        };
        at += 15;
        if w == 32767 {
            return Count::Done(at, n);
        }
        if 23940 <= w {
            return Count::Lacking;
        }
        put_pair(out, n, first_byte(w), second_byte(w));
        n += 2;
    }
}

// Stores the four bytes of a 21-bit value.
fn put_four(out: &mut [u8], n: usize, w: usize)
    requires { (n < 65532) × (w < 1587600) }
    ensures { out.new ≡ sets out.old n (four_bytes w) }
{
    put_pair(out, n, 0x81 + w / 12600, 0x30 + w % 12600 / 1260);
    put_pair(out, n + 2, 0x81 + w % 1260 / 10, 0x30 + w % 10);
}

// Four-byte mode: one character in 21 bits.
pub fn four_byte(s: &[u8], from: usize, out: &mut [u8], to: usize) -> Count
    requires { (length s.now ≤ 4096) × (from ≤ 8 * length s.now) × (to ≤ from) }
    ensures left { Left (four_byte_at s.now from to out.old) result out.new }
    ensures inside { Inside s.now from to result }
{
    let got = bits::read_bits(s, from, 21);
    let Word::Value(w) = got else {
        return Count::Cut;
    };
    if 1587600 <= w {
        return Count::Lacking;
    }
    put_four(out, to, w);
    Count::Done(from + 21, to + 4)
}
