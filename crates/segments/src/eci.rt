// SPECIFICATION 8.10: the value of an ECI.
ghost use Rattle.std.specs.Prelude.{◌+◌, ◌*◌, ◌<◌, ◌≤◌, length, drop};
ghost use Rattle.bits.specs.Bits.{bits_of};
ghost use Rattle.segments.specs.Segments.{eci_of, eci_value};
ghost use Rattle.segments.specs.Positions.{EciLeft};

use crate::Count;
use bits::Word;

// The value in the w bits behind an ECI's prefix of k bits.
fn eci_field(s: &[u8], from: usize, k: usize, w: usize) -> Count
    requires { (length s.now ≤ 4096) × (from + k ≤ 8 * length s.now) × (0 < w) × (w ≤ 21) }
    ensures { EciLeft s.now from (eci_value k w (drop from (bits_of s.now))) result }
{
    let got = bits::read_bits(s, from + k, w);
    let Word::Value(v) = got else {
        return Count::Cut;
    };
    Count::Done(from + k + w, v)
}

// ECI: prefix 0, 10 or 110 and 7, 14 or 21 bits.
pub fn eci_value(s: &[u8], from: usize) -> Count
    requires { (length s.now ≤ 4096) × (from ≤ 8 * length s.now) }
    ensures { EciLeft s.now from (eci_of (drop from (bits_of s.now))) result }
{
    let all = s.len() * 8;
    if all <= from {
        return Count::Cut;
    }
    if bits::bit(s, from) == 0 {
        return eci_field(s, from, 1, 7);
    }
    if all <= from + 1 {
        return Count::Cut;
    }
    if bits::bit(s, from + 1) == 0 {
        return eci_field(s, from, 2, 14);
    }
    if all <= from + 2 {
        return Count::Cut;
    }
    if bits::bit(s, from + 2) == 0 {
        return eci_field(s, from, 3, 21);
    }
    Count::Lacking
}
