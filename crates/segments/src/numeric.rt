// SPECIFICATION 8.5: the numeric mode.
ghost use Rattle.std.specs.Prelude.{◌≡◌, ◌+◌, ◌*◌, ◌^◌, ◌<◌, ◌≤◌, length};
ghost use Rattle.std.proofs.lemmas.List.Edits.{sets};
ghost use Rattle.segments.specs.Segments.{digits};
ghost use Rattle.segments.specs.Positions.{Left, Inside, numeric_at};

use crate::{Count, put};
use bits::Word;

fn power_of_ten(k: usize) -> usize
    requires { k < 4 }
    ensures { (result ≡ 10 ^ k) × (0 < result) }
{
    if k == 0 {
        return 1;
    }
    if k == 1 {
        return 10;
    }
    if k == 2 {
        return 100;
    }
    1000
}

// Stores the k low digits of a number.
fn push_digits(out: &mut [u8], n: usize, v: usize, k: usize)
    requires { (k < 4) × (n < 65536) }
    ensures { out.new ≡ sets out.old n (digits k v) }
{
    let mut i: usize = 0;
    while i < k {
        let d = v / power_of_ten(k - 1 - i) % 10;
        put(out, n + i, 48 + d);
        i += 1;
    }
}

// Numeric mode: three digits in 10 bits, ended by 1020 + the number of the last group's digits.
pub fn numeric(s: &[u8], from: usize, out: &mut [u8], to: usize) -> Count
    requires { (length s.now ≤ 4096) × (from ≤ 8 * length s.now) × (to ≤ from) }
    ensures left { Left (numeric_at s.now from to out.old) result out.new }
    ensures inside { Inside s.now from to result }
{
    let start = bits::read_bits(s, from, 10);
    let Word::Value(first) = start else {
        return Count::Cut;
    };
    if 1000 <= first {
        return Count::Lacking;
    }
    let mut at = from + 10;
    let mut n = to;
    let mut p = first;
    loop {
        let got = bits::read_bits(s, at, 10);
        let Word::Value(w) = got else {
            return Count::Cut;
        };
        at += 10;
        if 1000 <= w {
            if w <= 1020 {
                return Count::Lacking;
            }
            let k = w - 1020;
            if power_of_ten(k) <= p {
                return Count::Lacking;
            }
            push_digits(out, n, p, k);
            return Count::Done(at, n + k);
        }
        push_digits(out, n, p, 3);
        n += 3;
        p = w;
    }
}
