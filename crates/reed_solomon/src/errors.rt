// Where the errors are and what they are (reed_solomon.rs: `solve`, `magnitudes`). An error stands at its degree: 0 for the last place of
// the block.
ghost use Rattle.std.specs.Prelude.{◌≡◌, ℕ, ◌+◌, ◌*◌, ◌≤◌, ◌<◌, length, set};
ghost use Rattle.field.specs.Field.{mul};
ghost use Rattle.field.specs.Table.{Field, poly_of};
ghost use Rattle.reed_solomon.specs.Sum.{◌⊕◌, seq};
ghost use Rattle.reed_solomon.specs.Places.{carried};
ghost use Rattle.reed_solomon.specs.Inner.{Reduced, CarriedOn, ValuesAt, zeros_of, stepped, SteppedTwo, numerator, denominator, Magnitude, ErrorAt, Errors, without, without_all, repaired};
ghost use Rattle.general.specs.Each.{Each};

use crate::syndromes::{Four, reduced};

// Up to four times an exponent of a locator of length l, reduced to what the table has. Of a short locator none is above 254: the compiler
// then makes a loop over its terms without these tests.
fn folded(n: usize, l: usize) -> usize
    requires { (n ≤ 4 * l) × (l ≤ 255) }
    ensures { (result ≤ 255) × Reduced n result }
{
    if l < 64 {
        return n;
    }
    if l < 128 {
        return reduced(n);
    }
    n % 255
}

// The same for twice an exponent, which is above 254 of a long locator alone.
fn doubled(n: usize, l: usize) -> usize
    requires { (n ≤ l) × (l ≤ 255) }
    ensures { (result ≤ 255) × Reduced (2 * n) result }
{
    if l < 128 {
        return 2 * n;
    }
    reduced(2 * n)
}

// A term t of a locator of length l at the next four places: from each place to the next it is multiplied by its own fixed power, α^n. All
// four go out from the same logarithm, so that none waits for another.
fn carry(field: &[u16; 1280], t: u8, n: usize, l: usize) -> Four
    requires field { Field field.now }
    requires n_le_l { (n ≤ l) × (l ≤ 255) }
    ensures { (result.a ≡ carried (poly_of field.now) n 1 t) × (result.b ≡ carried (poly_of field.now) n 2 t)
        × (result.c ≡ carried (poly_of field.now) n 3 t) × (result.d ≡ carried (poly_of field.now) n 4 t) }
{
    let a = field::raised(field, t, n);
    let b = field::raised(field, t, doubled(n, l));
    let c = field::raised(field, t, folded(3 * n, l));
    let d = field::raised(field, t, folded(4 * n, l));
    Four { a, b, c, d }
}

// The step of the search: given only the terms of a locator of length l at one place, its values there and at the next three places, each of
// which is the sum of the terms carried to it, and its terms at the place behind these.
fn step(field: &[u16; 1280], terms: &mut [u8], l: usize) -> Four
    requires field { Field field.now }
    requires l_bound { (l ≤ 255) × (l < length terms.old) }
    ensures { CarriedOn (poly_of field.now) l terms.old result.a result.b result.c result.d terms.new }
{
    let mut v = Four {
        a: 0,
        b: 0,
        c: 0,
        d: 0,
    };
    let mut i = 0;
    while i <= l {
        let t = terms[i];
        let next = carry(field, t, l - i, l);
        v = Four {
            a: v.a ^ t,
            b: v.b ^ next.a,
            c: v.c ^ next.b,
            d: v.d ^ next.c,
        };
        terms[i] = next.d;
        i += 1;
    }
    v
}

fn put(e: &mut [u8], d: usize, v: Four)
    requires { d + 4 ≤ length e.old }
    ensures { e.new ≡ set (set (set (set e.old d v.a) (d + 1) v.b) (d + 2) v.c) (d + 3) v.d }
{
    e[d] = v.a;
    e[d + 1] = v.b;
    e[d + 2] = v.c;
    e[d + 3] = v.d;
}

// The values of the locator f of length l at the degrees below n: at degree 0 its terms are the coefficients, which are not looked at again.
// Those behind n, up to a multiple of four, are set too.
pub fn roots(field: &[u16; 1280], f: &[u8; 256], l: usize, e: &mut [u8], n: usize)
    requires field { Field field.now }
    requires l_bound { (l ≤ 255) × (length f.now ≡ 256) × ((i : ℕ) → seq f.now i < 256) × (n ≤ 256) × (length e.old ≡ 256) }
    ensures { ValuesAt (poly_of field.now) f.now l n e.new }
{
    let mut terms = *f;
    let mut d = 0;
    while d < n {
        let v = step(field, &mut terms, l);
        put(e, d, v);
        d += 4;
    }
}

// How many of the first n are zero.
pub fn zeros(e: &[u8], n: usize) -> usize
    requires { n ≤ length e.now }
    ensures { (result ≡ zeros_of n (seq e.now)) × (result ≤ n) }
{
    let mut count = 0;
    let mut d = 0;
    while d < n {
        if e[d] == 0 {
            count += 1;
        }
        d += 1;
    }
    count
}

#[derive(Clone, Copy)]
pub struct Fraction {
    pub num: u8,
    pub den: u8,
}

// The locator divided by x + α^d so far: the last coefficient, the sum over the syndromes and the value at α^d.
#[derive(Clone, Copy)]
pub struct Quotient {
    pub m: u8,
    pub num: u8,
    pub den: u8,
}

// The next coefficient, where it is the last.
fn last(field: &[u16; 1280], q: Quotient, a: u8, s: u8, d: usize) -> Fraction
    requires field { Field field.now }
    requires d_bound { d ≤ 255 }
    ensures { (result.num ≡ q.num ⊕ mul (poly_of field.now) (stepped (poly_of field.now) d a q.m) s)
        × (result.den ≡ stepped (poly_of field.now) d (stepped (poly_of field.now) d a q.m) q.den) }
{
    let m = field::raised(field, q.m, d) ^ a;
    let den = field::raised(field, q.den, d) ^ m;
    let num = q.num ^ field::mul(field, m, s);
    Fraction { num, den }
}

// The next two coefficients. The second goes out from the same logarithm as the first, so that a turn waits for one product and not for two.
fn next_two(field: &[u16; 1280], q: Quotient, a: u8, b: u8, s: u8, t: u8, d: usize) -> Quotient
    requires field { Field field.now }
    requires d_bound { d ≤ 255 }
    ensures { SteppedTwo (poly_of field.now) d a b s t q.m q.num q.den result.m result.num result.den }
{
    let n = reduced(d + d);
    let x = field::raised(field, q.m, d) ^ a;
    let m = field::raised(field, q.m, n) ^ (field::raised(field, a, d) ^ b);
    let den = field::raised(field, q.den, n) ^ (field::raised(field, x, d) ^ m);
    let num = q.num ^ field::mul(field, x, s) ^ field::mul(field, m, t);
    Quotient { m, num, den }
}

// The locator divided by x + α^d, over the syndromes and at α^d.
fn divided(field: &[u16; 1280], s: &[u8], f: &[u8], l: usize, d: usize) -> Fraction
    requires field { Field field.now }
    requires l_in_bounds { (l ≤ length s.now) × (l ≤ length f.now) × (d ≤ 255) }
    ensures { (result.num ≡ numerator (poly_of field.now) s.now f.now l d)
        × (result.den ≡ denominator (poly_of field.now) f.now l d) }
{
    let mut q = Quotient {
        m: 0,
        num: 0,
        den: 0,
    };
    let mut j = 0;
    while j < l / 2 * 2 {
        q = next_two(
            field,
            q,
            f[j],
            f[j + 1],
            s[l - 1 - j],
            s[l - 1 - (j + 1)],
            d,
        );
        j += 2;
    }
    if l <= j {
        return Fraction {
            num: q.num,
            den: q.den,
        };
    }
    last(field, q, f[j], s[l - 1 - j], d)
}

// The error at degree d, where the locator is zero.
fn magnitude(field: &[u16; 1280], first: usize, s: &[u8], f: &[u8], l: usize, d: usize) -> u8
    requires field { Field field.now }
    requires l_in_bounds { (l ≤ length s.now) × (l ≤ length f.now) × (d ≤ 255) × (first ≤ 255) }
    ensures { Magnitude (poly_of field.now) first s.now f.now l d result }
{
    let q = divided(field, s, f, l, d);
    if q.den == 0 {
        return 0;
    }
    let z = field::div(field, q.num, q.den);
    field::raised(field, z, 255 - d * first % 255)
}

// The error at degree d where the locator's value is zero, and 0 where it is not.
fn error_at(
    field: &[u16; 1280],
    first: usize,
    s: &[u8],
    f: &[u8],
    l: usize,
    d: usize,
    value: u8,
) -> u8
    requires field { Field field.now }
    requires l_in_bounds { (l ≤ length s.now) × (l ≤ length f.now) × (d ≤ 255) × (first ≤ 255) }
    ensures { ErrorAt (poly_of field.now) first s.now f.now l d value result }
{
    if value != 0 {
        return 0;
    }
    magnitude(field, first, s, f, l, d)
}

// The errors at the degrees below n, in place of the values e of the locator there.
pub fn magnitudes(
    field: &[u16; 1280],
    first: usize,
    s: &[u8],
    f: &[u8],
    l: usize,
    e: &mut [u8],
    n: usize,
)
    requires field { Field field.now }
    requires l_in_bounds { (l ≤ length s.now) × (l ≤ length f.now) × (first ≤ 255) × (n ≤ 256) × (n ≤ length e.old) }
    ensures { Errors (poly_of field.now) first s.now f.now l n e.old e.new }
{
    let mut d = 0;
    while d < n {
        e[d] = error_at(field, first, s, f, l, d, e[d]);
        d += 1;
    }
}

// The syndromes without the error y at degree d. The exponent of its weight is carried and not the weight itself, which would wait for two
// reads of the table in each turn.
fn take_off(field: &[u16; 1280], first: usize, s: &mut [u8], parity: usize, y: u8, d: usize)
    requires field { Field field.now }
    requires parity_in_bounds { (parity ≤ length s.old) × (d ≤ 255) × (first ≤ 255) }
    ensures { Each (without (poly_of field.now) first y d) parity s.old s.new }
{
    if y == 0 {
        return;
    }
    let mut n = reduced(field::log(field, y) + d * first % 255);
    let mut j = 0;
    while j < parity {
        s[j] ^= field::power(field, n);
        n = reduced(n + d);
        j += 1;
    }
}

// The syndromes without the errors e of the n places of a block.
pub fn take_off_all(
    field: &[u16; 1280],
    first: usize,
    s: &mut [u8],
    parity: usize,
    e: &[u8],
    n: usize,
)
    requires field { Field field.now }
    requires parity_in_bounds { (parity ≤ length s.old) × (n ≤ 256) × (n ≤ length e.now) × (first ≤ 255) }
    ensures { Each (without_all (poly_of field.now) first n e.now n) parity s.old s.new }
{
    let mut k = 0;
    while k < n {
        let d = n - 1 - k;
        take_off(field, first, s, parity, e[d], d);
        k += 1;
    }
}

// The block with the errors e added.
pub fn add(block: &mut [u8], e: &[u8])
    requires { length block.old ≤ length e.now }
    ensures { Each (repaired (length block.old) e.now) (length block.old) block.old block.new }
{
    let n = block.len();
    let mut k = 0;
    while k < n {
        block[k] ^= e[n - 1 - k];
        k += 1;
    }
}
