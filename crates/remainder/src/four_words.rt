// A register of 32 bytes in four words, the first byte the highest; bytes and half bytes of it.
ghost use Rattle.std.specs.Prelude.{◌≡◌, ◌+◌, ◌-◌, ◌*◌, ◌/◌, ◌%◌, ◌^◌, ◌≤◌, ◌<◌, length, get_or};
ghost use Rattle.remainder.specs.Words.{row_at, sum_of, double_of, doubled_of, moved_of, Put, word_at, byte_at, Kept};

use crate::Register;

// A row of a table.
pub fn row_at(t: &[u64], n: usize) -> Register
    requires { (4 * n + 4 ≤ length t.now) × (n < 128) }
    ensures { result ≡ row_at t.now n }
{
    let at = 4 * n;
    Register {
        a: t[at],
        b: t[at + 1],
        c: t[at + 2],
        d: t[at + 3],
    }
}

pub fn put_row(t: &mut [u64], n: usize, r: Register)
    requires { (4 * n + 4 ≤ length t.old) × (n < 128) }
    ensures { Put n r t.old t.new }
{
    let at = 4 * n;
    t[at] = r.a;
    t[at + 1] = r.b;
    t[at + 2] = r.c;
    t[at + 3] = r.d;
}

pub fn sum(r: Register, s: Register) -> Register
    ensures { result ≡ sum_of r s }
{
    Register {
        a: r.a ^ s.a,
        b: r.b ^ s.b,
        c: r.c ^ s.c,
        d: r.d ^ s.d,
    }
}

// Each byte of a word times α.
fn double(w: u64) -> u64
    ensures { result ≡ double_of 0x163 8 w }
{
    ((w & 0x7f7f7f7f7f7f7f7f) * 2) ^ (((w >> 7) & 0x0101010101010101) * 0x63)
}

pub fn doubled(r: Register) -> Register
    ensures { result ≡ doubled_of 0x163 r }
{
    Register {
        a: double(r.a),
        b: double(r.b),
        c: double(r.c),
        d: double(r.d),
    }
}

// A word moved up by one byte, which comes from the word behind it.
fn byte_up(a: u64, b: u64) -> u64
    ensures { result ≡ a % 256 ^ 7 * 256 ^ 1 + b / 256 ^ 7 }
{
    (a << 8) + (b >> 56)
}

// By four bytes.
fn half_up(a: u64, b: u64) -> u64
    ensures { result ≡ a % 256 ^ 4 * 256 ^ 4 + b / 256 ^ 4 }
{
    (a << 32) + (b >> 32)
}

pub fn moved(r: Register) -> Register
    ensures { result ≡ moved_of 1 7 r }
{
    Register {
        a: byte_up(r.a, r.b),
        b: byte_up(r.b, r.c),
        c: byte_up(r.c, r.d),
        d: byte_up(r.d, 0),
    }
}

pub fn moved_half(r: Register) -> Register
    ensures { result ≡ moved_of 4 4 r }
{
    Register {
        a: half_up(r.a, r.b),
        b: half_up(r.b, r.c),
        c: half_up(r.c, r.d),
        d: half_up(r.d, 0),
    }
}

// The hexadecimal digit i of x.
pub fn digit(x: u64, i: usize) -> usize
    requires { i < 8 }
    ensures { (result ≡ x / 2 ^ (4 * i) % 16) × (result < 16) }
{
    ((x >> (4 * i)) % 16) as usize
}

pub fn as_u64(x: u8) -> u64
    ensures { (result ≡ x) × (result < 256) }
{
    x as u64
}

// The four bytes from the place i on as one number.
pub fn four(s: &[u8], i: usize) -> u64
    requires { i + 4 ≤ length s.now }
    ensures { (result ≡ get_or s.now i 0 * 16777216 + get_or s.now (i + 1) 0 * 65536 + get_or s.now (i + 2) 0 * 256
        + get_or s.now (i + 3) 0) × (result < 2 ^ 32) }
{
    as_u64(s[i]) * 16777216 + as_u64(s[i + 1]) * 65536 + as_u64(s[i + 2]) * 256 + as_u64(s[i + 3])
}

// The word k of a register.
fn word_at(r: Register, k: usize) -> u64
    ensures { result ≡ word_at r k }
{
    if k == 0 {
        return r.a;
    }
    if k == 1 {
        return r.b;
    }
    if k == 2 {
        return r.c;
    }
    r.d
}

pub fn byte_at(r: Register, i: usize) -> u8
    ensures { result ≡ byte_at r i }
{
    ((word_at(r, i / 8) >> (56 - 8 * (i % 8))) % 256) as u8
}

// How many bytes of a register are looked at: those up to its last word that is not zero.
pub fn kept(r: Register) -> usize
    ensures { Kept r result }
{
    if r.d != 0 {
        return 32;
    }
    if r.c != 0 {
        return 24;
    }
    if r.b != 0 {
        return 16;
    }
    8
}
