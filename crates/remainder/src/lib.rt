// What is left of a block by division by its generator, four bytes a time, or one in a short block. The register is 32 bytes in four words, the first byte the
// highest of the first word; a table has what four bytes leave, by hexadecimal digits. Two reads of the table stand for the products of
// a byte with all coefficients of the generator.
#![tactic(auto)]

ghost use Rattle.std.specs.Prelude.{◌≡◌, List, ℕ, ◌+◌, ◌-◌, ◌*◌, ◌/◌, ◌%◌, ◌^◌, ◌≤◌, ◌<◌, length, get_or, true};
ghost use Rattle.remainder.specs.Words.{Zero, row_at, sum_of, none, Rows, Adds, Keeps, Left, Extended, Filling, Bytewise, ByteRows, Shifts, Prepared, byte_at, IsTabled, Remains, Leaves};
ghost use Rattle.field.specs.Field.{power, mul};
ghost use Rattle.field.specs.Table.{Field, poly_of};
ghost use Rattle.reed_solomon.specs.Inner.{Syndromes};
ghost use Rattle.general.specs.Each.{Each};

use crate::four_words::{
    as_u64, byte_at, digit, doubled, four, kept, moved, moved_half, put_row, row_at, sum,
};
use reed_solomon::syndromes;

pub mod four_words;
mod table;

// 32 bytes.
#[derive(Clone, Copy)]
pub struct Register {
    pub a: u64,
    pub b: u64,
    pub c: u64,
    pub d: u64,
}

fn add_digit(t: &[u64], r: Register, x: u64, i: usize) -> Register
    requires { (64 * i + 64 ≤ length t.now) × (i < 8) }
    ensures { result ≡ sum_of r (row_at t.now (16 * i + x / 2 ^ (4 * i) % 16)) }
{
    sum(r, row_at(t, 16 * i + digit(x, i)))
}

// The rows of all digits of x.
fn add_digits(t: &[u64], r: Register, x: u64) -> Register
    requires { (length t.now ≡ 512) × (x < 2 ^ 32) }
    ensures { Adds t.now x r result }
{
    let mut n = r;
    let mut i: usize = 0;
    while i < 8 {
        n = add_digit(t, n, x, i);
        i += 1;
    }
    n
}

// Four bytes more.
fn step(t: &[u64], r: Register, v: u64) -> Register
    requires { (length t.now ≡ 512) × (v < 2 ^ 32) }
    ensures { Keeps t.now v r result }
{
    add_digits(t, moved_half(r), (r.a >> 32) ^ v)
}

// One byte more, v: the byte that leaves the register is taken off by the rows of the last byte, which a short table has too.
fn shifted(t: &[u64], r: Register, v: u64) -> Register
    requires { (128 ≤ length t.now) × (v < 256) }
    ensures { Shifts t.now v r result }
{
    let y = (r.a >> 56) ^ v;
    add_digit(t, add_digit(t, moved(r), y, 0), y, 1)
}

// What is left of the first k bytes of a block, one byte a time.
fn remainder_bytewise(t: &[u64], block: &[u8], k: usize) -> Register
    requires { (128 ≤ length t.now) × (k ≤ length block.now) }
    ensures { Left (λ x. ByteRows 0x163 x t.now) k block.now result }
{
    let mut r = Register {
        a: 0,
        b: 0,
        c: 0,
        d: 0,
    };
    let mut i: usize = 0;
    while i < k {
        r = shifted(t, r, as_u64(block[i]));
        i += 1;
    }
    r
}

// The same, four bytes a time. The first, fewer than four, are taken one by one, so that `step` has one caller and is compiled into the loop.
pub fn remainder(t: &[u64], block: &[u8], k: usize) -> Register
    requires { (length t.now ≡ 512) × (k ≤ length block.now) }
    ensures { (parity : ℕ) → Prepared parity t.now → Leaves parity k block.now result }
{
    let m = k % 4;
    let mut r = remainder_bytewise(t, block, m);
    let mut i = m;
    while i < k {
        r = step(t, r, four(block, i));
        i += 4;
    }
    r
}

// The rows from at + n on, n of them, are those from `at` on plus r.
fn extend(t: &mut [u64], at: usize, n: usize, r: Register)
    requires { (4 * (at + (n + n)) ≤ length t.old) × (at + (n + n) ≤ 128) }
    ensures { Extended at n n r t.old t.new }
{
    let mut f: usize = 0;
    while f < n {
        let row = row_at(t, at + f);
        put_row(t, at + n + f, sum(row, r));
        f += 1;
    }
}

// The rows of the digit i, where `first` is that of 1. The answer is the row of 16, which is the next digit's first in the same byte.
fn fill_digit(t: &mut [u64], i: usize, first: Register) -> Register
    requires { (64 * i + 64 ≤ length t.old) × (i < 8) × (row_at t.old (16 * i) ≡ none) }
    ensures { Filling i 4 first t.old t.new result }
{
    let mut r = first;
    let mut b: usize = 0;
    while b < 4 {
        extend(t, 16 * i, 1 << b, r);
        r = doubled(r);
        b += 1;
    }
    r
}

// The rows of the byte k of four, where r is that of 1.
fn fill_byte(t: &mut [u64], k: usize, r: Register)
    requires { (128 * k + 128 ≤ length t.old) × (k < 4) × (row_at t.old (32 * k) ≡ none) × (row_at t.old (32 * k + 16) ≡ none) }
    ensures { Bytewise k r t.old t.new }
{
    let next = fill_digit(t, 2 * k, r);
    fill_digit(t, 2 * k + 1, next);
}

// The table of the generator g, which is the row of 1, in place of zeros.
fn fill_rows(t: &mut [u64], g: Register)
    requires { (length t.old ≡ 512) × ((i : ℕ) → get_or t.old i 0 ≡ 0) }
    ensures { (length t.new ≡ 512) × ((x : ℕ) → Zero 0x163 x 1 g → Rows 0x163 x t.new) }
{
    let mut r = g;
    let mut k: usize = 0;
    while k < 4 {
        fill_byte(t, k, r);
        r = shifted(t, r, 0);
        k += 1;
    }
}

// The generator of a parity, and nothing where the parity is not tabled.
fn generator(parity: usize) -> Register
    ensures { IsTabled parity → (j : ℕ) → j < parity → Zero 0x163 (power 0x163 (1 + j)) 1 result }
{
    if parity < 2 {
        return Register {
            a: 0,
            b: 0,
            c: 0,
            d: 0,
        };
    }
    if 32 < parity {
        return Register {
            a: 0,
            b: 0,
            c: 0,
            d: 0,
        };
    }
    let t = table::GENERATORS;
    row_at(&t, parity / 2 - 1)
}

// The table for a parity, in place of zeros: it is lent, since a copy of it would cost more than its rows.
pub fn prepare(t: &mut [u64], parity: usize)
    requires { (length t.old ≡ 512) × ((i : ℕ) → get_or t.old i 0 ≡ 0) }
    ensures { Prepared parity t.new }
{
    fill_rows(t, generator(parity));
}

// What is left of the first k bytes of a block, one byte a time by a table of one byte: for one short block a table of four bytes costs
// more than it saves.
pub fn remainder_short(block: &[u8], k: usize, parity: usize) -> Register
    requires { k ≤ length block.now }
    ensures { Leaves parity k block.now result }
{
    let mut t = [0u64; 128];
    fill_byte(&mut t, 0, generator(parity));
    remainder_bytewise(&t, block, k)
}

// The bytes of a register. Those that are zero anyway are not unpacked.
pub fn bytes(r: Register) -> [u8; 32]
    ensures { (length result ≡ 32) × ((i : ℕ) → i < 32 → get_or result i 0 ≡ byte_at r i) }
{
    let k = kept(r);
    let mut s = [0u8; 32];
    let mut i: usize = 0;
    while i < k {
        s[i] = byte_at(r, i);
        i += 1;
    }
    s
}

// The syndromes of a block out of those of what is left of it, which stands 255 - n places higher: syndrome j times α^(n (first + j)).
fn lower(field: &[u16; 1280], first: usize, s: &mut [u8], parity: usize, n: usize)
    requires field { Field field.now }
    requires first_bound { (first ≤ 255) × (parity ≤ 256) × (n ≤ 255) × (parity ≤ length s.old) }
    ensures { Each (λ j x. mul (poly_of field.now) x (power (poly_of field.now) (n * (first + j)))) parity s.old
        s.new }
{
    let mut j: usize = 0;
    while j < parity {
        s[j] = field::raised(field, s[j], n * (first + j) % 255);
        j += 1;
    }
}

// The syndromes of a block out of what is left of it, in place of zeros.
pub fn syndromes(field: &[u16; 1280], first: usize, r: Register, parity: usize, s: &mut [u8])
    requires field { Field field.now }
    requires first_bound { (first ≤ 255) × (first + parity ≤ 256) }
    requires s_len { (length s.old ≡ 256) × ((i : ℕ) → get_or s.old i 0 ≡ 0) }
    ensures { (block : List ℕ) → Remains (poly_of field.now) first parity block r
        → Syndromes (poly_of field.now) first parity block s.new }
{
    let b = bytes(r);
    let k = kept(r);
    syndromes::syndromes(field, first, &b[..k], parity, s);
    lower(field, first, s, parity, 255 - k);
}

// Whether nothing is left.
pub fn is_none(r: Register) -> bool
    ensures { result ≡ true → r ≡ none }
{
    if r.a != 0 {
        return false;
    }
    if r.b != 0 {
        return false;
    }
    if r.c != 0 {
        return false;
    }
    r.d == 0
}
