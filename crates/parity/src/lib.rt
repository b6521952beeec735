// The parity of a block, for the writer: data followed by what makes them a codeword. The table of the field and the first root are lent
// to the functions for any field; those for the field of Han Xin copy its table where they need it.
#![tactic(auto)]

ghost use Rattle.std.specs.Prelude.{◌≡◌, ℕ, ◌+◌, ◌-◌, ◌≤◌, ◌<◌, length, get_or, true, false};
ghost use Rattle.field.specs.Table.{Field, poly_of};
ghost use Rattle.reed_solomon.specs.Sum.{seq};
ghost use Rattle.remainder.specs.Words.{IsTabled, Prepared, Leaves};
ghost use Rattle.parity.specs.Encode.{written_of, encode_of, encoding};
ghost use Rattle.parity.specs.Inner.{Monic, Generator};

use reed_solomon::locator;
use remainder::Register;

mod division;

// What became of a block: its parity is written, or refusal 5 (SPECIFICATION 2.7).
#[derive(Clone, Copy)]
pub enum Encoded {
    Written,
    Unfit,
}

// The generator of a code: the product of x + α^(first + j) for j < parity, highest coefficient first, zeros behind it. A writer computes
// it once for all blocks of one parity.
pub fn generator(field: &[u16; 1280], first: usize, parity: usize) -> [u8; 256]
    requires field { Field field.now }
    requires first_bound { (first ≤ 1) × (parity ≤ 254) }
    ensures { (length result ≡ 256) × Generator (poly_of field.now) first parity (seq result) }
{
    let mut g = [0u8; 256];
    g[0] = 1;
    let mut n = 0;
    while n < parity {
        let old = g;
        let root = field::power(field, first + n);
        locator::add_moved(field, &mut g, &old, root, 1, n + 2);
        n += 1;
    }
    g
}

// The first k bytes of a block are data; the others become their parity, whose generator is g.
pub fn write_parity(field: &[u16; 1280], g: &[u8], block: &mut [u8], k: usize)
    requires field { Field field.now }
    requires k_in_bounds { (k ≤ length block.old) × (length block.old ≤ 255) × (length block.old - k < length g.now) }
    requires monic { Monic (length block.old - k) (seq g.now) }
    ensures { (first : ℕ) → Generator (poly_of field.now) first (length block.old - k) (seq g.now)
        → block.new ≡ written_of (poly_of field.now) first (length block.old - k) block.old }
{
    let n = block.len();
    let mut w = [0u8; 256];
    division::copy(&mut w, block, 0, k);
    division::divide(field, g, n - k, &mut w, k);
    division::copy(block, &w, k, n);
}

// Whether b, what is left of the data, is their parity and zeros behind it. It always is for a parity that has a table; the test is shorter
// than a proof of that.
fn is_parity(b: &[u8; 32], parity: usize) -> bool
    ensures { result ≡ true → IsTabled parity × ((i : ℕ) → parity ≤ i → i < 32 → get_or b.now i 0 ≡ 0) }
{
    if parity < 2 {
        return false;
    }
    if 32 < parity {
        return false;
    }
    if parity % 2 != 0 {
        return false;
    }
    let mut i = parity;
    while i < 32 {
        if b[i] != 0 {
            return false;
        }
        i += 1;
    }
    true
}

// What is left of the first k bytes of a block, data of Han Xin's field, is put behind them where it is their parity; answers whether it
// is. Where it is not, nothing is written.
fn put_left(block: &mut [u8], k: usize, left: Register) -> bool
    requires k_in_bounds { (k ≤ length block.old) × (length block.old ≤ 255) × (0 < k) }
    requires leaves { Leaves (length block.old - k) k block.old left }
    ensures { (result ≡ true → block.new ≡ written_of 0x163 1 (length block.old - k) block.old)
        × (result ≡ false → block.new ≡ block.old) }
{
    let n = block.len();
    let b = remainder::bytes(left);
    if is_parity(&b, n - k) {
        division::put_behind(block, k, &b);
        return true;
    }
    false
}

// The plain division. It has a function of its own, so that its tables take no stack where what is left is the parity.
fn write_plain(block: &mut [u8], k: usize)
    requires { (k ≤ length block.old) × (length block.old ≤ 255) × (0 < k) }
    ensures { block.new ≡ written_of 0x163 1 (length block.old - k) block.old }
{
    let field = field::han_xin();
    let g = generator(&field, 1, block.len() - k);
    write_parity(&field, &g, block, k);
}

// The first k bytes of a block are data of Han Xin's field; the others become their parity, by a table that is prepared once for all blocks
// of one parity.
pub fn write_with(rows: &[u64], block: &mut [u8], k: usize)
    requires { (k ≤ length block.old) × (length block.old ≤ 255) × Prepared (length block.old - k) rows.now × (0 < k) }
    ensures { block.new ≡ written_of 0x163 1 (length block.old - k) block.old }
{
    let left = remainder::remainder(rows, block, k);
    if put_left(block, k, left) {
        return;
    }
    write_plain(block, k);
}

// The same for one short block, with no such table.
pub fn write_short(block: &mut [u8], k: usize)
    requires { (k ≤ length block.old) × (length block.old ≤ 255) × (0 < k) }
    ensures { block.new ≡ written_of 0x163 1 (length block.old - k) block.old }
{
    let parity = block.len() - k;
    let left = remainder::remainder_short(block, k, parity);
    if put_left(block, k, left) {
        return;
    }
    write_plain(block, k);
}

// The parity of a block of the field with the lent table, whose first root is α^first.
pub fn encode_over(field: &[u16; 1280], first: usize, block: &mut [u8], parity: usize) -> Encoded
    requires field { Field field.now }
    requires first_bound { first ≤ 1 }
    ensures { encoding result block.new ≡ encode_of (poly_of field.now) first parity block.old }
{
    let n = block.len();
    if parity == 0 {
        return Encoded::Unfit;
    }
    if n <= parity {
        return Encoded::Unfit;
    }
    if 255 < n {
        return Encoded::Unfit;
    }
    let g = generator(field, first, parity);
    write_parity(field, &g, block, n - parity);
    Encoded::Written
}

// SPECIFICATION 10.6, the parity of a block: GF(256) under 163 hex, first root α^1.
pub fn encode(block: &mut [u8], parity: usize) -> Encoded
    ensures { encoding result block.new ≡ encode_of 0x163 1 parity block.old }
{
    let field = field::han_xin();
    encode_over(&field, 1, block, parity)
}
