// SPECIFICATION 6.1: the mask of a row of a square, with no division for each module (han_xin.rs: `masked`).
// The loops over a row have no branch and keep to numbers of 16 bits, so that the compiler takes eight columns at once.
#![tactic(auto)]

ghost use Rattle.std.specs.Prelude.{◌≡◌, ℕ, ◌+◌, ◌*◌, ◌/◌, ◌≤◌, ◌<◌, length, get_or};
ghost use Rattle.std.specs.Int.Bits.{bit_and};
ghost use Rattle.codewords.specs.Codewords.{mask_at};
ghost use Rattle.masks.specs.Columns.{inverse, rest, Column, Columns, Row};
ghost use Rattle.masks.specs.Open.{OpenRows};

mod open;

// What a number is multiplied by in place of a division by j.
fn factor(j: usize) -> u16
    requires { (0 < j) × (j ≤ 192) }
    ensures { result ≡ inverse j }
{
    (65535 / j + 1 - 1 / j) as u16
}

fn rest_of(j: usize) -> u16
    requires { 0 < j }
    ensures { result ≡ rest j }
{
    (j % 3 + 1 / j) as u16
}

// Mask 1 or 2 at row i and column c, both from 0 on.
fn inverts_low(mask: usize, i: u16, c: u16) -> u16
    requires { (0 < mask) × (mask < 3) × (i < 3) × (c < 192) }
    ensures { result ≡ mask_at mask (i + 1) (c + 1) }
{
    if mask == 1 {
        return (i + c + 1) % 2;
    }
    (i + 2 + (c + 1) / 3 + (i + c + 2) / 3) % 2
}

// The first three rows of mask 1 or 2, a third of the table for each: mask 1 repeats after two rows and mask 2 after three.
fn fill_rows(table: &mut [u16], n: usize, mask: usize)
    requires { (n ≤ 192) × (length table.old ≡ 576) × (0 < mask) × (mask < 3) }
    ensures { Columns mask n table.new }
{
    let mut c = 0;
    while c < n {
        let j = c as u16;
        table[192 + c] = inverts_low(mask, 1, j);
        table[384 + c] = inverts_low(mask, 2, j);
        table[c] = inverts_low(mask, 0, j);
        c += 1;
    }
}

// What the rows of a mask are taken from, for the first n columns: nothing for mask 0, three rows for masks 1 and 2, and for mask 3 the
// columns' numbers, factors and rests. Numbers are read from here too: counted in the loop over a row they would be computed in 64 bits.
pub fn columns(table: &mut [u16], n: usize, mask: usize)
    requires { (n ≤ 192) × (length table.old ≡ 576) }
    ensures { Columns mask n table.new }
{
    if mask == 0 {
        return;
    }
    if mask < 3 {
        fill_rows(table, n, mask);
        return;
    }
    let mut c = 0;
    while c < n {
        table[192 + c] = factor(c + 1);
        table[384 + c] = rest_of(c + 1);
        table[c] = (c + 1) as u16;
        c += 1;
    }
}

fn long(x: u16) -> u32
    ensures { (result ≡ x) × (result < 65536) }
{
    x as u32
}

// The quotient a / j by j's factor, and of it the bits of j: its lowest bit is that of a / j * j. One machine operation each.
fn multiple(a: u16, factor: u16, j: u16) -> u16
    ensures { result ≡ bit_and (a * factor / 65536) j }
{
    (((long(a) * long(factor)) / 65536) as u16) & j
}

// Mask 3: i % j + j % i + i % 3 + j % 3 is even where the lowest bit of this sum without carries is 1.
fn inverts_three(table: &[u16], i: usize, c: usize) -> u8
    requires { (length table.now ≡ 576) × (i < 192) × (c < 192) × Column table.now i × Column table.now c }
    ensures { (result ≡ mask_at 3 (i + 1) (c + 1)) × (result < 2) }
{
    let a = table[i];
    let b = table[c];
    let below = multiple(a, table[192 + c], b);
    let above = multiple(b, table[192 + i], a);
    (((a + table[384 + i] + 1) ^ b ^ table[384 + c] ^ below ^ above) % 2) as u8
}

// Which of the first three rows of mask 1 or 2 is the same as row i.
fn section(mask: usize, i: usize) -> usize
    requires { (0 < mask) × (mask < 3) }
    ensures { (result < 3) × ((j : ℕ) → mask_at mask (result + 1) j ≡ mask_at mask (i + 1) j) }
{
    if mask == 1 {
        return i % 2;
    }
    i % 3
}

// A row of mask 1 or 2 before a column, from the table's third that has it.
fn copy_row(row: &mut [u8], table: &[u16], mask: usize, i: usize, to: usize)
    requires { (0 < mask) × (mask < 3) × (to ≤ 192) × Columns mask to table.now × Row mask row.old }
    ensures { Row mask row.new × ((c : ℕ) → c < to → get_or row.new c 0 ≡ mask_at mask (i + 1) (c + 1)) }
{
    let at = 192 * section(mask, i);
    let mut c = 0;
    while c < to {
        row[c] = table[at + c] as u8;
        c += 1;
    }
}

// The mask of row i before a column; what the other columns hold is not said. A row of mask 0 is zero from the start and stays so.
pub fn mask_row(row: &mut [u8], table: &[u16], mask: usize, i: usize, to: usize)
    requires { (i < 192) × (to ≤ 192) × Columns mask (i + 1) table.now × Columns mask to table.now × Row mask row.old }
    ensures { Row mask row.new × ((c : ℕ) → c < to → get_or row.new c 0 ≡ mask_at mask (i + 1) (c + 1)) }
{
    if mask == 0 {
        return;
    }
    if mask < 3 {
        copy_row(row, table, mask, i, to);
        return;
    }
    let mut c = 0;
    while c < to {
        row[c] = inverts_three(table, i, c);
        c += 1;
    }
}

// The masks of the rows of versions 1 to 3, a number for each row: a read of it takes less time than the mask of a row.
pub fn open_rows() -> [u32; 108]
    ensures { OpenRows result }
{
    open::ROWS
}
