// SPECIFICATION 10.5: Correct a block (reed_solomon.rs: `correct`), on a block that may be lent from the middle of a longer buffer.
#![tactic(auto)]

ghost use Rattle.std.specs.Prelude.{◌≡◌, false, ◌≤◌, ◌<◌, length};
ghost use Rattle.field.specs.Table.{Field, poly_of};
ghost use Rattle.reed_solomon.specs.Block.{nearest};
ghost use Rattle.reed_solomon.specs.Inner.{Syndromes};
ghost use Rattle.remainder.specs.Words.{IsTabled, Prepared, Remains};
ghost use Rattle.corrector.specs.Correct.{correct_of, outcome, settled};

pub mod apply;

use reed_solomon::{locator, syndromes};
use remainder::Register;

// What became of a block: the count of its corrections, or refusal 5, 15 or 6 (SPECIFICATION 2.7). 15 is for blocks with erased places alone
// (crate `erasure_corrector`).
#[derive(Clone, Copy)]
pub enum Correction {
    Corrected(usize),
    Unfit,
    TooManyErased,
    OutOfReach,
}

// The block set to its codeword in reach where its syndromes s are not all zero (reed_solomon.rs: `solve`).
fn repair(
    field: &[u16; 1280],
    first: usize,
    block: &mut [u8],
    parity: usize,
    s: &mut [u8],
) -> Correction
    requires field { Field field.now }
    requires first_bound { (first ≤ 1) × (parity ≤ 254) × (length block.old ≤ 255) }
    requires syndromes { Syndromes (poly_of field.now) first parity block.old s.old }
    ensures { outcome result block.new ≡ settled block.old (nearest (poly_of field.now) first parity block.old) }
{
    let mut f = [0u8; 256];
    let l = locator::locator(field, s, parity, &mut f);
    if parity < l + l {
        return Correction::OutOfReach;
    }
    let fix = apply::apply(field, first, block, parity, s, &f, l);
    if fix.done {
        return Correction::Corrected(fix.count);
    }
    Correction::OutOfReach
}

// Correct a block of the field with the lent table, whose first root is α^first.
pub fn correct_over(
    field: &[u16; 1280],
    first: usize,
    block: &mut [u8],
    parity: usize,
) -> Correction
    requires field { Field field.now }
    requires first_bound { first ≤ 1 }
    ensures { outcome result block.new ≡ correct_of (poly_of field.now) first parity block.old }
{
    let n = block.len();
    if parity == 0 {
        return Correction::Unfit;
    }
    if n <= parity {
        return Correction::Unfit;
    }
    if 255 < n {
        return Correction::Unfit;
    }
    let mut s = [0u8; 256];
    syndromes::syndromes(field, first, block, parity, &mut s);
    if syndromes::clean(&s, parity) {
        return Correction::Corrected(0);
    }
    repair(field, first, block, parity, &mut s)
}

// Whether there is no table for the parity, or the length is unfit.
pub fn is_untabled(n: usize, parity: usize) -> bool
    ensures { result ≡ false → IsTabled parity × (parity < n) × (n ≤ 255) }
{
    if parity < 2 {
        return true;
    }
    if 32 < parity {
        return true;
    }
    if n <= parity {
        return true;
    }
    if 255 < n {
        return true;
    }
    if parity % 2 != 0 {
        return true;
    }
    false
}

// Correct a block of the field of Han Xin, whose table is copied only where it is needed.
fn correct_plain(block: &mut [u8], parity: usize) -> Correction
    ensures { outcome result block.new ≡ correct_of 0x163 1 parity block.old }
{
    let field = field::han_xin();
    correct_over(&field, 1, block, parity)
}

// The same where `left` is what division leaves of the block: a block of which nothing is left has no error, and the syndromes of any
// other are those of the few bytes that are left.
pub fn correct_left(block: &mut [u8], parity: usize, left: Register) -> Correction
    requires tabled { IsTabled parity × (parity < length block.old) × (length block.old ≤ 255) }
    requires remains { Remains 0x163 1 parity block.old left }
    ensures { outcome result block.new ≡ correct_of 0x163 1 parity block.old }
{
    if remainder::is_none(left) {
        return Correction::Corrected(0);
    }
    let field = field::han_xin();
    let mut s = [0u8; 256];
    remainder::syndromes(&field, 1, left, parity, &mut s);
    repair(&field, 1, block, parity, &mut s)
}

// The same by a table that is prepared once for all blocks of one parity.
pub fn correct_with(rows: &[u64], block: &mut [u8], parity: usize) -> Correction
    requires { Prepared parity rows.now }
    ensures { outcome result block.new ≡ correct_of 0x163 1 parity block.old }
{
    if is_untabled(block.len(), parity) {
        return correct_plain(block, parity);
    }
    let left = remainder::remainder(rows, block, block.len());
    correct_left(block, parity, left)
}

// Whether the plain way is to be taken: where there is no table, and where the values at the roots cost less than a table. n · parity below
// 450 was measured to be so: version 1 at all levels, version 3 at level 0.
fn is_plain(n: usize, parity: usize) -> bool
    ensures { result ≡ false → IsTabled parity × (parity < n) × (n ≤ 255) }
{
    if is_untabled(n, parity) {
        return true;
    }
    n * parity < 450
}

// The same for one short block, with no such table.
pub fn correct_short(block: &mut [u8], parity: usize) -> Correction
    ensures { outcome result block.new ≡ correct_of 0x163 1 parity block.old }
{
    if is_plain(block.len(), parity) {
        return correct_plain(block, parity);
    }
    let left = remainder::remainder_short(block, block.len(), parity);
    correct_left(block, parity, left)
}

// SPECIFICATION 10.5, Correct a block: GF(256) under 163 hex, first root α^1. A table for one short block costs more than it saves.
pub fn correct(block: &mut [u8], parity: usize) -> Correction
    ensures { outcome result block.new ≡ correct_of 0x163 1 parity block.old }
{
    if block.len() < 64 {
        return correct_short(block, parity);
    }
    let mut rows = [0u64; 512];
    remainder::prepare(&mut rows, parity);
    correct_with(&rows, block, parity)
}
