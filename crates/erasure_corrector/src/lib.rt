// SPECIFICATION 3.10: Correct a block with erased places (reed_solomon.rs: `correct_with_erasures`). A flag stands beside each byte of a block; a
// place is erased where its flag is not 0. A block with none erased is corrected as before.
#![tactic(auto)]

ghost use Rattle.std.specs.Prelude.{◌≡◌, cond, ◌≢◌, ℕ, ◌+◌, ◌≤◌, ◌<◌, eqb, length};
ghost use Rattle.field.specs.Table.{Field, poly_of};
ghost use Rattle.reed_solomon.specs.Sum.{seq};
ghost use Rattle.reed_solomon.specs.Erased.{erasures, admitted};
ghost use Rattle.reed_solomon.specs.Inner.{Syndromes};
ghost use Rattle.remainder.specs.Words.{IsTabled, Prepared, Remains};
ghost use Rattle.corrector.specs.Correct.{outcome, settled};
ghost use Rattle.erasure_corrector.specs.Erased.{correct_erased_of};
ghost use Rattle.erasure_corrector.specs.Inner.{HasErased, OnlyErased, TriedOne};

use corrector::apply::Fix;
use corrector::{Correction, apply};
use reed_solomon::syndromes;
use remainder::Register;

// 1 if two bytes differ, else 0.
fn differ(a: u8, b: u8) -> u8
    ensures { result ≡ cond (eqb a b) 0 1 }
{
    if a == b { 0 } else { 1 }
}

// How many of the places are erased. The count is a byte, so that the compiler counts sixteen places at once.
fn erased(flags: &[u8]) -> usize
    requires { length flags.now ≤ 255 }
    ensures { result ≡ erasures flags.now }
{
    let mut count: u8 = 0;
    let mut k: usize = 0;
    while k < flags.len() {
        count += differ(flags[k], 0);
        k += 1;
    }
    count as usize
}

// The block, of which f places are erased, set to the codeword that its rule admits; its syndromes are s.
fn repair(
    field: &[u16; 1280],
    first: usize,
    block: &mut [u8],
    flags: &[u8],
    parity: usize,
    f: usize,
    s: &mut [u8],
) -> Correction
    requires field { Field field.now × (first ≤ 1) }
    requires has_erased { HasErased parity flags.now block.old f × Syndromes (poly_of field.now) first parity block.old s.old }
    ensures { outcome result block.new
        ≡ settled block.old (admitted (poly_of field.now) first parity flags.now block.old) }
{
    if syndromes::clean(s, parity) {
        return Correction::Corrected(0);
    }
    let mut h = [0u8; 256];
    let l = erasures::locate(field, s, flags, parity, f, &mut h);
    if parity < l + l + f + 2 {
        return Correction::OutOfReach;
    }
    let top = erasures::add_roots(field, &mut h, l, flags);
    let fix = apply::apply(field, first, block, parity, s, &h, top);
    if fix.done {
        return Correction::Corrected(fix.count);
    }
    Correction::OutOfReach
}

// A block of the field with the lent table, whose first root is α^first.
pub fn correct_over(
    field: &[u16; 1280],
    first: usize,
    block: &mut [u8],
    flags: &[u8],
    parity: usize,
) -> Correction
    requires field { Field field.now }
    requires first_bound { (first ≤ 1) × (length flags.now ≡ length block.old) }
    ensures { outcome result block.new
        ≡ correct_erased_of (poly_of field.now) first parity flags.now block.old }
{
    let n = block.len();
    if parity == 0 {
        return Correction::Unfit;
    }
    if n <= parity {
        return Correction::Unfit;
    }
    if 255 < n {
        return Correction::Unfit;
    }
    let f = erased(flags);
    if f == 0 {
        return corrector::correct_over(field, first, block, parity);
    }
    if parity < f {
        return Correction::TooManyErased;
    }
    let mut s = [0u8; 256];
    syndromes::syndromes(field, first, block, parity, &mut s);
    repair(field, first, block, flags, parity, f, &mut s)
}

// A block of the field of Han Xin.
fn correct_plain(block: &mut [u8], flags: &[u8], parity: usize) -> Correction
    requires { length flags.now ≡ length block.old }
    ensures { outcome result block.new ≡ correct_erased_of 0x163 1 parity flags.now block.old }
{
    let field = field::han_xin();
    correct_over(&field, 1, block, flags, parity)
}

// The first erased place, or the length if there is none.
fn first_erased(flags: &[u8]) -> usize
    ensures { result < length flags.now → seq flags.now result ≢ 0 }
{
    let mut k = 0;
    while k < flags.len() {
        if flags[k] != 0 {
            return k;
        }
        k += 1;
    }
    k
}

// The only erased place of f, if its block may be repaired there alone; else the length.
fn only_erased(flags: &[u8], parity: usize, f: usize) -> usize
    ensures { OnlyErased parity flags.now f result }
{
    if f != 1 {
        return flags.len();
    }
    if parity < 3 {
        return flags.len();
    }
    first_erased(flags)
}

// One erased place alone, which a small scratch leaves in most blocks, tried before all else: the byte that makes the first syndrome zero,
// if it makes a codeword. `left` is what division leaves of the block. Of the other syndromes none is computed.
fn try_one(
    field: &[u16; 1280],
    rows: &[u64],
    block: &mut [u8],
    flags: &[u8],
    parity: usize,
    f: usize,
    left: Register,
) -> Fix
    requires field { Field field.now × Prepared parity rows.now × IsTabled parity }
    requires block_len_bound { (length block.old ≤ 255) × (length flags.now ≡ length block.old) }
    ensures { TriedOne parity flags.now block.old f result.done result.count block.new }
{
    let n = block.len();
    let k = only_erased(flags, parity, f);
    if n <= k {
        return Fix {
            done: false,
            count: 0,
        };
    }
    let mut s = [0u8; 256];
    remainder::syndromes(field, 1, left, 1, &mut s);
    let old = block[k];
    let new = old ^ field::raised(field, s[0], 255 - (n - 1 - k));
    block[k] = new;
    if remainder::is_none(remainder::remainder(rows, block, n)) {
        return Fix {
            done: true,
            count: differ(old, new) as usize,
        };
    }
    block[k] = old;
    Fix {
        done: false,
        count: 0,
    }
}

// A block of which f places are erased and division leaves `left`: one of which nothing is left is a codeword.
fn correct_left(
    field: &[u16; 1280],
    rows: &[u64],
    block: &mut [u8],
    flags: &[u8],
    parity: usize,
    f: usize,
    left: Register,
) -> Correction
    requires field { Field field.now × (poly_of field.now ≡ 0x163) × Prepared parity rows.now × IsTabled parity }
    requires has_erased { HasErased parity flags.now block.old f × Remains 0x163 1 parity block.old left }
    ensures { outcome result block.new ≡ settled block.old (admitted 0x163 1 parity flags.now block.old) }
{
    if remainder::is_none(left) {
        return Correction::Corrected(0);
    }
    let fix = try_one(field, rows, block, flags, parity, f, left);
    if fix.done {
        return Correction::Corrected(fix.count);
    }
    let mut s = [0u8; 256];
    remainder::syndromes(field, 1, left, parity, &mut s);
    repair(field, 1, block, flags, parity, f, &mut s)
}

// A block of the field of Han Xin, by its table and one that is prepared once for all blocks of one parity.
pub fn correct_with(
    field: &[u16; 1280],
    rows: &[u64],
    block: &mut [u8],
    flags: &[u8],
    parity: usize,
) -> Correction
    requires { Field field.now × (poly_of field.now ≡ 0x163) × Prepared parity rows.now × (length flags.now ≡ length block.old) }
    ensures { outcome result block.new ≡ correct_erased_of 0x163 1 parity flags.now block.old }
{
    if corrector::is_untabled(block.len(), parity) {
        return correct_over(field, 1, block, flags, parity);
    }
    let f = erased(flags);
    if parity < f {
        return Correction::TooManyErased;
    }
    let left = remainder::remainder(rows, block, block.len());
    if f == 0 {
        return corrector::correct_left(block, parity, left);
    }
    correct_left(field, rows, block, flags, parity, f, left)
}

// SPECIFICATION 3.10, Correct a block with erased places: GF(256) under 163 hex, first root α^1. A table for one short block costs more than
// it saves.
pub fn correct(block: &mut [u8], flags: &[u8], parity: usize) -> Correction
    requires { length flags.now ≡ length block.old }
    ensures { outcome result block.new ≡ correct_erased_of 0x163 1 parity flags.now block.old }
{
    if block.len() < 64 {
        return correct_plain(block, flags, parity);
    }
    let mut rows = [0u64; 512];
    remainder::prepare(&mut rows, parity);
    let field = field::han_xin();
    correct_with(&field, &rows, block, flags, parity)
}
