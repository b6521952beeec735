// Blocks corrected, and their data gathered, one after the other (SPECIFICATION 7.2, 7.5). The row of the version and level is lent: three
// batches of count, data, parity. The crate `block_writer` makes blocks of data.
#![tactic(auto)]

ghost use Rattle.std.specs.Prelude.{◌≡◌, true, [], ◌++◌, ◌+◌, ◌≤◌, ◌<◌, T, length, take, drop};
ghost use Rattle.field.specs.Table.{Field, poly_of};
ghost use Rattle.remainder.specs.Words.{Prepared};
ghost use Rattle.block_table.specs.Blocks.{batch, shapes, total_size, total_data, row_holds, cut, joined, data_parts};
ghost use Rattle.blocks.specs.Blockwise.{corrected, first_refused, count_of, blocks_of, left_of, number_of, corrections_of};
ghost use Rattle.blocks.specs.Inner.{Reads, blocks_in, spliced, answer_of, Corrects, Flagged, Numbered, gathering, transferred, TransferRoom};

use corrector::Correction;

// What became of the blocks: the count of all corrections, or the refusal number of the first that is refused (SPECIFICATION 2.7).
#[derive(Clone, Copy)]
pub enum Blocks {
    Corrected(usize),
    Refused(usize),
}

// A batch of a row: so many blocks, each with so many data codewords, then so many of parity.
#[derive(Clone, Copy)]
pub struct Batch {
    pub count: usize,
    pub info: usize,
    pub parity: usize,
}

// Batch k of the row.
pub fn batch_of(row: &[u8], k: usize) -> Batch
    requires { (length row.now ≡ 9) × (k < 3) }
    ensures { Reads row.now k result }
{
    Batch {
        count: row[3 * k] as usize,
        info: row[3 * k + 1] as usize,
        parity: row[3 * k + 2] as usize,
    }
}

// Whether a batch is one short block: a table for it would cost more than it saves.
pub fn is_one_short(b: Batch) -> bool
    requires { (b.info ≤ 255) × (b.parity ≤ 255) }
    ensures { result ≡ true → b.count ≡ 1 }
{
    if b.count != 1 {
        return false;
    }
    b.info + b.parity < 64
}

// The corrector's answer for a block as the answer for blocks. No block of a row is unfit.
fn answer(c: Correction) -> Blocks
    ensures { result ≡ answer_of c }
{
    match c {
        Correction::Corrected(n) => Blocks::Corrected(n),
        Correction::Unfit => Blocks::Refused(5),
        Correction::TooManyErased => Blocks::Refused(15),
        Correction::OutOfReach => Blocks::Refused(6),
    }
}

// One block, lent to the corrector as a part of the stream from its place on. Nothing is erased in the whole stream, so there are no flags.
fn correct_block(rows: &[u64], stream: &mut [u8], from: usize, b: Batch) -> Blocks
    requires { Prepared b.parity rows.now × (from + (b.info + b.parity) ≤ length stream.old) }
    ensures { Corrects [] (batch 1 b.info b.parity) from stream.old stream.new result }
{
    let to = from + (b.info + b.parity);
    answer(corrector::correct_with(rows, &mut stream[from..to], b.parity))
}

// The blocks of a batch, whose first begins at `from`. The corrector's table is made once for all of them.
fn correct_many(stream: &mut [u8], from: usize, b: Batch) -> Blocks
    requires { from + total_size (blocks_in b) ≤ length stream.old }
    ensures { Corrects [] (blocks_in b) from stream.old stream.new result }
{
    if b.count == 0 {
        return Blocks::Corrected(0);
    }
    let mut rows = [0u64; 512];
    remainder::prepare(&mut rows, b.parity);
    let mut n: usize = 0;
    let mut at = from;
    let mut left = b.count;
    while 0 < left {
        let r = correct_block(&rows, stream, at, b);
        let Blocks::Corrected(m) = r else {
            return r;
        };
        n += m;
        at += b.info + b.parity;
        left -= 1;
    }
    Blocks::Corrected(n)
}

// The only block of a batch, which is short.
fn correct_one(stream: &mut [u8], from: usize, b: Batch) -> Blocks
    requires { from + (b.info + b.parity) ≤ length stream.old }
    ensures { Corrects [] (batch 1 b.info b.parity) from stream.old stream.new result }
{
    let to = from + (b.info + b.parity);
    answer(corrector::correct_short(&mut stream[from..to], b.parity))
}

// One block with its flags.
fn correct_flagged(
    field: &[u16; 1280],
    rows: &[u64],
    stream: &mut [u8],
    flags: &[u8],
    from: usize,
    b: Batch,
) -> Blocks
    requires { Field field.now × (poly_of field.now ≡ 0x163) × Prepared b.parity rows.now
        × (from + (b.info + b.parity) ≤ length stream.old) × (from + (b.info + b.parity) ≤ length flags.now) }
    ensures { Corrects flags.now (batch 1 b.info b.parity) from stream.old stream.new result }
{
    let to = from + (b.info + b.parity);
    answer(erasure_corrector::correct_with(
        field,
        rows,
        &mut stream[from..to],
        &flags[from..to],
        b.parity,
    ))
}

// The blocks of a batch with their flags. The table of the field, too, is copied once for all of them: most are repaired.
fn correct_many_flagged(stream: &mut [u8], flags: &[u8], from: usize, b: Batch) -> Blocks
    requires { (from + total_size (blocks_in b) ≤ length stream.old) × (from + total_size (blocks_in b) ≤ length flags.now) }
    ensures { Corrects flags.now (blocks_in b) from stream.old stream.new result }
{
    if b.count == 0 {
        return Blocks::Corrected(0);
    }
    let mut rows = [0u64; 512];
    remainder::prepare(&mut rows, b.parity);
    let field = field::han_xin();
    let mut n: usize = 0;
    let mut at = from;
    let mut left = b.count;
    while 0 < left {
        let r = correct_flagged(&field, &rows, stream, flags, at, b);
        let Blocks::Corrected(m) = r else {
            return r;
        };
        n += m;
        at += b.info + b.parity;
        left -= 1;
    }
    Blocks::Corrected(n)
}

// The blocks of a batch, whose first begins at `from`. There are no flags where nothing is erased in the whole stream.
fn correct_batch(stream: &mut [u8], flags: &[u8], from: usize, b: Batch) -> Blocks
    requires { (b.info ≤ 255) × (b.parity ≤ 255) × (from + total_size (blocks_in b) ≤ length stream.old)
        × Flagged flags.now (from + total_size (blocks_in b)) }
    ensures { Corrects flags.now (blocks_in b) from stream.old stream.new result }
{
    if flags.len() != 0 {
        return correct_many_flagged(stream, flags, from, b);
    }
    if is_one_short(b) {
        return correct_one(stream, from, b);
    }
    correct_many(stream, from, b)
}

// All blocks of the stream, first to last, each set to the codeword that its rule admits; the first that has none ends it. A flag stands
// beside each codeword, or there are none at all, which says that nothing is erased.
pub fn correct_blocks(stream: &mut [u8], flags: &[u8], row: &[u8]) -> Blocks
    requires { (length row.now ≡ 9) × T (row_holds (shapes row.now) (total_size (shapes row.now)))
        × (total_size (shapes row.now) ≤ length stream.old) × Flagged flags.now (total_size (shapes row.now)) }
    ensures { let bs = shapes row.now in
        let n = total_size bs in
        let fl = flags.now in
        let s = stream.old in
        (number_of result ≡ first_refused (corrected bs fl (take n s)))
        × (number_of result ≡ 0 → (corrections_of result ≡ count_of (corrected bs fl (take n s)))
        × (stream.new ≡ joined (blocks_of (corrected bs fl (take n s))) ++ drop n s))
        × (stream.new ≡ left_of bs fl s) × Numbered result }
{
    let mut total: usize = 0;
    let mut at: usize = 0;
    let mut k: usize = 0;
    while k < 3 {
        let b = batch_of(row, k);
        let r = correct_batch(stream, flags, at, b);
        let Blocks::Corrected(n) = r else {
            return r;
        };
        total += n;
        at += b.count * (b.info + b.parity);
        k += 1;
    }
    Blocks::Corrected(total)
}

// n bytes of src, from the place `from` on, written to dst from the place `to` on.
pub fn copy(dst: &mut [u8], to: usize, src: &[u8], from: usize, n: usize)
    requires { (to + n ≤ length dst.old) × (from + n ≤ length src.now) }
    ensures { dst.new ≡ spliced to n (take n (drop from src.now)) dst.old }
{
    let mut i: usize = 0;
    while i < n {
        dst[to + i] = src[from + i];
        i += 1;
    }
}

// The data parts of a batch whose first block begins at `from`, joined from `to` on.
fn gather_batch(out: &mut [u8], to: usize, stream: &[u8], from: usize, b: Batch)
    requires { TransferRoom gathering (blocks_in b) to from stream.now out.old }
    ensures { out.new ≡ transferred gathering (blocks_in b) to from stream.now out.old }
{
    let mut into = to;
    let mut at = from;
    let mut left = b.count;
    while 0 < left {
        copy(out, into, stream, at, b.info);
        into += b.info;
        at += b.info + b.parity;
        left -= 1;
    }
}

// How many data codewords all blocks of the row have.
pub fn data_length(row: &[u8]) -> usize
    requires { length row.now ≡ 9 }
    ensures { result ≡ total_data (shapes row.now) }
{
    let a = batch_of(row, 0);
    let b = batch_of(row, 1);
    let c = batch_of(row, 2);
    a.count * a.info + (b.count * b.info + c.count * c.info)
}

// The data parts of all blocks of the stream, joined in block order at the front of out; the answer is their number.
pub fn gather_data(out: &mut [u8], stream: &[u8], row: &[u8]) -> usize
    requires { (length row.now ≡ 9) × (total_size (shapes row.now) ≤ length stream.now) × (total_data (shapes row.now) ≤ length out.old) }
    ensures { let bs = shapes row.now in
        (result ≡ total_data bs) × (out.new ≡ data_parts bs (cut bs stream.now) ++ drop result out.old) }
{
    let mut n: usize = 0;
    let mut from: usize = 0;
    let mut k: usize = 0;
    while k < 3 {
        let b = batch_of(row, k);
        gather_batch(out, n, stream, from, b);
        n += b.count * b.info;
        from += b.count * (b.info + b.parity);
        k += 1;
    }
    n
}
