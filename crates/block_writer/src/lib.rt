// Blocks made of data, one after the other (SPECIFICATION 7.5): each block's data followed by their parity. The row of the version and
// level is lent: three batches of count, data, parity.
#![tactic(auto)]

ghost use Rattle.std.specs.Prelude.{◌≡◌, ◌++◌, ◌+◌, ◌≤◌, ◌<◌, T, length, drop};
ghost use Rattle.block_table.specs.Blocks.{batch, shapes, total_size, total_data, row_holds};
ghost use Rattle.block_table.specs.Inner.{Sound};
ghost use Rattle.blocks.specs.Blockwise.{stream_of};
ghost use Rattle.blocks.specs.Inner.{blocks_in, writing, transferred, TransferRoom};

use blocks::Batch;

// The blocks of a batch, the first at `to`, of the data from `from` on. The table for their parity is made once for all of them.
fn write_many(stream: &mut [u8], to: usize, data: &[u8], from: usize, b: Batch)
    requires { Sound (blocks_in b) × TransferRoom writing (blocks_in b) to from «data».now stream.old }
    ensures { stream.new ≡ transferred writing (blocks_in b) to from «data».now stream.old }
{
    if b.count == 0 {
        return;
    }
    let mut rows = [0u64; 512];
    remainder::prepare(&mut rows, b.parity);
    let mut into = to;
    let mut at = from;
    let mut left = b.count;
    while 0 < left {
        let end = into + (b.info + b.parity);
        blocks::copy(stream, into, data, at, b.info);
        parity::write_with(&rows, &mut stream[into..end], b.info);
        into = end;
        at += b.info;
        left -= 1;
    }
}

// The only block of a batch, which is short.
fn write_one(stream: &mut [u8], to: usize, data: &[u8], from: usize, b: Batch)
    requires { (0 < b.info) × (b.info + b.parity ≤ 255) × (to + (b.info + b.parity) ≤ length stream.old) × (from + b.info ≤ length «data».now) }
    ensures { stream.new ≡ transferred writing (batch 1 b.info b.parity) to from «data».now stream.old }
{
    let end = to + (b.info + b.parity);
    blocks::copy(stream, to, data, from, b.info);
    parity::write_short(&mut stream[to..end], b.info);
}

// The blocks of a batch, the first at `to`, of the data from `from` on.
fn write_batch(stream: &mut [u8], to: usize, data: &[u8], from: usize, b: Batch)
    requires { (b.info ≤ 255) × (b.parity ≤ 255) × Sound (blocks_in b)
        × TransferRoom writing (blocks_in b) to from «data».now stream.old }
    ensures { stream.new ≡ transferred writing (blocks_in b) to from «data».now stream.old }
{
    if blocks::is_one_short(b) {
        write_one(stream, to, data, from, b);
        return;
    }
    write_many(stream, to, data, from, b);
}

// The stream of data codewords: each block's data followed by their parity.
pub fn write_blocks(stream: &mut [u8], data: &[u8], row: &[u8])
    requires { (length row.now ≡ 9) × T (row_holds (shapes row.now) (total_size (shapes row.now)))
        × (total_size (shapes row.now) ≤ length stream.old) × (total_data (shapes row.now) ≤ length «data».now) }
    ensures { let bs = shapes row.now in
        stream.new ≡ stream_of bs «data».now ++ drop (total_size bs) stream.old }
{
    let mut n: usize = 0;
    let mut from: usize = 0;
    let mut k: usize = 0;
    while k < 3 {
        let b = blocks::batch_of(row, k);
        write_batch(stream, n, data, from, b);
        n += b.count * (b.info + b.parity);
        from += b.count * b.info;
        k += 1;
    }
}
