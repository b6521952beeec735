// SPECIFICATION 6: the masks, and the codewords of a square as its stream and back (han_xin.rs: `masked`, first half of `decode_data`).
// The data modules are read by `placement` and `small_marks` and written by `drawing`. Buffers are lent whole, with the count that is used.
#![tactic(auto)]

ghost use Rattle.std.specs.Prelude.{◌≡◌, true, false, ◌++◌, ◌+◌, ◌≤◌, ◌<◌, length, take, drop};
ghost use Rattle.codewords.specs.Codewords.{mask_at, to_stream, from_stream};
ghost use Rattle.codewords.specs.Inner.{Moves};

// Whether data mask `mask` inverts (1) the module at i = row + 1 and j = column + 1.
pub fn masked(mask: usize, i: usize, j: usize) -> usize
    requires { (0 < i) × (i < 70000) × (0 < j) × (j < 70000) }
    ensures { (result ≡ mask_at mask i j) × (result < 2) }
{
    if mask == 0 {
        return 0;
    }
    if mask == 1 {
        return 1 - (i + j) % 2;
    }
    if mask == 2 {
        return 1 - ((i + j) % 3 + j % 3) % 2;
    }
    1 - (i % j + j % i + i % 3 + j % 3) % 2
}

// Codewords from the i-th on to the stream places start, start + 13, ..; answers the next i.
fn store_start(out: &mut [u8], codewords: &[u8], total: usize, start: usize, i: usize) -> usize
    requires { Moves true total codewords.now out.old start i × (start < 13) }
    ensures { Moves true total codewords.now out.new (start + 1) result
        × (drop total out.new ≡ drop total out.old) }
{
    let mut n = i;
    let mut p = start;
    while p < total {
        out[p] = codewords[n];
        n += 1;
        p += 13;
    }
    n
}

// The stream of the first total codewords of a square.
pub fn to_stream(out: &mut [u8], codewords: &[u8], total: usize)
    requires { (total ≤ length out.old) × (total ≤ length codewords.now) × (total ≤ 65535) }
    ensures { out.new ≡ to_stream (take total codewords.now) ++ drop total out.old }
{
    let mut i: usize = 0;
    let mut start: usize = 0;
    while start < 13 {
        i = store_start(out, codewords, total, start, i);
        start += 1;
    }
}

// Codewords from the i-th on out of the stream places start, start + 13, ..; answers the next i.
fn collect_start(out: &mut [u8], stream: &[u8], total: usize, start: usize, i: usize) -> usize
    requires { Moves false total stream.now out.old start i × (start < 13) }
    ensures { Moves false total stream.now out.new (start + 1) result
        × (drop total out.new ≡ drop total out.old) }
{
    let mut n = i;
    let mut p = start;
    while p < total {
        out[n] = stream[p];
        n += 1;
        p = p + 13;
    }
    n
}

// The codewords of a square out of the first total of a stream.
pub fn from_stream(out: &mut [u8], stream: &[u8], total: usize)
    requires { (total ≤ length out.old) × (total ≤ length stream.now) × (total ≤ 65535) }
    ensures { out.new ≡ from_stream (take total stream.now) ++ drop total out.old }
{
    let mut i: usize = 0;
    let mut start: usize = 0;
    while start < 13 {
        i = collect_start(out, stream, total, start, i);
        start += 1;
    }
}
