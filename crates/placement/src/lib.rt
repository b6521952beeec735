// SPECIFICATION 6.2: codewords out of the data modules of a square (han_xin.rs: first half of `decode_data`).
// A square is walked row by row. Where eight data modules stand together they are taken at once, as the bytes of one number.
#![tactic(auto)]

ghost use Rattle.std.specs.Prelude.{◌≡◌, ◌++◌, ℕ, ◌+◌, ◌*◌, ◌^◌, ◌≤◌, ◌<◌, length, drop};
ghost use Rattle.codewords.specs.Codewords.{mask_bit, data_bits};
ghost use Rattle.codewords.specs.Inner.{ModulesAndKinds};
ghost use Rattle.placement.specs.Walk.{four_of, eight_of, behind, Gathered, FewPending, Stored, Pushed, Masked, unmasked_at, Aligned, ReadsColumns, ZeroBytesFirst, NoData, ReadsNext};
ghost use Rattle.bits.specs.Bits.{first_words};
ghost use Rattle.information.specs.Inner.{lowest};

// Where a row is read: the column, the codewords so far, and the first bits of the next, which are the lowest of `value`.
#[derive(Clone, Copy)]
pub struct Run {
    pub column: usize,
    pub n: usize,
    pub value: usize,
    pub bits: usize,
}

fn four(a: u8, b: u8, c: u8, d: u8) -> usize
    ensures { (result ≡ four_of a b c d) × (result < 4294967296) }
{
    bits::as_usize(a)
        + bits::as_usize(b) * 256
        + bits::as_usize(c) * 65536
        + bits::as_usize(d) * 16777216
}

// Eight bytes as one number: a single load. It is a function of its own so that the loads are merged before the number is compared.
pub fn eight(s: &[u8], at: usize) -> usize
    requires { at + 8 ≤ length s.now }
    ensures { result ≡ eight_of (behind s.now at) }
{
    let low = four(s[at], s[at + 1], s[at + 2], s[at + 3]);
    low + four(s[at + 4], s[at + 5], s[at + 6], s[at + 7]) * 4294967296
}

// The lowest bits of eight bytes below 4, as the number that these bits say. Two bytes are put into one, so that a single product brings all eight
// bits together; no two of its terms meet.
pub fn gather(x: usize) -> usize
    ensures { Gathered x result }
{
    let pairs = x % 4294967296 * 16 + x / 4294967296;
    (pairs & 0x11111111) * 134480385 / 16777216 % 256
}

// The codeword x at the place n, if there is such a place.
fn store(out: &mut [u8], n: usize, x: usize) -> usize
    requires { x < 256 }
    ensures { Stored n x out.old out.new result }
{
    if out.len() <= n {
        return n;
    }
    out[n] = x as u8;
    n + 1
}

// The w bits of x behind those read so far. Bits that are stored may stay in `value` above the others.
pub fn push(out: &mut [u8], r: Run, x: usize, w: usize) -> Run
    requires { FewPending r × (w ≤ 8) × (x < 2 ^ w) × (r.column < 65536) }
    ensures { FewPending result × (result.column ≡ r.column + w) × Pushed w x out.old out.new r result }
{
    let v = (r.value << w) + x;
    let bits = r.bits + w;
    let column = r.column + w;
    if bits < 8 {
        return Run {
            column,
            n: r.n,
            value: v,
            bits,
        };
    }
    let left = bits - 8;
    Run {
        column,
        n: store(out, r.n, (v >> left) % 256),
        value: v % 256,
        bits: left,
    }
}

// Eight modules of a row from a column on, as bytes whose lowest bits are those of the modules, unmasked.
fn modules(square: &[u8], row: &[u8], at: usize) -> usize
    requires { Masked (lowest square.now) row.now × (length row.now ≡ 192) × (at + 8 ≤ length square.now) }
    ensures { result ≡ eight_of (unmasked_at square.now row.now at) }
{
    eight(square, at) ^ eight(row, at)
}

fn least(a: usize, b: usize) -> usize
    ensures { (result ≤ a) × (result ≤ b) × (result < b → result ≡ a) }
{
    if a < b {
        return a;
    }
    b
}

// How many of the bytes of x come before the first that is not 0.
fn zero_bytes(x: usize) -> usize
    ensures { ZeroBytesFirst x result }
{
    (u64::trailing_zeros(x as u64) as usize) / 8
}

// How many of eight modules come before the first data module, where the first is none: the lowest bit of each other byte becomes 1 where the
// two low bits of its kind are 0. The first byte stays 0, so that at least one module is passed.
pub fn no_data(k: usize) -> usize
    ensures { NoData k result }
{
    zero_bytes(((k | (k / 2)) & 0x0101010101010100) ^ 0x0101010101010100)
}

// The data modules that come first of the next `left` columns, or the others up to the first of them; k and x have their kinds and bits.
fn advance(out: &mut [u8], k: usize, x: usize, left: usize, r: Run) -> Run
    requires { FewPending r × (0 < left) × (left ≤ 8) × (r.column ≤ 192) }
    ensures { FewPending result × ReadsNext k x left out.old out.new r result }
{
    let w = least(zero_bytes(k), left);
    if w == 0 {
        return Run {
            column: r.column + no_data(k),
            n: r.n,
            value: r.value,
            bits: r.bits,
        };
    }
    push(out, r, gather(x) >> (8 - w), w)
}

// Eight data modules, or as above.
fn step(out: &mut [u8], kinds: &[u8], square: &[u8], row: &[u8], r: Run) -> Run
    requires { Aligned kinds.now square.now row.now × FewPending r × (r.column + 8 ≤ length kinds.now) }
    ensures { FewPending result × (r.column < result.column) × (result.column ≤ length kinds.now)
        × ReadsColumns kinds.now (lowest square.now) row.now out.old out.new r result }
{
    let c = r.column;
    let k = eight(kinds, c);
    let x = modules(square, row, c);
    if k == 0 {
        return push(out, r, gather(x), 8);
    }
    advance(out, k, x, 8, r)
}

// The last modules of a row, fewer than eight: the eight that end the row are shifted down.
fn read_last(out: &mut [u8], kinds: &[u8], square: &[u8], row: &[u8], first: Run) -> Run
    requires { Aligned kinds.now square.now row.now × FewPending first × (first.column ≤ length kinds.now) × (8 ≤ length kinds.now)
        × (length kinds.now ≤ first.column + 8) }
    ensures { FewPending result × (result.column ≡ length kinds.now)
        × ReadsColumns kinds.now (lowest square.now) row.now out.old out.new first result }
{
    let end = kinds.len();
    let k = eight(kinds, end - 8);
    let x = modules(square, row, end - 8);
    let mut r = first;
    while r.column < end {
        let left = end - r.column;
        let s = 64 - 8 * left;
        r = advance(out, k >> s, x >> s, left, r);
    }
    r
}

// The columns before this one have seven more behind them. Computed once for a row: the loop then tests one number.
pub fn groups_end(side: usize) -> usize
    ensures { ((c : ℕ) → c < result → c + 8 ≤ side) × (side ≤ result + 7) }
{
    if side < 8 {
        return 0;
    }
    side - 7
}

// One row.
fn read_row(out: &mut [u8], kinds: &[u8], square: &[u8], row: &[u8], first: Run) -> Run
    requires { Aligned kinds.now square.now row.now × FewPending first × (first.column ≡ 0) × (8 ≤ length kinds.now) }
    ensures { FewPending result × (result.column ≡ length kinds.now)
        × ReadsColumns kinds.now (lowest square.now) row.now out.old out.new first result }
{
    let end = groups_end(kinds.len());
    let mut r = first;
    while r.column < end {
        r = step(out, kinds, square, row, r);
    }
    read_last(out, kinds, square, row, r)
}

// As many codewords of a square as `out` has room for.
fn read_rows(out: &mut [u8], kinds: &[u8], square: &[u8], side: usize, mask: usize)
    requires { ModulesAndKinds kinds.now square.now × (8 ≤ side) × (side ≤ 189) × (length square.now ≡ side * side)
        × (8 * length out.old ≤ length (data_bits (mask_bit side mask) 0 kinds.now (lowest square.now))) }
    ensures { out.new ≡ first_words 8 (length out.old) (data_bits (mask_bit side mask) 0 kinds.now (lowest square.now)) }
{
    let mut table = [0u16; 576];
    let mut row = [0u8; 192];
    let columns = (side + 7) / 8 * 8;
    masks::columns(&mut table, columns, mask);
    let mut r = Run {
        column: 0,
        n: 0,
        value: 0,
        bits: 0,
    };
    let mut i = 0;
    while i < side {
        masks::mask_row(&mut row, &table, mask, i, columns);
        let at = i * side;
        let end = at + side;
        let first = Run {
            column: 0,
            n: r.n,
            value: r.value,
            bits: r.bits,
        };
        r = read_row(out, &kinds[at..end], &square[at..end], &row, first);
        i += 1;
    }
}

// The first total codewords of a square: data modules row by row, high bit first; those left over are ignored.
pub fn read_codewords(
    out: &mut [u8],
    total: usize,
    kinds: &[u8],
    square: &[u8],
    side: usize,
    mask: usize,
)
    requires modules_and_kinds { ModulesAndKinds kinds.now square.now × (8 ≤ side) × (side ≤ 189) × (length square.now ≡ side * side) }
    requires total_in_bounds { (total ≤ length out.old) × (8 * total ≤ length (data_bits (mask_bit side mask) 0 kinds.now (lowest square.now))) }
    ensures { out.new ≡ first_words 8 total (data_bits (mask_bit side mask) 0 kinds.now (lowest square.now)) ++ drop total
        out.old }
{
    read_rows(&mut out[..total], kinds, square, side, mask);
}
