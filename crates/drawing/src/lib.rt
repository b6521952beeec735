// SPECIFICATION 6.2, 6.3: a square with its patterns and the masked bits of codewords in its data modules.
// Patterns are drawn first, all modules alike; then the square is walked row by row, and where eight data modules stand together they are
// written at once, as the bytes of one number.
#![tactic(auto)]

ghost use Rattle.std.specs.Prelude.{◌≡◌, ℕ, ◌+◌, ◌-◌, ◌*◌, ◌/◌, ◌≤◌, ◌<◌, length, get_or, take, drop};
ghost use Rattle.std.proofs.lemmas.List.Edits.{sets};
ghost use Rattle.bits.specs.Bits.{bits_of, low_bits, value};
ghost use Rattle.symbol.specs.Layout.{data_modules};
ghost use Rattle.codewords.specs.Codewords.{mask_bit, placed};
ghost use Rattle.placement.specs.Walk.{eight_of, behind, bytes_of};
ghost use Rattle.drawing.specs.Puts.{pattern_of, get_or₀, PatternsFrom, PutBit, PutEight, RowBuffers, Puts, PutsAll};

// Where a row is written: the column, and the next bit of the codewords.
#[derive(Clone, Copy)]
pub struct Cursor {
    pub column: usize,
    pub bit: usize,
}

// A module of a pattern; data and information modules are light until they are written.
fn pattern(kind: u8) -> u8
    ensures { result ≡ pattern_of kind }
{
    if kind < 3 {
        return 0;
    }
    1
}

// The patterns of a square, all modules alike: so the compiler takes sixteen at once, and the walk touches data modules only.
fn draw(square: &mut [u8], kinds: &[u8])
    requires { length square.old ≡ length kinds.now }
    ensures { PatternsFrom kinds.now square.new 0 }
{
    let mut i = 0;
    while i < square.len() {
        square[i] = pattern(kinds[i]);
        i += 1;
    }
}

// The eight bits from one on, where a codeword is left behind them: two codewords hold them wherever they start.
fn window(codewords: &[u8], bit: usize) -> usize
    requires { bit / 8 + 1 < length codewords.now }
    ensures { result ≡ value 0 (take 8 (drop bit (bits_of codewords.now))) }
{
    let i = bit / 8;
    let v = bits::as_usize(codewords[i]) * 256 + bits::as_usize(codewords[i + 1]);
    (v >> (8 - bit % 8)) % 256
}

// The bits of a codeword as eight bytes: a product sets four of them apart.
fn spread(v: usize) -> usize
    requires { v < 256 }
    ensures { result ≡ eight_of (behind (low_bits 8 v) 0) }
{
    let low = (v / 16 * 134480385 / 8) & 16843009;
    low + ((v % 16 * 134480385 / 8) & 16843009) * 4294967296
}

// Eight bytes of one number: a single store.
fn put(square: &mut [u8], at: usize, x: usize)
    requires { at + 8 ≤ length square.old }
    ensures { square.new ≡ sets square.old at (bytes_of x) }
{
    square[at] = (x % 256) as u8;
    square[at + 1] = (x / 256 % 256) as u8;
    square[at + 2] = (x / 65536 % 256) as u8;
    square[at + 3] = (x / 16777216 % 256) as u8;
    square[at + 4] = (x / 4294967296 % 256) as u8;
    square[at + 5] = (x / 1099511627776 % 256) as u8;
    square[at + 6] = (x / 281474976710656 % 256) as u8;
    square[at + 7] = (x / 72057594037927936 % 256) as u8;
}

// One bit under a mask bit. Behind the last codeword it is a zero bit, so that the mask bit alone is stored.
fn put_bit(square: &mut [u8], at: usize, codewords: &[u8], bit: usize, inverted: u8) -> usize
    requires { (at < length square.old) × (length codewords.now ≤ 65535) }
    ensures { PutBit at bit inverted codewords.now square.old square.new result }
{
    if codewords.len() * 8 <= bit {
        square[at] = inverted;
        return bit;
    }
    square[at] = (bits::bit(codewords, bit) as u8) ^ inverted;
    bit + 1
}

// One module. `row` is the row's mask.
fn put_one(square: &mut [u8], kinds: &[u8], row: &[u8], codewords: &[u8], p: Cursor) -> Cursor
    requires { RowBuffers square.old kinds.now row.now codewords.now × (p.column < length kinds.now) }
    ensures { (p.column < result.column) × (result.column ≤ length kinds.now)
        × Puts kinds.now row.now codewords.now square.old square.new p result }
{
    let c = p.column;
    if kinds[c] == 0 {
        return Cursor {
            column: c + 1,
            bit: put_bit(square, c, codewords, p.bit, row[c]),
        };
    }
    Cursor {
        column: c + 1,
        bit: p.bit,
    }
}

// Eight data modules under their mask.
fn put_eight(square: &mut [u8], row: &[u8], codewords: &[u8], p: Cursor) -> Cursor
    requires { (p.column + 8 ≤ length square.old) × (length square.old ≤ 192) × (length row.now ≡ 192) × ((k : ℕ) → get_or row.now k 0 < 2)
        × (p.bit / 8 + 1 < length codewords.now) × (length codewords.now ≤ 65535) }
    ensures { PutEight row.now codewords.now square.old square.new p result }
{
    let c = p.column;
    let masked = spread(window(codewords, p.bit)) ^ placement::eight(row, c);
    put(square, c, masked);
    Cursor {
        column: c + 8,
        bit: p.bit + 8,
    }
}

// Eight data modules, or all modules up to the next that is data, or one.
fn put_step(square: &mut [u8], kinds: &[u8], row: &[u8], codewords: &[u8], p: Cursor) -> Cursor
    requires { RowBuffers square.old kinds.now row.now codewords.now × (p.column + 8 ≤ length kinds.now) }
    ensures { (p.column < result.column) × (result.column ≤ length kinds.now)
        × Puts kinds.now row.now codewords.now square.old square.new p result }
{
    let k = placement::eight(kinds, p.column);
    if k == 0 {
        if p.bit / 8 + 1 < codewords.len() {
            return put_eight(square, row, codewords, p);
        }
        return put_one(square, kinds, row, codewords, p);
    }
    if k % 256 == 0 {
        return put_one(square, kinds, row, codewords, p);
    }
    Cursor {
        column: p.column + placement::no_data(k),
        bit: p.bit,
    }
}

// The last modules of a row.
fn put_last(square: &mut [u8], kinds: &[u8], row: &[u8], codewords: &[u8], first: Cursor) -> usize
    requires { RowBuffers square.old kinds.now row.now codewords.now × (first.column ≤ length kinds.now) }
    ensures { PutsAll kinds.now row.now codewords.now square.old square.new first result }
{
    let mut p = first;
    while p.column < kinds.len() {
        p = put_one(square, kinds, row, codewords, p);
    }
    p.bit
}

// One row, from a bit of the codewords on; answers the next bit.
fn put_row(square: &mut [u8], kinds: &[u8], row: &[u8], codewords: &[u8], bit: usize) -> usize
    requires { RowBuffers square.old kinds.now row.now codewords.now × PatternsFrom kinds.now square.old 0 }
    ensures { (square.new ≡ placed (get_or₀ row.now) 0 kinds.now (drop bit (bits_of codewords.now)))
        × (drop result (bits_of codewords.now) ≡ drop (data_modules kinds.now) (drop bit (bits_of codewords.now))) }
{
    let end = placement::groups_end(kinds.len());
    let mut p = Cursor { column: 0, bit };
    while p.column < end {
        p = put_step(square, kinds, row, codewords, p);
    }
    put_last(square, kinds, row, codewords, p)
}

// All rows of a square with its patterns.
fn place_rows(square: &mut [u8], kinds: &[u8], codewords: &[u8], side: usize, mask: usize)
    requires { PatternsFrom kinds.now square.old 0 × (length square.old ≡ length kinds.now) × (0 < side) × (side ≤ 189)
        × (length square.old ≡ side * side) × (length codewords.now ≤ 65535) }
    ensures { square.new ≡ placed (mask_bit side mask) 0 kinds.now (bits_of codewords.now) }
{
    let mut table = [0u16; 576];
    let mut row = [0u8; 192];
    let columns = (side + 7) / 8 * 8;
    masks::columns(&mut table, columns, mask);
    let mut bit = 0;
    let mut i = 0;
    while i < side {
        masks::mask_row(&mut row, &table, mask, i, columns);
        let at = i * side;
        let end = at + side;
        bit = put_row(&mut square[at..end], &kinds[at..end], &row, codewords, bit);
        i += 1;
    }
}

// A square of codewords, patterns first.
fn place_all(square: &mut [u8], kinds: &[u8], codewords: &[u8], side: usize, mask: usize)
    requires { (length square.old ≡ length kinds.now) × (0 < side) × (side ≤ 189) × (length square.old ≡ side * side)
        × (length codewords.now ≤ 65535) }
    ensures { square.new ≡ placed (mask_bit side mask) 0 kinds.now (bits_of codewords.now) }
{
    draw(square, kinds);
    place_rows(square, kinds, codewords, side, mask);
}

// A square of the first total codewords: masked data modules, those left over as zero bits; the information modules are light.
pub fn place_codewords(
    square: &mut [u8],
    kinds: &[u8],
    codewords: &[u8],
    total: usize,
    side: usize,
    mask: usize,
)
    requires square_in_bounds { (length square.old ≤ length kinds.now) × (0 < side) × (side ≤ 189) × (length square.old ≡ side * side) }
    requires total_in_bounds { (total ≤ length codewords.now) × (total ≤ 65535) }
    ensures { square.new ≡ placed (mask_bit side mask) 0 (take (length square.old) kinds.now)
        (bits_of (take total codewords.now)) }
{
    let size = side * side;
    place_all(square, &kinds[..size], &codewords[..total], side, mask);
}
