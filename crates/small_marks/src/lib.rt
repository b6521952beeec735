// SPECIFICATION 6.2: codewords out of a square of version 1 to 3, which has no alignment patterns (han_xin.rs: `decode_data`).
// In each row the data modules stand side by side, so that no layout is drawn, and the mask of a row is one number.
#![tactic(auto)]

ghost use Rattle.std.specs.Prelude.{◌≡◌, ◌++◌, ℕ, ◌+◌, ◌*◌, ◌%◌, ◌^◌, ◌≤◌, ◌<◌, length, get_or, drop};
ghost use Rattle.bits.specs.Bits.{low_bits, value, first_words};
ghost use Rattle.symbol.specs.Version.{side_of};
ghost use Rattle.symbol.specs.Layout.{layout_of};
ghost use Rattle.codewords.specs.Codewords.{mask_bit, data_bits};
ghost use Rattle.placement.specs.Walk.{run, FewPending, Masked, unmasked_at};
ghost use Rattle.small_marks.specs.Open.{Spans, Margin};

use placement::Run;

fn lowest(bits: usize, w: usize) -> usize
    requires { w ≤ 8 }
    ensures { result ≡ bits % 2 ^ w }
{
    bits % (1 << w)
}

// The eight bits of a row of at most 27 modules from a column on, as the number that they say; the mask of the row is a number of 27 bits.
fn unmasked(square: &[u8], mask: usize, at: usize) -> usize
    requires { Masked square.now (low_bits 27 mask) × (at + 8 ≤ length square.now) × (length square.now ≤ 27) }
    ensures { (result ≡ value 0 (run 8 (unmasked_at square.now (low_bits 27 mask) at))) × (result < 256) }
{
    placement::gather(placement::eight(square, at)) ^ ((mask >> (19 - at)) % 256)
}

// All modules of such a row from a column on and before another. Those left behind the groups of eight are the last of the eight that end
// there.
fn read_span(out: &mut [u8], square: &[u8], mask: usize, to: usize, first: Run) -> Run
    requires { Masked square.now (low_bits 27 mask) × FewPending first × (first.column ≤ to) × (8 ≤ to) × (to ≤ length square.now)
        × (length square.now ≤ 27) }
    ensures { FewPending result × (result.column ≡ to) × Spans square.now (low_bits 27 mask) out.old out.new first result }
{
    let mut r = first;
    while r.column + 8 <= to {
        r = placement::push(out, r, unmasked(square, mask, r.column), 8);
    }
    let w = to - r.column;
    placement::push(out, r, lowest(unmasked(square, mask, to - 8), w), w)
}

// How many modules at either end of a row are no data, where there are no alignment patterns.
#[tactic(auto, using(crate::proofs::Margins::margin_near, crate::proofs::Margins::margin_far, crate::proofs::Margins::margin_none))]
fn margin(side: usize, row: usize) -> usize
    requires { row < 189 }
    ensures { Margin side row result }
{
    if row < 9 {
        return 9;
    }
    if side <= row + 9 {
        return 9;
    }
    0
}

// All rows of a square with no alignment patterns: each has its data modules side by side, so that no kinds are looked at.
fn read_open_rows(out: &mut [u8], square: &[u8], version: usize, mask: usize)
    requires { (1 ≤ version) × (version ≤ 3) × (mask ≤ 3) × (length square.now ≡ side_of version * side_of version)
        × ((i : ℕ) → get_or square.now i 0 < 2) × (8 * length out.old ≤ length
        (data_bits (mask_bit (side_of version) mask) 0 (layout_of version) square.now)) }
    ensures { out.new ≡ first_words 8 (length out.old)
        (data_bits (mask_bit (side_of version) mask) 0 (layout_of version) square.now) }
{
    let side = 2 * version + 21;
    let rows = masks::open_rows();
    let mut r = Run {
        column: 0,
        n: 0,
        value: 0,
        bits: 0,
    };
    let mut i = 0;
    while i < side {
        let m = margin(side, i);
        let at = i * side;
        let end = at + side;
        let first = Run {
            column: m,
            n: r.n,
            value: r.value,
            bits: r.bits,
        };
        let row = rows[27 * mask + i] as usize;
        r = read_span(out, &square[at..end], row, side - m, first);
        i += 1;
    }
}

// The first total codewords of a square, as `placement::read_codewords` says, with no layout.
pub fn read_open(out: &mut [u8], total: usize, square: &[u8], version: usize, mask: usize)
    requires le_version { (1 ≤ version) × (version ≤ 3) × (mask ≤ 3) × (length square.now ≡ side_of version * side_of version)
        × ((i : ℕ) → get_or square.now i 0 < 2) }
    requires total_in_bounds { (total ≤ length out.old) × (8 * total ≤ length (data_bits (mask_bit (side_of version) mask) 0 (layout_of version) square.now)) }
    ensures { out.new ≡ first_words 8 total (data_bits (mask_bit (side_of version) mask) 0 (layout_of version) square.now) ++ drop
        total out.old }
{
    read_open_rows(&mut out[..total], square, version, mask);
}
