// Version, layout, information, masks and the block table for the comparison with the Rust.
ghost use Rattle.std.specs.Prelude.{◌≡◌};
ghost use Rattle.symbol.specs.Version.{side_version, version_of};
ghost use Rattle.symbol.specs.Layout.{layout_refusal, layout_written, layout_number};
ghost use Rattle.information.specs.Information.{info_of, info_answer, nearest_of, nearest_answer};
ghost use Rattle.comparison.specs.Marks.{total_answer, row_answer, mask_answer, position_answer};

use information::{InfoBits, NearestInfo};
use symbol::{FromSide, LayoutAnswer, Version};

// The refusal number or 0, and the word beside it.
#[repr(C)]
#[derive(Clone, Copy)]
pub struct Bits {
    pub number: usize,
    pub word: u64,
}

// The refusal number or 0, and level, mask and distance beside it.
#[repr(C)]
#[derive(Clone, Copy)]
pub struct Near {
    pub number: usize,
    pub level: usize,
    pub mask: usize,
    pub distance: usize,
}

fn as_usize(x: u32) -> usize
    ensures { result ≡ x }
{
    x as usize
}

fn found(a: FromSide) -> usize
    ensures { result ≡ version_of a }
{
    match a {
        FromSide::Found(v) => v.number,
        FromSide::NoVersion => 0,
    }
}

// The version of a side, or 0.
#[unsafe(no_mangle)]
pub extern "C" fn hx_version(side: usize) -> usize
    ensures { result ≡ side_version side }
{
    found(Version::from_side(side))
}

fn refusal(a: LayoutAnswer) -> usize
    ensures { result ≡ layout_number a }
{
    match a {
        LayoutAnswer::Filled => 0,
        LayoutAnswer::NoVersion => 1,
        LayoutAnswer::TooShort => 2,
    }
}

#[unsafe(no_mangle)]
pub extern "C" fn hx_layout(version: usize, out: &mut [u8]) -> usize
    ensures { (result ≡ layout_refusal version out.old) × (out.new ≡ layout_written version out.old) }
{
    refusal(symbol::layout(version, out))
}

fn word(a: InfoBits) -> Bits
    ensures { (result.number ≡ (info_answer a).number) × (result.word ≡ (info_answer a).word) }
{
    match a {
        InfoBits::Word(w) => Bits { number: 0, word: w },
        InfoBits::OutOfRange => Bits { number: 1, word: 0 },
    }
}

#[unsafe(no_mangle)]
pub extern "C" fn hx_info_bits(version: usize, level: usize, mask: usize) -> Bits
    ensures { (result.number ≡ (info_of version level mask).number) × (result.word ≡ (info_of version level mask).word) }
{
    word(information::info_bits(version, level, mask))
}

fn nearest(a: NearestInfo) -> Near
    ensures { (result.number ≡ (nearest_answer a).number) × (result.level ≡ (nearest_answer a).level) × (result.mask ≡ (nearest_answer a).mask)
        × (result.distance ≡ (nearest_answer a).distance) }
{
    match a {
        NearestInfo::Nearest {
            level,
            mask,
            distance,
        } => Near {
            number: 0,
            level,
            mask,
            distance: as_usize(distance),
        },
        NearestInfo::NoVersion => Near {
            number: 1,
            level: 0,
            mask: 0,
            distance: 0,
        },
    }
}

#[unsafe(no_mangle)]
pub extern "C" fn hx_nearest_info(version: usize, first: u64, second: u64) -> Near
    ensures { (result.number ≡ (nearest_of version first second).number) × (result.level ≡ (nearest_of version first second).level)
        × (result.mask ≡ (nearest_of version first second).mask) × (result.distance ≡ (nearest_of version first second).distance) }
{
    nearest(information::nearest_info(version, first, second))
}

// A version's codewords in all, or 0.
#[unsafe(no_mangle)]
pub extern "C" fn hx_total(version: usize) -> usize
    ensures { result ≡ total_answer version }
{
    if version < Version::MIN {
        return 0;
    }
    if Version::MAX < version {
        return 0;
    }
    block_table::total_codewords(version)
}

// Number n of the row of a version and level, or 0.
#[unsafe(no_mangle)]
pub extern "C" fn hx_block_number(version: usize, level: usize, n: usize) -> u8
    ensures { result ≡ row_answer version level n }
{
    if version < Version::MIN {
        return 0;
    }
    if Version::MAX < version {
        return 0;
    }
    if 3 < level {
        return 0;
    }
    if 9 <= n {
        return 0;
    }
    let row = block_table::block_row(version, level);
    row[n]
}

// Whether a mask inverts the module at a row and a column (1 or 0), or 2 where they are too large.
#[unsafe(no_mangle)]
pub extern "C" fn hx_masked(mask: usize, row: usize, column: usize) -> usize
    ensures { result ≡ mask_answer mask row column }
{
    if 1000 <= row {
        return 2;
    }
    if 1000 <= column {
        return 2;
    }
    codewords::masked(mask, row + 1, column + 1)
}

// The place of information bit n in copy 0 or in the other one, or 0 where the side or n is out of range.
#[unsafe(no_mangle)]
pub extern "C" fn hx_info_position(side: usize, copy: usize, n: usize) -> usize
    ensures { result ≡ position_answer side copy n }
{
    if side < 23 {
        return 0;
    }
    if 189 < side {
        return 0;
    }
    if 34 <= n {
        return 0;
    }
    information::info_position(side, copy != 0, n)
}
