// SPECIFICATION 10.9 and 10.10: Read a square, and Read with known version, level, mask (han_xin.rs: `decode_matrix`, `decode_data`).
#![tactic(auto)]

ghost use Rattle.std.specs.Prelude.{◌≡◌, [], ◌∷◌, ℕ, ◌*◌, ◌<◌, ◌≤◌, eqb, length, get_or};
ghost use Rattle.symbol.specs.Version.{side_of};
ghost use Rattle.marks.specs.Read.{first_refusal, unless, reading_of, read_of, read_known_of};
ghost use Rattle.decoding.specs.Inner.{PassesFirstRefusals, Tells, body_or1};
ghost use Rattle.reader.specs.Inner.{GreaterOf, GreatestByte, Nearest, FitsLayout};
ghost use Rattle.marks.specs.Inner.{are_modules};

use information::NearestInfo;
use receipts::Mark;
use symbol::{FromSide, Version};

fn greater(a: u8, b: u8) -> u8
    ensures { GreaterOf a b result }
{
    if a < b { b } else { a }
}

// The greatest byte, with no early exit: a test of each byte would be slower.
fn greatest(square: &[u8]) -> u8
    ensures { GreatestByte square.now result }
{
    let mut top = 0;
    let mut i = 0;
    while i < square.len() {
        top = greater(top, square[i]);
        i += 1;
    }
    top
}

// The refusal of a square, or 0, and whether it has unknown modules.
#[derive(Clone, Copy)]
pub struct Looked {
    pub refusal: usize,
    pub unknown: bool,
}

// 2 if the square has not side × side bytes, 3 if a byte is above 2, else 0.
#[tactic(auto, using(crate::proofs::Bytes::high_byte, crate::proofs::Bytes::told))]
fn look_at(square: &[u8], side: usize) -> Looked
    requires { side ≤ 189 }
    ensures { (result.refusal ≡ first_refusal (unless (eqb (length square.now) (side * side)) 2 ∷ unless (are_modules square.now) 3 ∷ []))
        × Tells result.unknown square.now }
{
    if square.len() != side * side {
        return Looked {
            refusal: 2,
            unknown: true,
        };
    }
    let top = greatest(square);
    if 2 < top {
        return Looked {
            refusal: 3,
            unknown: true,
        };
    }
    Looked {
        refusal: 0,
        unknown: 1 < top,
    }
}

// A square that has passed the first refusals is read and the receipt written. The buffer for its layout is lent.
fn finish_in(
    kinds: &mut [u8],
    square: &[u8],
    unknown: bool,
    m: Mark,
    payload: &mut [u8],
    script: &mut [u8],
    receipt: &mut [u8],
) -> usize
    requires { PassesFirstRefusals m square.now × (length receipt.old ≡ 12) × (side_of m.version * side_of m.version ≤ length kinds.old)
        × Tells unknown square.now }
    ensures { reading_of result receipt.new payload.new script.new
        ≡ body_or1 m square.now payload.old script.old }
{
    let t = decoding::decode(kinds, square, unknown, m, payload, script);
    let number = t.number;
    receipts::write_receipt(receipt, m, t);
    number
}

// The nearest level and mask of a square, and how far they are.
fn mark_in(square: &[u8], version: usize) -> Mark
    requires { (1 ≤ version) × (version ≤ 84) × (length square.now ≡ side_of version * side_of version) × ((i : ℕ) → get_or square.now i 0 < 3) }
    ensures { Nearest version square.now result }
{
    let side = Version { number: version }.side();
    let first = information::read_copy(square, side, false);
    let second = information::read_copy(square, side, true);
    match information::nearest_info(version, first, second) {
        NearestInfo::Nearest {
            level,
            mask,
            distance,
        } => Mark {
            version: version,
            level: level,
            mask: mask,
            distance: distance as usize,
        },
        NearestInfo::NoVersion => Mark {
            version: version,
            level: 0,
            mask: 0,
            distance: 0,
        },
    }
}

// Read a square, its layout drawn into a lent buffer: its version is its side's, level and mask are the nearest.
fn read_square_in(
    kinds: &mut [u8],
    square: &[u8],
    side: usize,
    payload: &mut [u8],
    script: &mut [u8],
    receipt: &mut [u8],
) -> usize
    requires { FitsLayout square.now kinds.old }
    ensures { reading_of result receipt.new payload.new script.new
        ≡ read_of square.now side payload.old script.old receipt.old }
{
    if receipt.len() != 12 {
        return 2;
    }
    let FromSide::Found(v) = Version::from_side(side) else {
        return receipts::refuse(receipt, 1);
    };
    let early = look_at(square, side);
    if early.refusal != 0 {
        return receipts::refuse(receipt, early.refusal);
    }
    let m = mark_in(square, v.number);
    if 10 < m.distance {
        return receipts::refuse(receipt, 4);
    }
    finish_in(kinds, square, early.unknown, m, payload, script, receipt)
}

// Read with known version, level, mask, likewise: the information modules are not looked at.
fn read_known_in(
    kinds: &mut [u8],
    square: &[u8],
    m: Mark,
    payload: &mut [u8],
    script: &mut [u8],
    receipt: &mut [u8],
) -> usize
    requires { FitsLayout square.now kinds.old × (m.distance ≡ 0) }
    ensures { reading_of result receipt.new payload.new script.new
        ≡ read_known_of square.now m.version m.level m.mask payload.old script.old receipt.old }
{
    if receipt.len() != 12 {
        return 2;
    }
    if !information::is_info(m.version, m.level, m.mask) {
        return receipts::refuse(receipt, 1);
    }
    let early = look_at(square, Version { number: m.version }.side());
    if early.refusal != 0 {
        return receipts::refuse(receipt, early.refusal);
    }
    finish_in(kinds, square, early.unknown, m, payload, script, receipt)
}

// Read a square. One of version 1 to 10 has a small buffer for its layout, one up to version 40 a larger one: to clear a buffer for any
// layout takes longer than to read a small mark. The buffer stands before all refusals, so that no path through this function does without it.
pub fn read_square(
    square: &[u8],
    side: usize,
    payload: &mut [u8],
    script: &mut [u8],
    receipt: &mut [u8],
) -> usize
    ensures { reading_of result receipt.new payload.new script.new
        ≡ read_of square.now side payload.old script.old receipt.old }
{
    if square.len() <= 1681 {
        let mut kinds = [0u8; 1681];
        return read_square_in(&mut kinds, square, side, payload, script, receipt);
    }
    if square.len() <= 10201 {
        let mut kinds = [0u8; 10201];
        return read_square_in(&mut kinds, square, side, payload, script, receipt);
    }
    let mut kinds = [0u8; Version::MAX_SQUARE];
    read_square_in(&mut kinds, square, side, payload, script, receipt)
}

// Read with known version, level, mask, likewise.
pub fn read_known(
    square: &[u8],
    version: usize,
    level: usize,
    mask: usize,
    payload: &mut [u8],
    script: &mut [u8],
    receipt: &mut [u8],
) -> usize
    ensures { reading_of result receipt.new payload.new script.new
        ≡ read_known_of square.now version level mask payload.old script.old receipt.old }
{
    let m = Mark {
        version: version,
        level: level,
        mask: mask,
        distance: 0,
    };
    if square.len() <= 1681 {
        let mut kinds = [0u8; 1681];
        return read_known_in(&mut kinds, square, m, payload, script, receipt);
    }
    if square.len() <= 10201 {
        let mut kinds = [0u8; 10201];
        return read_known_in(&mut kinds, square, m, payload, script, receipt);
    }
    let mut kinds = [0u8; Version::MAX_SQUARE];
    read_known_in(&mut kinds, square, m, payload, script, receipt)
}
