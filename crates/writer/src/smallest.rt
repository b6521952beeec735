// SPECIFICATION 10.12: Write the smallest mark (an addition to the original, which reads only).
ghost use Rattle.std.specs.Prelude.{◌≡◌, ◌≤◌};
ghost use Rattle.script.specs.declared.Check.TheVariants.{Bits};
ghost use Rattle.script.specs.Inner.{Fits, check_of};
ghost use Rattle.marks.specs.Write.{room_of, writing_of};
ghost use Rattle.marks.specs.Smallest.{smallest, smallest_of};
ghost use Rattle.writer.specs.Inner.{front_of};

use crate::{Mark, write_checked};
use information::InfoBits;
use script::Check;
use symbol::Version;

// The refusal number or 0, and the version found, 0 after a refusal.
#[derive(Clone, Copy)]
pub struct Found {
    pub number: usize,
    pub version: usize,
}

// The number of a refusal, with no version.
fn refused(number: usize) -> Found
    ensures { result ≡ record { number = number; version = 0 } }
{
    Found {
        number: number,
        version: 0,
    }
}

// The mark in front of a square and 0; 1 for a version with too few data modules, 2 if the square is shorter than the mark. A shorter square
// is lent as none, which has no version's size, so that 1 comes before 2.
fn write_front(
    version: usize,
    level: usize,
    mask: usize,
    script: &[u8],
    payload: &[u8],
    square: &mut [u8],
) -> usize
    requires { Fits script.now payload.now (room_of version level) }
    ensures { writing_of result square.new ≡ front_of version level mask script.now payload.now square.old }
{
    let InfoBits::Word(word) = information::info_bits(version, level, mask) else {
        return 1;
    };
    let m = Mark {
        version: version,
        level: level,
        mask: mask,
        word: word,
    };
    let row = block_table::block_row(version, level);
    let side = Version { number: version }.side();
    if square.len() < side * side {
        return write_checked(m, &row, 0, script, payload, &mut square[..0]);
    }
    write_checked(m, &row, 0, script, payload, &mut square[..side * side])
}

// A script and payload that take so many bits, at the lowest version that holds them. A version with room for them but too few data modules,
// of which there are none today, does not: then the search goes on behind it.
fn write_lowest(
    level: usize,
    mask: usize,
    bits: usize,
    script: &[u8],
    payload: &[u8],
    square: &mut [u8],
) -> Found
    requires { (level ≤ 3) × (mask ≤ 3) × (Bits bits ≡ check_of script.now payload.now) }
    ensures { smallest result.number result.version square.new
        ≡ smallest_of level mask script.now payload.now square.old }
{
    let mut version = block_table::lowest_version(level, bits, Version::MIN);
    while version <= Version::MAX {
        let number = write_front(version, level, mask, script, payload, square);
        if number == 0 {
            return Found {
                number: 0,
                version: version,
            };
        }
        if number != 1 {
            return refused(number);
        }
        version = block_table::lowest_version(level, bits, version + 1);
    }
    refused(14)
}

// Write the smallest mark. Level and mask are tested with version 1, which is in its range. The script is checked and its bits are counted once.
pub fn write_smallest(
    level: usize,
    mask: usize,
    script: &[u8],
    payload: &[u8],
    square: &mut [u8],
) -> Found
    ensures { smallest result.number result.version square.new
        ≡ smallest_of level mask script.now payload.now square.old }
{
    if !information::is_info(Version::MIN, level, mask) {
        return refused(1);
    }
    match script::check_script(script, payload) {
        Check::Bits(n) => write_lowest(level, mask, n, script, payload, square),
        Check::Malformed => refused(11),
        Check::Lacking => refused(12),
        Check::Empty => refused(8),
    }
}
