// SPECIFICATION 7.1: the block table (han_xin.rs: `TOTAL_CODEWORDS`, `BLOCKS`).
#![tactic(auto)]

ghost use Rattle.std.specs.Prelude.{◌≡◌, ℕ, ◌+◌, ◌-◌, ◌*◌, ◌<◌, ◌≤◌, leb, length, get_or};
ghost use Rattle.general.specs.Lists.{lowest};
ghost use Rattle.block_table.specs.Blocks.{total_of, row_of, shapes_of, total_data};
ghost use Rattle.block_table.specs.Inner.{enough};

pub mod table;

use table::{BLOCKS, DATA_CODEWORDS, FIRST_BLOCKS, TOTAL_CODEWORDS};

// The most codewords that a version has in all: those of version 84.
pub const MAX_CODEWORDS: usize = 3886;

// A version's codewords in all.
pub fn total_codewords(version: usize) -> usize
    requires { (1 ≤ version) × (version ≤ 84) }
    ensures { (result ≡ total_of version) × (result ≤ 3886) }
{
    TOTAL_CODEWORDS[version - 1] as usize
}

// Nine numbers of a table, from one on.
fn nine(table: &[u8], at: usize) -> [u8; 9]
    requires { (at ≤ 3015) × (at + 9 ≤ length table.now) }
    ensures { (length result ≡ 9) × ((k : ℕ) → k < 9 → get_or result k 0 ≡ get_or table.now (at + k) 0) }
{
    let mut row = [0u8; 9];
    let mut n: usize = 0;
    while n < 9 {
        row[n] = table[at + n];
        n += 1;
    }
    row
}

// The row of a version and level: three batches of count, data, parity. The table that is read is copied whole each time, so that a small
// mark has a small one.
pub fn block_row(version: usize, level: usize) -> [u8; 9]
    requires { (1 ≤ version) × (version ≤ 84) × (level ≤ 3) }
    ensures { result ≡ row_of version level }
{
    let at = (4 * (version - 1) + level) * 9;
    if version <= 10 {
        let table = FIRST_BLOCKS;
        return nine(&table, at);
    }
    let table = BLOCKS;
    nine(&table, at)
}

// The lowest version from `from` on that has as many data codewords at a level as so many bits take, by a lent table of them; 85 if none has.
fn lowest_in(table: &[u16], level: usize, bits: usize, from: usize) -> usize
    requires { (length table.now ≡ 336) × (level ≤ 3) × (1 ≤ from) × (from ≤ 85) }
    ensures { result ≡ lowest (enough table.now level bits) (85 - from) from }
{
    let mut version = from;
    while version < 85 {
        if bits <= 8 * table[4 * (version - 1) + level] as usize {
            return version;
        }
        version += 1;
    }
    version
}

// The same by the table of all versions and levels.
pub fn lowest_version(level: usize, bits: usize, from: usize) -> usize
    requires { (level ≤ 3) × (1 ≤ from) × (from ≤ 85) }
    ensures { result ≡ lowest (λ v. leb bits (8 * total_data (shapes_of v level))) (85 - from) from }
{
    let table = DATA_CODEWORDS;
    lowest_in(&table, level, bits, from)
}
