// The errors at the zeros of a locator, taken off a block.
ghost use Rattle.std.specs.Prelude.{◌≡◌, ℕ, ◌≤◌, ◌<◌, length};
ghost use Rattle.field.specs.Table.{Field, poly_of};
ghost use Rattle.reed_solomon.specs.Sum.{seq};
ghost use Rattle.reed_solomon.specs.Inner.{Syndromes};
ghost use Rattle.corrector.specs.Inner.{Applied};

use reed_solomon::{errors, syndromes};

// Whether the block was repaired, and in how many places it changed.
#[derive(Clone, Copy)]
pub struct Fix {
    pub done: bool,
    pub count: usize,
}

// The block with syndromes s set to the codeword whose errors h of length l locates, if there is one. Nothing is written before it is known
// that the errors found leave no syndrome. A locator with fewer zeros than its length locates none, which is told sooner than they are found.
pub fn apply(
    field: &[u16; 1280],
    first: usize,
    block: &mut [u8],
    parity: usize,
    s: &mut [u8],
    h: &[u8; 256],
    l: usize,
) -> Fix
    requires field { Field field.now }
    requires first_bound { (first ≤ 1) × (parity ≤ 254) × (length block.old ≤ 255) }
    requires h_len { (length h.now ≡ 256) × ((i : ℕ) → seq h.now i < 256) × (l ≤ parity) }
    requires syndromes { Syndromes (poly_of field.now) first parity block.old s.old }
    ensures { Applied (poly_of field.now) first parity block.old s.old h.now l result.done result.count
        block.new }
{
    let n = block.len();
    let mut e = [0u8; 256];
    errors::roots(field, h, l, &mut e, n);
    if errors::zeros(&e, n) < l {
        return Fix {
            done: false,
            count: 0,
        };
    }
    errors::magnitudes(field, first, s, h, l, &mut e, n);
    errors::take_off_all(field, first, s, parity, &e, n);
    if syndromes::clean(s, parity) {
        errors::add(block, &e);
        return Fix {
            done: true,
            count: n - errors::zeros(&e, n),
        };
    }
    Fix {
        done: false,
        count: 0,
    }
}
