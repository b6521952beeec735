// The search for error places as Correct a block does it, and the same by evaluating the locator afresh at each place, which nothing but the
// comparison and the benchmark does.
ghost use Rattle.std.specs.Prelude.{◌≡◌, ℕ, ◌≤◌, ◌<◌, length};
ghost use Rattle.field.specs.Table.{Field, poly_of};
ghost use Rattle.reed_solomon.specs.Sum.{seq};
ghost use Rattle.reed_solomon.specs.Places.{locator_at};
ghost use Rattle.reed_solomon.specs.Inner.{ValuesAt};
ghost use Rattle.comparison.specs.Places.{searched, search_of};

use reed_solomon::{errors, locator};

// The value at α^d of the locator f of length l, by Horner's rule.
fn value(field: &[u16; 1280], f: &[u8; 256], l: usize, d: usize) -> u8
    requires field { Field field.now }
    requires l_bound { (l ≤ 255) × (length f.now ≡ 256) × (d ≤ 255) }
    ensures { result ≡ locator_at (poly_of field.now) f.now l d }
{
    let mut v = 0;
    let mut i = 0;
    while i <= l {
        v = field::raised(field, v, d) ^ f[i];
        i += 1;
    }
    v
}

// Its values at the degrees below n.
fn values(field: &[u16; 1280], f: &[u8; 256], l: usize, e: &mut [u8], n: usize)
    requires field { Field field.now }
    requires l_bound { (l ≤ 255) × (length f.now ≡ 256) × (n ≤ 256) × (length e.old ≡ 256) }
    ensures { ValuesAt (poly_of field.now) f.now l n e.new }
{
    let mut d = 0;
    while d < n {
        e[d] = value(field, f, l, d);
        d += 1;
    }
}

// The same in either way.
fn search(field: &[u16; 1280], f: &[u8; 256], l: usize, e: &mut [u8], n: usize, afresh: usize)
    requires field { Field field.now }
    requires l_bound { (l ≤ 255) × (length f.now ≡ 256) × ((i : ℕ) → seq f.now i < 256) × (n ≤ 256) × (length e.old ≡ 256) }
    ensures { ValuesAt (poly_of field.now) f.now l n e.new }
{
    if afresh == 0 {
        errors::roots(field, f, l, e, n);
    } else {
        values(field, f, l, e, n);
    }
}

// The same, and again so many times.
fn search_often(
    field: &[u16; 1280],
    f: &[u8; 256],
    l: usize,
    e: &mut [u8],
    n: usize,
    afresh: usize,
    again: usize,
)
    requires field { Field field.now }
    requires l_bound { (l ≤ 255) × (length f.now ≡ 256) × ((i : ℕ) → seq f.now i < 256) × (n ≤ 256) × (length e.old ≡ 256) }
    ensures { ValuesAt (poly_of field.now) f.now l n e.new }
{
    search(field, f, l, e, n, afresh);
    let mut k = 0;
    while k < again {
        search(field, f, l, e, n, afresh);
        k += 1;
    }
}

// The values of a locator f of length l at the degrees from 0 up, one for each byte of e. 2, and nothing written, where the locator has not 256
// bytes, its length is above 255 or e has more than 256 bytes. They are found again so many times, so that a benchmark can tell the search from
// the copy of the field's table.
#[tactic(auto, unfolding(crate::specs::Places::search_of))]
#[unsafe(no_mangle)]
pub extern "C" fn hx_places(f: &[u8], l: usize, e: &mut [u8], afresh: usize, again: usize) -> usize
    ensures { searched result e.new ≡ search_of f.now l e.old }
{
    if f.len() != 256 {
        return 2;
    }
    if 255 < l {
        return 2;
    }
    if 256 < e.len() {
        return 2;
    }
    let field = field::han_xin();
    let mut g = [0u8; 256];
    locator::copy(&mut g, f, 256);
    let mut found = [0u8; 256];
    search_often(&field, &g, l, &mut found, e.len(), afresh, again);
    locator::copy(e, &found, e.len());
    0
}
