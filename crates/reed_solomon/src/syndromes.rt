// The values of a block at the roots of its code (reed_solomon.rs: `syndromes`).
ghost use Rattle.std.specs.Prelude.{◌≡◌, [], ◌∷◌, ℕ, ◌+◌, ◌≤◌, ◌<◌, length, get_or, drop};
ghost use Rattle.field.specs.Table.{Field, poly_of};
ghost use Rattle.reed_solomon.specs.Inner.{advanced, Reduced, Syndromes, is_clean};
ghost use Rattle.general.specs.Each.{Each};

// The next byte.
fn advance(field: &[u16; 1280], first: usize, s: &mut [u8], parity: usize, byte: u8)
    requires field { Field field.now }
    requires parity_bound { (first + parity ≤ 256) × (parity ≤ length s.old) }
    ensures { Each (advanced (poly_of field.now) first (byte ∷ [])) parity s.old s.new }
{
    let mut j = 0;
    while j < parity {
        s[j] = field::raised(field, s[j], first + j) ^ byte;
        j += 1;
    }
}

// An exponent below 511, reduced to what the table has.
pub fn reduced(n: usize) -> usize
    requires { n ≤ 510 }
    ensures { (result ≤ 255) × Reduced n result }
{
    if n < 255 { n } else { n - 255 }
}

// The next two bytes. All syndromes advance together, so that their table lookups overlap, and by two bytes a time, so that each waits for
// one product and not for two.
fn advance_two(field: &[u16; 1280], first: usize, s: &mut [u8], parity: usize, a: u8, b: u8)
    requires field { Field field.now }
    requires parity_bound { (first + parity ≤ 256) × (parity ≤ length s.old) }
    ensures { Each (advanced (poly_of field.now) first (a ∷ b ∷ [])) parity s.old s.new }
{
    let mut j = 0;
    while j < parity {
        let n = first + j;
        s[j] = field::raised(field, s[j], reduced(n + n)) ^ (field::raised(field, a, n) ^ b);
        j += 1;
    }
}

// Four bytes, one after the other.
#[derive(Clone, Copy)]
pub struct Four {
    pub a: u8,
    pub b: u8,
    pub c: u8,
    pub d: u8,
}

// The next four bytes where the roots have small exponents, as in every mark: four times an exponent then needs no test, which would stand in
// the innermost loop.
fn advance_four(field: &[u16; 1280], first: usize, s: &mut [u8], parity: usize, next: Four)
    requires field { Field field.now }
    requires parity_bound { (first + parity ≤ 64) × (parity ≤ length s.old) }
    ensures { Each (advanced (poly_of field.now) first (next.a ∷ next.b ∷ next.c ∷ next.d ∷ [])) parity s.old
        s.new }
{
    let mut j = 0;
    while j < parity {
        let n = first + j;
        let high = field::raised(field, s[j], 4 * n) ^ field::raised(field, next.a, 3 * n);
        let low = field::raised(field, next.c, n) ^ next.d;
        s[j] = high ^ field::raised(field, next.b, 2 * n) ^ low;
        j += 1;
    }
}

// The bytes of a block from a place on, one at a time.
fn advance_rest(
    field: &[u16; 1280],
    first: usize,
    block: &[u8],
    at: usize,
    parity: usize,
    s: &mut [u8],
)
    requires field { Field field.now }
    requires parity_bound { (first + parity ≤ 256) × (parity ≤ length s.old) × (at ≤ length block.now) }
    ensures { Each (advanced (poly_of field.now) first (drop at block.now)) parity s.old s.new }
{
    let mut i = at;
    while i < block.len() {
        advance(field, first, s, parity, block[i]);
        i += 1;
    }
}

// The bytes of a whole block where the roots have small exponents.
fn low_syndromes(field: &[u16; 1280], first: usize, block: &[u8], parity: usize, s: &mut [u8])
    requires field { Field field.now }
    requires parity_bound { (first + parity ≤ 64) × (parity ≤ length s.old) }
    ensures { Each (advanced (poly_of field.now) first block.now) parity s.old s.new }
{
    let mut i = 0;
    while i < block.len() / 4 {
        let next = Four {
            a: block[4 * i],
            b: block[4 * i + 1],
            c: block[4 * i + 2],
            d: block[4 * i + 3],
        };
        advance_four(field, first, s, parity, next);
        i += 1;
    }
    advance_rest(field, first, block, 4 * i, parity, s);
}

// The syndromes of a block, in place of zeros, with zeros behind them: the array is lent, since a returned one would be copied.
pub fn syndromes(field: &[u16; 1280], first: usize, block: &[u8], parity: usize, s: &mut [u8])
    requires field { Field field.now }
    requires parity_bound { first + parity ≤ 256 }
    requires s_len { (length s.old ≡ 256) × ((i : ℕ) → get_or s.old i 0 ≡ 0) }
    ensures { Syndromes (poly_of field.now) first parity block.now s.new }
{
    if first + parity <= 64 {
        low_syndromes(field, first, block, parity, s);
        return;
    }
    let mut i = 0;
    while i < block.len() / 2 {
        advance_two(field, first, s, parity, block[i + i], block[i + i + 1]);
        i += 1;
    }
    advance_rest(field, first, block, i + i, parity, s);
}

// Whether all syndromes are zero.
pub fn clean(s: &[u8], parity: usize) -> bool
    requires { parity ≤ length s.now }
    ensures { result ≡ is_clean parity s.now }
{
    let mut j = 0;
    while j < parity {
        if s[j] != 0 {
            return false;
        }
        j += 1;
    }
    true
}
