// The steps of Reed-Solomon decoding that erased places add (reed_solomon.rs: `solve`). A flag stands beside each byte of a block; a place is
// erased where its flag is not 0.
#![tactic(auto)]

ghost use Rattle.std.specs.Prelude.{◌≡◌, ℕ, ◌+◌, ◌≤◌, ◌<◌, length};
ghost use Rattle.field.specs.Field.{power};
ghost use Rattle.field.specs.Table.{Field, poly_of};
ghost use Rattle.reed_solomon.specs.Sum.{seq};
ghost use Rattle.reed_solomon.specs.Register.{Tail};
ghost use Rattle.reed_solomon.specs.Erased.{erasures};
ghost use Rattle.erasures.specs.Inner.{Times, TimesIf, Rooted, Modified, Reduction};

use reed_solomon::locator;

// f of length l times x + α^d. From the top down, what is still to be moved up is not yet overwritten.
fn add_root(field: &[u16; 1280], f: &mut [u8], l: usize, d: usize)
    requires field { Field field.now }
    requires f_len { (length f.old ≡ 256) × (l ≤ 254) × (d ≤ 255) × Tail (seq f.old) l }
    ensures { Times (poly_of field.now) (power (poly_of field.now) d) f.old f.new }
{
    let mut i = l + 2;
    while 1 < i {
        i -= 1;
        f[i] ^= field::raised(field, f[i - 1], d);
    }
}

// The same where the flag is set, and the length of that.
fn add_root_if(field: &[u16; 1280], f: &mut [u8], l: usize, flag: u8, d: usize) -> usize
    requires field { Field field.now }
    requires f_len { (length f.old ≡ 256) × (0 < flag → l ≤ 254) × (l ≤ 255) × (d ≤ 255) × Tail (seq f.old) l }
    ensures { TimesIf (poly_of field.now) (power (poly_of field.now) d) flag l f.old result f.new }
{
    if flag == 0 {
        return l;
    }
    add_root(field, f, l, d);
    l + 1
}

// f of length l times x + X k for each erased place k, where X k is α to the degree of the place; and the length of that.
pub fn add_roots(field: &[u16; 1280], f: &mut [u8], l: usize, flags: &[u8]) -> usize
    requires field { Field field.now }
    requires f_len { (length f.old ≡ 256) × (seq f.old 0 ≡ 1) × Tail (seq f.old) l }
    requires flags_len_bound { (length flags.now ≤ 255) × (l + erasures flags.now ≤ 255) }
    ensures { Rooted (poly_of field.now) (length flags.now) flags.now (length flags.now) l f.old result f.new }
{
    let n = flags.len();
    let mut at = l;
    let mut k = 0;
    while k < n {
        at = add_root_if(field, f, at, flags[k], n - 1 - k);
        k += 1;
    }
    at
}

// The first m modified syndromes in t: those of the block with each place multiplied by the value there of g, of length f, which takes the
// erased places out.
pub fn modified(field: &[u16; 1280], s: &[u8], g: &[u8], f: usize, m: usize, t: &mut [u8])
    requires field { Field field.now }
    requires s_len { (length s.now ≡ 256) × (length g.now ≡ 256) × (f + m ≤ 255) }
    requires t_len { (length t.old ≡ 256) × ((i : ℕ) → seq t.old i < 256) }
    ensures { Modified (poly_of field.now) s.now g.now f m t.new }
{
    let mut j = 0;
    while j < m {
        t[j] = locator::discrepancy(field, s, g, f, f + j);
        j += 1;
    }
}

// The locator p of the errors at unerased places, of the block with syndromes s and f erased places; and its length.
pub fn locate(
    field: &[u16; 1280],
    s: &[u8],
    flags: &[u8],
    parity: usize,
    f: usize,
    p: &mut [u8],
) -> usize
    requires field { Field field.now }
    requires parity_bound { (parity ≤ 254) × (length flags.now ≤ 255) × (f ≤ parity) × (f ≡ erasures flags.now) }
    requires s_len { (length s.now ≡ 256) × (length p.old ≡ 256) × ((i : ℕ) → seq p.old i ≡ 0) }
    ensures { Reduction (poly_of field.now) parity flags.now s.now f p.new result }
{
    let mut g = [0u8; 256];
    g[0] = 1;
    add_roots(field, &mut g, 0, flags);
    let mut t = [0u8; 256];
    modified(field, s, &g, f, parity - f, &mut t);
    locator::locator(field, &t, parity - f, p)
}
