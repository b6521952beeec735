// The shortest shift register that makes the syndromes, by Berlekamp and Massey's algorithm: the locator of the errors.
ghost use Rattle.std.specs.Prelude.{◌≡◌, ℕ, ◌+◌, ◌≤◌, ◌<◌, length};
ghost use Rattle.field.specs.Table.{Field, poly_of};
ghost use Rattle.reed_solomon.specs.Sum.{seq};
ghost use Rattle.reed_solomon.specs.Register.{discrepancy};
ghost use Rattle.reed_solomon.specs.Inner.{added, copied, Register, Shortest};
ghost use Rattle.general.specs.Each.{Each};

// By how much the register f of length l misses s at r.
pub fn discrepancy(field: &[u16; 1280], s: &[u8], f: &[u8], l: usize, r: usize) -> u8
    requires field { Field field.now }
    requires l_le_r { (l ≤ r) × (r < length s.now) × (l < length f.now) }
    ensures { result ≡ discrepancy (poly_of field.now) (seq s.now) (seq f.now) l r }
{
    let mut d = 0;
    let mut i = 0;
    while i <= l {
        d ^= field::mul(field, f[i], s[r - i]);
        i += 1;
    }
    d
}

// f plus q times g moved up by m places, up to the place before top.
pub fn add_moved(field: &[u16; 1280], f: &mut [u8], g: &[u8], q: u8, m: usize, top: usize)
    requires field { Field field.now }
    requires top_in_bounds { (top ≤ length f.old) × (m ≤ top) × (top ≤ length g.now + m) }
    ensures { Each (added (poly_of field.now) q m g.now) top f.old f.new }
{
    let mut i = m;
    while i < top {
        f[i] ^= field::mul(field, q, g[i - m]);
        i += 1;
    }
}

// The first n bytes of src into those of dst.
pub fn copy(dst: &mut [u8], src: &[u8], n: usize)
    requires { (n ≤ length dst.old) × (n ≤ length src.now) }
    ensures { Each (copied src.now) n dst.old dst.new }
{
    let mut i = 0;
    while i < n {
        dst[i] = src[i];
        i += 1;
    }
}

// The same, and the first places of g, up to the one before top, become what those of f were. From the top down, what is still to be moved up
// is not yet overwritten.
fn grow(field: &[u16; 1280], f: &mut [u8], g: &mut [u8], q: u8, m: usize, top: usize)
    requires field { Field field.now }
    requires f_len { (length f.old ≡ 256) × (length g.old ≡ 256) × (top ≤ 256) × (m ≤ top) }
    ensures { Each (added (poly_of field.now) q m g.old) top f.old f.new
        × Each (copied f.old) top g.old g.new }
{
    let mut i = top;
    while m < i {
        i -= 1;
        let old = f[i];
        f[i] = old ^ field::mul(field, q, g[i - m]);
        g[i] = old;
    }
    copy(g, f, m);
}

// The length of the register, when the one before it was left, and by how much that one missed.
#[derive(Clone, Copy)]
pub struct Search {
    pub l: usize,
    pub rg: usize,
    pub b: u8,
}

// The register f that makes one value more, and the register g before it.
fn extend(field: &[u16; 1280], s: &[u8], r: usize, f: &mut [u8], g: &mut [u8], at: Search) -> Search
    requires field { Field field.now }
    requires r_bound { r < 255 }
    requires s_len { (length s.now ≡ 256) × ((i : ℕ) → seq s.now i < 256) }
    requires register { Register (poly_of field.now) s.now r f.old g.old at.l at.rg at.b }
    ensures { Register (poly_of field.now) s.now (r + 1) f.new g.new result.l result.rg result.b }
{
    let l = at.l;
    let d = discrepancy(field, s, f, l, r);
    if d == 0 {
        return at;
    }
    let q = field::div(field, d, at.b);
    let m = r + 1 - at.rg;
    if r < l + l {
        add_moved(field, f, g, q, m, l + 1);
        return at;
    }
    grow(field, f, g, q, m, r + 2 - l);
    Search {
        l: r + 1 - l,
        rg: r + 1,
        b: d,
    }
}

// The locator of the first n values of s, and its length.
pub fn locator(field: &[u16; 1280], s: &[u8], n: usize, f: &mut [u8]) -> usize
    requires field { Field field.now }
    requires n_bound { n ≤ 255 }
    requires s_len { (length s.now ≡ 256) × ((i : ℕ) → seq s.now i < 256) }
    requires f_len { (length f.old ≡ 256) × ((i : ℕ) → seq f.old i ≡ 0) }
    ensures { Shortest (poly_of field.now) s.now n f.new result }
{
    f[0] = 1;
    let mut g = [0u8; 256];
    g[0] = 1;
    let mut at = Search { l: 0, rg: 0, b: 1 };
    let mut r = 0;
    while r < n {
        at = extend(field, s, r, f, &mut g, at);
        r += 1;
    }
    at.l
}
