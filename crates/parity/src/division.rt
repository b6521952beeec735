// Division by the generator: what is left of the data is their parity.
ghost use Rattle.std.specs.Prelude.{◌≡◌, ◌+◌, ◌≤◌, ◌<◌, length};
ghost use Rattle.field.specs.Table.{Field, poly_of};
ghost use Rattle.reed_solomon.specs.Sum.{seq};
ghost use Rattle.general.specs.Each.{Each};
ghost use Rattle.parity.specs.Inner.{Monic, Divided, copied_from, behind_of};

use reed_solomon::locator;

// What is left of w, of k + d coefficients, by division by g of degree d: its first k become zero.
pub fn divide(field: &[u16; 1280], g: &[u8], d: usize, w: &mut [u8], k: usize)
    requires field { Field field.now }
    requires d_in_bounds { (k + d ≤ length w.old) × (d < length g.now) × (length w.old ≤ 256) }
    requires monic { Monic d (seq g.now) }
    ensures { (length w.new ≡ length w.old)
        × Divided (poly_of field.now) d (seq g.now) (k + d) k (seq w.old) (seq w.new) }
{
    let mut i = 0;
    while i < k {
        let q = w[i];
        locator::add_moved(field, w, g, q, i, i + d + 1);
        i += 1;
    }
}

// The bytes of src from the place k to the place before n into those of dst.
pub fn copy(dst: &mut [u8], src: &[u8], k: usize, n: usize)
    requires { (k ≤ n) × (n ≤ length dst.old) × (n ≤ length src.now) }
    ensures { Each (copied_from k src.now) n dst.old dst.new }
{
    let mut i = k;
    while i < n {
        dst[i] = src[i];
        i += 1;
    }
}

// The bytes of a block from the place k on become the first of b.
pub fn put_behind(block: &mut [u8], k: usize, b: &[u8; 32])
    requires { (k ≤ length block.old) × (length block.old ≤ k + 32) × (length b.now ≡ 32) }
    ensures { Each (behind_of k b.now) (length block.old) block.old block.new }
{
    let n = block.len();
    let mut i = k;
    while i < n {
        block[i] = b[i - k];
        i += 1;
    }
}
