// Bits of bytes, high bit first (han_xin.rs: `Bits`): functions on a slice and a position.
#![tactic(auto)]

ghost use Rattle.std.specs.Prelude.{◌≡◌, ◌+◌, ◌*◌, ◌<◌, ◌≤◌, ◌++◌, length, get_or, take, drop, set};
ghost use Rattle.std.proofs.lemmas.List.Edits.{sets};
ghost use Rattle.bits.specs.Bits.{bits_of, read_bits, low_bits};
ghost use Rattle.bits.specs.Four.{four_of};
ghost use Rattle.bits.specs.Read.{read_at};

// What reading some bits gives.
#[derive(Clone, Copy)]
pub enum Word {
    Value(usize),
    Cut,
}

// A byte as a number.
pub fn as_usize(x: u8) -> usize
    ensures { (result ≡ x) × (result < 256) }
{
    x as usize
}

// The bit at a position.
pub fn bit(s: &[u8], at: usize) -> usize
    requires { at < 8 * length s.now }
    ensures { result ≡ get_or (bits_of s.now) at 0 }
{
    as_usize((s[at / 8] >> (7 - at % 8)) & 1)
}

// The number that n bits say, near the end of the bytes: the bytes that hold them, as one number.
fn read_last(s: &[u8], at: usize, n: usize) -> Word
    requires { (length s.now ≤ 4096) × (at + n ≤ 8 * length s.now) × (n ≤ 21) }
    ensures { result ≡ read_bits n (drop at (bits_of s.now)) }
{
    let first = at / 8;
    let end = at + n;
    let last = (end + 7) / 8;
    let mut v: usize = 0;
    let mut i: usize = first;
    while i < last {
        v = v * 256 + as_usize(s[i]);
        i += 1;
    }
    Word::Value((v >> (8 * last - end)) % (1 << n))
}

// The number that the n bits from a position on say. Four bytes hold them wherever they start.
pub fn read_bits(s: &[u8], at: usize, n: usize) -> Word
    requires { (length s.now ≤ 4096) × (at ≤ 8 * length s.now) × (n ≤ 21) }
    ensures { result ≡ read_bits n (drop at (bits_of s.now)) }
{
    let i = at / 8;
    if 4 <= s.len() - i {
        let v = ((as_usize(s[i]) * 256 + as_usize(s[i + 1])) * 256 + as_usize(s[i + 2])) * 256
            + as_usize(s[i + 3]);
        return Word::Value((v >> (32 - at % 8 - n)) % (1 << n));
    }
    if s.len() * 8 < at + n {
        return Word::Cut;
    }
    read_last(s, at, n)
}

// Sets the bit at a position.
pub fn write_bit(buf: &mut [u8], at: usize, b: usize)
    requires { (at < 8 * length buf.old) × (b < 2) }
    ensures { bits_of buf.new ≡ set (bits_of buf.old) at b }
{
    if bit(buf, at) != b {
        let i = at / 8;
        buf[i] = buf[i] ^ (1 << (7 - at % 8));
    }
}

// The same near the end of the bytes, bit by bit.
fn write_last(buf: &mut [u8], at: usize, n: usize, v: usize)
    requires { (length buf.old ≤ 4096) × (at + n ≤ 8 * length buf.old) × (n ≤ 24) }
    ensures { bits_of buf.new ≡ sets (bits_of buf.old) at (low_bits n v) }
{
    let mut i: usize = 0;
    while i < n {
        write_bit(buf, at + i, (v >> (n - 1 - i)) % 2);
        i += 1;
    }
}

// Stores a number as four bytes.
fn store_four(buf: &mut [u8], i: usize, x: usize)
    requires { (i + 4 ≤ length buf.old) × (x < 4294967296) }
    ensures { buf.new ≡ sets buf.old i (four_of x) }
{
    buf[i] = (x >> 24) as u8;
    buf[i + 1] = ((x >> 16) % 256) as u8;
    buf[i + 2] = ((x >> 8) % 256) as u8;
    buf[i + 3] = (x % 256) as u8;
}

// Writes the n low bits of a number behind the bits before a position; what stood behind them is not kept. One byte is read and four are
// stored at once: to read all four back, where some were just stored, the processor would wait for the stores.
pub fn write_bits(buf: &mut [u8], at: usize, n: usize, v: usize)
    requires { (length buf.old ≤ 4096) × (at + n ≤ 8 * length buf.old) × (n ≤ 24) }
    ensures { take (at + n) (bits_of buf.new) ≡ take at (bits_of buf.old) ++ low_bits n v }
{
    let i = at / 8;
    if buf.len() - i < 4 {
        write_last(buf, at, n, v);
        return;
    }
    let r = at % 8;
    let old = as_usize(buf[i]);
    let before = old - old % (1 << (8 - r));
    store_four(buf, i, before * 16777216 + ((v % (1 << n)) << (32 - r - n)));
}

// The bit reader joins the data codewords to a bit position (SPECIFICATION 8.1; han_xin.rs: `Bits`): thin functions over a struct, whose
// work is done on a slice and a number. Data and a position in their bits.
#[derive(Drop)]
pub struct Bits<'a> {
    pub data: &'a [u8],
    pub at: usize,
}

// The number that the n bits from a position on say, where there are so many.
pub fn read_at(s: &[u8], at: usize, n: usize) -> Word
    ensures { result ≡ read_at s.now at n }
{
    if 4096 < s.len() {
        return Word::Cut;
    }
    if s.len() * 8 < at {
        return Word::Cut;
    }
    if 21 < n {
        return Word::Cut;
    }
    read_bits(s, at, n)
}

pub fn read<'a>(b: Bits<'a>, n: usize) -> Word
    ensures { result ≡ read_at b.entry.data.now b.entry.at n }
{
    read_at(b.data, b.at, n)
}

// The mode of a segment: 4 bits.
pub fn mode(s: &[u8], at: usize) -> Word
    ensures { result ≡ read_at s.now at 4 }
{
    read(Bits { data: s, at: at }, 4)
}
