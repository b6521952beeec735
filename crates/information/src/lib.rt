// SPECIFICATION 5, 10.3 and 10.4: the word of a version, level and mask, the nearest word to two copies, and the copies in a square
// (han_xin.rs: `info_positions`, `gf16_mul`, `info_bits`, `nearest_info`).
#![tactic(auto)]

ghost use Rattle.std.specs.Prelude.{◌≡◌, true, false, cond, ℕ, ◌+◌, ◌*◌, ◌/◌, ◌%◌, ◌^◌, ◌≤◌, ◌<◌, ltb, length, get_or};
ghost use Rattle.std.specs.Int.Bits.{bit_xor};
ghost use Rattle.std.specs.Int.Count.{ones};
ghost use Rattle.information.specs.Information.{times_x, gf16_mul, generator_times, remainder, word_of, word_distance, nearest_word, position_row, position_column, info_position, copy_of, info_written, is_info, info_of, info_answer, nearest_of, nearest_answer};
ghost use Rattle.information.specs.Inner.{Found, ArmWritten, lowest, module_of, number_from, bit_of, plus_if_odd, copy_written};

use symbol::Version;

// What operation Information word answers.
#[derive(Clone, Copy)]
pub enum InfoBits {
    Word(u64),
    OutOfRange,
}

// What operation Nearest word answers.
#[derive(Clone, Copy)]
pub enum NearestInfo {
    Nearest {
        level: usize,
        mask: usize,
        distance: u32,
    },
    NoVersion,
}

// A word of a version, level * 4 + mask, and its distance from two copies.
#[derive(Clone, Copy)]
pub struct Best {
    pub word: usize,
    pub distance: u32,
}

// a times x in GF(16) with polynomial x^4 + x + 1.
fn times_x(a: u64) -> u64
    requires { a < 16 }
    ensures { (result ≡ times_x a) × (result < 16) }
{
    let d = 2 * a;
    if d < 16 {
        return d;
    }
    d ^ 0x13
}

fn plus_if_odd(p: u64, a: u64, b: u64) -> u64
    requires { (p < 16) × (a < 16) }
    ensures { (result ≡ plus_if_odd p a b) × (result < 16) }
{
    if b % 2 == 1 {
        return p ^ a;
    }
    p
}

// The product in GF(16).
fn gf16_mul(x: u64, y: u64) -> u64
    requires { (x < 16) × (y < 16) }
    ensures { (result ≡ gf16_mul x y) × (result < 16) }
{
    let mut p: u64 = 0;
    let mut a = x;
    let mut b = y;
    let mut i: usize = 0;
    while i < 4 {
        p = plus_if_odd(p, a, b);
        a = times_x(a);
        b = b / 2;
        i += 1;
    }
    p
}

// f times the generator's coefficients below the first, which is 1.
fn generator_times(f: u64) -> u64
    requires { f < 16 }
    ensures { result ≡ generator_times f }
{
    gf16_mul(f, 13) * 4096 + gf16_mul(f, 12) * 256 + gf16_mul(f, 8) * 16 + gf16_mul(f, 7)
}

// The remainder with one data nibble more.
fn remainder(r: u64, nibble: u64) -> u64
    requires { (r < 65536) × (nibble < 16) }
    ensures { (result ≡ remainder r nibble) × (result < 65536) }
{
    ((r % 4096) * 16) ^ generator_times(nibble ^ (r / 4096))
}

// The word of 12 data bits.
fn word_of(d: u64) -> u64
    requires { d < 4096 }
    ensures { result ≡ word_of d }
{
    let a = remainder(0, d / 256);
    let b = remainder(a, d / 16 % 16);
    let c = remainder(b, d % 16);
    (d * 65536 + c) * 64
}

fn as_u64(x: usize) -> u64
    ensures { result ≡ x }
{
    x as u64
}

// Whether version, level and mask are in their ranges.
pub fn is_info(version: usize, level: usize, mask: usize) -> bool
    ensures { (result ≡ is_info version level mask) × (result ≡ true → (version ≤ 84) × (level ≤ 3) × (mask ≤ 3)) }
{
    if version < Version::MIN {
        return false;
    }
    if Version::MAX < version {
        return false;
    }
    if 3 < level {
        return false;
    }
    mask <= 3
}

// SPECIFICATION 10.3, Information word: the 34 function information bits, first bit in bit 33.
pub fn info_bits(version: usize, level: usize, mask: usize) -> InfoBits
    ensures { info_answer result ≡ info_of version level mask }
{
    if !is_info(version, level, mask) {
        return InfoBits::OutOfRange;
    }
    let d = as_u64((version + 20) * 16 + level * 4 + mask);
    InfoBits::Word(word_of(d))
}

// By which bits word k of a version differs from its word 0: the code is linear, so this holds for every version.
const DIFFERENCES: [u64; 16] = [
    0, 0x7721c0, 0xa6cf80, 0xd1ee40, 0x1055bc0, 0x1727a00, 0x1a39440, 0x1d4b580, 0x20ab340,
    0x27d9280, 0x2ac7cc0, 0x2db5d00, 0x30fe880, 0x378c940, 0x3a92700, 0x3de06c0,
];

// The differing bits of both copies.
fn distance(word: u64, first: u64, second: u64) -> u32
    ensures { (result ≡ ones (bit_xor word first) + ones (bit_xor word second)) × (result ≤ 128) }
{
    u64::count_ones(word ^ first) + u64::count_ones(word ^ second)
}

// The nearer one; the earlier if equal.
fn nearer(best: Best, k: usize, distance: u32) -> Best
    ensures { (result.word ≡ cond (ltb distance best.distance) k best.word)
        × (result.distance ≡ cond (ltb distance best.distance) distance best.distance) }
{
    if distance < best.distance {
        return Best { word: k, distance };
    }
    best
}

// The first of the 16 words of a version with the least distance.
fn nearest_word(version: usize, first: u64, second: u64) -> Best
    requires { version ≤ 84 }
    ensures { Found (word_distance version first second) (nearest_word version first second) result }
{
    let differences = DIFFERENCES;
    let word = word_of(as_u64((version + 20) * 16));
    let mut best = Best {
        word: 0,
        distance: distance(word, first, second),
    };
    let mut k: usize = 0;
    while k < 15 {
        k += 1;
        best = nearer(best, k, distance(word ^ differences[k], first, second));
    }
    best
}

// SPECIFICATION 10.4, Nearest word: the level and mask of the nearest word of a version, with the number of differing bits of both copies.
pub fn nearest_info(version: usize, first: u64, second: u64) -> NearestInfo
    ensures { nearest_answer result ≡ nearest_of version first second }
{
    if version < Version::MIN {
        return NearestInfo::NoVersion;
    }
    if Version::MAX < version {
        return NearestInfo::NoVersion;
    }
    let best = nearest_word(version, first, second);
    NearestInfo::Nearest {
        level: best.word / 4,
        mask: best.word % 4,
        distance: best.distance,
    }
}

fn position_row(n: usize) -> usize
    requires { n < 34 }
    ensures { result ≡ position_row n }
{
    if n < 9 {
        return 8;
    }
    if n < 17 {
        return 16 - n;
    }
    if n < 26 {
        return n - 17;
    }
    8
}

fn position_column(side: usize, n: usize) -> usize
    requires { (23 ≤ side) × (side ≤ 189) × (n < 34) }
    ensures { result ≡ position_column side n }
{
    if n < 9 {
        return n;
    }
    if n < 17 {
        return 8;
    }
    if n < 26 {
        return side - 9;
    }
    side - 9 + (n - 25)
}

// The place of information bit n in the first or second copy.
pub fn info_position(side: usize, second: bool, n: usize) -> usize
    requires { (23 ≤ side) × (side ≤ 189) × (n < 34) }
    ensures { (result ≡ info_position side second n) × (result < side * side) }
{
    let i = position_row(n) * side + position_column(side, n);
    if second {
        return side * side - 1 - i;
    }
    i
}

fn byte_as_u64(x: u8) -> u64
    ensures { result ≡ x }
{
    x as u64
}

// The bits from to below to of a copy, behind those before. Called for one arm at a time: the compiler then knows the row or the column of
// each bit and unrolls the loop.
fn read_arm(square: &[u8], side: usize, second: bool, word: u64, from: usize, to: usize) -> u64
    requires { (23 ≤ side) × (side ≤ 189) × (side * side ≤ length square.now) × (from ≤ to) × (to ≤ 34)
        × (word ≡ number_from (module_of side second (lowest square.now)) from) }
    ensures { result ≡ number_from (module_of side second (lowest square.now)) to }
{
    let mut w = word;
    let mut n = from;
    while n < to {
        let i = info_position(side, second, n);
        w = w * 2 + byte_as_u64(square[i] % 2);
        n += 1;
    }
    w
}

// A copy, read out of the lowest bits of a square: of its modules an unknown one is light.
pub fn read_copy(square: &[u8], side: usize, second: bool) -> u64
    requires { (23 ≤ side) × (side ≤ 189) × (side * side ≤ length square.now) }
    ensures { result ≡ copy_of side second (lowest square.now) }
{
    let a = read_arm(square, side, second, 0, 0, 9);
    let b = read_arm(square, side, second, a, 9, 17);
    let c = read_arm(square, side, second, b, 17, 26);
    read_arm(square, side, second, c, 26, 34)
}

fn bit(word: u64, n: usize) -> u8
    requires { n < 34 }
    ensures { result ≡ bit_of word n }
{
    ((word >> (33 - n)) % 2) as u8
}

// Writes bits from to below to of a word into a copy, one arm at a time as they are read.
fn write_arm(square: &mut [u8], side: usize, second: bool, word: u64, from: usize, to: usize)
    requires { (23 ≤ side) × (side ≤ 189) × (side * side ≤ length square.old) × (from ≤ to) × (to ≤ 34) }
    ensures { ArmWritten side second word from to square.old square.new }
{
    let mut n = from;
    while n < to {
        let i = info_position(side, second, n);
        square[i] = bit(word, n);
        n += 1;
    }
}

fn write_copy(square: &mut [u8], side: usize, second: bool, word: u64)
    requires { (23 ≤ side) × (side ≤ 189) × (side * side ≤ length square.old) }
    ensures { square.new ≡ copy_written side second word square.old }
{
    write_arm(square, side, second, word, 0, 9);
    write_arm(square, side, second, word, 9, 17);
    write_arm(square, side, second, word, 17, 26);
    write_arm(square, side, second, word, 26, 34);
}

// Writes a word into both copies of a square.
pub fn write_info(square: &mut [u8], side: usize, word: u64)
    requires { (23 ≤ side) × (side ≤ 189) × (side * side ≤ length square.old) }
    ensures { square.new ≡ info_written side word square.old }
{
    write_copy(square, side, false, word);
    write_copy(square, side, true, word);
}
