// SPECIFICATION 9.3: the values of bytes, pairs and four bytes, and whether a mode has them.
ghost use Rattle.std.specs.Prelude.{◌≡◌, false, ◌&&◌, ◌+◌, ◌-◌, ◌*◌, ◌/◌, ◌<◌, ◌≤◌, ltb, length};
ghost use Rattle.script.specs.Writer.{is_digit, code_of, in_subset, pair_code, in_region, double_code, in_double, four_code, in_four};
ghost use Rattle.general.specs.Lists.{all};

// The value of a byte in a subset of the text mode, where it has one.
pub fn code(first: bool, b: usize) -> usize
    ensures { result ≡ code_of first b }
{
    if first {
        if b < 48 {
            return 0;
        }
        if b < 58 {
            return b - 48;
        }
        if b < 91 {
            return b - 55;
        }
        return b - 61;
    }
    if b < 28 {
        return b;
    }
    if b < 48 {
        return b - 4;
    }
    if b < 65 {
        return b - 14;
    }
    if b < 97 {
        return b - 40;
    }
    b - 66
}

pub fn in_subset(first: bool, b: usize) -> bool
    ensures { result ≡ in_subset first b }
{
    let c = code(first, b);
    if c < 62 {
        return segments::text::text_char(first, c) == b;
    }
    false
}

// x - y, or 0.
pub fn saturating_sub(x: usize, y: usize) -> usize
    ensures { result ≡ x - y }
{
    if x < y {
        return 0;
    }
    x - y
}

// The value of a pair of bytes in a region, where it has one.
pub fn pair_code(one: bool, a: usize, b: usize) -> usize
    requires { (a < 256) × (b < 256) }
    ensures { result ≡ pair_code one a b }
{
    if one {
        if a < 0xA4 {
            return 3760 + saturating_sub(a, 0xA1) * 94 + saturating_sub(b, 0xA1);
        }
        if a == 0xA8 {
            return 4042 + saturating_sub(b, 0xA1);
        }
        return saturating_sub(a, 0xB0) * 94 + saturating_sub(b, 0xA1);
    }
    saturating_sub(a, 0xD8) * 94 + saturating_sub(b, 0xA1)
}

pub fn in_region(one: bool, a: usize, b: usize) -> bool
    requires { (a < 256) × (b < 256) }
    ensures { result ≡ in_region one a b }
{
    let c = pair_code(one, a, b);
    if c < segments::region_size(one) {
        let pair = segments::pair_of(one, c);
        if pair.high == a {
            return pair.low == b;
        }
    }
    false
}

// The value of a pair in the two-byte mode, where it has one.
pub fn double_code(a: usize, b: usize) -> usize
    requires { (a < 256) × (b < 256) }
    ensures { result ≡ double_code a b }
{
    if b < 0x7F {
        return saturating_sub(a, 0x81) * 190 + saturating_sub(b, 0x40);
    }
    saturating_sub(a, 0x81) * 190 + (b - 0x41)
}

pub fn in_double(a: usize, b: usize) -> bool
    requires { (a < 256) × (b < 256) }
    ensures { result ≡ in_double a b }
{
    let c = double_code(a, b);
    if c < 23940 {
        if segments::gb18030::first_byte(c) == a {
            return segments::gb18030::second_byte(c) == b;
        }
    }
    false
}

// The value of four bytes, where they have one.
pub fn four_code(run: &[u8]) -> usize
    requires { 4 ≤ length run.now }
    ensures { result ≡ four_code run.now }
{
    saturating_sub(bits::as_usize(run[0]), 0x81) * 12600
        + saturating_sub(bits::as_usize(run[1]), 0x30) * 1260
        + saturating_sub(bits::as_usize(run[2]), 0x81) * 10
        + saturating_sub(bits::as_usize(run[3]), 0x30)
}

// The four-byte mode has four bytes.
pub fn in_four(run: &[u8]) -> bool
    ensures { result ≡ in_four run.now }
{
    if run.len() != 4 {
        return false;
    }
    let w = four_code(run);
    if 1587600 <= w {
        return false;
    }
    if 0x81 + w / 12600 != bits::as_usize(run[0]) {
        return false;
    }
    if 0x30 + w % 12600 / 1260 != bits::as_usize(run[1]) {
        return false;
    }
    if 0x81 + w % 1260 / 10 != bits::as_usize(run[2]) {
        return false;
    }
    0x30 + w % 10 == bits::as_usize(run[3])
}

// The value of a digit; 10 or more for another byte.
fn digit_value(b: u8) -> u8
    ensures { ltb result 10 ≡ is_digit b }
{
    if b < 48 {
        return 255;
    }
    b - 48
}

fn greater(a: u8, b: u8) -> u8
    ensures { ltb result 10 ≡ (ltb a 10 && ltb b 10) }
{
    if a < b {
        return b;
    }
    a
}

// All bytes of a run are digits: their greatest value is below 10. With no early exit the compiler takes many bytes at once.
pub fn all_digits(run: &[u8]) -> bool
    ensures { result ≡ all is_digit run.now }
{
    let mut top: u8 = 0;
    let mut j: usize = 0;
    while j < run.len() {
        top = greater(top, digit_value(run[j]));
        j += 1;
    }
    top < 10
}
