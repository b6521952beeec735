// SPECIFICATION 3.1: GF(256) by a lent table (reed_solomon.rs: `Field::new`, `mul`, `div`, `power`). The polynomial is the table's own, and
// no step of a product goes by the value of a byte.
#![tactic(auto)]

ghost use Rattle.std.specs.Prelude.{◌≡◌, ◌+◌, ◌<◌, ◌≤◌, get_or};
ghost use Rattle.field.specs.Field.{power, mul};
ghost use Rattle.field.specs.Table.{Field, poly_of};

pub mod table;

// What stands at the place n of the powers.
fn power_entry(field: &[u16; 1280], n: usize) -> u8
    requires field { Field field.now }
    requires n_bound { n < 1024 }
    ensures { result ≡ get_or field.now (256 + n) 0 }
{
    field[256 + n] as u8
}

// Where the byte a, or the numbers that stand in for zero, are among the powers.
fn log_entry(field: &[u16; 1280], a: u8) -> usize
    requires { Field field.now }
    ensures { (result ≡ get_or field.now a 0) × (result ≤ 510) × (0 < a → result < 255) }
{
    let i = a as usize;
    field[i] as usize
}

// α^n
pub fn power(field: &[u16; 1280], n: usize) -> u8
    requires field { Field field.now }
    requires n_bound { n < 510 }
    ensures { result ≡ power (poly_of field.now) n }
{
    power_entry(field, n)
}

// The n with α^n = a.
pub fn log(field: &[u16; 1280], a: u8) -> usize
    requires field { Field field.now }
    requires a_nonzero { 0 < a }
    ensures { (result < 255) × (power (poly_of field.now) result ≡ a) }
{
    log_entry(field, a)
}

// a times b
pub fn mul(field: &[u16; 1280], a: u8, b: u8) -> u8
    requires { Field field.now }
    ensures { result ≡ mul (poly_of field.now) a b }
{
    power_entry(field, log_entry(field, a) + log_entry(field, b))
}

// a times α^n
pub fn raised(field: &[u16; 1280], a: u8, n: usize) -> u8
    requires field { Field field.now }
    requires n_bound { n ≤ 255 }
    ensures { result ≡ mul (poly_of field.now) a (power (poly_of field.now) n) }
{
    power_entry(field, log_entry(field, a) + n)
}

// a divided by b: what gives a when it is multiplied by b
pub fn div(field: &[u16; 1280], a: u8, b: u8) -> u8
    requires field { Field field.now }
    requires b_nonzero { 0 < b }
    ensures { mul (poly_of field.now) result b ≡ a }
{
    power_entry(field, log_entry(field, a) + (255 - log_entry(field, b)))
}

// The table of Han Xin's field.
pub fn han_xin() -> [u16; 1280]
    ensures { Field result × (poly_of result ≡ 0x163) }
{
    table::HAN_XIN
}
