// The field, Correct a block and the parity of a block for the comparison with the Rust.
ghost use Rattle.std.specs.Prelude.{◌≡◌, ◌%◌};
ghost use Rattle.field.specs.Field.{power, mul};
ghost use Rattle.corrector.specs.Correct.{correct_of};
ghost use Rattle.parity.specs.Encode.{encode_of};
ghost use Rattle.comparison.specs.Correcting.{outcome_of, Answers, flagged_of, encoding_of, IsQuotient};

use corrector::Correction;
use parity::Encoded;

// The refusal number or 0, and the count beside it.
#[repr(C)]
#[derive(Clone, Copy)]
pub struct Answer {
    pub number: usize,
    pub count: usize,
}

fn numbers(c: Correction) -> Answer
    ensures { Answers c result.number result.count }
{
    match c {
        Correction::Corrected(n) => Answer {
            number: 0,
            count: n,
        },
        Correction::Unfit => Answer {
            number: 5,
            count: 0,
        },
        Correction::TooManyErased => Answer {
            number: 15,
            count: 0,
        },
        Correction::OutOfReach => Answer {
            number: 6,
            count: 0,
        },
    }
}

#[unsafe(no_mangle)]
pub extern "C" fn hx_correct(block: &mut [u8], parity: usize) -> Answer
    ensures { outcome_of result.number result.count block.new ≡ correct_of 0x163 1 parity block.old }
{
    numbers(corrector::correct(block, parity))
}

// 2 where there is not a flag for each byte of the block.
#[unsafe(no_mangle)]
pub extern "C" fn hx_correct_erased(block: &mut [u8], flags: &[u8], parity: usize) -> Answer
    ensures { outcome_of result.number result.count block.new ≡ flagged_of parity flags.now block.old }
{
    if flags.len() != block.len() {
        return Answer {
            number: 2,
            count: 0,
        };
    }
    numbers(erasure_corrector::correct(block, flags, parity))
}

#[unsafe(no_mangle)]
pub extern "C" fn hx_mul(a: u8, b: u8) -> u8
    ensures { result ≡ mul 0x163 a b }
{
    let field = field::han_xin();
    field::mul(&field, a, b)
}

// 0 for a divisor 0.
#[unsafe(no_mangle)]
pub extern "C" fn hx_div(a: u8, b: u8) -> u8
    ensures { IsQuotient a b result }
{
    if b == 0 {
        return 0;
    }
    let field = field::han_xin();
    field::div(&field, a, b)
}

#[unsafe(no_mangle)]
pub extern "C" fn hx_power(n: usize) -> u8
    ensures { result ≡ power 0x163 n }
{
    let field = field::han_xin();
    field::power(&field, n % 255)
}

// 5, and the block untouched; or 0, and its last bytes are the parity of the others.
#[unsafe(no_mangle)]
pub extern "C" fn hx_parity(block: &mut [u8], parity: usize) -> usize
    ensures { encoding_of result block.new ≡ encode_of 0x163 1 parity block.old }
{
    match parity::encode(block, parity) {
        Encoded::Written => 0,
        Encoded::Unfit => 5,
    }
}
