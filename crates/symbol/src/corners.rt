// SPECIFICATION 4.1 to 4.4: finders, separators and information modules.
ghost use Rattle.std.specs.Prelude.{◌≡◌, [], ℕ, ◌+◌, ◌-◌, ◌*◌, ◌/◌, ◌%◌, ◌^◌, ◌≤◌, ◌<◌, length, get_or};
ghost use Rattle.symbol.specs.Layout.{finders, edge, finder_row};
ghost use Rattle.symbol.specs.Inner.{Stored, RowRoom, Ends, UpTo, Beyond, four_modules, corner_kind};

use crate::table::FINDERS;

fn finder_at(corner: usize, row: usize) -> u8
    requires { (corner < 4) × (row < 7) }
    ensures { (result ≡ get_or (get_or finders corner []) row 0) × (result < 128) }
{
    FINDERS[corner][row]
}

// The row of the left (0) or right (1) finder that lies in this row, or 0: beyond the finder its separator is light.
fn finder_row(side: usize, right: usize, row: usize) -> u8
    requires { (23 ≤ side) × (right < 2) × (row < side) × (edge side row < 8) }
    ensures { (result < 128) × ((edge side row < 7 → result ≡ finder_row side right row) × (edge side row ≡ 7 → result ≡ 0)) }
{
    if row < 7 {
        return finder_at(2 * right, row);
    }
    if side - 7 <= row {
        return finder_at(1 + 2 * right, row - (side - 7));
    }
    0
}

// Gives the places from to below to one kind.
fn run(out: &mut [u8], from: usize, to: usize, kind: u8)
    requires { (from ≤ to) × (to ≤ length out.old) }
    ensures { Stored (λ i. kind) from to out.old out.new }
{
    let mut i = from;
    while i < to {
        out[i] = kind;
        i += 1;
    }
}

// Four modules, light or dark by the bits of a digit, the high bit first, as the bytes of one number: a product sets the bits apart.
fn four_modules(digit: u8) -> u32
    requires { digit < 16 }
    ensures { result ≡ four_modules digit }
{
    (((digit as u32) * 134480385 / 8) & 16843009) + 33686018
}

// Four bytes of one number: a single store.
fn put_four(out: &mut [u8], at: usize, x: u32)
    requires { at + 4 ≤ length out.old }
    ensures { Stored (λ i. x / 256 ^ (i - at) % 256) at (at + 4) out.old out.new }
{
    out[at] = (x % 256) as u8;
    out[at + 1] = (x / 256 % 256) as u8;
    out[at + 2] = (x / 65536 % 256) as u8;
    out[at + 3] = (x / 16777216 % 256) as u8;
}

// Eight modules, light or dark by the bits of a byte, the high bit first.
fn modules(out: &mut [u8], at: usize, bits: u8)
    requires { at + 8 ≤ length out.old }
    ensures { Stored (λ i. 2 + bits / 2 ^ (7 - (i - at)) % 2) at (at + 8) out.old out.new }
{
    put_four(out, at, four_modules(bits / 16));
    put_four(out, at + 4, four_modules(bits % 16));
}

// The ends of a row through two finders or their separators.
fn finder_line(out: &mut [u8], side: usize, row: usize)
    requires { RowRoom side row out.old × (edge side row < 8) }
    ensures { Ends (corner_kind side) (row * side) (row * side + side) out.old out.new }
{
    let at = row * side;
    let left = finder_row(side, 0, row);
    let right = finder_row(side, 1, row);
    modules(out, at, 2 * left);
    out[at + 8] = 1;
    out[at + side - 9] = 1;
    modules(out, at + side - 8, right);
}

// The ends of a row with two arms of information modules.
fn information_line(out: &mut [u8], side: usize, row: usize)
    requires { RowRoom side row out.old × (edge side row ≡ 8) }
    ensures { Ends (corner_kind side) (row * side) (row * side + side) out.old out.new }
{
    let at = row * side;
    run(out, at, at + 9, 1);
    run(out, at + side - 9, at + side, 1);
}

// The ends of rows from to below to, through finders or their separators; all that comes later is still data.
fn finder_lines(out: &mut [u8], side: usize, from: usize, to: usize)
    requires { (23 ≤ side) × (side ≤ 189) × (side * side ≤ length out.old) × (from ≤ to) × (to ≤ side)
        × ((r : ℕ) → from ≤ r → r < to → edge side r < 8) × UpTo (corner_kind side) (side * side) (from * side) out.old }
    ensures { UpTo (corner_kind side) (side * side) (to * side) out.new × Beyond (side * side) out.old out.new }
{
    let mut row = from;
    while row < to {
        finder_line(out, side, row);
        row += 1;
    }
}

// Finders, separators and information modules; all else is data.
pub fn corners(out: &mut [u8], side: usize)
    requires { (23 ≤ side) × (side ≤ 189) × (side * side ≤ length out.old) }
    ensures { Stored (corner_kind side) 0 (side * side) out.old out.new }
{
    run(out, 0, side * side, 0);
    finder_lines(out, side, 0, 8);
    information_line(out, side, 8);
    information_line(out, side, side - 9);
    finder_lines(out, side, side - 8, side);
}
