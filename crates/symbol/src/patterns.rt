// SPECIFICATION 4.7: what alignment patterns are plotted of: assistants and lines.
ghost use Rattle.std.specs.Prelude.{◌≡◌, [], ◌∷◌, ℕ, ◌+◌, ◌-◌, ◌*◌, ◌%◌, ◌≤◌, ◌<◌, length, get_or, pos};
ghost use Rattle.std.specs.Int.Signed.{mag};
ghost use Rattle.symbol.specs.Layout.{plot, when, odd, three_at, assistant, line_module, line_left, line_down};
ghost use Rattle.symbol.specs.Inner.{Stored, Plotted, FitsSquare, Inside, drawn};

use crate::Spacing;

// Gives a place of the square its kind while it is data.
fn plot_at(grid: &mut [u8], side: usize, column: usize, row: usize, kind: u8)
    requires { (side ≤ 189) × (side * side ≤ length grid.old) × (column < side) × (row < side) }
    ensures { Plotted side (plot (pos column) (pos row) kind ∷ []) grid.old grid.new }
{
    let i = row * side + column;
    if grid[i] != 0 {
        return;
    }
    grid[i] = kind;
}

// Gives a place its kind while it is data; outside the square nothing is plotted.
fn plot(grid: &mut [u8], side: usize, x: i64, y: i64, kind: u8)
    requires { (side ≤ 189) × (side * side ≤ length grid.old) }
    ensures { Plotted side (plot x y kind ∷ []) grid.old grid.new }
{
    if x < 0 {
        return;
    }
    if y < 0 {
        return;
    }
    let column = x as usize;
    let row = y as usize;
    if side <= column {
        return;
    }
    if side <= row {
        return;
    }
    plot_at(grid, side, column, row, kind);
}

// Three modules side by side, the middle one of a kind.
fn three(grid: &mut [u8], side: usize, x: i64, y: i64, kind: u8)
    requires { (side ≤ 189) × (side * side ≤ length grid.old) × (mag x < 1000) }
    ensures { Plotted side (three_at x y kind) grid.old grid.new }
{
    plot(grid, side, x - 1, y, 2);
    plot(grid, side, x, y, kind);
    plot(grid, side, x + 1, y, 2);
}

// An assistant pattern: a dark module in a light square of three.
fn assistant(grid: &mut [u8], side: usize, x: i64, y: i64)
    requires { (side ≤ 189) × (side * side ≤ length grid.old) × (mag x < 1000) × (mag y < 1000) }
    ensures { Plotted side (assistant x y) grid.old grid.new }
{
    three(grid, side, x, y - 1, 2);
    three(grid, side, x, y, 3);
    three(grid, side, x, y + 1, 2);
}

// An assistant pattern where n is odd.
pub fn assistant_if_odd(grid: &mut [u8], p: Spacing, n: usize, x: i64, y: i64)
    requires { FitsSquare p grid.old × Inside p.side x × Inside p.side y }
    ensures { Plotted p.side (when (odd n) (assistant x y)) grid.old grid.new }
{
    if n % 2 == 0 {
        return;
    }
    assistant(grid, p.side, x, y);
}

// A dark module of a line, and the light one at its lower left.
fn line_module(grid: &mut [u8], side: usize, x: i64, y: i64)
    requires { (side ≤ 189) × (side * side ≤ length grid.old) × (mag x < 1000) × (mag y < 1000) }
    ensures { Plotted side (line_module x y) grid.old grid.new }
{
    plot(grid, side, x, y, 3);
    plot(grid, side, x - 1, y + 1, 2);
}

// What a place holds after a kind was drawn there: what is no longer data stays.
#[tactic(auto, unfolding(crate::specs::Inner::drawn))]
fn drawn(old: u8, kind: u8) -> u8
    ensures { result ≡ drawn old kind }
{
    if old == 0 {
        return kind;
    }
    old
}

// Draws a kind over the places from to below to. Nothing branches on what a place holds, so the compiler takes many places at once.
fn draw(grid: &mut [u8], from: usize, to: usize, kind: u8)
    requires { (from ≤ to) × (to ≤ length grid.old) }
    ensures { Stored (λ i. drawn (get_or grid.old i 0) kind) from to grid.old grid.new }
{
    let mut i = from;
    while i < to {
        grid[i] = drawn(grid[i], kind);
        i += 1;
    }
}

// The lesser of two numbers.
fn least(a: usize, b: usize) -> usize
    ensures { (result ≤ a) × (result ≤ b) × ((j : ℕ) → j ≤ a → j ≤ b → j ≤ result) }
{
    if a < b {
        return a;
    }
    b
}

// A line of width + 1 modules to the left: a run of dark modules, and one of light modules below it, as far as the square goes.
pub fn line_left(grid: &mut [u8], side: usize, x: i64, y: i64, width: usize)
    requires { (side ≤ 189) × (side * side ≤ length grid.old) × Inside side x × Inside side y × (width < 200) }
    ensures { Plotted side (line_left x y width) grid.old grid.new }
{
    let column = x as usize;
    let row = y as usize;
    let at = row * side + column;
    draw(grid, at - least(width, column), at + 1, 3);
    if side <= row + 1 {
        return;
    }
    draw(grid, at + side - least(width + 1, column), at + side, 2);
}

// The rest of a line down of height modules, at an edge of the square.
fn edge_down(grid: &mut [u8], side: usize, x: i64, y: i64, height: usize)
    requires { (side ≤ 189) × (side * side ≤ length grid.old) × (mag x < 200) × (mag y < 200) × (1 ≤ height) × (height < 200) }
    ensures { Plotted side (line_down x y height) grid.old grid.new }
{
    let mut i: usize = 0;
    while i < height - 1 {
        line_module(grid, side, x, y + (i + 1) as i64);
        i += 1;
    }
}

// The same where all of it lies in the square: each dark module and the light one at its lower left, with no test of where they lie.
fn run_down(grid: &mut [u8], side: usize, column: usize, row: usize, height: usize)
    requires { (side ≤ 189) × (side * side ≤ length grid.old) × (1 ≤ column) × (column < side) × (1 ≤ height) × (row + height < side) }
    ensures { Plotted side (line_down (pos column) (pos row) height) grid.old grid.new }
{
    let mut i: usize = 0;
    while i < height - 1 {
        plot_at(grid, side, column, row + (i + 1), 3);
        plot_at(grid, side, column - 1, row + (i + 1) + 1, 2);
        i += 1;
    }
}

// The rest of a line down of height modules.
pub fn line_down(grid: &mut [u8], side: usize, x: i64, y: i64, height: usize)
    requires { (side ≤ 189) × (side * side ≤ length grid.old) × Inside side x × Inside side y × (1 ≤ height) × (height < 200) }
    ensures { Plotted side (line_down x y height) grid.old grid.new }
{
    let column = x as usize;
    let row = y as usize;
    if column == 0 {
        edge_down(grid, side, x, y, height);
        return;
    }
    if side <= row + height {
        edge_down(grid, side, x, y, height);
        return;
    }
    run_down(grid, side, column, row, height);
}
