// SPECIFICATION 4.5 to 4.9: where the alignment patterns of a version stand.
ghost use Rattle.std.specs.Prelude.{◌≡◌, cond, ◌+◌, ◌-◌, ◌*◌, ◌%◌, ◌≤◌, ◌<◌};
ghost use Rattle.symbol.specs.Layout.{step_of, m_of, line_of, row_line, column_line, row_ends, column_ends, crossing, crossings, alignment};
ghost use Rattle.symbol.specs.Inner.{Plotted, Spaced, FitsSquare, Inside};
ghost use Rattle.general.specs.Lists.{each};

use crate::patterns::{assistant_if_odd, line_down, line_left};
use crate::table::{MODULE_K, MODULE_M};
use crate::{Spacing, Version};

pub fn spacing_of(version: usize) -> Spacing
    requires { (4 ≤ version) × (version ≤ 84) }
    ensures { Spaced result × (result.version ≡ version) }
{
    let side = Version { number: version }.side();
    let k = MODULE_K[version - 1] as usize;
    let m = MODULE_M[version - 1] as usize;
    Spacing {
        version,
        side,
        k,
        r: side - m * k,
        m,
    }
}

// From line n to the next.
fn step(p: Spacing, n: usize) -> usize
    requires { Spaced p }
    ensures { (result ≡ step_of p.version n) × ((1 ≤ result) × (result ≤ 22)) }
{
    if n < p.m {
        return p.k;
    }
    p.r - 1
}

// Where line n lies: after n steps of k, and the last line at the edge.
fn line_of(p: Spacing, n: usize) -> usize
    requires { Spaced p × (n < p.m + 2) }
    ensures { (result ≡ line_of p.version n) × (result < p.side) }
{
    if n <= p.m {
        return n * p.k;
    }
    p.side - 1
}

// Rows are counted from the top.
fn row_of(p: Spacing, n: usize) -> i64
    requires { Spaced p × (n < p.m + 2) }
    ensures { (result ≡ row_line p.version n) × Inside p.side result }
{
    line_of(p, n) as i64
}

// Columns are counted from the right.
fn column_of(p: Spacing, n: usize) -> i64
    requires { Spaced p × (n < p.m + 2) }
    ensures { (result ≡ column_line p.version n) × Inside p.side result }
{
    (p.side - 1 - line_of(p, n)) as i64
}

// The assistants at the left and right end of row n.
fn row_ends(grid: &mut [u8], p: Spacing, n: usize)
    requires { FitsSquare p grid.old × (n < p.m + 2) }
    ensures { Plotted p.side (row_ends p.version n) grid.old grid.new }
{
    let y = row_of(p, n);
    assistant_if_odd(grid, p, n + p.m, 0, y);
    assistant_if_odd(grid, p, n, (p.side - 1) as i64, y);
}

// The assistants at the lower and upper end of column n.
fn column_ends(grid: &mut [u8], p: Spacing, n: usize)
    requires { FitsSquare p grid.old × (n < p.m + 2) }
    ensures { Plotted p.side (column_ends p.version n) grid.old grid.new }
{
    let x = column_of(p, n);
    assistant_if_odd(grid, p, n + p.m, x, (p.side - 1) as i64);
    assistant_if_odd(grid, p, n, x, 0);
}

// The two lines from row n and column j.
fn crossing(grid: &mut [u8], p: Spacing, n: usize, j: usize)
    requires { FitsSquare p grid.old × (n < p.m + 2) × (j < p.m + 2) }
    ensures { Plotted p.side (crossing p.version n j) grid.old grid.new }
{
    if (n + j) % 2 == 1 {
        return;
    }
    if n + j == 0 {
        return;
    }
    let x = column_of(p, j);
    let y = row_of(p, n);
    line_left(grid, p.side, x, y, step(p, j));
    line_down(grid, p.side, x, y, step(p, n));
}

// The assistants at the ends of row n, or of column n.
fn line_ends(grid: &mut [u8], p: Spacing, n: usize, rows: bool)
    requires { FitsSquare p grid.old × (n < p.m + 2) }
    ensures { Plotted p.side (cond rows (row_ends p.version n) (column_ends p.version n)) grid.old grid.new }
{
    if rows {
        row_ends(grid, p, n);
        return;
    }
    column_ends(grid, p, n);
}

// The assistants of all rows, or of all columns.
fn lines_ends(grid: &mut [u8], p: Spacing, rows: bool)
    requires { FitsSquare p grid.old }
    ensures { Plotted p.side (each (m_of p.version + 2) (λ n. cond rows (row_ends p.version n) (column_ends p.version n)))
        grid.old grid.new }
{
    let lines = p.m + 2;
    let mut n: usize = 0;
    while n < lines {
        line_ends(grid, p, n, rows);
        n += 1;
    }
}

// The lines of row n.
fn row_crossings(grid: &mut [u8], p: Spacing, n: usize)
    requires { FitsSquare p grid.old × (n < p.m + 2) }
    ensures { Plotted p.side (each (m_of p.version + 2) (crossing p.version n)) grid.old grid.new }
{
    let lines = p.m + 2;
    let mut j: usize = 0;
    while j < lines {
        crossing(grid, p, n, j);
        j += 1;
    }
}

// The lines of all rows.
fn crossings(grid: &mut [u8], p: Spacing)
    requires { FitsSquare p grid.old }
    ensures { Plotted p.side (crossings p.version) grid.old grid.new }
{
    let lines = p.m + 2;
    let mut n: usize = 0;
    while n < lines {
        row_crossings(grid, p, n);
        n += 1;
    }
}

// Alignment and assistant alignment patterns. Modules that are no longer data keep their kind.
pub fn alignment(grid: &mut [u8], p: Spacing)
    requires { FitsSquare p grid.old }
    ensures { Plotted p.side (alignment p.version) grid.old grid.new }
{
    lines_ends(grid, p, true);
    lines_ends(grid, p, false);
    crossings(grid, p);
}
