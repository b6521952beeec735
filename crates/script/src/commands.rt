// SPECIFICATION 2.5 and 10.8: the commands of a script.
ghost use Rattle.std.specs.Prelude.{◌≡◌, true, ◌+◌, ◌-◌, ◌*◌, ◌<◌, ◌≤◌, length, drop};
ghost use Rattle.script.specs.Check.{allowed};
ghost use Rattle.script.specs.Inner.{run_at, eci_at, command_at, command_size};

use crate::Command;

// A number of payload bytes is allowed in a mode.
fn is_allowed(mode: usize, n: usize) -> bool
    ensures { result ≡ allowed mode n }
{
    if mode == segments::NUMERIC {
        return 0 < n;
    }
    if mode == segments::BYTES {
        return n <= 8191;
    }
    if segments::REGION_ONE <= mode {
        return n % 2 == 0;
    }
    true
}

// A command of modes 1 to 6 at a place of a script.
fn run_at(script: &[u8], i: usize) -> Command
    requires { i < length script.now }
    ensures { result ≡ run_at (drop i script.now) }
{
    if script.len() - i < 3 {
        return Command::Wrong;
    }
    let mode = bits::as_usize(script[i]);
    let n = bits::as_usize(script[i + 1]) * 256 + bits::as_usize(script[i + 2]);
    if is_allowed(mode, n) {
        return Command::Run(mode, n);
    }
    Command::Wrong
}

// An ECI at a place of a script.
fn eci_at(script: &[u8], i: usize) -> Command
    requires { i < length script.now }
    ensures { result ≡ eci_at (drop i script.now) }
{
    if script.len() - i < 4 {
        return Command::Wrong;
    }
    let v = bits::as_usize(script[i + 1]) * 65536
        + bits::as_usize(script[i + 2]) * 256
        + bits::as_usize(script[i + 3]);
    if 2097151 < v {
        return Command::Wrong;
    }
    Command::Eci(v)
}

// The command at a place of a script.
pub fn command_at(script: &[u8], i: usize) -> Command
    requires { i < length script.now }
    ensures { result ≡ command_at (drop i script.now) }
{
    let m = bits::as_usize(script[i]);
    if m == segments::FOUR_BYTE {
        return Command::Run(segments::FOUR_BYTE, 4);
    }
    if m == segments::ECI {
        return eci_at(script, i);
    }
    if m < segments::NUMERIC {
        return Command::Wrong;
    }
    if segments::TWO_BYTE < m {
        return Command::Wrong;
    }
    run_at(script, i)
}

// How many bytes a command of modes 1 to 7 has.
pub fn command_size(mode: usize) -> usize
    ensures { (result ≡ command_size mode) × (1 ≤ result) × (result ≤ 3) }
{
    if mode == segments::FOUR_BYTE { 1 } else { 3 }
}
