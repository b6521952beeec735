// SPECIFICATION 6.5: which codewords of a square have unknown modules. A flag stands beside each codeword: of its eight bits those are 1 whose
// modules are unknown.
#![tactic(auto)]

ghost use Rattle.std.specs.Prelude.{◌≡◌, ◌++◌, ℕ, ◌+◌, ◌*◌, ◌/◌, ◌%◌, ◌^◌, ◌<◌, ◌≤◌, length, get_or, take, drop};
ghost use Rattle.symbol.specs.Layout.{data_modules};
ghost use Rattle.bits.specs.Bits.{first_words};
ghost use Rattle.codewords.specs.Codewords.{data_bits};
ghost use Rattle.codewords.specs.Inner.{ModulesAndKinds};
ghost use Rattle.flags.specs.Inner.{TellsRun, FlagsUpTo, flagged, unknown_bits};

use symbol::counting;

// Whether one of the modules of a run is unknown, with no early exit: a test of each would be slower.
fn any_unknown(square: &[u8], from: usize, to: usize) -> bool
    requires { to ≤ length square.now }
    ensures { TellsRun result square.now from to }
{
    let mut seen: u8 = 0;
    let mut i = from;
    while i < to {
        seen = seen | square[i];
        i += 1;
    }
    1 < seen
}

// Where the group that begins at i ends: n, or 32 places on.
fn group_end(i: usize, n: usize) -> usize
    requires { i < n }
    ensures { (i < result) × (result ≤ n) × (result ≤ i + 32) }
{
    if n - i < 32 {
        return n;
    }
    i + 32
}

// The bit of data module p is set, if there is a flag for its codeword.
fn mark(flags: &mut [u8], p: usize)
    requires { p / 8 < length flags.old → get_or flags.old (p / 8) 0 + 128 / 2 ^ (p % 8) < 256 }
    ensures { flags.new ≡ flagged p flags.old }
{
    let n = p / 8;
    if flags.len() <= n {
        return;
    }
    flags[n] += 128 >> (p % 8);
}

// The bit of the module at i, if that is an unknown data module. There are p data modules before the place `from`.
fn mark_module(flags: &mut [u8], kinds: &[u8], square: &[u8], from: usize, i: usize, p: usize)
    requires { FlagsUpTo kinds.now square.now i flags.old × (from ≤ i) × (i ≤ from + 224) × (i < length square.now)
        × (p ≡ data_modules (take from kinds.now)) }
    ensures { FlagsUpTo kinds.now square.now (i + 1) flags.new
        × (length flags.new ≡ length flags.old) }
{
    if square[i] < 2 {
        return;
    }
    if kinds[i] != 0 {
        return;
    }
    mark(flags, p + counting::run_modules(kinds, from, i) as usize);
}

// The bits of the unknown modules from `start` on and before `to`. There are p data modules before the place `from`.
fn mark_group(
    flags: &mut [u8],
    kinds: &[u8],
    square: &[u8],
    from: usize,
    start: usize,
    to: usize,
    p: usize,
)
    requires { FlagsUpTo kinds.now square.now start flags.old × (from ≤ start) × (start ≤ to) × (to ≤ from + 224) × (to ≤ length square.now)
        × (p ≡ data_modules (take from kinds.now)) }
    ensures { FlagsUpTo kinds.now square.now to flags.new
        × (length flags.new ≡ length flags.old) }
{
    if !any_unknown(square, start, to) {
        return;
    }
    let mut i = start;
    while i < to {
        mark_module(flags, kinds, square, from, i, p);
        i += 1;
    }
}

// The bits of the unknown modules of a run, before which there are p data modules. Runs are long, so that most modules are only counted, and
// groups short, so that few are looked at one by one.
fn mark_run(flags: &mut [u8], kinds: &[u8], square: &[u8], from: usize, to: usize, p: usize)
    requires { FlagsUpTo kinds.now square.now from flags.old × (from ≤ to) × (to ≤ from + 224) × (to ≤ length square.now)
        × (p ≡ data_modules (take from kinds.now)) }
    ensures { FlagsUpTo kinds.now square.now to flags.new
        × (length flags.new ≡ length flags.old) }
{
    if !any_unknown(square, from, to) {
        return;
    }
    let mut i = from;
    while i < to {
        let end = group_end(i, to);
        mark_group(flags, kinds, square, from, i, end, p);
        i = end;
    }
}

// The flags of as many codewords of a square as there is room for, in place of zeros.
fn mark_all(flags: &mut [u8], kinds: &[u8], square: &[u8])
    requires { ModulesAndKinds kinds.now square.now × ((i : ℕ) → get_or flags.old i 0 ≡ 0)
        × (8 * length flags.old ≤ length (data_bits (λ i. 0) 0 kinds.now square.now)) }
    ensures { flags.new ≡ first_words 8 (length flags.old) (unknown_bits kinds.now square.now) }
{
    let n = square.len();
    let mut p: usize = 0;
    let mut i: usize = 0;
    while i < n {
        let end = counting::run_end(i, n);
        mark_run(flags, kinds, square, i, end, p);
        p += counting::run_modules(kinds, i, end) as usize;
        i = end;
    }
}

// The flags of the first total codewords of a square, in place of zeros, in the order of `placement::read_codewords`.
pub fn read_flags(out: &mut [u8], total: usize, kinds: &[u8], square: &[u8])
    requires modules_and_kinds { ModulesAndKinds kinds.now square.now × ((i : ℕ) → get_or out.old i 0 ≡ 0) }
    requires total_in_bounds { (total ≤ length out.old) × (8 * total ≤ length (data_bits (λ i. 0) 0 kinds.now square.now)) }
    ensures { out.new ≡ first_words 8 total (unknown_bits kinds.now square.now) ++ drop total out.old }
{
    mark_all(&mut out[..total], kinds, square);
}
