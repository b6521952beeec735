// SPECIFICATION 7.4: how many data modules a layout has.
ghost use Rattle.std.specs.Prelude.{◌≡◌, [], ◌∷◌, ◌+◌, ◌<◌, ◌≤◌, length, take};
ghost use Rattle.symbol.specs.Layout.{data_modules};

#[tactic(auto, using(crate::proofs::DataModules::module_hit, crate::proofs::DataModules::module_miss), unfolding(crate::specs::Layout::data_modules))]
fn data_module(kind: u8) -> u8
    ensures { (result ≡ data_modules (kind ∷ [])) × (result ≤ 1) }
{
    if kind == 0 {
        return 1;
    }
    0
}

// The data modules of a run. Their count is a byte, so that the compiler counts sixteen places at once.
pub fn run_modules(kinds: &[u8], from: usize, to: usize) -> u8
    requires { (from ≤ to) × (to ≤ from + 224) × (to ≤ length kinds.now) }
    ensures { data_modules (take from kinds.now) + result ≡ data_modules (take to kinds.now) }
{
    let mut count: u8 = 0;
    let mut i = from;
    while i < to {
        count += data_module(kinds[i]);
        i += 1;
    }
    count
}

// Where the run that begins at i ends: n, or 224 places on.
pub fn run_end(i: usize, n: usize) -> usize
    requires { i < n }
    ensures { (i < result) × (result ≤ n) × (result ≤ i + 224) }
{
    if n - i < 224 {
        return n;
    }
    i + 224
}

// How many data modules the first n kinds have.
pub fn data_modules(kinds: &[u8], n: usize) -> usize
    requires { n ≤ length kinds.now }
    ensures { result ≡ data_modules (take n kinds.now) }
{
    let mut count: usize = 0;
    let mut i: usize = 0;
    while i < n {
        let end = run_end(i, n);
        count += run_modules(kinds, i, end) as usize;
        i = end;
    }
    count
}
