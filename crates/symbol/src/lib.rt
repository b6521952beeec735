// SPECIFICATION 2.1 and 4: versions; finders, separators, information and alignment patterns of a version
// (han_xin.rs: `size`, `version`, `layout`, `alignment`).
#![tactic(auto)]

ghost use Rattle.std.specs.Prelude.{◌≡◌, ◌+◌, ◌-◌, ◌*◌, ◌/◌, ◌%◌, ◌≤◌, ◌<◌};
ghost use Rattle.symbol.specs.Version.{side_of, side_refusal, side_version, version_of};
ghost use Rattle.symbol.specs.Version as version;
ghost use Rattle.symbol.specs.Layout.{alignment, layout_refusal, layout_written, layout_number};

use crate::alignment::{alignment, spacing_of};
use crate::corners::corners;

pub mod alignment;
pub mod corners;
pub mod counting;
pub mod patterns;
pub mod table;

#[derive(Clone, Copy)]
pub struct Version {
    pub number: usize,
}

// The version of a side, if it has one.
#[derive(Clone, Copy)]
pub enum FromSide {
    Found(Version),
    NoVersion,
}

impl Version {
    pub const MIN: usize = 1;

    pub const MAX: usize = 84;

    pub const MIN_SIDE: usize = 23;

    pub const MAX_SIDE: usize = 189;

    // The modules of the largest square.
    pub const MAX_SQUARE: usize = Version::MAX_SIDE * Version::MAX_SIDE;

    pub fn from_side(side: usize) -> FromSide
        ensures { (version.side_number result ≡ side_refusal side) × (version_of result ≡ side_version side) }
    {
        if side < Version::MIN_SIDE {
            return FromSide::NoVersion;
        }
        if Version::MAX_SIDE < side {
            return FromSide::NoVersion;
        }
        if side % 2 == 0 {
            return FromSide::NoVersion;
        }
        FromSide::Found(Version {
            number: (side - 21) / 2,
        })
    }

    pub fn side(self) -> usize
        requires { self.number ≤ 84 }
        ensures { result ≡ side_of self.number }
    {
        2 * self.number + 21
    }
}

// A version's side, and the k, r and m by which its alignment patterns are spaced.
#[derive(Clone, Copy)]
pub struct Spacing {
    pub version: usize,
    pub side: usize,
    pub k: usize,
    pub r: usize,
    pub m: usize,
}

// What operation Layout answers.
#[derive(Clone, Copy)]
pub enum LayoutAnswer {
    Filled,
    NoVersion,
    TooShort,
}

// SPECIFICATION 10.2, Layout: the layout of a version, in the first side * side bytes.
pub fn layout(version: usize, out: &mut [u8]) -> LayoutAnswer
    ensures { (layout_number result ≡ layout_refusal version out.old) × (out.new ≡ layout_written version out.old) }
{
    if version < Version::MIN {
        return LayoutAnswer::NoVersion;
    }
    if Version::MAX < version {
        return LayoutAnswer::NoVersion;
    }
    let side = Version { number: version }.side();
    if out.len() < side * side {
        return LayoutAnswer::TooShort;
    }
    corners(out, side);
    if version < 4 {
        return LayoutAnswer::Filled;
    }
    alignment(out, spacing_of(version));
    LayoutAnswer::Filled
}
