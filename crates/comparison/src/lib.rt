// Exports for the comparison with the Rust (compare/), each with an exact contract, on numbers and byte slices only.
#![tactic(auto)]

pub mod correcting;
pub mod marks;
pub mod places;
pub mod scripts;
