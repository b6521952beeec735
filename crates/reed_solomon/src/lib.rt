// The steps of Reed-Solomon decoding over GF(256) (reed_solomon.rs: `syndromes`, `solve`, `magnitudes`). The table of the field and the
// first root are lent to every function.
#![tactic(auto)]

pub mod errors;
pub mod locator;
pub mod syndromes;
