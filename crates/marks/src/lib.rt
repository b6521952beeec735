// What reading and writing a square mean (specs/), and that a mark within reach is read as it was written (proofs/). There is no code here.
#![tactic(auto)]
