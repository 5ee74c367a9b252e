//! Worked states of rows, worked out by hand from the Standard's words, which the prover checks by computation.
#![tactic(auto)]

pub mod laws;
