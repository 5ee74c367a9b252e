//! What the resident compiler's words write: laws that say it by the metacompiler's definitions of bodies.
#![tactic(auto)]

pub mod laws;
