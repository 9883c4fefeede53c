//! The least set that holds given values and is closed under a step.
#![tactic(auto)]

pub mod close;
pub mod laws;
