//! Which declared types are derived from which.
#![tactic(auto)]

pub mod derivations;
pub mod lead;
