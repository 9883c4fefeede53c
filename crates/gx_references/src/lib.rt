//! Declarations that name each other by number, and what they mean.
#![tactic(auto)]

pub mod body;
pub mod circles;
pub mod laws;
pub mod meanings;
pub mod names;
