//! The positions of a type, how lists of shapes move along them, and the names that a type asks for.
#![tactic(auto)]

pub mod names;
pub mod places;
pub mod step;
