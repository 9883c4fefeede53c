//! Types and steps as they are written, with their names resolved.
#![tactic(auto)]

pub mod steps;
pub mod type_names;
