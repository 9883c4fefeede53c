//! Sets of numbers by their members, and what may come next behind the positions of a type.
#![tactic(auto)]

pub mod followers;
pub mod number_set;
pub mod rope;
