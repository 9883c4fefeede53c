//! Plans: queries as they are evaluated, with the types that their operators and their variables carry.
#![tactic(auto)]

pub mod compile;
pub mod laws;
pub mod operands;
pub mod plan;
pub mod remake;
pub mod variables;
pub mod walk;
