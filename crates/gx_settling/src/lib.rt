//! Which functions the evaluation of an expression reaches, and whether the global variables that these name are bound.
#![tactic(auto)]

pub mod functions;
pub mod laws;
pub mod uses;
