//! Core, the language that queries are normalised to: its expressions, its typed expressions, and their meaning.
#![tactic(auto)]

pub mod cases;
pub mod constructor;
pub mod dismantle;
pub mod dyn_error;
pub mod expression;
pub mod laws;
pub mod listed;
pub mod operator;
pub mod scope;
pub mod signature;
