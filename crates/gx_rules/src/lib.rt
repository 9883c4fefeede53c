//! The rules of rewriting: what they ask of an expression of a plan, and what they put in its place.
#![tactic(auto)]

pub mod flat;
pub mod made;
pub mod named;
pub mod quiet;
