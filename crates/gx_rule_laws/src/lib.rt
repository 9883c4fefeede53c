//! Laws of the rules of rewriting: what stands in the place of an expression comes to what the expression comes to.
#![tactic(auto)]

pub mod laws;
