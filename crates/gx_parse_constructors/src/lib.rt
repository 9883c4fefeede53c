//! The reader of literals, and of the parts of direct constructors that hold no expressions.
#![tactic(auto)]

pub mod pieces;
pub mod strings;
