//! What names stand for at a point of a query, and what start tags change of that.
#![tactic(auto)]

pub mod names;
pub mod prefixes;
pub mod refusal;
pub mod signature;
pub mod start_tags;
pub mod tasks;
