//! Joins of plans: what they come to as hash joins.
#![tactic(auto)]

pub mod laws;
