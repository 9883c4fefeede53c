//! The evaluation of plans.
#![tactic(auto)]

pub mod evaluator;
