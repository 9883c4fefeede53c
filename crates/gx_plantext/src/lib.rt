//! The texts of plans.
#![tactic(auto)]

mod fields;
mod literals;
mod names;
mod node_tests;
mod pending;
pub mod print;
mod terms;
mod values;
