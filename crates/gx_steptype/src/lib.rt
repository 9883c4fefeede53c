//! The types of steps and of typed values.
#![tactic(auto)]

mod asked;
mod attributes;
pub mod axis_type;
mod children;
pub mod data_type;
pub mod derived;
mod derived_types;
pub mod error;
pub mod laws;
mod nodes;
mod relatives;
pub mod replace;
pub mod tested;
mod type_lists;
