//! Nodes by their places in a forest, items, and the values that belong to a type.
#![tactic(auto)]

pub mod axis;
pub mod copied;
pub mod forest;
pub mod item;
pub mod laws;
mod lookup;
pub mod node;
pub mod node_test;
pub mod order;
pub mod path;
mod search;
pub mod typed_value;
mod way;
