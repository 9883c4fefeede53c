//! Nodes by numbers: trees kept as rows in document order.
#![tactic(auto)]

mod axis;
pub mod children;
mod combine;
mod deep_equal;
pub mod item;
mod labels;
mod load;
mod meets;
pub mod number;
mod order;
mod root;
mod row;
pub mod store;
mod string_value;
mod to_tree;
mod typed_value;
