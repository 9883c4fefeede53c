//! Trees of nodes: documents, elements, attributes and texts with their names and type annotations.
#![tactic(auto)]

pub mod attribute;
pub mod erase;
pub mod laws;
pub mod same;
pub mod string_value;
pub mod tree;
