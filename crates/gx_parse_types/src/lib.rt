//! The reader of names, sequence types and node tests, and of what stands in front of expressions: bindings, sort keys and cases.
#![tactic(auto)]

pub mod binding;
pub mod bound;
pub mod casts;
pub mod keys;
pub mod node_tests;
pub mod types;
pub mod typeswitch;
