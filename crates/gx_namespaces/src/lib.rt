//! Namespaces in force: prefixes and the URIs that they are bound to.
#![tactic(auto)]

pub mod bindings;
