//! Queries in which each name is resolved, and what name resolution and normalisation keep of nested scopes.
#![tactic(auto)]

pub mod dismantle;
pub mod nested_map;
pub mod tree;
