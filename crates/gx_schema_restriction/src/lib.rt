//! Whether restrictions of complex types allow nothing that their bases do not allow.
#![tactic(auto)]

pub mod attributes;
pub mod laws;
pub mod restriction;
pub mod restrictions;
