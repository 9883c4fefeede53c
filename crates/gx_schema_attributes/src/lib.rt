//! The attributes of attribute groups and of complex types.
#![tactic(auto)]

pub mod doubled;
pub mod given;
pub mod groups;
pub mod laws;
pub mod own;
pub mod uses;
