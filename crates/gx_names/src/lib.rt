//! Name resolution: from the syntax trees of queries to trees in which each name is resolved.
#![tactic(auto)]

mod declarations;
pub mod laws;
pub mod resolve;
mod settings;
