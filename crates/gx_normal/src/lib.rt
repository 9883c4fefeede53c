//! Normalisation: from the syntax trees of queries to Core.
#![tactic(auto)]

pub mod clauses;
mod construct;
mod constructors;
pub mod contexts;
pub mod filters;
pub mod focus;
pub mod laws;
pub mod normalise;
mod normalising;
mod path_tasks;
pub mod signatures;
mod switches;
