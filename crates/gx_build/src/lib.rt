//! Constructors: trees that are made from content and put into a store.
#![tactic(auto)]

pub mod build;
mod content;
mod depth;
pub mod error;
mod parted;
