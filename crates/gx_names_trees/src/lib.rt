//! Expressions with their names resolved.
#![tactic(auto)]

pub mod binders;
mod branches;
mod calls;
mod constructors;
mod direct;
mod opening;
mod resolving;
pub mod trees;
