//! Validation: the typed tree of a document that is valid against schemas, or the first rule that it breaks.
#![tactic(auto)]

mod annotation;
mod attributes;
mod child_kinds;
mod children;
mod content;
pub mod into_valid;
pub mod invalid;
pub mod laws;
mod path;
mod rules;
mod takers;
pub mod validate;
mod values;
mod white_space;
