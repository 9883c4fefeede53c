//! The text of an answer, written to a sink.
#![tactic(auto)]

mod escape;
pub mod item;
pub mod laws;
mod prefix;
mod put;
mod tag;
mod write;
