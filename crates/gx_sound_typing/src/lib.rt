//! Soundness that typing hands on: queries that have types, and plans that are compiled from them, are fully sound.
#![tactic(auto)]

pub mod laws;
