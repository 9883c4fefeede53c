//! What the rules that make types of types keep: facts of types, facts of their item types, and the number of positions.
#![tactic(auto)]

pub mod laws;
