//! Which lists of shapes a type takes.
#![tactic(auto)]

mod automaton;
mod bits;
mod feature;
mod following;
pub mod laws;
mod reading;
mod shape_key;
pub mod take;
pub mod taker;
mod transitions;
