//! The letters of two types: the shapes that are tried at the positions of one, with the positions of the other that take them.
#![tactic(auto)]

pub mod alphabet;
mod item_index;
pub mod letter;
pub mod number_table;
mod trial;
