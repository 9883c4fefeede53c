//! The texts of types.
#![tactic(auto)]

mod building;
mod builtin_name;
mod context;
mod item_text;
pub mod known;
pub mod laws;
pub mod letters;
mod names;
pub mod pieces;
pub mod print;
pub mod read;
pub mod reader;
mod scan;
pub mod shapes;
pub mod steps;
mod words;
pub mod written;
