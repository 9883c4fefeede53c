//! Names, texts, places, built-in type names and error codes: what every layer speaks of.
#![tactic(auto)]

pub mod characters;
pub mod code;
pub mod limits;
pub mod name;
pub mod place;
pub mod stack;
pub mod text;
pub mod text_builder;
pub mod type_name;
