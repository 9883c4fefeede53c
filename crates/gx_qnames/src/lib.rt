//! Names in the values of attributes: namespace declarations in scope, QNames, and the built-in types that they name.
#![tactic(auto)]

pub mod characters;
pub mod reference;
pub mod scope;
pub mod words;
