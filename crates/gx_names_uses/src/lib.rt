//! What expressions use of what is declared outside them, and which functions they call in the end.
#![tactic(auto)]

pub mod reaching;
pub mod uses;
