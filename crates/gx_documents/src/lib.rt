//! The documents of external variables: the words that bind them to files, and the reading of the files.
#![tactic(auto)]

pub mod bindings;
pub mod documents;
pub mod laws;
