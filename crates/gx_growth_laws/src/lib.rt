//! Laws of forests that grow: what makes nothing has the same value in each of them.
#![tactic(auto)]

pub mod laws;
