//! White space and comments between the tokens of queries and type texts.
#![tactic(auto)]

pub mod gap;
