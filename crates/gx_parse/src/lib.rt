//! The query parser: expressions, the definitions of prologs, and whole queries.
#![tactic(auto)]

pub mod branches;
pub mod computed;
mod definitions;
pub mod direct;
pub mod flwor;
pub mod operators;
pub mod parser;
pub mod paths;
pub mod singles;
