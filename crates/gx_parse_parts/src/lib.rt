//! The parts of the query parser that its phrases share: words with their gaps, operators and signs, chains, and trees of their parts.
#![tactic(auto)]

pub mod members;
pub mod parts;
pub mod trees;
