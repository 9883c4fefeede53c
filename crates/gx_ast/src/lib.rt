//! The syntax trees of queries: expressions, types, direct constructors and declarations.
#![tactic(auto)]

pub mod boxed;
pub mod dismantle;
pub mod expression;
pub mod items;
pub mod name;
pub mod query;
pub mod sequence_type;
