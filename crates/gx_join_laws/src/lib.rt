//! Laws of the joins of plans: what plans come to with hash joins.
#![tactic(auto)]

pub mod laws;
