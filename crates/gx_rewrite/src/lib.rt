//! Typed rewriting: plans to which no rule applies, reached by applications of the rules.
#![tactic(auto)]

mod choices;
mod joins;
pub mod laws;
mod loops;
mod order;
mod parts;
pub mod rewrite;
