//! Whether a type is included in another one.
#![tactic(auto)]

mod by_place;
mod decide;
pub mod decision;
pub mod include;
pub mod laws;
mod pair;
pub mod verdict;
mod walk;
