//! The table of a hash join, and a counter of the steps that it takes.
#![tactic(auto)]

pub mod join_table;
mod key_index;
pub mod laws;
mod row_numbers;
pub mod steps;
