//! Sorting by keys: the order of keys, and the numbers of tuples in the order of their keys.
#![tactic(auto)]

mod keys;
pub mod laws;
mod tuples;

pub use keys::{KeyOrder, compare_keys};
pub use tuples::sorted_numbers;
