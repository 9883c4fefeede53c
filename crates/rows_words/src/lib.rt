//! Rows of worked values: their words, and the names in them.
#![tactic(auto)]

pub mod builtins;
pub mod names;
pub mod words;

use std::alloc::{AllocError, Global};

/// The answer of a line that is no row.
pub fn not_a_row(alloc: Global) -> Result<String, AllocError> {
    String::from_str(alloc, "not a row")
}
