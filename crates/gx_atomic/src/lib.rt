//! Atomic values under their types: casts, comparisons, the effective boolean value, and whether a value fits its type.
#![tactic(auto)]

mod casting;
mod comparison;
mod effective;
mod fit;
mod join_key;
pub mod laws;

pub use casting::{CastError, cast};
pub use comparison::{Op, compare_any, compare_single, try_compare_any};
pub use effective::effective_boolean_value;
pub use fit::fits;
pub use join_key::{JoinKey, key};
