//! The built-in functions: their names, their parameters, the types of their results, and their values.
#![tactic(auto)]

pub mod distinct;
pub mod function;
pub mod item_function;
pub mod laws;
mod normal_forms;
pub mod numbers;
pub mod positions;
mod strings;
pub mod text_function;
pub mod texts;
pub mod value_function;
pub mod values;
mod whole;
