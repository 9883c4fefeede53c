//! Small languages that are declared as grammars, and read exactly.
#![tactic(auto)]

mod laws;

pub use laws::{
    direct_elements_are_readable, direct_texts_are_read, steps_are_readable, steps_texts_are_read,
};
