//! Whether the type of one text is a subtype of that of another one, and what is answered.
#![tactic(auto)]

pub mod laws;
pub mod subtype;
