//! The type language: item types, sequence types, shapes, the schemas that types are read against, and how types are made
//! of types.
#![tactic(auto)]

mod builtin;
pub mod declaration;
mod declared_types;
pub mod derivation;
pub mod item_type;
pub mod laws;
pub mod occurrence;
pub mod schemas;
pub mod sequence_type;
pub mod shape;
pub mod simple_type;
pub mod simple_value;
pub mod step;
pub mod type_rules;
