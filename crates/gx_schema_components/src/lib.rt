//! Schema components: what schema documents declare, with numbers in the place of the names that they refer to; or the first name
//! that is not declared.
#![tactic(auto)]

mod attribute_lists;
pub mod bounds;
pub mod component;
pub mod components;
mod group_numbers;
pub mod mention;
mod mentions;
pub mod names;
mod referred;
mod shown;
mod type_components;
pub mod unknown;
