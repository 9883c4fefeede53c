//! The import of schema files: what they declare, or the first rule that they break.
#![tactic(auto)]

mod attribute_types;
mod circular;
mod declaration_count;
mod derivation_faults;
mod doubled;
mod first_found;
mod found;
pub mod import;
mod inconsistent;
pub mod laws;
mod occurrences;
pub mod refusal;
mod restricted_types;
mod schema_types;
mod seen_components;
mod seen_meanings;
mod simple_bases;
mod too_large;
mod type_forms;
mod type_numbers;
