//! Simple types among the types of schemas: which types stand on circles, what values simple types have, and which facets are faulty.
#![tactic(auto)]

pub mod circles;
pub mod faults;
pub mod laws;
pub mod meaning;
pub mod own_facets;
pub mod type_form;
pub mod variety;
