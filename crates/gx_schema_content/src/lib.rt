//! What schema components mean: the positions, the contents and the element particles of model groups and complex types.
#![tactic(auto)]

pub mod contents;
pub mod disagreement;
pub mod effective;
mod element_lists;
pub mod elements;
pub mod extensions;
pub mod group_content;
mod group_outlines;
mod group_positions;
mod knot;
pub mod laws;
pub mod mixed;
mod occurrences;
mod outline;
pub mod positions;
mod source;
mod type_content;
mod type_outlines;
mod type_positions;
