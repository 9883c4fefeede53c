//! Static typing: the type of each expression of a Core, and why typing is sound.
#![tactic(auto)]

mod block;
mod block_parts;
mod block_tasks;
mod call;
pub mod comparison;
mod constructors;
mod conversions;
pub mod error;
mod filtering;
mod forms;
mod functions;
mod globals;
pub mod infer;
pub mod item_tests;
mod item_types;
pub mod laws;
mod nodes;
mod numeric;
mod opening;
mod path;
mod places;
pub mod rules;
mod switch_tasks;
mod typing;
mod value_types;
