//! Schema documents as they are written: the constructs of the profile of XML Schema, and what schema files say in them.
#![tactic(auto)]

pub mod attributes;
mod children;
pub mod context;
mod declarations;
mod documents;
mod forms;
pub mod numbers;
mod outside;
mod particles;
pub mod parts;
pub mod profile;
pub mod role;
mod types;
mod words;
pub mod written;
