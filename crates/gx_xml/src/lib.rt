//! Documents: reading XML, with namespaces, and the trees that documents stand for.
#![tactic(auto)]

mod characters;
mod children;
mod declaration;
pub mod document;
mod element;
pub mod into_untyped;
pub mod laws;
mod marks;
mod phrases;
mod plain;
mod reader;
pub mod refusal;
mod resolve;
mod runs;
mod scan;
mod shared_texts;
pub mod source;
mod tag;
pub mod untyped;
mod value;
