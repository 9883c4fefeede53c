//! The reader of the tokens of queries.
#![tactic(auto)]

pub mod characters;
pub mod constructor;
pub mod gap;
pub mod indication;
pub mod kind_words;
pub mod leading;
pub mod markup;
pub mod names;
pub mod numbers;
pub mod reader;
pub mod references;
pub mod runs;
pub mod scan;
pub mod shared_texts;
pub mod source;
