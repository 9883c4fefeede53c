//! The grammar of queries: words, tokens, productions, the trees that their parts make, and its laws.
#![tactic(auto)]

pub mod casts;
pub mod kind_words;
pub mod laws;
pub mod pieces;
pub mod refusal;
pub mod runs;
pub mod word;
