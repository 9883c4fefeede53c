//! The public call of the program: the answer to the words of a command line, over a library of files and two sinks.
#![tactic(auto)]

mod command;
mod imports;
pub mod laws;
mod output;
mod plan;
pub mod processor;
mod query;
mod refusal;
mod reply;
mod run;
mod serialise;
pub mod status;
