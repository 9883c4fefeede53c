//! The workload of the command `demo`: a query over an auction with so many items, its schema, and its document.
#![tactic(auto)]

mod auction;
pub mod workload;
