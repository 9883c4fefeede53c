//! The nodes of a forest by numbers: what stands where, and how trees are kept as rows.
#![tactic(auto)]
