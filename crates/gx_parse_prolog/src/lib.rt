//! The reader of the parts of prologs that hold no expressions: the version, the settings and parameters.
#![tactic(auto)]

pub mod prolog;
