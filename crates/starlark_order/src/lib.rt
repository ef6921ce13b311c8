//! The order of outlines.
#![tactic(auto)]

pub mod laws;
