//! Laws of texts that are cut off.
#![tactic(auto)]

pub mod laws;
