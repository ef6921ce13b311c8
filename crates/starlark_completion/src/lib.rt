//! Laws of texts that go on.
#![tactic(auto)]

pub mod laws;
