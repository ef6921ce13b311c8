//! Laws of a text behind another, and of line ends.
#![tactic(auto)]

pub mod laws;
