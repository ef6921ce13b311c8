//! The rules, each with the text that it shows, and what breaks which: definitions over trees.
#![tactic(auto)]

pub mod rule;
