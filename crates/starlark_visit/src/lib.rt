//! Visitors that read trees.
#![tactic(auto)]

pub mod idents;
pub mod nodes;
pub mod visit;
pub mod walk;
