//! Makers of the trees that are kept, and the rules that these break.
#![tactic(auto)]

mod boxes;
mod ends;
pub mod parts;
pub mod reading;
mod statements;
pub mod trees;
