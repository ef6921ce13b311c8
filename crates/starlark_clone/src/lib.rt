//! Trees made again: clones, and statements with calls in the place of operations. How trees are let go is proved here, too.
#![tactic(auto)]

mod again;
mod again_statements;
mod called;
pub mod clone_tree;
mod clones;
mod clones_of_statements;
mod copies;
pub mod discard;
mod kept;
mod kept_statements;
pub mod laws;
mod make;
mod make_statements;
mod placed;
mod rename;
pub mod renaming;
