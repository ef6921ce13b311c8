//! What a tree, a call and parameters break: the first rule, or all that are late, each at its place.
#![tactic(auto)]

pub mod call;
mod expressions;
pub mod finding;
pub mod kept;
mod kept_expressions;
mod late;
pub mod parameters;
mod statements;
pub mod tree;
