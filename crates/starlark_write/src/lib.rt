//! Visitors that write to trees.
#![tactic(auto)]

pub mod below;
mod expressions;
mod exprs;
mod members;
pub mod nodes_mut;
mod outer;
mod own_types;
mod statements;
mod targets;
pub mod tops;
pub mod type_exprs;
pub mod visit_mut;
