//! Trees of the language.
#![tactic(auto)]

mod access;
pub mod ast;
pub mod laws;
mod leaf;
mod leaves;
mod lines;
pub mod making;
mod printing;
