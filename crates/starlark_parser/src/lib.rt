//! The parser, which reads a text of the language into a module: a tree with its file, its comments and its dialect.
#![tactic(auto)]

mod copy;
pub mod element;
pub mod fault;
pub mod fields;
pub mod laws;
pub mod loads;
pub mod locations;
pub mod module;
mod parsing;
mod replacing;
mod suppression;

pub use starlark_ast as ast;
pub use starlark_read::cost;
pub use starlark_rules as rules;
