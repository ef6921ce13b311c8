//! Cuts a text into tokens.
#![tactic(auto)]

mod blocks;
pub mod dialect;
mod display;
mod escape;
pub mod format;
pub mod identifier;
pub mod laws;
mod layout;
pub mod lexer;
mod literal;
mod making;
pub mod number;
mod parts;
mod scan;
mod state;
pub mod token;
mod words;

pub use starlark_place as place;
