//! Parts: a list of texts, each of which is in the language alone, and the outline of all of them, one behind another.
#![tactic(auto)]

mod cursor;
pub mod fault;
pub mod items;
pub mod laws;
mod list;
mod part;
pub mod parts;
pub mod statements;
mod top;
pub mod word;
