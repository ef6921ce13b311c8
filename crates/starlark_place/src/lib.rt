//! Positions, code maps, strings, cursors and diagnostics.
#![tactic(auto)]

pub mod codemap;
pub mod codemaps;
mod count;
pub mod cursor;
pub mod diagnostic;
pub mod fast_string;
pub mod file_span;
pub mod laws;
pub mod pos;
pub mod resolved;
