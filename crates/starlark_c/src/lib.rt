//! Calls of places and lexing for C. A text is passed as its bytes, which are UTF-8, and a slice as a pointer and a
//! length. An allocator takes no bytes.
#![tactic(auto)]

pub mod lexing;
pub mod places;
mod source;
#[cfg(test)]
mod tests;
