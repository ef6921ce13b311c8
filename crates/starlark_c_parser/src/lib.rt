//! Parsing for C. A text is passed as its bytes, which are UTF-8, and a slice as a pointer and a length. An allocator
//! takes no bytes.
#![tactic(auto)]

pub mod keeping;
pub mod kept;
mod loose;
pub mod parsing;
pub mod switches;
#[cfg(test)]
mod tests;
