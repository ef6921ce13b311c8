//! Modules: texts with their trees.

mod clones;
mod parsing;
mod replacing;
mod suppressions;
