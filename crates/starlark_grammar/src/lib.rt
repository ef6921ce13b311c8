//! The language: grammar, machine, marks, and their laws; and what makes nodes of it.
#![tactic(auto)]

pub mod build;
pub mod laws;
pub mod make;
pub mod text_laws;
