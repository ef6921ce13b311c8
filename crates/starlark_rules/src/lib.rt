//! Calls, parameters, types, targets and assignments: by their parts, or refused with the first rule that they break.
#![tactic(auto)]

pub mod arguments;
pub mod assign;
pub mod def;
pub mod laws;
pub mod type_expr;
pub mod types;

pub use starlark_faults::{call, kept, parameters, tree};
pub use starlark_rulebook::rule;
