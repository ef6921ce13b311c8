//! Trees that are let go. How the parts of a tree are let go is proved here, so that a crate that calls these need not
//! prove it again (docs/DECISIONS.md, 'The gate').

use starlark_ast::ast::{AstAssignTarget, AstExpr, AstStmt, AstTypeExpr};

/// Lets an expression go.
pub fn discard_expr(_x: AstExpr) {}

/// Lets expressions go.
pub fn discard_exprs(_xs: Vec<AstExpr>) {}

/// Lets a target go.
pub fn discard_target(_x: AstAssignTarget) {}

/// Lets targets go.
pub fn discard_targets(_xs: Vec<AstAssignTarget>) {}

/// Lets a type go, if there is one.
pub fn discard_type(_x: Option<Box<AstTypeExpr>>) {}

/// Lets a statement go.
pub fn discard_stmt(_x: AstStmt) {}
