//! The word `outline`: where the statements at the top of a tree begin.

use starlark_ast::ast::{AstStmt, Stmt};
use starlark_ast::making::top_level_stmts;
use starlark_lexer::place::codemap::CodeMap;
use std::alloc::{AllocError, Global};
use std::fmt::Write;

/// A line for each statement at the top: where it begins, and its word.
pub(crate) fn outline(
    alloc: Global,
    tree: &AstStmt,
    codemap: &CodeMap,
) -> Result<String, AllocError> {
    let mut out = String::new(alloc);
    for statement in &top_level_stmts(alloc, tree)? {
        if codemap.holds(statement.span) {
            let begin = codemap.resolve_span(statement.span).begin;
            write!(out, "{begin} {}\n", word_of(&statement.node))?;
        }
    }
    Ok(out)
}

/// The word of a statement.
fn word_of(x: &Stmt) -> &'static str {
    match x {
        Stmt::Break => "break",
        Stmt::Continue => "continue",
        Stmt::Pass => "pass",
        Stmt::Return(_) => "return",
        Stmt::Expression(_) => "expression",
        Stmt::Assign(_) => "assign",
        Stmt::AssignModify(_, _, _) => "modify",
        Stmt::Statements(_) => "statements",
        Stmt::If(_, _) => "if",
        Stmt::IfElse(_, _) => "if",
        Stmt::For(_) => "for",
        Stmt::Def(_) => "def",
        Stmt::Load(_) => "load",
    }
}
