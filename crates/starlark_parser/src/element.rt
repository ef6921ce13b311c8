//! Parts of f-strings.

use starlark_ast::ast::{AstExpr, AstString};
use starlark_lexer::token::FStringConv;

/// A part of an f-string: text, or a field with its conversion. No call takes or gives it: a tree has `FStringP`.
#[derive(Debug, Drop)]
pub enum FStringElement {
    Text(AstString),
    Expr(AstExpr, FStringConv),
}
