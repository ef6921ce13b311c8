//! Parts of trees.

ghost use Rattle.std.specs.Prelude.{◌≡◌, IfOk, true};
ghost use Rattle.starlark_ast.specs.Tree as tree;
ghost use Rattle.starlark_ast.specs.View.{clause_view, expr_at, stmt_at, target_at};
ghost use Rattle.starlark_grammar.specs.Made.{goes_over, sign_of};
ghost use Rattle.starlark_make.specs.Kept.{boxed_type_at};

use crate::boxes::boxed;
use starlark_ast::ast::{
    AssignIdentP, AstAssignIdent, AstAssignTarget, AstExpr, AstStmt, AstTypeExpr, Clause, ClauseP,
    ExprP, ForClause, ForClauseP, TypeExprP,
};
use starlark_grammar::make::Sign;
use starlark_place::pos::{Span, Spanned};
use std::alloc::{AllocError, Global};

/// Where an expression stands.
pub(crate) fn place_of(x: &AstExpr) -> Span
    ensures { result ≡ tree.place (expr_at x.now) }
{
    x.span
}

/// Where a statement stands.
pub(crate) fn statement_place_of(s: &AstStmt) -> Span
    ensures { result ≡ tree.statement_place (stmt_at s.now) }
{
    s.span
}

/// An operand with what stands before it.
pub(crate) fn signed(sign: Sign, operand: Box<AstExpr>, span: Span) -> AstExpr
    ensures { expr_at result ≡ tree.signed (sign_of sign) (expr_at operand.value) span }
{
    let node = match sign {
        Sign::Not => ExprP::Not(operand),
        Sign::Minus => ExprP::Minus(operand),
        Sign::Plus => ExprP::Plus(operand),
        Sign::BitNot => ExprP::BitNot(operand),
    };
    Spanned { span, node }
}

/// The expression as a type, at the same place. An Err is want of memory; the expression is let go then.
pub(crate) fn annotated(alloc: Global, x: AstExpr) -> Result<Box<AstTypeExpr>, AllocError>
    ensures { IfOk result (λ t. boxed_type_at t ≡ tree.typed (expr_at x) (tree.place (expr_at x))) }
{
    let span = x.span;
    let node = TypeExprP {
        expr: x,
        payload: (),
    };
    boxed(alloc, Spanned { span, node })
}

/// A name that is assigned.
pub(crate) fn assigned(name: Spanned<String>) -> AstAssignIdent
    ensures ident { result.node.ident ≡ name.node }
    ensures span { result.span ≡ name.span }
{
    let Spanned { span, node } = name;
    let node = AssignIdentP {
        ident: node,
        payload: (),
    };
    Spanned { span, node }
}

/// A clause with `for`.
pub(crate) fn for_clause(var: AstAssignTarget, over: AstExpr) -> Clause
    ensures { clause_view result ≡ tree.for_clause (target_at var) (expr_at over) }
{
    ClauseP::For(ForClauseP { var, over })
}

/// What a clause with `for` holds.
pub(crate) fn for_part(clause: Clause) -> ForClause
    requires { goes_over (clause_view clause) ≡ true }
    ensures { tree.for_clause (target_at result.var) (expr_at result.over) ≡ clause_view clause }
{
    match clause {
        ClauseP::For(it) => it,
        ClauseP::If(_) => unreachable!(),
    }
}
