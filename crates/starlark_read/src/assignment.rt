//! Assignments, and expressions that are statements.

ghost use Rattle.std.specs.Prelude.{ℕ, ◌≡◌, ◌≢◌, ◌<◌, ◌≤◌, IfOk, OnOk, Some, length};
ghost use Rattle.starlark_lexer.specs.Items.{comma};
ghost use Rattle.starlark_lexer.specs.declared.dialect.Dialect.{Dialect};
ghost use Rattle.starlark_ast.specs.Tree as tree;
ghost use Rattle.starlark_ast.specs.Tree.{Annotation, Expr};
ghost use Rattle.starlark_read.specs.Assigning.{IsWhole, assign_op_ahead, behind_left, operation_of};
ghost use Rattle.starlark_read.specs.Kinds.{token_of};
ghost use Rattle.starlark_grammar.specs.Tables.{assigner};
ghost use Rattle.starlark_grammar.specs.Made.{annotation_of};
ghost use Rattle.starlark_grammar.specs.Nodes.{start};
ghost use Rattle.starlark_grammar.specs.Frames.{Line, behind_small, first, has, left, listed, right, spot, wants, wants_list};
ghost use Rattle.starlark_read.specs.Reads.{Comes, first_lexeme};

use crate::error::Error;
use crate::expression::expression;
use crate::kind::Kind;
use crate::level::TEST;
use crate::listed::{listed, listed_behind};
use crate::tokens::Tokens;
use crate::types::type_expression;
use starlark_ast::ast::AssignOp;
use starlark_grammar::build::Build;
use starlark_lexer::dialect::Dialect;

/// A small statement that begins with an expression.
pub(crate) fn assignment<B: Build>(tokens: &mut Tokens, dialect: Dialect) -> Result<B::Stmt, Error>
    ensures reads { (k : Line) → Comes dialect (wants 12 (spot (first (start tokens.old.items) k))) (λ x. behind_small (B.says x) k) tokens.old result tokens.new }
    ensures shorter { OnOk result (length tokens.new.items < length tokens.old.items) }
{
    let begin = tokens.begin();
    let first = expression::<B>(tokens, TEST)?;
    if tokens.stands(Kind::Semicolon) || tokens.stands(Kind::Newline) {
        let span = tokens.since(begin);
        return Ok(B::expression_statement(first, span));
    }
    let left = listed_behind::<B>(tokens, TEST, begin, first)?;
    let ty = annotation::<B>(tokens, dialect)?;
    let op = operator(tokens)?;
    let right = listed::<B>(tokens, TEST)?;
    if let Some(fault) = B::assignment_fault(&left, &ty, op) {
        return Err(tokens.stop(fault));
    }
    let span = tokens.since(begin);
    Ok(B::assign(tokens.alloc(), left, ty, op, right, span)?)
}

// the type of a left side, if a colon stands behind that
fn annotation<B: Build>(tokens: &mut Tokens, dialect: Dialect) -> Result<Option<B::Type>, Error>
    ensures reads { (l : Expr) (p : ℕ) (k : Line) → Comes dialect (has l tokens.old.last (listed tree.none p (left p k))) (λ t. behind_left l (annotation_of B.type_means t) tokens.new.last p k) tokens.old result tokens.new }
    ensures whole { first_lexeme tokens.old.items ≢ Some comma → IfOk result (λ t. IsWhole dialect (annotation_of B.type_means t) tokens.new.items) }
    ensures shorter { OnOk result (length tokens.new.items ≤ length tokens.old.items) }
{
    if !tokens.accept(Kind::Colon)? {
        return Ok(None);
    }
    Ok(Some(type_expression::<B>(tokens, dialect)?))
}

// the operator behind a left side and its type
fn operator(tokens: &mut Tokens) -> Result<Option<AssignOp>, Error>
    ensures reads { (d : Dialect) (l : Expr) (t : Annotation) (p : ℕ) (k : Line) → IsWhole d t tokens.old.items → Comes d (behind_left l t tokens.old.last p k) (λ o. wants_list (right l t o p k)) tokens.old result tokens.new }
    ensures shorter { OnOk result (length tokens.new.items < length tokens.old.items) }
{
    if tokens.accept(Kind::Equal)? {
        return Ok(None);
    }
    let Some(op) = assign_op_ahead(tokens) else {
        return Err(Error::Unexpected);
    };
    tokens.skip()?;
    Ok(Some(op))
}

// the operation of an operator that stands ahead, if that assigns and is not `=`
fn assign_op_ahead(tokens: &Tokens) -> Option<AssignOp>
    ensures { result ≡ assign_op_ahead tokens.now.items }
{
    assign_op(tokens.kind())
}

// the operation of an operator that assigns and is not `=`
fn assign_op(kind: Kind) -> Option<AssignOp>
    ensures { result ≡ operation_of (assigner (token_of kind)) }
{
    match kind {
        Kind::PlusEqual => Some(AssignOp::Add),
        Kind::MinusEqual => Some(AssignOp::Subtract),
        Kind::StarEqual => Some(AssignOp::Multiply),
        Kind::SlashEqual => Some(AssignOp::Divide),
        Kind::SlashSlashEqual => Some(AssignOp::FloorDivide),
        Kind::PercentEqual => Some(AssignOp::Percent),
        Kind::AmpersandEqual => Some(AssignOp::BitAnd),
        Kind::PipeEqual => Some(AssignOp::BitOr),
        Kind::CaretEqual => Some(AssignOp::BitXor),
        Kind::LessLessEqual => Some(AssignOp::LeftShift),
        Kind::GreaterGreaterEqual => Some(AssignOp::RightShift),
        _ => None,
    }
}
