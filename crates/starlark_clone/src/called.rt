//! Calls of a name on two operands.

ghost use Rattle.std.specs.Prelude.{[], ◌∷◌, ◌≡◌, IfOk, string_bytes};
ghost use Rattle.starlark_ast.specs.Tree as tree;
ghost use Rattle.starlark_ast.specs.View.{expr_at, expr_view};

use starlark_ast::ast::{ArgumentP, AstExpr, CallArgsP, Expr, ExprP, IdentP};
use starlark_place::pos::{Span, Spanned};
use std::alloc::{AllocError, Global};

// the name's text, beside values that are given back
fn text_beside<T: Drop>(alloc: Global, name: &str, x: T, y: T) -> Result<(String, T, T), AllocError>
    ensures bytes { IfOk result (λ z. string_bytes z.0 ≡ name.now) }
    ensures first { IfOk result (λ z. z.1 ≡ x) }
    ensures second { IfOk result (λ z. z.2 ≡ y) }
{
    let text = String::from_str(alloc, name)?;
    Ok((text, x, y))
}

// a value in a box, and two in a list
fn one_and_two<T: Drop, U: Drop>(
    alloc: Global,
    one: T,
    x: U,
    y: U,
) -> Result<(Box<T>, Vec<U>), AllocError>
    ensures one { IfOk result (λ z. z.0.value ≡ one) }
    ensures two { IfOk result (λ z. z.1.items ≡ x ∷ y ∷ []) }
{
    let mut two = Vec::new(alloc);
    two.push(x)?;
    two.push(y)?;
    let one = Box::new(alloc, one)?;
    Ok((one, two))
}

/// The call of a name that stands at `span`, as the call does. Each argument has the place of its operand.
pub(crate) fn call_of_name(
    alloc: Global,
    name: &str,
    x: Box<AstExpr>,
    y: Box<AstExpr>,
    span: Span,
) -> Result<Expr, AllocError>
    ensures { IfOk result (λ z. expr_view z span ≡ tree.call (tree.leaf (tree.name name.now) span span) (tree.more (tree.more tree.none (tree.positional (expr_at x.value) x.value.span)) (tree.positional (expr_at y.value) y.value.span)) span) }
{
    let (ident, x, y) = text_beside(alloc, name, x, y)?;
    let node = IdentP { ident, payload: () };
    let node = ExprP::Identifier(Spanned { span, node });
    let x = Box::into_inner(x);
    let y = Box::into_inner(y);
    let first = Spanned {
        span: x.span,
        node: ArgumentP::Positional(x),
    };
    let second = Spanned {
        span: y.span,
        node: ArgumentP::Positional(y),
    };
    let (called, args) = one_and_two(alloc, Spanned { span, node }, first, second)?;
    Ok(ExprP::Call(called, CallArgsP { args }))
}
