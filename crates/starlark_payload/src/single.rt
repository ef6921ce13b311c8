//! Maps of what stands in no box: nodes by themselves, and expressions in statements.

ghost use Rattle.std.specs.Option.{option_map};
ghost use Rattle.starlark_payload.specs.Mapped.{Maps, seen};
ghost use Rattle.starlark_ast.specs.View.{argument_view, clause_view, expr_view, for_clause_view, type_view};
ghost use Rattle.starlark_payload.specs.Payloads.{argument_payloads, clause_payloads, expr_payloads, for_clause_payloads, gives, maybe_of, type_payloads};

use crate::mapping::{expression, target};
use crate::nodes::ClauseShape;
use crate::payload_map::AstPayloadFunction;
use crate::shapes::clause_shape;
use crate::{makers, openers};
use starlark_ast::ast::{
    ArgumentP, AstExprP, AstPayload, AstTypeExprP, ClauseP, ForClauseP, TypeExprP,
};
use starlark_place::pos::Spanned;
use std::alloc::{AllocError, Global};

/// An expression at its place.
pub(crate) fn placed<A: AstPayload, B: AstPayload, F: AstPayloadFunction<A, B>>(
    alloc: Global,
    x: AstExprP<A>,
    f: &mut F,
) -> Result<AstExprP<B>, AllocError>
    ensures { Maps (gives F.gives_load F.gives_ident F.gives_ident_assign F.gives_def F.gives_type_expr) f.old (expr_payloads x.node) (seen expr_view x) f.new (λ y. expr_payloads y.node) (seen expr_view) result }
{
    let Spanned { span, node } = x;
    let node = expression(alloc, node, f)?;
    Ok(Spanned { span, node })
}

/// An expression, if there is one.
pub(crate) fn maybe<A: AstPayload, B: AstPayload, F: AstPayloadFunction<A, B>>(
    alloc: Global,
    x: Option<AstExprP<A>>,
    f: &mut F,
) -> Result<Option<AstExprP<B>>, AllocError>
    ensures { Maps (gives F.gives_load F.gives_ident F.gives_ident_assign F.gives_def F.gives_type_expr) f.old (maybe_of expr_payloads x) (option_map (seen expr_view) x) f.new (maybe_of expr_payloads) (option_map (seen expr_view)) result }
{
    match x {
        None => Ok(None),
        Some(x) => Ok(Some(placed(alloc, x, f)?)),
    }
}

/// An argument.
pub(crate) fn argument<A: AstPayload, B: AstPayload, F: AstPayloadFunction<A, B>>(
    alloc: Global,
    x: ArgumentP<A>,
    f: &mut F,
) -> Result<ArgumentP<B>, AllocError>
    ensures { Maps (gives F.gives_load F.gives_ident F.gives_ident_assign F.gives_def F.gives_type_expr) f.old (argument_payloads x) (argument_view x) f.new argument_payloads argument_view result }
{
    let (around, x) = openers::open_argument(x);
    let x = placed(alloc, x, f)?;
    Ok(makers::argument(around, x))
}

/// A type.
pub(crate) fn type_expr<A: AstPayload, B: AstPayload, F: AstPayloadFunction<A, B>>(
    alloc: Global,
    x: TypeExprP<A>,
    f: &mut F,
) -> Result<TypeExprP<B>, AllocError>
    ensures { Maps (gives F.gives_load F.gives_ident F.gives_ident_assign F.gives_def F.gives_type_expr) f.old (type_payloads x) (type_view x) f.new type_payloads type_view result }
{
    let (x, payload) = openers::open_type_expr(x);
    let x = placed(alloc, x, f)?;
    Ok(makers::type_expr(x, f.map_type_expr(payload)))
}

/// A type at its place.
fn placed_type<A: AstPayload, B: AstPayload, F: AstPayloadFunction<A, B>>(
    alloc: Global,
    x: AstTypeExprP<A>,
    f: &mut F,
) -> Result<AstTypeExprP<B>, AllocError>
    ensures { Maps (gives F.gives_load F.gives_ident F.gives_ident_assign F.gives_def F.gives_type_expr) f.old (type_payloads x.node) (seen type_view x) f.new (λ y. type_payloads y.node) (seen type_view) result }
{
    let Spanned { span, node } = x;
    let node = type_expr(alloc, node, f)?;
    Ok(Spanned { span, node })
}

/// A type, if there is one.
pub(crate) fn maybe_type<A: AstPayload, B: AstPayload, F: AstPayloadFunction<A, B>>(
    alloc: Global,
    x: Option<AstTypeExprP<A>>,
    f: &mut F,
) -> Result<Option<AstTypeExprP<B>>, AllocError>
    ensures { Maps (gives F.gives_load F.gives_ident F.gives_ident_assign F.gives_def F.gives_type_expr) f.old (maybe_of type_payloads x) (option_map (seen type_view) x) f.new (maybe_of type_payloads) (option_map (seen type_view)) result }
{
    match x {
        None => Ok(None),
        Some(x) => Ok(Some(placed_type(alloc, x, f)?)),
    }
}

/// A clause that goes over values.
pub(crate) fn for_clause<A: AstPayload, B: AstPayload, F: AstPayloadFunction<A, B>>(
    alloc: Global,
    x: ForClauseP<A>,
    f: &mut F,
) -> Result<ForClauseP<B>, AllocError>
    ensures { Maps (gives F.gives_load F.gives_ident F.gives_ident_assign F.gives_def F.gives_type_expr) f.old (for_clause_payloads x) (for_clause_view x) f.new for_clause_payloads for_clause_view result }
{
    let (var, over) = openers::open_for_clause(x);
    let Spanned { span, node } = var;
    let node = target(alloc, node, f)?;
    let over = placed(alloc, over, f)?;
    Ok(makers::for_clause(Spanned { span, node }, over))
}

/// A clause of a comprehension.
pub(crate) fn clause<A: AstPayload, B: AstPayload, F: AstPayloadFunction<A, B>>(
    alloc: Global,
    x: ClauseP<A>,
    f: &mut F,
) -> Result<ClauseP<B>, AllocError>
    ensures { Maps (gives F.gives_load F.gives_ident F.gives_ident_assign F.gives_def F.gives_type_expr) f.old (clause_payloads x) (clause_view x) f.new clause_payloads clause_view result }
{
    match clause_shape(&x) {
        ClauseShape::For => Ok(makers::next_for(for_clause(alloc, openers::open_next_for(x), f)?)),
        ClauseShape::If => Ok(makers::filter(placed(alloc, openers::open_filter(x), f)?)),
    }
}
