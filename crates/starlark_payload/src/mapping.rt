//! Maps of expressions, and of what stands in them. Nodes are opened and made by others. What the functions hand to one
//! another stands in boxes and lists, where it stands so in the tree, too.

ghost use Rattle.std.specs.Prelude.{flat_map, map};
ghost use Rattle.std.specs.Option.{option_map};
ghost use Rattle.starlark_payload.specs.Around.{both_at, three_at};
ghost use Rattle.starlark_payload.specs.Mapped.{Maps, held, seen};
ghost use Rattle.starlark_ast.specs.View.{argument_view, clause_view, expr_view, for_clause_view, parameter_view, target_view, type_view};
ghost use Rattle.starlark_payload.specs.Payloads.{all_of, argument_payloads, both_of, clause_payloads, expr_payloads, for_clause_payloads, gives, maybe_of, parameter_payloads, target_payloads, three_of, type_payloads};
ghost use Rattle.starlark_payload.specs.Weights.{unboxed};

use crate::boxes::{boxed, opened};
use crate::names::{assigned, name};
use crate::nodes::{ClauseShape, ParameterShape, Shape, TargetShape};
use crate::payload_map::AstPayloadFunction;
use crate::shapes::{clause_shape, parameter_shape, shape, target_shape};
use crate::{makers, openers};
use starlark_ast::ast::{
    AssignTargetP, AstArgumentP, AstAssignTargetP, AstExprP, AstParameterP, AstPayload,
    AstTypeExprP, ClauseP, ExprP, ForClauseP, ParameterP,
};
use starlark_place::pos::Spanned;
use std::alloc::{AllocError, Global};

/// An expression.
#[cycle(mapping)]
pub(crate) fn expression<A: AstPayload, B: AstPayload, F: AstPayloadFunction<A, B>>(
    alloc: Global,
    x: ExprP<A>,
    f: &mut F,
) -> Result<ExprP<B>, AllocError>
    ensures { Maps (gives F.gives_load F.gives_ident F.gives_ident_assign F.gives_def F.gives_type_expr) f.old (expr_payloads x) (expr_view x) f.new expr_payloads expr_view result }
{
    match shape(&x) {
        Shape::Literal => Ok(makers::literal(openers::open_literal(x))),
        Shape::Name => Ok(makers::name(name(openers::open_name(x), f))),
        Shape::One => {
            let (around, x) = openers::open_one(x);
            let x = boxed_expression(alloc, x, f)?;
            Ok(makers::one(around, x))
        }
        Shape::Index => {
            let both = pair(alloc, openers::open_index(x), f)?;
            Ok(makers::index(both))
        }
        Shape::Operation => {
            let (x, op, y) = openers::open_operation(x);
            let x = boxed_expression(alloc, x, f)?;
            let y = boxed_expression(alloc, y, f)?;
            Ok(makers::operation(x, op, y))
        }
        Shape::Three => {
            let (around, all) = openers::open_three(x);
            let all = triple(alloc, all, f)?;
            Ok(makers::three(around, all))
        }
        Shape::Slice => {
            let (x, a, b, c) = openers::open_slice(x);
            let x = boxed_expression(alloc, x, f)?;
            let a = maybe_expression(alloc, a, f)?;
            let b = maybe_expression(alloc, b, f)?;
            let c = maybe_expression(alloc, c, f)?;
            Ok(makers::slice(x, a, b, c))
        }
        Shape::Many => {
            let (around, xs) = openers::open_many(x);
            let xs = expressions(alloc, xs, f)?;
            Ok(makers::many(around, xs))
        }
        Shape::Dict => {
            let xs = pairs(alloc, openers::open_dict(x), f)?;
            Ok(makers::dict(xs))
        }
        Shape::Call => {
            let (x, args) = openers::open_call(x);
            let x = boxed_expression(alloc, x, f)?;
            let args = arguments(alloc, args, f)?;
            Ok(makers::call(x, args))
        }
        Shape::Lambda => {
            let (params, body, payload) = openers::open_lambda(x);
            let params = parameters(alloc, params, f)?;
            let body = boxed_expression(alloc, body, f)?;
            Ok(makers::lambda(params, body, f.map_def(payload)))
        }
        Shape::ListComprehension => {
            let (x, first, rest) = openers::open_list_comprehension(x);
            let x = boxed_expression(alloc, x, f)?;
            let first = for_clause(alloc, first, f)?;
            let rest = clauses(alloc, rest, f)?;
            Ok(makers::list_comprehension(x, first, rest))
        }
        Shape::DictComprehension => {
            let (x, first, rest) = openers::open_dict_comprehension(x);
            let x = pair(alloc, x, f)?;
            let first = for_clause(alloc, first, f)?;
            let rest = clauses(alloc, rest, f)?;
            Ok(makers::dict_comprehension(x, first, rest))
        }
    }
}

/// An expression at its place.
#[cycle(mapping)]
pub(crate) fn boxed_expression<A: AstPayload, B: AstPayload, F: AstPayloadFunction<A, B>>(
    alloc: Global,
    x: Box<AstExprP<A>>,
    f: &mut F,
) -> Result<Box<AstExprP<B>>, AllocError>
    ensures { Maps (gives F.gives_load F.gives_ident F.gives_ident_assign F.gives_def F.gives_type_expr) f.old (expr_payloads x.value.node) (seen expr_view x.value) f.new (λ y. expr_payloads y.value.node) (held (seen expr_view)) result }
{
    let Spanned { span, node } = opened(x);
    let node = expression(alloc, node, f)?;
    boxed(alloc, Spanned { span, node })
}

/// An expression, if there is one.
#[cycle(mapping)]
pub(crate) fn maybe_expression<A: AstPayload, B: AstPayload, F: AstPayloadFunction<A, B>>(
    alloc: Global,
    x: Option<Box<AstExprP<A>>>,
    f: &mut F,
) -> Result<Option<Box<AstExprP<B>>>, AllocError>
    ensures { Maps (gives F.gives_load F.gives_ident F.gives_ident_assign F.gives_def F.gives_type_expr) f.old (maybe_of expr_payloads (unboxed x)) (option_map (seen expr_view) (unboxed x)) f.new (λ y. maybe_of expr_payloads (unboxed y)) (λ y. option_map (seen expr_view) (unboxed y)) result }
{
    match x {
        None => Ok(None),
        Some(x) => Ok(Some(boxed_expression(alloc, x, f)?)),
    }
}

/// Two expressions.
#[cycle(mapping)]
pub(crate) fn pair<A: AstPayload, B: AstPayload, F: AstPayloadFunction<A, B>>(
    alloc: Global,
    x: Box<(AstExprP<A>, AstExprP<A>)>,
    f: &mut F,
) -> Result<Box<(AstExprP<B>, AstExprP<B>)>, AllocError>
    ensures { Maps (gives F.gives_load F.gives_ident F.gives_ident_assign F.gives_def F.gives_type_expr) f.old (both_of expr_payloads x.value) (both_at expr_view x.value) f.new (held (both_of expr_payloads)) (held (both_at expr_view)) result }
{
    let (x, y) = opened(x);
    let left = expression(alloc, x.node, f)?;
    let right = expression(alloc, y.node, f)?;
    let x = Spanned {
        span: x.span,
        node: left,
    };
    let y = Spanned {
        span: y.span,
        node: right,
    };
    boxed(alloc, (x, y))
}

/// Three expressions.
#[cycle(mapping)]
pub(crate) fn triple<A: AstPayload, B: AstPayload, F: AstPayloadFunction<A, B>>(
    alloc: Global,
    x: Box<(AstExprP<A>, AstExprP<A>, AstExprP<A>)>,
    f: &mut F,
) -> Result<Box<(AstExprP<B>, AstExprP<B>, AstExprP<B>)>, AllocError>
    ensures { Maps (gives F.gives_load F.gives_ident F.gives_ident_assign F.gives_def F.gives_type_expr) f.old (three_of expr_payloads x.value) (three_at expr_view x.value) f.new (held (three_of expr_payloads)) (held (three_at expr_view)) result }
{
    let (x, y, z) = opened(x);
    let left = expression(alloc, x.node, f)?;
    let middle = expression(alloc, y.node, f)?;
    let right = expression(alloc, z.node, f)?;
    let x = Spanned {
        span: x.span,
        node: left,
    };
    let y = Spanned {
        span: y.span,
        node: middle,
    };
    let z = Spanned {
        span: z.span,
        node: right,
    };
    boxed(alloc, (x, y, z))
}

/// Expressions, from the first to the last.
#[cycle(mapping)]
pub(crate) fn expressions<A: AstPayload, B: AstPayload, F: AstPayloadFunction<A, B>>(
    alloc: Global,
    xs: Vec<AstExprP<A>>,
    f: &mut F,
) -> Result<Vec<AstExprP<B>>, AllocError>
    ensures { Maps (gives F.gives_load F.gives_ident F.gives_ident_assign F.gives_def F.gives_type_expr) f.old (all_of expr_payloads xs.items) (map (seen expr_view) xs.items) f.new (λ ys. all_of expr_payloads ys.items) (λ ys. map (seen expr_view) ys.items) result }
{
    let mut rest = xs;
    rest.reverse();
    let mut done = Vec::new(alloc);
    while let Some(x) = rest.pop() {
        let Spanned { span, node } = x;
        let node = expression(alloc, node, f)?;
        done.push(Spanned { span, node })?;
    }
    Ok(done)
}

/// Keys with their values.
#[cycle(mapping)]
pub(crate) fn pairs<A: AstPayload, B: AstPayload, F: AstPayloadFunction<A, B>>(
    alloc: Global,
    xs: Vec<(AstExprP<A>, AstExprP<A>)>,
    f: &mut F,
) -> Result<Vec<(AstExprP<B>, AstExprP<B>)>, AllocError>
    ensures { Maps (gives F.gives_load F.gives_ident F.gives_ident_assign F.gives_def F.gives_type_expr) f.old (flat_map (both_of expr_payloads) xs.items) (map (both_at expr_view) xs.items) f.new (λ ys. flat_map (both_of expr_payloads) ys.items) (λ ys. map (both_at expr_view) ys.items) result }
{
    let mut rest = xs;
    rest.reverse();
    let mut done = Vec::new(alloc);
    while let Some(x) = rest.pop() {
        let x = boxed(alloc, x)?;
        let both = pair(alloc, x, f)?;
        done.push(opened(both))?;
    }
    Ok(done)
}

/// Arguments.
#[cycle(mapping)]
pub(crate) fn arguments<A: AstPayload, B: AstPayload, F: AstPayloadFunction<A, B>>(
    alloc: Global,
    xs: Vec<AstArgumentP<A>>,
    f: &mut F,
) -> Result<Vec<AstArgumentP<B>>, AllocError>
    ensures { Maps (gives F.gives_load F.gives_ident F.gives_ident_assign F.gives_def F.gives_type_expr) f.old (all_of argument_payloads xs.items) (map (seen argument_view) xs.items) f.new (λ ys. all_of argument_payloads ys.items) (λ ys. map (seen argument_view) ys.items) result }
{
    let mut rest = xs;
    rest.reverse();
    let mut done = Vec::new(alloc);
    while let Some(x) = rest.pop() {
        let (around, value) = openers::open_argument(x.node);
        let node = expression(alloc, value.node, f)?;
        let span = value.span;
        let node = makers::argument(around, Spanned { span, node });
        let span = x.span;
        done.push(Spanned { span, node })?;
    }
    Ok(done)
}

/// A type at its place.
#[cycle(mapping)]
pub(crate) fn boxed_type<A: AstPayload, B: AstPayload, F: AstPayloadFunction<A, B>>(
    alloc: Global,
    x: Box<AstTypeExprP<A>>,
    f: &mut F,
) -> Result<Box<AstTypeExprP<B>>, AllocError>
    ensures { Maps (gives F.gives_load F.gives_ident F.gives_ident_assign F.gives_def F.gives_type_expr) f.old (type_payloads x.value.node) (seen type_view x.value) f.new (λ y. type_payloads y.value.node) (held (seen type_view)) result }
{
    let Spanned { span, node } = opened(x);
    let (x, payload) = openers::open_type_expr(node);
    let place = x.span;
    let value = expression(alloc, x.node, f)?;
    let x = Spanned {
        span: place,
        node: value,
    };
    let node = makers::type_expr(x, f.map_type_expr(payload));
    boxed(alloc, Spanned { span, node })
}

/// A type, if there is one.
#[cycle(mapping)]
pub(crate) fn maybe_boxed_type<A: AstPayload, B: AstPayload, F: AstPayloadFunction<A, B>>(
    alloc: Global,
    x: Option<Box<AstTypeExprP<A>>>,
    f: &mut F,
) -> Result<Option<Box<AstTypeExprP<B>>>, AllocError>
    ensures { Maps (gives F.gives_load F.gives_ident F.gives_ident_assign F.gives_def F.gives_type_expr) f.old (maybe_of type_payloads (unboxed x)) (option_map (seen type_view) (unboxed x)) f.new (λ y. maybe_of type_payloads (unboxed y)) (λ y. option_map (seen type_view) (unboxed y)) result }
{
    match x {
        None => Ok(None),
        Some(x) => Ok(Some(boxed_type(alloc, x, f)?)),
    }
}

/// A parameter.
#[cycle(mapping)]
pub(crate) fn parameter<A: AstPayload, B: AstPayload, F: AstPayloadFunction<A, B>>(
    alloc: Global,
    x: ParameterP<A>,
    f: &mut F,
) -> Result<ParameterP<B>, AllocError>
    ensures { Maps (gives F.gives_load F.gives_ident F.gives_ident_assign F.gives_def F.gives_type_expr) f.old (parameter_payloads x) (parameter_view x) f.new parameter_payloads parameter_view result }
{
    match parameter_shape(&x) {
        ParameterShape::Marker => Ok(makers::marker(openers::open_marker(x))),
        ParameterShape::Normal => {
            let (name, ty, default) = openers::open_normal(x);
            let name = assigned(name, f);
            let ty = maybe_boxed_type(alloc, ty, f)?;
            let default = maybe_expression(alloc, default, f)?;
            Ok(makers::normal(name, ty, default))
        }
        ParameterShape::Starred => {
            let (stars, name, ty) = openers::open_starred(x);
            let name = assigned(name, f);
            let ty = maybe_boxed_type(alloc, ty, f)?;
            Ok(makers::starred(stars, name, ty))
        }
    }
}

/// Parameters.
#[cycle(mapping)]
pub(crate) fn parameters<A: AstPayload, B: AstPayload, F: AstPayloadFunction<A, B>>(
    alloc: Global,
    xs: Vec<AstParameterP<A>>,
    f: &mut F,
) -> Result<Vec<AstParameterP<B>>, AllocError>
    ensures { Maps (gives F.gives_load F.gives_ident F.gives_ident_assign F.gives_def F.gives_type_expr) f.old (all_of parameter_payloads xs.items) (map (seen parameter_view) xs.items) f.new (λ ys. all_of parameter_payloads ys.items) (λ ys. map (seen parameter_view) ys.items) result }
{
    let mut rest = xs;
    rest.reverse();
    let mut done = Vec::new(alloc);
    while let Some(x) = rest.pop() {
        let Spanned { span, node } = x;
        let node = parameter(alloc, node, f)?;
        done.push(Spanned { span, node })?;
    }
    Ok(done)
}

/// A target.
#[cycle(mapping)]
pub(crate) fn target<A: AstPayload, B: AstPayload, F: AstPayloadFunction<A, B>>(
    alloc: Global,
    x: AssignTargetP<A>,
    f: &mut F,
) -> Result<AssignTargetP<B>, AllocError>
    ensures { Maps (gives F.gives_load F.gives_ident F.gives_ident_assign F.gives_def F.gives_type_expr) f.old (target_payloads x) (target_view x) f.new target_payloads target_view result }
{
    match target_shape(&x) {
        TargetShape::Tuple => {
            let xs = targets(alloc, openers::open_target_tuple(x), f)?;
            Ok(makers::target_tuple(xs))
        }
        TargetShape::Index => {
            let both = pair(alloc, openers::open_target_index(x), f)?;
            Ok(makers::target_index(both))
        }
        TargetShape::Dot => {
            let (x, name) = openers::open_target_dot(x);
            let x = boxed_expression(alloc, x, f)?;
            Ok(makers::target_dot(x, name))
        }
        TargetShape::Name => Ok(makers::target_name(assigned(openers::open_target_name(x), f))),
    }
}

/// Targets.
#[cycle(mapping)]
pub(crate) fn targets<A: AstPayload, B: AstPayload, F: AstPayloadFunction<A, B>>(
    alloc: Global,
    xs: Vec<AstAssignTargetP<A>>,
    f: &mut F,
) -> Result<Vec<AstAssignTargetP<B>>, AllocError>
    ensures { Maps (gives F.gives_load F.gives_ident F.gives_ident_assign F.gives_def F.gives_type_expr) f.old (all_of target_payloads xs.items) (map (seen target_view) xs.items) f.new (λ ys. all_of target_payloads ys.items) (λ ys. map (seen target_view) ys.items) result }
{
    let mut rest = xs;
    rest.reverse();
    let mut done = Vec::new(alloc);
    while let Some(x) = rest.pop() {
        let Spanned { span, node } = x;
        let node = target(alloc, node, f)?;
        done.push(Spanned { span, node })?;
    }
    Ok(done)
}

/// A clause that goes over values.
#[cycle(mapping)]
pub(crate) fn for_clause<A: AstPayload, B: AstPayload, F: AstPayloadFunction<A, B>>(
    alloc: Global,
    x: Box<ForClauseP<A>>,
    f: &mut F,
) -> Result<Box<ForClauseP<B>>, AllocError>
    ensures { Maps (gives F.gives_load F.gives_ident F.gives_ident_assign F.gives_def F.gives_type_expr) f.old (for_clause_payloads x.value) (for_clause_view x.value) f.new (held for_clause_payloads) (held for_clause_view) result }
{
    let (var, over) = openers::open_for_clause(opened(x));
    let name = target(alloc, var.node, f)?;
    let values = expression(alloc, over.node, f)?;
    let var = Spanned {
        span: var.span,
        node: name,
    };
    let over = Spanned {
        span: over.span,
        node: values,
    };
    boxed(alloc, makers::for_clause(var, over))
}

/// A clause of a comprehension.
#[cycle(mapping)]
pub(crate) fn clause<A: AstPayload, B: AstPayload, F: AstPayloadFunction<A, B>>(
    alloc: Global,
    x: Box<ClauseP<A>>,
    f: &mut F,
) -> Result<Box<ClauseP<B>>, AllocError>
    ensures { Maps (gives F.gives_load F.gives_ident F.gives_ident_assign F.gives_def F.gives_type_expr) f.old (clause_payloads x.value) (clause_view x.value) f.new (held clause_payloads) (held clause_view) result }
{
    let x = opened(x);
    match clause_shape(&x) {
        ClauseShape::For => {
            let x = boxed(alloc, openers::open_next_for(x))?;
            let y = for_clause(alloc, x, f)?;
            boxed(alloc, makers::next_for(opened(y)))
        }
        ClauseShape::If => {
            let Spanned { span, node } = openers::open_filter(x);
            let node = expression(alloc, node, f)?;
            boxed(alloc, makers::filter(Spanned { span, node }))
        }
    }
}

/// Clauses.
#[cycle(mapping)]
pub(crate) fn clauses<A: AstPayload, B: AstPayload, F: AstPayloadFunction<A, B>>(
    alloc: Global,
    xs: Vec<ClauseP<A>>,
    f: &mut F,
) -> Result<Vec<ClauseP<B>>, AllocError>
    ensures { Maps (gives F.gives_load F.gives_ident F.gives_ident_assign F.gives_def F.gives_type_expr) f.old (flat_map clause_payloads xs.items) (map clause_view xs.items) f.new (λ ys. flat_map clause_payloads ys.items) (λ ys. map clause_view ys.items) result }
{
    let mut rest = xs;
    rest.reverse();
    let mut done = Vec::new(alloc);
    while let Some(x) = rest.pop() {
        let x = boxed(alloc, x)?;
        let y = clause(alloc, x, f)?;
        done.push(opened(y))?;
    }
    Ok(done)
}
