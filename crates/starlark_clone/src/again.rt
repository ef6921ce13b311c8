//! Expressions once more, and what stands in them. Each operation that has a name is a call of it.

ghost use Rattle.std.specs.Prelude.{◌≡◌, IfOk, string_bytes};
ghost use Rattle.starlark_place.specs.Place.{Extent};
ghost use Rattle.starlark_clone.specs.Copies.{bound_by, clauses_by, items_by, members_by, pairs_by, seen, type_by};
ghost use Rattle.starlark_clone.specs.Replacing.{replaced, replaced_bound, replaced_clause, replaced_clauses, replaced_member, replaced_members, replaced_type};
ghost use Rattle.starlark_ast.specs.Tree as tree;
ghost use Rattle.starlark_ast.specs.View.{argument_at, argument_view, boxed_expr, boxed_type, clause_view, expr_at, expr_view, for_clause_view, members, parameter_at, parameter_view, target_view, type_view};
ghost use Rattle.starlark_ast.specs.Views.{clauses_of, items_of, pairs_of, targets_of};

use crate::copies::{assigned, boxed_value, identifier, text_at};
use crate::make::Make;
use crate::rename::Rename;
use starlark_ast::ast::{
    Argument, ArgumentP, AssignTarget, AssignTargetP, AstArgument, AstAssignTarget, AstExpr,
    AstNoPayload, AstParameter, AstString, AstTypeExpr, BinOp, Clause, ClauseP, Expr, ExprP,
    FStringP, ForClause, LambdaP, Parameter, ParameterP, TypeExpr,
};
use starlark_place::pos::{Span, Spanned};
use std::alloc::{AllocError, Global};

/// The same expression, at its place.
#[cycle(again)]
pub(crate) fn expression<M: Make, R: Rename>(
    alloc: Global,
    by: &R,
    x: &Expr,
    span: Span,
) -> Result<M::Expr, AllocError>
    ensures { IfOk result (λ y. M.expr_means y span ≡ replaced (R.renames by.now) (expr_view x.now span)) }
{
    match x {
        ExprP::Tuple(xs) => Ok(M::tuple(items::<M, R>(alloc, by, xs)?)),
        ExprP::Dot(object, name) => {
            let object = boxed::<M, R>(alloc, by, object)?;
            Ok(M::dot(object, text_at(alloc, name)?))
        }
        ExprP::Call(called, args) => {
            let called = boxed::<M, R>(alloc, by, called)?;
            Ok(M::call(called, arguments::<M, R>(alloc, by, &args.args)?))
        }
        ExprP::Index(parts) => Ok(M::index(two::<M, R>(alloc, by, parts)?)),
        ExprP::Index2(parts) => Ok(M::index_of_two(three::<M, R>(alloc, by, parts)?)),
        ExprP::Slice(object, from, to, step) => slice::<M, R>(alloc, by, object, from, to, step),
        ExprP::Identifier(name) => Ok(M::identifier(identifier(alloc, name)?)),
        ExprP::Lambda(inner) => {
            let (params, body) = lambda_parts::<M, R>(alloc, by, inner)?;
            Ok(M::lambda(params, body))
        }
        ExprP::Literal(literal) => Ok(M::literal(literal.clone(alloc)?)),
        ExprP::Not(inner) => Ok(M::not(boxed::<M, R>(alloc, by, inner)?)),
        ExprP::Minus(inner) => Ok(M::minus(boxed::<M, R>(alloc, by, inner)?)),
        ExprP::Plus(inner) => Ok(M::plus(boxed::<M, R>(alloc, by, inner)?)),
        ExprP::BitNot(inner) => Ok(M::bit_not(boxed::<M, R>(alloc, by, inner)?)),
        ExprP::Op(left, op, right) => operation::<M, R>(alloc, by, left, *op, right, span),
        ExprP::If(parts) => Ok(M::choice(three::<M, R>(alloc, by, parts)?)),
        ExprP::List(xs) => Ok(M::list(items::<M, R>(alloc, by, xs)?)),
        ExprP::Dict(xs) => Ok(M::dict(entries::<M, R>(alloc, by, xs)?)),
        ExprP::ListComprehension(element, first, rest) => {
            let (first, rest) = clauses::<M, R>(alloc, by, first, rest)?;
            Ok(M::list_comprehension(boxed::<M, R>(alloc, by, element)?, first, rest))
        }
        ExprP::DictComprehension(entry, first, rest) => {
            let (first, rest) = clauses::<M, R>(alloc, by, first, rest)?;
            Ok(M::dict_comprehension(two::<M, R>(alloc, by, entry)?, first, rest))
        }
        ExprP::FString(inner) => {
            let (format, fields) = f_string_parts::<M, R>(alloc, by, &inner.node)?;
            Ok(M::f_string(format, fields, inner.span))
        }
    }
}

// an operator between its sides, at their place
#[cycle(again)]
fn operation<M: Make, R: Rename>(
    alloc: Global,
    by: &R,
    left: &AstExpr,
    op: BinOp,
    right: &AstExpr,
    span: Span,
) -> Result<M::Expr, AllocError>
    ensures { IfOk result (λ y. M.expr_means y span ≡ replaced (R.renames by.now) (tree.operation (expr_at left.now) op (expr_at right.now) span)) }
{
    let left = boxed::<M, R>(alloc, by, left)?;
    let right = boxed::<M, R>(alloc, by, right)?;
    M::operation(alloc, left, op, right, by.name(op), span)
}

/// The same with its place.
#[cycle(again)]
pub(crate) fn spanned<M: Make, R: Rename>(
    alloc: Global,
    by: &R,
    x: &AstExpr,
) -> Result<Spanned<M::Expr>, AllocError>
    ensures { IfOk result (λ y. seen M.expr_means y ≡ replaced (R.renames by.now) (expr_at x.now)) }
{
    let node = expression::<M, R>(alloc, by, &x.node, x.span)?;
    Ok(Spanned { span: x.span, node })
}

/// The same in a box of its own.
#[cycle(again)]
pub(crate) fn boxed<M: Make, R: Rename>(
    alloc: Global,
    by: &R,
    x: &AstExpr,
) -> Result<Box<Spanned<M::Expr>>, AllocError>
    ensures { IfOk result (λ y. seen M.expr_means y.value ≡ replaced (R.renames by.now) (expr_at x.now)) }
{
    let x = spanned::<M, R>(alloc, by, x)?;
    boxed_value(alloc, x)
}

// two in a box
#[cycle(again)]
fn two<M: Make, R: Rename>(
    alloc: Global,
    by: &R,
    x: &(AstExpr, AstExpr),
) -> Result<Box<(Spanned<M::Expr>, Spanned<M::Expr>)>, AllocError>
    ensures first { IfOk result (λ y. seen M.expr_means y.value.0 ≡ replaced (R.renames by.now) (expr_at x.now.0)) }
    ensures second { IfOk result (λ y. seen M.expr_means y.value.1 ≡ replaced (R.renames by.now) (expr_at x.now.1)) }
{
    let first = spanned::<M, R>(alloc, by, &x.0)?;
    let second = spanned::<M, R>(alloc, by, &x.1)?;
    boxed_value(alloc, (first, second))
}

// three in a box
#[cycle(again)]
fn three<M: Make, R: Rename>(
    alloc: Global,
    by: &R,
    x: &(AstExpr, AstExpr, AstExpr),
) -> Result<Box<(Spanned<M::Expr>, Spanned<M::Expr>, Spanned<M::Expr>)>, AllocError>
    ensures first { IfOk result (λ y. seen M.expr_means y.value.0 ≡ replaced (R.renames by.now) (expr_at x.now.0)) }
    ensures second { IfOk result (λ y. seen M.expr_means y.value.1 ≡ replaced (R.renames by.now) (expr_at x.now.1)) }
    ensures third { IfOk result (λ y. seen M.expr_means y.value.2 ≡ replaced (R.renames by.now) (expr_at x.now.2)) }
{
    let first = spanned::<M, R>(alloc, by, &x.0)?;
    let second = spanned::<M, R>(alloc, by, &x.1)?;
    let third = spanned::<M, R>(alloc, by, &x.2)?;
    boxed_value(alloc, (first, second, third))
}

// several
#[cycle(again)]
fn items<M: Make, R: Rename>(
    alloc: Global,
    by: &R,
    xs: &[AstExpr],
) -> Result<Vec<Spanned<M::Expr>>, AllocError>
    ensures { IfOk result (λ ys. items_by M.expr_means ys.items ≡ replaced_members (R.renames by.now) (items_of xs.now)) }
{
    let mut all = Vec::new(alloc);
    for x in xs {
        let again = spanned::<M, R>(alloc, by, x)?;
        all.push(again)?;
    }
    Ok(all)
}

// keys with their values
#[cycle(again)]
fn entries<M: Make, R: Rename>(
    alloc: Global,
    by: &R,
    xs: &[(AstExpr, AstExpr)],
) -> Result<Vec<(Spanned<M::Expr>, Spanned<M::Expr>)>, AllocError>
    ensures { IfOk result (λ ys. pairs_by M.expr_means ys.items ≡ replaced_members (R.renames by.now) (pairs_of xs.now)) }
{
    let mut all = Vec::new(alloc);
    for x in xs {
        let key = spanned::<M, R>(alloc, by, &x.0)?;
        let value = spanned::<M, R>(alloc, by, &x.1)?;
        all.push((key, value))?;
    }
    Ok(all)
}

// an expression with three that may stand behind it
#[cycle(again)]
fn slice<M: Make, R: Rename>(
    alloc: Global,
    by: &R,
    object: &AstExpr,
    from: &Option<Box<AstExpr>>,
    to: &Option<Box<AstExpr>>,
    step: &Option<Box<AstExpr>>,
) -> Result<M::Expr, AllocError>
    ensures { IfOk result (λ y. (s : Extent) → M.expr_means y s ≡ replaced (R.renames by.now) (tree.index (expr_at object.now) (tree.slice (boxed_expr from.now) (boxed_expr to.now) (boxed_expr step.now)) s)) }
{
    let object = boxed::<M, R>(alloc, by, object)?;
    let from = bound::<M, R>(alloc, by, from)?;
    let to = bound::<M, R>(alloc, by, to)?;
    let step = bound::<M, R>(alloc, by, step)?;
    Ok(M::slice(object, from, to, step))
}

// an expression, if there is one
#[cycle(again)]
fn bound<M: Make, R: Rename>(
    alloc: Global,
    by: &R,
    x: &Option<Box<AstExpr>>,
) -> Result<Option<Box<Spanned<M::Expr>>>, AllocError>
    ensures { IfOk result (λ y. bound_by M.expr_means y ≡ replaced_bound (R.renames by.now) (boxed_expr x.now)) }
{
    match x {
        None => Ok(None),
        Some(x) => Ok(Some(boxed::<M, R>(alloc, by, x)?)),
    }
}

/// The parameters of a lambda and its body.
#[cycle(again)]
pub(crate) fn lambda_parts<M: Make, R: Rename>(
    alloc: Global,
    by: &R,
    x: &LambdaP<AstNoPayload>,
) -> Result<(Vec<Spanned<M::Parameter>>, Box<Spanned<M::Expr>>), AllocError>
    ensures params { IfOk result (λ y. members_by M.parameter_means y.0.items ≡ replaced_members (R.renames by.now) (members parameter_at x.now.params.items)) }
    ensures body { IfOk result (λ y. seen M.expr_means y.1.value ≡ replaced (R.renames by.now) (expr_at x.now.body.value)) }
{
    let params = parameters::<M, R>(alloc, by, &x.params)?;
    let body = boxed::<M, R>(alloc, by, &x.body)?;
    Ok((params, body))
}

/// The format of an f-string and its fields.
#[cycle(again)]
pub(crate) fn f_string_parts<M: Make, R: Rename>(
    alloc: Global,
    by: &R,
    x: &FStringP<AstNoPayload>,
) -> Result<(AstString, Vec<Spanned<M::Expr>>), AllocError>
    ensures bytes { IfOk result (λ y. string_bytes y.0.node ≡ string_bytes x.now.format.node) }
    ensures place { IfOk result (λ y. y.0.span ≡ x.now.format.span) }
    ensures fields { IfOk result (λ y. items_by M.expr_means y.1.items ≡ replaced_members (R.renames by.now) (items_of x.now.expressions.items)) }
{
    let format = text_at(alloc, &x.format)?;
    let fields = items::<M, R>(alloc, by, &x.expressions)?;
    Ok((format, fields))
}

/// The same argument.
#[cycle(again)]
pub(crate) fn argument<M: Make, R: Rename>(
    alloc: Global,
    by: &R,
    x: &Argument,
) -> Result<M::Argument, AllocError>
    ensures { IfOk result (λ y. (s : Extent) → M.argument_means y s ≡ replaced_member (R.renames by.now) (argument_view x.now s)) }
{
    match x {
        ArgumentP::Positional(value) => Ok(M::positional(spanned::<M, R>(alloc, by, value)?)),
        ArgumentP::Named(name, value) => {
            let name = text_at(alloc, name)?;
            Ok(M::named(name, spanned::<M, R>(alloc, by, value)?))
        }
        ArgumentP::Args(value) => Ok(M::args(spanned::<M, R>(alloc, by, value)?)),
        ArgumentP::KwArgs(value) => Ok(M::kwargs(spanned::<M, R>(alloc, by, value)?)),
    }
}

/// The same arguments.
#[cycle(again)]
pub(crate) fn arguments<M: Make, R: Rename>(
    alloc: Global,
    by: &R,
    xs: &[AstArgument],
) -> Result<Vec<Spanned<M::Argument>>, AllocError>
    ensures { IfOk result (λ ys. members_by M.argument_means ys.items ≡ replaced_members (R.renames by.now) (members argument_at xs.now)) }
{
    let mut all = Vec::new(alloc);
    for x in xs {
        let node = argument::<M, R>(alloc, by, &x.node)?;
        all.push(Spanned { span: x.span, node })?;
    }
    Ok(all)
}

/// The same type.
#[cycle(again)]
pub(crate) fn annotation<M: Make, R: Rename>(
    alloc: Global,
    by: &R,
    x: &TypeExpr,
) -> Result<M::Type, AllocError>
    ensures { IfOk result (λ y. (s : Extent) → M.type_means y s ≡ replaced_type (R.renames by.now) (type_view x.now s)) }
{
    Ok(M::annotation(spanned::<M, R>(alloc, by, &x.expr)?))
}

/// The same type, if there is one.
#[cycle(again)]
pub(crate) fn maybe_type<M: Make, R: Rename>(
    alloc: Global,
    by: &R,
    x: &Option<Box<AstTypeExpr>>,
) -> Result<Option<Box<Spanned<M::Type>>>, AllocError>
    ensures { IfOk result (λ y. type_by M.type_means y ≡ replaced_type (R.renames by.now) (boxed_type x.now)) }
{
    match x {
        None => Ok(None),
        Some(x) => {
            let node = annotation::<M, R>(alloc, by, &x.node)?;
            Ok(Some(boxed_value(alloc, Spanned { span: x.span, node })?))
        }
    }
}

/// The same parameter.
#[cycle(again)]
pub(crate) fn parameter<M: Make, R: Rename>(
    alloc: Global,
    by: &R,
    x: &Parameter,
) -> Result<M::Parameter, AllocError>
    ensures { IfOk result (λ y. (s : Extent) → M.parameter_means y s ≡ replaced_member (R.renames by.now) (parameter_view x.now s)) }
{
    match x {
        ParameterP::Slash => Ok(M::slash()),
        ParameterP::Normal(name, ty, default) => {
            let name = assigned(alloc, name)?;
            let ty = maybe_type::<M, R>(alloc, by, ty)?;
            Ok(M::parameter(name, ty, bound::<M, R>(alloc, by, default)?))
        }
        ParameterP::NoArgs => Ok(M::no_args()),
        ParameterP::Args(name, ty) => {
            let name = assigned(alloc, name)?;
            Ok(M::args_parameter(name, maybe_type::<M, R>(alloc, by, ty)?))
        }
        ParameterP::KwArgs(name, ty) => {
            let name = assigned(alloc, name)?;
            Ok(M::kwargs_parameter(name, maybe_type::<M, R>(alloc, by, ty)?))
        }
    }
}

/// The same parameters.
#[cycle(again)]
pub(crate) fn parameters<M: Make, R: Rename>(
    alloc: Global,
    by: &R,
    xs: &[AstParameter],
) -> Result<Vec<Spanned<M::Parameter>>, AllocError>
    ensures { IfOk result (λ ys. members_by M.parameter_means ys.items ≡ replaced_members (R.renames by.now) (members parameter_at xs.now)) }
{
    let mut all = Vec::new(alloc);
    for x in xs {
        let node = parameter::<M, R>(alloc, by, &x.node)?;
        all.push(Spanned { span: x.span, node })?;
    }
    Ok(all)
}

// the first clause in a box, and those behind it
#[cycle(again)]
fn clauses<M: Make, R: Rename>(
    alloc: Global,
    by: &R,
    first: &ForClause,
    rest: &[Clause],
) -> Result<(Box<M::ForClause>, Vec<M::Clause>), AllocError>
    ensures { IfOk result (λ y. clauses_by (M.for_means y.0.value) M.clause_means y.1.items ≡ replaced_clauses (R.renames by.now) (clauses_of first.now rest.now)) }
{
    let made = for_clause::<M, R>(alloc, by, first)?;
    let begin = boxed_value(alloc, made)?;
    let mut all = Vec::new(alloc);
    for x in rest {
        let again = clause::<M, R>(alloc, by, x)?;
        all.push(again)?;
    }
    Ok((begin, all))
}

/// The same clause.
#[cycle(again)]
pub(crate) fn clause<M: Make, R: Rename>(
    alloc: Global,
    by: &R,
    x: &Clause,
) -> Result<M::Clause, AllocError>
    ensures { IfOk result (λ y. M.clause_means y ≡ replaced_clause (R.renames by.now) (clause_view x.now)) }
{
    match x {
        ClauseP::For(inner) => Ok(M::next_for(for_clause::<M, R>(alloc, by, inner)?)),
        ClauseP::If(condition) => Ok(M::if_clause(spanned::<M, R>(alloc, by, condition)?)),
    }
}

/// The same clause that goes over values.
#[cycle(again)]
pub(crate) fn for_clause<M: Make, R: Rename>(
    alloc: Global,
    by: &R,
    x: &ForClause,
) -> Result<M::ForClause, AllocError>
    ensures { IfOk result (λ y. M.for_means y ≡ replaced_clause (R.renames by.now) (for_clause_view x.now)) }
{
    let node = target::<M, R>(alloc, by, &x.var.node)?;
    let span = x.var.span;
    let over = spanned::<M, R>(alloc, by, &x.over)?;
    Ok(M::for_clause(Spanned { span, node }, over))
}

/// The same target.
#[cycle(again)]
pub(crate) fn target<M: Make, R: Rename>(
    alloc: Global,
    by: &R,
    x: &AssignTarget,
) -> Result<M::Target, AllocError>
    ensures { IfOk result (λ y. (s : Extent) → M.target_means y s ≡ replaced (R.renames by.now) (target_view x.now s)) }
{
    match x {
        AssignTargetP::Tuple(xs) => Ok(M::target_tuple(targets::<M, R>(alloc, by, xs)?)),
        AssignTargetP::Index(parts) => Ok(M::target_index(two::<M, R>(alloc, by, parts)?)),
        AssignTargetP::Dot(object, name) => {
            let object = boxed::<M, R>(alloc, by, object)?;
            Ok(M::target_dot(object, text_at(alloc, name)?))
        }
        AssignTargetP::Identifier(name) => Ok(M::target_name(assigned(alloc, name)?)),
    }
}

// several targets
#[cycle(again)]
fn targets<M: Make, R: Rename>(
    alloc: Global,
    by: &R,
    xs: &[AstAssignTarget],
) -> Result<Vec<Spanned<M::Target>>, AllocError>
    ensures { IfOk result (λ ys. items_by M.target_means ys.items ≡ replaced_members (R.renames by.now) (targets_of xs.now)) }
{
    let mut all = Vec::new(alloc);
    for x in xs {
        let node = target::<M, R>(alloc, by, &x.node)?;
        all.push(Spanned { span: x.span, node })?;
    }
    Ok(all)
}
