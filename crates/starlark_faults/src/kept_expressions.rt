//! The first kept rule that an expression breaks.

ghost use Rattle.std.specs.Prelude.{◌≡◌, ◌++◌};
ghost use Rattle.starlark_ast.specs.Tree as t;
ghost use Rattle.starlark_ast.specs.View.{argument_at, boxed_expr, boxed_type, clause_view, expr_at, for_clause_view, members, parameter_at, target_at};
ghost use Rattle.starlark_ast.specs.Views.{clauses_of, items_of, pairs_of, targets_of};
ghost use Rattle.starlark_rulebook.specs.Calls.{first_call_fault};
ghost use Rattle.starlark_rulebook.specs.Kept as kept;
ghost use Rattle.starlark_rulebook.specs.Rules.{first_finding, listed};
ghost use Rattle.starlark_rulebook.specs.View.{maybe_finding};

use crate::call::call_fault;
use crate::finding::{broken, first_of};
use starlark_ast::ast::{
    AssignTargetP, AstArgumentP, AstAssignTargetP, AstExprP, AstFStringP, AstParameterP,
    AstPayload, AstTypeExprP, ClauseP, ExprP, ForClauseP, LambdaP, ParameterP,
};
use starlark_lexer::dialect::Dialect;
use starlark_place::pos::{Span, Spanned};
use starlark_rulebook::rule::Rule;

/// The first kept rule that an expression breaks, with those within it.
#[cycle(kept)]
pub(crate) fn expression_fault<P: AstPayload>(
    dialect: &Dialect,
    x: &AstExprP<P>,
) -> Option<Spanned<Rule>>
    ensures { maybe_finding result ≡ first_finding (kept.kept_expr dialect.now (expr_at x.now)) }
{
    match &x.node {
        ExprP::Tuple(xs) => items_fault(dialect, xs),
        ExprP::Dot(object, _) => expression_fault(dialect, object),
        ExprP::Call(called, args) => whole_call_fault(dialect, called, &args.args),
        ExprP::Index(parts) => two_fault(dialect, &parts.0, &parts.1),
        ExprP::Index2(parts) => three_fault(dialect, &parts.0, &parts.1, &parts.2),
        ExprP::Slice(object, from, to, step) => slice_fault(dialect, object, from, to, step),
        ExprP::Identifier(_) => None,
        ExprP::Lambda(inner) => lambda_fault(dialect, inner),
        ExprP::Literal(_) => None,
        ExprP::Not(inner) => expression_fault(dialect, inner),
        ExprP::Minus(inner) => expression_fault(dialect, inner),
        ExprP::Plus(inner) => expression_fault(dialect, inner),
        ExprP::BitNot(inner) => expression_fault(dialect, inner),
        ExprP::Op(left, _, right) => two_fault(dialect, left, right),
        ExprP::If(parts) => three_fault(dialect, &parts.1, &parts.0, &parts.2),
        ExprP::List(xs) => items_fault(dialect, xs),
        ExprP::Dict(xs) => pairs_fault(dialect, xs),
        ExprP::ListComprehension(element, first, rest) => {
            list_fault(dialect, element, first, rest)
        }
        ExprP::DictComprehension(entry, first, rest) => {
            dict_fault(dialect, &entry.0, &entry.1, first, rest)
        }
        ExprP::FString(inner) => fstring_fault(dialect, inner),
    }
}

/// That of two expressions.
#[cycle(kept)]
fn two_fault<P: AstPayload>(
    dialect: &Dialect,
    x: &AstExprP<P>,
    y: &AstExprP<P>,
) -> Option<Spanned<Rule>>
    ensures { maybe_finding result ≡ first_finding (kept.kept_expr dialect.now (expr_at x.now) ++ kept.kept_expr dialect.now (expr_at y.now)) }
{
    first_of(expression_fault(dialect, x), expression_fault(dialect, y))
}

/// That of three expressions.
#[cycle(kept)]
fn three_fault<P: AstPayload>(
    dialect: &Dialect,
    x: &AstExprP<P>,
    y: &AstExprP<P>,
    z: &AstExprP<P>,
) -> Option<Spanned<Rule>>
    ensures { maybe_finding result ≡ first_finding (kept.kept_expr dialect.now (expr_at x.now) ++ kept.kept_expr dialect.now (expr_at y.now) ++ kept.kept_expr dialect.now (expr_at z.now)) }
{
    first_of(two_fault(dialect, x, y), expression_fault(dialect, z))
}

/// That of several expressions.
#[cycle(kept)]
fn items_fault<P: AstPayload>(dialect: &Dialect, xs: &[AstExprP<P>]) -> Option<Spanned<Rule>>
    ensures { maybe_finding result ≡ first_finding (kept.kept_members dialect.now (items_of xs.now)) }
{
    for x in xs {
        if let Some(found) = expression_fault(dialect, x) {
            return Some(found);
        }
    }
    None
}

/// That of the keys and values of a dict.
#[cycle(kept)]
fn pairs_fault<P: AstPayload>(
    dialect: &Dialect,
    xs: &[(AstExprP<P>, AstExprP<P>)],
) -> Option<Spanned<Rule>>
    ensures { maybe_finding result ≡ first_finding (kept.kept_members dialect.now (pairs_of xs.now)) }
{
    for x in xs {
        if let Some(found) = two_fault(dialect, &x.0, &x.1) {
            return Some(found);
        }
    }
    None
}

/// That of what is called, of the arguments, and then the first fault of these.
#[cycle(kept)]
fn whole_call_fault<P: AstPayload>(
    dialect: &Dialect,
    called: &AstExprP<P>,
    args: &[AstArgumentP<P>],
) -> Option<Spanned<Rule>>
    ensures { maybe_finding result ≡ first_finding (kept.kept_expr dialect.now (expr_at called.now) ++ kept.kept_members dialect.now (members argument_at args.now) ++ listed (first_call_fault (members argument_at args.now))) }
{
    first_of(
        first_of(
            expression_fault(dialect, called),
            arguments_fault(dialect, args),
        ),
        call_fault(args),
    )
}

/// That of the expressions of arguments.
#[cycle(kept)]
fn arguments_fault<P: AstPayload>(
    dialect: &Dialect,
    xs: &[AstArgumentP<P>],
) -> Option<Spanned<Rule>>
    ensures { maybe_finding result ≡ first_finding (kept.kept_members dialect.now (members argument_at xs.now)) }
{
    for x in xs {
        if let Some(found) = expression_fault(dialect, x.node.expr()) {
            return Some(found);
        }
    }
    None
}

/// That of an object and of the three parts of a slice.
#[cycle(kept)]
fn slice_fault<P: AstPayload>(
    dialect: &Dialect,
    object: &AstExprP<P>,
    from: &Option<Box<AstExprP<P>>>,
    to: &Option<Box<AstExprP<P>>>,
    step: &Option<Box<AstExprP<P>>>,
) -> Option<Spanned<Rule>>
    ensures { maybe_finding result ≡ first_finding (kept.kept_expr dialect.now (expr_at object.now) ++ (kept.kept_bound dialect.now (boxed_expr from.now) ++ kept.kept_bound dialect.now (boxed_expr to.now) ++ kept.kept_bound dialect.now (boxed_expr step.now))) }
{
    let ends = first_of(bound_fault(dialect, from), bound_fault(dialect, to));
    first_of(
        expression_fault(dialect, object),
        first_of(ends, bound_fault(dialect, step)),
    )
}

/// That of an expression, if there is one.
#[cycle(kept)]
fn bound_fault<P: AstPayload>(
    dialect: &Dialect,
    bound: &Option<Box<AstExprP<P>>>,
) -> Option<Spanned<Rule>>
    ensures { maybe_finding result ≡ first_finding (kept.kept_bound dialect.now (boxed_expr bound.now)) }
{
    match bound {
        None => None,
        Some(x) => expression_fault(dialect, x),
    }
}

/// That of a type, if there is one.
#[cycle(kept)]
pub(crate) fn type_fault<P: AstPayload>(
    dialect: &Dialect,
    ty: &Option<Box<AstTypeExprP<P>>>,
) -> Option<Spanned<Rule>>
    ensures { maybe_finding result ≡ first_finding (kept.kept_annotation dialect.now (boxed_type ty.now)) }
{
    match ty {
        None => None,
        Some(x) => expression_fault(dialect, &x.node.expr),
    }
}

/// That of the parameters of a lambda and of its body.
#[cycle(kept)]
fn lambda_fault<P: AstPayload>(dialect: &Dialect, x: &LambdaP<P>) -> Option<Spanned<Rule>>
    ensures { maybe_finding result ≡ first_finding (kept.kept_members dialect.now (members parameter_at x.now.params.items) ++ kept.kept_expr dialect.now (expr_at x.now.body.value)) }
{
    first_of(
        parameters_fault(dialect, &x.params),
        expression_fault(dialect, &x.body),
    )
}

/// That of the types and the defaults of parameters.
#[cycle(kept)]
pub(crate) fn parameters_fault<P: AstPayload>(
    dialect: &Dialect,
    params: &[AstParameterP<P>],
) -> Option<Spanned<Rule>>
    ensures { maybe_finding result ≡ first_finding (kept.kept_members dialect.now (members parameter_at params.now)) }
{
    for x in params {
        if let Some(found) = parameter_fault(dialect, x) {
            return Some(found);
        }
    }
    None
}

/// That of the type and the default of a parameter.
#[cycle(kept)]
fn parameter_fault<P: AstPayload>(dialect: &Dialect, x: &AstParameterP<P>) -> Option<Spanned<Rule>>
    ensures { maybe_finding result ≡ first_finding (kept.kept_member dialect.now (parameter_at x.now)) }
{
    match &x.node {
        ParameterP::Slash => None,
        ParameterP::Normal(_, ty, default) => normal_fault(dialect, ty, default),
        ParameterP::NoArgs => None,
        ParameterP::Args(_, ty) => type_fault(dialect, ty),
        ParameterP::KwArgs(_, ty) => type_fault(dialect, ty),
    }
}

/// That of a type and of a default.
#[cycle(kept)]
fn normal_fault<P: AstPayload>(
    dialect: &Dialect,
    ty: &Option<Box<AstTypeExprP<P>>>,
    default: &Option<Box<AstExprP<P>>>,
) -> Option<Spanned<Rule>>
    ensures { maybe_finding result ≡ first_finding (kept.kept_annotation dialect.now (boxed_type ty.now) ++ kept.kept_bound dialect.now (boxed_expr default.now)) }
{
    first_of(type_fault(dialect, ty), bound_fault(dialect, default))
}

/// That of the element of a list comprehension and of its clauses.
#[cycle(kept)]
fn list_fault<P: AstPayload>(
    dialect: &Dialect,
    element: &AstExprP<P>,
    first: &ForClauseP<P>,
    rest: &[ClauseP<P>],
) -> Option<Spanned<Rule>>
    ensures { maybe_finding result ≡ first_finding (kept.kept_expr dialect.now (expr_at element.now) ++ kept.kept_clauses dialect.now (clauses_of first.now rest.now)) }
{
    first_of(
        expression_fault(dialect, element),
        clauses_fault(dialect, first, rest),
    )
}

/// That of the key and the value of a dict comprehension and of its clauses.
#[cycle(kept)]
fn dict_fault<P: AstPayload>(
    dialect: &Dialect,
    key: &AstExprP<P>,
    value: &AstExprP<P>,
    first: &ForClauseP<P>,
    rest: &[ClauseP<P>],
) -> Option<Spanned<Rule>>
    ensures { maybe_finding result ≡ first_finding (kept.kept_expr dialect.now (expr_at key.now) ++ kept.kept_expr dialect.now (expr_at value.now) ++ kept.kept_clauses dialect.now (clauses_of first.now rest.now)) }
{
    first_of(
        two_fault(dialect, key, value),
        clauses_fault(dialect, first, rest),
    )
}

/// That of the clauses of a comprehension.
#[cycle(kept)]
fn clauses_fault<P: AstPayload>(
    dialect: &Dialect,
    first: &ForClauseP<P>,
    rest: &[ClauseP<P>],
) -> Option<Spanned<Rule>>
    ensures { maybe_finding result ≡ first_finding (kept.kept_clauses dialect.now (clauses_of first.now rest.now)) }
{
    if let Some(found) = for_clause_fault(dialect, first) {
        return Some(found);
    }
    for x in rest {
        if let Some(found) = clause_fault(dialect, x) {
            return Some(found);
        }
    }
    None
}

/// That of a clause.
#[cycle(kept)]
fn clause_fault<P: AstPayload>(dialect: &Dialect, x: &ClauseP<P>) -> Option<Spanned<Rule>>
    ensures { maybe_finding result ≡ first_finding (kept.kept_clauses dialect.now (t.and_clause t.no_clauses (clause_view x.now))) }
{
    match x {
        ClauseP::For(inner) => for_clause_fault(dialect, inner),
        ClauseP::If(condition) => expression_fault(dialect, condition),
    }
}

/// That of the target of a clause, and of what it goes over.
#[cycle(kept)]
fn for_clause_fault<P: AstPayload>(dialect: &Dialect, x: &ForClauseP<P>) -> Option<Spanned<Rule>>
    ensures { maybe_finding result ≡ first_finding (kept.kept_clauses dialect.now (t.and_clause t.no_clauses (for_clause_view x.now))) }
{
    first_of(
        target_fault(dialect, &x.var),
        expression_fault(dialect, &x.over),
    )
}

/// That of the expressions in a target.
#[cycle(kept)]
pub(crate) fn target_fault<P: AstPayload>(
    dialect: &Dialect,
    x: &AstAssignTargetP<P>,
) -> Option<Spanned<Rule>>
    ensures { maybe_finding result ≡ first_finding (kept.kept_expr dialect.now (target_at x.now)) }
{
    match &x.node {
        AssignTargetP::Tuple(xs) => targets_fault(dialect, xs),
        AssignTargetP::Index(parts) => two_fault(dialect, &parts.0, &parts.1),
        AssignTargetP::Dot(object, _) => expression_fault(dialect, object),
        AssignTargetP::Identifier(_) => None,
    }
}

/// That of several targets.
#[cycle(kept)]
fn targets_fault<P: AstPayload>(
    dialect: &Dialect,
    xs: &[AstAssignTargetP<P>],
) -> Option<Spanned<Rule>>
    ensures { maybe_finding result ≡ first_finding (kept.kept_members dialect.now (targets_of xs.now)) }
{
    for x in xs {
        if let Some(found) = target_fault(dialect, x) {
            return Some(found);
        }
    }
    None
}

/// That of the fields of an f-string, and then the f-string where they are off.
#[cycle(kept)]
fn fstring_fault<P: AstPayload>(dialect: &Dialect, x: &AstFStringP<P>) -> Option<Spanned<Rule>>
    ensures { maybe_finding result ≡ first_finding (kept.kept_members dialect.now (items_of x.now.node.expressions.items) ++ listed (kept.fstring_fault dialect.now x.now.span)) }
{
    first_of(
        items_fault(dialect, &x.node.expressions),
        disabled_fault(dialect, x.span),
    )
}

/// An f-string where they are off.
fn disabled_fault(dialect: &Dialect, span: Span) -> Option<Spanned<Rule>>
    ensures { maybe_finding result ≡ kept.fstring_fault dialect.now span }
{
    if dialect.enable_f_strings {
        return None;
    }
    broken(Rule::FStringsDisabled, span)
}
