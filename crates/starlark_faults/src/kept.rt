//! The first of the rules that are kept until all tokens are read.

ghost use Rattle.std.specs.Prelude.{◌≡◌, ◌++◌};
ghost use Rattle.starlark_ast.specs.StatementViews.{statements_of};
ghost use Rattle.starlark_ast.specs.View.{boxed_type, expr_at, maybe_expr, maybe_type, members, parameter_at, stmt_at, symbols, target_at, text_at};
ghost use Rattle.starlark_rulebook.specs.Kept as kept;
ghost use Rattle.starlark_rulebook.specs.Rules.{first_finding};
ghost use Rattle.starlark_rulebook.specs.View.{maybe_finding};

use crate::finding::{broken_if, first_of};
use crate::kept_expressions::{expression_fault, parameters_fault, target_fault, type_fault};
use starlark_ast::ast::{
    AssignP, AstAssignTargetP, AstExprP, AstPayload, AstStmtP, AstTypeExprP, DefP, ForP, LoadP,
    StmtP,
};
use starlark_lexer::dialect::Dialect;
use starlark_place::pos::Spanned;
use starlark_rulebook::rule::Rule;

/// The first that a tree breaks of the rules that are kept until all tokens are read, at its place: the first fault of
/// a call's arguments, an f-string where they are off, a load that binds nothing. The order is that of the last tokens
/// of these, so an inner one comes before the one around it. The rules stand in docs/LANGUAGE.md, Rules.
pub fn kept_fault<P: AstPayload>(tree: &AstStmtP<P>, dialect: &Dialect) -> Option<Spanned<Rule>>
    ensures { maybe_finding result ≡ first_finding (kept.kept_rules dialect.now (stmt_at tree.now)) }
{
    statement_fault(dialect, tree)
}

/// The first rule that a statement breaks, with those within it.
#[cycle(statements)]
fn statement_fault<P: AstPayload>(dialect: &Dialect, x: &AstStmtP<P>) -> Option<Spanned<Rule>>
    ensures { maybe_finding result ≡ first_finding (kept.kept_rules dialect.now (stmt_at x.now)) }
{
    match &x.node {
        StmtP::Break => None,
        StmtP::Continue => None,
        StmtP::Pass => None,
        StmtP::Return(value) => value_fault(dialect, value),
        StmtP::Expression(value) => expression_fault(dialect, value),
        StmtP::Assign(inner) => assign_fault(dialect, inner),
        StmtP::AssignModify(target, _, value) => modify_fault(dialect, target, value),
        StmtP::Statements(xs) => statements_fault(dialect, xs),
        StmtP::If(condition, body) => if_fault(dialect, condition, body),
        StmtP::IfElse(condition, bodies) => {
            if_else_fault(dialect, condition, &bodies.0, &bodies.1)
        }
        StmtP::For(inner) => for_fault(dialect, inner),
        StmtP::Def(inner) => def_fault(dialect, inner),
        StmtP::Load(inner) => load_fault(inner),
    }
}

/// That of several statements.
#[cycle(statements)]
fn statements_fault<P: AstPayload>(dialect: &Dialect, xs: &[AstStmtP<P>]) -> Option<Spanned<Rule>>
    ensures { maybe_finding result ≡ first_finding (kept.kept_sequence dialect.now (statements_of xs.now)) }
{
    for x in xs {
        if let Some(found) = statement_fault(dialect, x) {
            return Some(found);
        }
    }
    None
}

/// That of a condition and of what stands below it.
#[cycle(statements)]
fn if_fault<P: AstPayload>(
    dialect: &Dialect,
    condition: &AstExprP<P>,
    body: &AstStmtP<P>,
) -> Option<Spanned<Rule>>
    ensures { maybe_finding result ≡ first_finding (kept.kept_expr dialect.now (expr_at condition.now) ++ kept.kept_rules dialect.now (stmt_at body.now)) }
{
    first_of(
        expression_fault(dialect, condition),
        statement_fault(dialect, body),
    )
}

/// That of a condition and of both that stand below it.
#[cycle(statements)]
fn if_else_fault<P: AstPayload>(
    dialect: &Dialect,
    condition: &AstExprP<P>,
    body: &AstStmtP<P>,
    other: &AstStmtP<P>,
) -> Option<Spanned<Rule>>
    ensures { maybe_finding result ≡ first_finding (kept.kept_expr dialect.now (expr_at condition.now) ++ kept.kept_rules dialect.now (stmt_at body.now) ++ kept.kept_rules dialect.now (stmt_at other.now)) }
{
    first_of(
        if_fault(dialect, condition, body),
        statement_fault(dialect, other),
    )
}

/// That of a `for`: of its target, of what it goes over, of its body.
#[cycle(statements)]
fn for_fault<P: AstPayload>(dialect: &Dialect, x: &ForP<P>) -> Option<Spanned<Rule>>
    ensures { maybe_finding result ≡ first_finding (kept.kept_expr dialect.now (target_at x.now.var) ++ kept.kept_expr dialect.now (expr_at x.now.over) ++ kept.kept_rules dialect.now (stmt_at x.now.body.value)) }
{
    first_of(
        first_of(
            target_fault(dialect, &x.var),
            expression_fault(dialect, &x.over),
        ),
        statement_fault(dialect, &x.body),
    )
}

/// That of a `def`: of its parameters, of the type of its result, of its body.
#[cycle(statements)]
fn def_fault<P: AstPayload>(dialect: &Dialect, x: &DefP<P>) -> Option<Spanned<Rule>>
    ensures { maybe_finding result ≡ first_finding (kept.kept_members dialect.now (members parameter_at x.now.params.items) ++ kept.kept_annotation dialect.now (boxed_type x.now.return_type) ++ kept.kept_rules dialect.now (stmt_at x.now.body.value)) }
{
    first_of(
        first_of(
            parameters_fault(dialect, &x.params),
            type_fault(dialect, &x.return_type),
        ),
        statement_fault(dialect, &x.body),
    )
}

/// That of a value, if there is one.
fn value_fault<P: AstPayload>(
    dialect: &Dialect,
    value: &Option<AstExprP<P>>,
) -> Option<Spanned<Rule>>
    ensures { maybe_finding result ≡ first_finding (kept.kept_some dialect.now (maybe_expr value.now)) }
{
    match value {
        None => None,
        Some(x) => expression_fault(dialect, x),
    }
}

/// That of an assignment: of its left side, of the type, of its right side.
fn assign_fault<P: AstPayload>(dialect: &Dialect, x: &AssignP<P>) -> Option<Spanned<Rule>>
    ensures { maybe_finding result ≡ first_finding (kept.kept_expr dialect.now (target_at x.now.lhs) ++ kept.kept_annotation dialect.now (maybe_type x.now.ty) ++ kept.kept_expr dialect.now (expr_at x.now.rhs)) }
{
    first_of(
        first_of(
            target_fault(dialect, &x.lhs),
            its_type_fault(dialect, &x.ty),
        ),
        expression_fault(dialect, &x.rhs),
    )
}

/// That of its type, if it has one.
fn its_type_fault<P: AstPayload>(
    dialect: &Dialect,
    ty: &Option<AstTypeExprP<P>>,
) -> Option<Spanned<Rule>>
    ensures { maybe_finding result ≡ first_finding (kept.kept_annotation dialect.now (maybe_type ty.now)) }
{
    match ty {
        None => None,
        Some(x) => expression_fault(dialect, &x.node.expr),
    }
}

/// That of an assignment with an operator: of both sides.
fn modify_fault<P: AstPayload>(
    dialect: &Dialect,
    target: &AstAssignTargetP<P>,
    value: &AstExprP<P>,
) -> Option<Spanned<Rule>>
    ensures { maybe_finding result ≡ first_finding (kept.kept_expr dialect.now (target_at target.now) ++ kept.kept_expr dialect.now (expr_at value.now)) }
{
    first_of(
        target_fault(dialect, target),
        expression_fault(dialect, value),
    )
}

/// A load that binds nothing, at its module.
fn load_fault<P: AstPayload>(x: &LoadP<P>) -> Option<Spanned<Rule>>
    ensures { maybe_finding result ≡ first_finding (kept.kept_load (text_at x.now.module) (symbols x.now.args.items)) }
{
    broken_if(x.args.is_empty(), Rule::LoadRequiresTwo, x.module.span)
}
