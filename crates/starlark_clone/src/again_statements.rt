//! Statements once more. Each operation that has a name is a call of it.

ghost use Rattle.std.specs.Prelude.{◌≡◌, IfOk};
ghost use Rattle.starlark_place.specs.Place.{Extent};
ghost use Rattle.starlark_clone.specs.Copies.{maybe_by, maybe_type_by, members_by, seen, sequence_by, type_by};
ghost use Rattle.starlark_clone.specs.Replacing.{replaced, replaced_members, replaced_sequence, replaced_statement, replaced_type, replaced_value};
ghost use Rattle.starlark_ast.specs.StatementViews.{statements_of};
ghost use Rattle.starlark_ast.specs.View.{boxed_type, expr_at, ident_at, maybe_expr, maybe_type, members, parameter_at, stmt_at, stmt_view, target_at};

use crate::again::{
    annotation, boxed, maybe_type as boxed_annotation, parameters, spanned, target,
};
use crate::copies::{assigned, boxed_value};
use crate::make::Make;
use crate::make_statements::MakeStatements;
use crate::rename::Rename;
use starlark_ast::ast::{
    AssignP, AstAssignIdent, AstAssignTarget, AstExpr, AstNoPayload, AstStmt, AstTypeExpr, DefP,
    ForP, Stmt, StmtP,
};
use starlark_place::pos::Spanned;
use std::alloc::{AllocError, Global};

// a target with its place
fn place_of_target<M: Make, R: Rename>(
    alloc: Global,
    by: &R,
    x: &AstAssignTarget,
) -> Result<Spanned<M::Target>, AllocError>
    ensures { IfOk result (λ y. seen M.target_means y ≡ replaced (R.renames by.now) (target_at x.now)) }
{
    let node = target::<M, R>(alloc, by, &x.node)?;
    Ok(Spanned { span: x.span, node })
}

// a value, if there is one
fn value<M: Make, R: Rename>(
    alloc: Global,
    by: &R,
    x: &Option<AstExpr>,
) -> Result<Option<Spanned<M::Expr>>, AllocError>
    ensures { IfOk result (λ y. maybe_by M.expr_means y ≡ replaced_value (R.renames by.now) (maybe_expr x.now)) }
{
    match x {
        None => Ok(None),
        Some(x) => Ok(Some(spanned::<M, R>(alloc, by, x)?)),
    }
}

// the type of a left side, if there is one
fn left_type<M: Make, R: Rename>(
    alloc: Global,
    by: &R,
    x: &Option<AstTypeExpr>,
) -> Result<Option<Spanned<M::Type>>, AllocError>
    ensures { IfOk result (λ y. maybe_type_by M.type_means y ≡ replaced_type (R.renames by.now) (maybe_type x.now)) }
{
    match x {
        None => Ok(None),
        Some(x) => {
            let node = annotation::<M, R>(alloc, by, &x.node)?;
            Ok(Some(Spanned { span: x.span, node }))
        }
    }
}

/// The target, the type and the right side of an assignment.
pub(crate) fn assign_parts<M: Make, R: Rename>(
    alloc: Global,
    by: &R,
    x: &AssignP<AstNoPayload>,
) -> Result<
    (
        Spanned<M::Target>,
        Option<Spanned<M::Type>>,
        Spanned<M::Expr>,
    ),
    AllocError,
>
    ensures lhs { IfOk result (λ y. seen M.target_means y.0 ≡ replaced (R.renames by.now) (target_at x.now.lhs)) }
    ensures ty { IfOk result (λ y. maybe_type_by M.type_means y.1 ≡ replaced_type (R.renames by.now) (maybe_type x.now.ty)) }
    ensures rhs { IfOk result (λ y. seen M.expr_means y.2 ≡ replaced (R.renames by.now) (expr_at x.now.rhs)) }
{
    let lhs = place_of_target::<M, R>(alloc, by, &x.lhs)?;
    let ty = left_type::<M, R>(alloc, by, &x.ty)?;
    let rhs = spanned::<M, R>(alloc, by, &x.rhs)?;
    Ok((lhs, ty, rhs))
}

/// The same statement.
#[cycle(statements)]
pub(crate) fn statement<M: MakeStatements, R: Rename>(
    alloc: Global,
    by: &R,
    x: &Stmt,
) -> Result<M::Stmt, AllocError>
    ensures { IfOk result (λ y. (s : Extent) → M.says y s ≡ replaced_statement (R.renames by.now) (stmt_view x.now s)) }
{
    match x {
        StmtP::Break => Ok(M::break_statement()),
        StmtP::Continue => Ok(M::continue_statement()),
        StmtP::Pass => Ok(M::pass_statement()),
        StmtP::Return(inner) => Ok(M::return_statement(value::<M, R>(alloc, by, inner)?)),
        StmtP::Expression(inner) => Ok(M::expression_statement(spanned::<M, R>(alloc, by, inner)?)),
        StmtP::Assign(inner) => {
            let (lhs, ty, rhs) = assign_parts::<M, R>(alloc, by, inner)?;
            Ok(M::assign(lhs, ty, rhs))
        }
        StmtP::AssignModify(lhs, op, rhs) => {
            let lhs = place_of_target::<M, R>(alloc, by, lhs)?;
            Ok(M::modify(lhs, *op, boxed::<M, R>(alloc, by, rhs)?))
        }
        StmtP::Statements(xs) => Ok(M::block(several::<M, R>(alloc, by, xs)?)),
        StmtP::If(condition, suite) => {
            let condition = spanned::<M, R>(alloc, by, condition)?;
            Ok(M::if_statement(condition, body::<M, R>(alloc, by, suite)?))
        }
        StmtP::IfElse(condition, suites) => {
            let condition = spanned::<M, R>(alloc, by, condition)?;
            Ok(M::if_else(condition, bodies::<M, R>(alloc, by, suites)?))
        }
        StmtP::For(inner) => {
            let (var, over, suite) = for_parts::<M, R>(alloc, by, inner)?;
            Ok(M::for_statement(var, over, suite))
        }
        StmtP::Def(inner) => {
            let (name, params, ty, suite) = def_parts::<M, R>(alloc, by, inner)?;
            Ok(M::def_statement(name, params, ty, suite))
        }
        StmtP::Load(inner) => Ok(M::load(inner.clone(alloc)?)),
    }
}

// the body of a statement, in a box
#[cycle(statements)]
fn body<M: MakeStatements, R: Rename>(
    alloc: Global,
    by: &R,
    x: &AstStmt,
) -> Result<Box<Spanned<M::Stmt>>, AllocError>
    ensures { IfOk result (λ y. seen M.says y.value ≡ replaced_statement (R.renames by.now) (stmt_at x.now)) }
{
    let node = statement::<M, R>(alloc, by, &x.node)?;
    boxed_value(alloc, Spanned { span: x.span, node })
}

// two bodies, in a box
#[cycle(statements)]
fn bodies<M: MakeStatements, R: Rename>(
    alloc: Global,
    by: &R,
    x: &(AstStmt, AstStmt),
) -> Result<Box<(Spanned<M::Stmt>, Spanned<M::Stmt>)>, AllocError>
    ensures first { IfOk result (λ y. seen M.says y.value.0 ≡ replaced_statement (R.renames by.now) (stmt_at x.now.0)) }
    ensures second { IfOk result (λ y. seen M.says y.value.1 ≡ replaced_statement (R.renames by.now) (stmt_at x.now.1)) }
{
    let node = statement::<M, R>(alloc, by, &x.0.node)?;
    let first = Spanned {
        span: x.0.span,
        node,
    };
    let node = statement::<M, R>(alloc, by, &x.1.node)?;
    let second = Spanned {
        span: x.1.span,
        node,
    };
    boxed_value(alloc, (first, second))
}

// several statements
#[cycle(statements)]
fn several<M: MakeStatements, R: Rename>(
    alloc: Global,
    by: &R,
    xs: &[AstStmt],
) -> Result<Vec<Spanned<M::Stmt>>, AllocError>
    ensures { IfOk result (λ ys. sequence_by M.says ys.items ≡ replaced_sequence (R.renames by.now) (statements_of xs.now)) }
{
    let mut all = Vec::new(alloc);
    for x in xs {
        let node = statement::<M, R>(alloc, by, &x.node)?;
        all.push(Spanned { span: x.span, node })?;
    }
    Ok(all)
}

/// The target of a `for`, what it goes over and its body.
#[cycle(statements)]
pub(crate) fn for_parts<M: MakeStatements, R: Rename>(
    alloc: Global,
    by: &R,
    x: &ForP<AstNoPayload>,
) -> Result<(Spanned<M::Target>, Spanned<M::Expr>, Box<Spanned<M::Stmt>>), AllocError>
    ensures var { IfOk result (λ y. seen M.target_means y.0 ≡ replaced (R.renames by.now) (target_at x.now.var)) }
    ensures over { IfOk result (λ y. seen M.expr_means y.1 ≡ replaced (R.renames by.now) (expr_at x.now.over)) }
    ensures body { IfOk result (λ y. seen M.says y.2.value ≡ replaced_statement (R.renames by.now) (stmt_at x.now.body.value)) }
{
    let var = place_of_target::<M, R>(alloc, by, &x.var)?;
    let over = spanned::<M, R>(alloc, by, &x.over)?;
    let suite = body::<M, R>(alloc, by, &x.body)?;
    Ok((var, over, suite))
}

/// The name of a `def`, its parameters, the type of its result and its body.
#[cycle(statements)]
pub(crate) fn def_parts<M: MakeStatements, R: Rename>(
    alloc: Global,
    by: &R,
    x: &DefP<AstNoPayload>,
) -> Result<
    (
        AstAssignIdent,
        Vec<Spanned<M::Parameter>>,
        Option<Box<Spanned<M::Type>>>,
        Box<Spanned<M::Stmt>>,
    ),
    AllocError,
>
    ensures name { IfOk result (λ y. ident_at y.0 ≡ ident_at x.now.name) }
    ensures params { IfOk result (λ y. members_by M.parameter_means y.1.items ≡ replaced_members (R.renames by.now) (members parameter_at x.now.params.items)) }
    ensures ty { IfOk result (λ y. type_by M.type_means y.2 ≡ replaced_type (R.renames by.now) (boxed_type x.now.return_type)) }
    ensures body { IfOk result (λ y. seen M.says y.3.value ≡ replaced_statement (R.renames by.now) (stmt_at x.now.body.value)) }
{
    let name = assigned(alloc, &x.name)?;
    let params = parameters::<M, R>(alloc, by, &x.params)?;
    let ty = boxed_annotation::<M, R>(alloc, by, &x.return_type)?;
    let suite = body::<M, R>(alloc, by, &x.body)?;
    Ok((name, params, ty, suite))
}
