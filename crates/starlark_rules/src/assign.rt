//! Targets and assignments.

ghost use Rattle.std.specs.Prelude.{◌≡◌, ◌∷◌, ◌++◌, [], None, Some, IfOk, IfErr, Ok, string_bytes};
ghost use Rattle.starlark_ast.specs.Tree.{assign, name_at, untyped};
ghost use Rattle.starlark_ast.specs.View.{boxed_type, expr_at, expr_view, ident_at, maybe_type, stmt_view, target_at};
ghost use Rattle.starlark_place.specs.Place.{Extent};
ghost use Rattle.starlark_rules.specs.Assignable.{IsAssignable};
ghost use Rattle.starlark_ast.specs.Views.{items_of, targets_of};
ghost use Rattle.starlark_rulebook.specs.Targets as targets;
ghost use Rattle.starlark_rulebook.specs.View.{IsPlaced, RefusesFor, maybe_finding};

use starlark_ast::ast::{
    AssignIdentP, AssignOp, AssignP, AssignTargetP, AstAssignIdent, AstAssignTarget, AstExpr,
    AstExprP, AstIdent, AstPayload, AstString, AstTypeExpr, AstTypeExprP, Expr, ExprP, IdentP,
    Stmt, StmtP,
};
use starlark_clone::discard::{
    discard_expr, discard_exprs, discard_target, discard_targets, discard_type,
};
use starlark_faults::finding::{broken, refused};
use starlark_place::codemap::CodeMap;
use starlark_place::diagnostic::Refusal;
use starlark_place::pos::Spanned;
use starlark_rulebook::rule::{Rule, RuleException};
use std::alloc::{AllocError, Global};

/// The expression as what is assigned to; lists become tuples. It is refused with `InvalidLhs` at the first member
/// that is no target, and with `Memory` where memory runs out; then the expression is dropped. The place of that
/// member is to lie in the source: `CodeMap::holds` tells. The rule stands in docs/LANGUAGE.md, Rules.
pub fn check_assign(
    alloc: Global,
    codemap: &CodeMap,
    expr: AstExpr,
) -> Result<AstAssignTarget, RuleException>
    requires { IsPlaced codemap.now.source (targets.target_fault (expr_at expr)) }
    ensures clean { IfOk result (λ t. targets.target_fault (expr_at expr) ≡ None) }
    ensures taken { IfOk result (λ t. target_at t ≡ targets.target_of (expr_at expr)) }
    ensures refused { IfErr result (RefusesFor (targets.target_fault (expr_at expr)) codemap.now) }
{
    if let Some(found) = target_fault(&expr) {
        discard_expr(expr);
        return Err(refused(alloc, found, codemap));
    }
    match target(alloc, expr) {
        Ok(target) => Ok(target),
        Err(_) => Err(Refusal::Memory),
    }
}

/// An assignment of `rhs` to `lhs`, with the type and the operator before `=` where there are such. It is refused with
/// the first of `InvalidModifyLhs`, `InvalidLhs` and the two rules on its type that it breaks, and with `Memory` where
/// memory runs out; then all parts are dropped. The place of what breaks the rule is to lie in the source:
/// `CodeMap::holds` tells. The rules stand in docs/LANGUAGE.md, Rules.
pub fn check_assignment(
    alloc: Global,
    codemap: &CodeMap,
    lhs: AstExpr,
    ty: Option<Box<AstTypeExpr>>,
    op: Option<AssignOp>,
    rhs: AstExpr,
) -> Result<Stmt, RuleException>
    requires { IsPlaced codemap.now.source (targets.assignment_fault (expr_at lhs) (boxed_type ty) op) }
    ensures clean { IfOk result (λ x. targets.assignment_fault (expr_at lhs) (boxed_type ty) op ≡ None) }
    ensures taken { IfOk result (λ x. (s : Extent) → stmt_view x s ≡ assign (targets.target_of (expr_at lhs)) (boxed_type ty) op (expr_at rhs) s) }
    ensures refused { IfErr result (RefusesFor (targets.assignment_fault (expr_at lhs) (boxed_type ty) op) codemap.now) }
{
    if let Some(found) = assignment_fault(&lhs, &ty, op) {
        discard_expr(lhs);
        discard_type(ty);
        discard_expr(rhs);
        return Err(refused(alloc, found, codemap));
    }
    match assignment(alloc, lhs, ty, op, rhs) {
        Ok(made) => Ok(made),
        Err(_) => Err(Refusal::Memory),
    }
}

/// The first rule that an assignment breaks, at its place. The rules stand in docs/LANGUAGE.md, Rules.
pub fn assignment_fault<P: AstPayload>(
    lhs: &AstExprP<P>,
    ty: &Option<Box<AstTypeExprP<P>>>,
    op: Option<AssignOp>,
) -> Option<Spanned<Rule>>
    ensures { maybe_finding result ≡ targets.assignment_fault (expr_at lhs.now) (boxed_type ty.now) op }
{
    if let Some(found) = modify_fault(lhs, op) {
        return Some(found);
    }
    if let Some(found) = target_fault(lhs) {
        return Some(found);
    }
    annotation_fault(lhs, ty, op)
}

/// Several targets before an operator other than `=`.
fn modify_fault<P: AstPayload>(lhs: &AstExprP<P>, op: Option<AssignOp>) -> Option<Spanned<Rule>>
    ensures { maybe_finding result ≡ targets.modify_fault (expr_at lhs.now) op }
{
    match op {
        None => None,
        Some(_) => match &lhs.node {
            ExprP::Tuple(_) => broken(Rule::InvalidModifyLhs, lhs.span),
            ExprP::List(_) => broken(Rule::InvalidModifyLhs, lhs.span),
            _ => None,
        },
    }
}

/// A type before an operator other than `=`, or of several targets.
fn annotation_fault<P: AstPayload>(
    lhs: &AstExprP<P>,
    ty: &Option<Box<AstTypeExprP<P>>>,
    op: Option<AssignOp>,
) -> Option<Spanned<Rule>>
    ensures { maybe_finding result ≡ targets.annotation_fault (expr_at lhs.now) (boxed_type ty.now) op }
{
    let Some(ty) = ty else {
        return None;
    };
    match op {
        Some(_) => broken(Rule::TypeAnnotationOnAssignOp, ty.span),
        None => match &lhs.node {
            ExprP::Tuple(_) => broken(Rule::TypeAnnotationOnTupleAssign, ty.span),
            ExprP::List(_) => broken(Rule::TypeAnnotationOnTupleAssign, ty.span),
            _ => None,
        },
    }
}

/// The assignment of what stands on its sides, which breaks no rule: `assignment_fault` tells that. `Err` comes
/// only where memory lacks, and then all that was handed in is let go.
pub fn assignment(
    alloc: Global,
    lhs: AstExpr,
    ty: Option<Box<AstTypeExpr>>,
    op: Option<AssignOp>,
    rhs: AstExpr,
) -> Result<Stmt, AllocError>
    requires { targets.assignment_fault (expr_at lhs) (boxed_type ty) op ≡ None }
    ensures { IfOk result (λ x. (s : Extent) → stmt_view x s ≡ assign (targets.target_of (expr_at lhs)) (boxed_type ty) op (expr_at rhs) s) }
{
    let lhs = match target(alloc, lhs) {
        Ok(lhs) => lhs,
        Err(e) => {
            discard_type(ty);
            discard_expr(rhs);
            return Err(e);
        }
    };
    match op {
        None => Ok(StmtP::Assign(AssignP {
            lhs,
            ty: unboxed(ty),
            rhs,
        })),
        Some(op) => {
            discard_type(ty);
            modification(alloc, lhs, op, rhs)
        }
    }
}

/// The assignment to a target with an operator before `=`.
fn modification(
    alloc: Global,
    lhs: AstAssignTarget,
    op: AssignOp,
    rhs: AstExpr,
) -> Result<Stmt, AllocError>
    ensures { IfOk result (λ x. (s : Extent) → stmt_view x s ≡ assign (target_at lhs) untyped (Some op) (expr_at rhs) s) }
{
    match Box::new(alloc, rhs) {
        Ok(rhs) => Ok(StmtP::AssignModify(lhs, op, rhs)),
        Err(failed) => {
            discard_target(lhs);
            discard_expr(failed.value);
            Err(AllocError)
        }
    }
}

/// The type without its box.
fn unboxed(ty: Option<Box<AstTypeExpr>>) -> Option<AstTypeExpr>
    ensures { maybe_type result ≡ boxed_type ty }
{
    match ty {
        None => None,
        Some(ty) => Some(Box::into_inner(ty)),
    }
}

/// The expression as a target, where it breaks no rule as one: `target_fault` tells that. `Err` comes only where memory
/// lacks, and then it is let go.
#[cycle(conversion)]
pub fn target(alloc: Global, x: AstExpr) -> Result<AstAssignTarget, AllocError>
    requires { targets.target_fault (expr_at x) ≡ None }
    ensures { IfOk result (λ t. target_at t ≡ targets.target_of (expr_at x)) }
{
    let Spanned { span, node } = x;
    match parts_of(node) {
        Assignable::Several(xs) => {
            let node = AssignTargetP::Tuple(several(alloc, xs)?);
            Ok(Spanned { span, node })
        }
        Assignable::Index(pair) => {
            let node = AssignTargetP::Index(pair);
            Ok(Spanned { span, node })
        }
        Assignable::Dot(object, name) => {
            let node = AssignTargetP::Dot(object, name);
            Ok(Spanned { span, node })
        }
        Assignable::Name(name) => {
            let node = AssignTargetP::Identifier(name);
            Ok(Spanned { span, node })
        }
        Assignable::No(node) => {
            discard_expr(Spanned { span, node });
            unreachable!()
        }
    }
}

/// An expression, as far as it may be assigned to.
enum Assignable {
    Several(Vec<AstExpr>),
    Index(Box<(AstExpr, AstExpr)>),
    Dot(Box<AstExpr>, AstString),
    Name(AstAssignIdent),
    No(Expr),
}

fn parts_of(x: Expr) -> Assignable
    ensures { (s : Extent) → IsAssignable result s (expr_view x s) }
{
    match x {
        ExprP::Tuple(xs) => Assignable::Several(xs),
        ExprP::List(xs) => Assignable::Several(xs),
        ExprP::Index(pair) => Assignable::Index(pair),
        ExprP::Dot(object, name) => Assignable::Dot(object, name),
        ExprP::Identifier(name) => Assignable::Name(assigned(name)),
        other => Assignable::No(other),
    }
}

/// Expressions, all targets, as such.
#[cycle(conversion)]
fn several(alloc: Global, xs: Vec<AstExpr>) -> Result<Vec<AstAssignTarget>, AllocError>
    requires { targets.targets_fault (items_of xs.items) ≡ None }
    ensures { IfOk result (λ ts. targets_of ts.items ≡ targets.targets_of (items_of xs.items)) }
{
    let mut rest = xs;
    rest.reverse();
    let mut done = Vec::new(alloc);
    while let Some(x) = rest.pop() {
        let (more, left) = with_target(done, target(alloc, x), rest)?;
        done = more;
        rest = left;
    }
    discard_exprs(rest);
    Ok(done)
}

/// Targets with one more that was made, and the expressions that waited for it. Where it was not made all are let go.
fn with_target(
    done: Vec<AstAssignTarget>,
    made: Result<AstAssignTarget, AllocError>,
    waiting: Vec<AstExpr>,
) -> Result<(Vec<AstAssignTarget>, Vec<AstExpr>), AllocError>
    ensures more { IfOk result (λ b. (x : _) × (made ≡ Ok x) × (b.0.items ≡ done.items ++ x ∷ [])) }
    ensures waiting { IfOk result (λ b. b.1 ≡ waiting) }
{
    let mut done = done;
    let pushed = match made {
        Ok(x) => done.push(x),
        Err(e) => {
            discard_targets(done);
            discard_exprs(waiting);
            return Err(e);
        }
    };
    match pushed {
        Ok(()) => Ok((done, waiting)),
        Err(failed) => {
            discard_target(failed.value);
            discard_targets(done);
            discard_exprs(waiting);
            Err(AllocError)
        }
    }
}

/// An identifier that is assigned.
fn assigned(x: AstIdent) -> AstAssignIdent
    ensures { ident_at result ≡ name_at (string_bytes x.node.ident) x.span }
{
    let Spanned { span, node } = x;
    let IdentP { ident, payload } = node;
    Spanned {
        span,
        node: AssignIdentP { ident, payload },
    }
}

/// The first member that is no target, at its place: `InvalidLhs` (docs/LANGUAGE.md, Rules).
#[cycle(target)]
pub fn target_fault<P: AstPayload>(x: &AstExprP<P>) -> Option<Spanned<Rule>>
    ensures { maybe_finding result ≡ targets.target_fault (expr_at x.now) }
{
    match &x.node {
        ExprP::Tuple(xs) => targets_fault(xs),
        ExprP::List(xs) => targets_fault(xs),
        ExprP::Identifier(_) => None,
        ExprP::Dot(_, _) => None,
        ExprP::Index(_) => None,
        _ => Some(Spanned {
            span: x.span,
            node: Rule::InvalidLhs,
        }),
    }
}

/// The first of all members.
#[cycle(target)]
fn targets_fault<P: AstPayload>(xs: &[AstExprP<P>]) -> Option<Spanned<Rule>>
    ensures { maybe_finding result ≡ targets.targets_fault (items_of xs.now) }
{
    for x in xs {
        if let Some(found) = target_fault(x) {
            return Some(found);
        }
    }
    None
}
