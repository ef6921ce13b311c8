//! Maps of statements and of what they assign.

ghost use Rattle.std.specs.Prelude.{◌≡◌, map};
ghost use Rattle.starlark_ast.specs.View.{assign_view, def_view, for_view, load_view, stmt_view, target_view};
ghost use Rattle.starlark_payload.specs.Mapped.{Maps, held, seen};
ghost use Rattle.starlark_payload.specs.Payloads.{all_of, assign_payloads, both_of, def_payloads, for_payloads, gives, load_payloads, stmt_payloads, target_payloads};
ghost use Rattle.starlark_payload.specs.StatementWeights as form;
ghost use Rattle.starlark_payload.specs.StatementsAround.{both_seen};
ghost use Rattle.starlark_payload.specs.declared.statement_nodes.StmtShape.TheVariants as shape;

use crate::boxes::{boxed, opened};
use crate::mapping::{boxed_expression, maybe_boxed_type, parameters, target};
use crate::names::assigned;
use crate::payload_map::{AstPayloadFunction, IntoMapPayload};
use crate::single::{maybe, maybe_type, placed};
use crate::statement_nodes::{Plain, StmtShape};
use crate::statement_openers as openers;
use crate::statement_shapes::stmt_shape;
use starlark_ast::ast::{
    AssignP, AstAssignTargetP, AstPayload, AstStmtP, DefP, ForP, LoadP, StmtP,
};
use starlark_place::pos::Spanned;
use std::alloc::{AllocError, Global};

/// A target at its place.
pub(crate) fn placed_target<A: AstPayload, B: AstPayload, F: AstPayloadFunction<A, B>>(
    alloc: Global,
    x: AstAssignTargetP<A>,
    f: &mut F,
) -> Result<AstAssignTargetP<B>, AllocError>
    ensures { Maps (gives F.gives_load F.gives_ident F.gives_ident_assign F.gives_def F.gives_type_expr) f.old (target_payloads x.node) (seen target_view x) f.new (λ y. target_payloads y.node) (seen target_view) result }
{
    let Spanned { span, node } = x;
    let node = target(alloc, node, f)?;
    Ok(Spanned { span, node })
}

/// The target, the type, then the right side.
pub(crate) fn assign<A: AstPayload, B: AstPayload, F: AstPayloadFunction<A, B>>(
    alloc: Global,
    x: AssignP<A>,
    f: &mut F,
) -> Result<AssignP<B>, AllocError>
    ensures { Maps (gives F.gives_load F.gives_ident F.gives_ident_assign F.gives_def F.gives_type_expr) f.old (assign_payloads x) (assign_view x) f.new (assign_payloads) (assign_view) result }
{
    let AssignP { lhs, ty, rhs } = x;
    let lhs = placed_target(alloc, lhs, f)?;
    let ty = maybe_type(alloc, ty, f)?;
    let rhs = placed(alloc, rhs, f)?;
    Ok(AssignP { lhs, ty, rhs })
}

/// The load's own, then what it binds.
fn load<A: AstPayload, B: AstPayload, F: AstPayloadFunction<A, B>>(
    alloc: Global,
    x: LoadP<A>,
    f: &mut F,
) -> Result<LoadP<B>, AllocError>
    ensures { Maps (gives F.gives_load F.gives_ident F.gives_ident_assign F.gives_def F.gives_type_expr) f.old (load_payloads x) (load_view x) f.new (load_payloads) (load_view) result }
{
    let parts: LoadP<B> = x.into_map_payload(alloc, f)?;
    Ok(parts)
}

/// A statement.
#[cycle(statements)]
pub(crate) fn statement<A: AstPayload, B: AstPayload, F: AstPayloadFunction<A, B>>(
    alloc: Global,
    x: StmtP<A>,
    f: &mut F,
) -> Result<StmtP<B>, AllocError>
    ensures { Maps (gives F.gives_load F.gives_ident F.gives_ident_assign F.gives_def F.gives_type_expr) f.old (stmt_payloads x) (stmt_view x) f.new (stmt_payloads) (stmt_view) result }
{
    match stmt_shape(&x) {
        StmtShape::Plain => match openers::open_plain(x) {
            Plain::Break => Ok(StmtP::Break),
            Plain::Continue => Ok(StmtP::Continue),
            Plain::Pass => Ok(StmtP::Pass),
        },
        StmtShape::Return => {
            let value = maybe(alloc, openers::open_return(x), f)?;
            Ok(StmtP::Return(value))
        }
        StmtShape::Expression => {
            let value = placed(alloc, openers::open_expression(x), f)?;
            Ok(StmtP::Expression(value))
        }
        StmtShape::Assign => {
            let parts = assign(alloc, openers::open_assign(x), f)?;
            Ok(StmtP::Assign(parts))
        }
        StmtShape::AssignModify => {
            let (lhs, op, rhs) = openers::open_modify(x);
            let lhs = placed_target(alloc, lhs, f)?;
            let rhs = boxed_expression(alloc, rhs, f)?;
            Ok(StmtP::AssignModify(lhs, op, rhs))
        }
        StmtShape::Statements => {
            let xs = statements(alloc, openers::open_statements(x), f)?;
            Ok(StmtP::Statements(xs))
        }
        StmtShape::If => {
            let made = branch(alloc, x, f)?;
            Ok(made)
        }
        StmtShape::IfElse => {
            let made = branches(alloc, x, f)?;
            Ok(made)
        }
        StmtShape::For => {
            let parts = for_loop(alloc, openers::open_for(x), f)?;
            Ok(StmtP::For(parts))
        }
        StmtShape::Def => {
            let parts = def(alloc, openers::open_def(x), f)?;
            Ok(StmtP::Def(parts))
        }
        StmtShape::Load => {
            let parts = load(alloc, openers::open_load(x), f)?;
            Ok(StmtP::Load(parts))
        }
    }
}

/// The condition, then the body.
#[cycle(statements)]
fn branch<A: AstPayload, B: AstPayload, F: AstPayloadFunction<A, B>>(
    alloc: Global,
    x: StmtP<A>,
    f: &mut F,
) -> Result<StmtP<B>, AllocError>
    requires { form.stmt_shape x ≡ shape.If }
    ensures { Maps (gives F.gives_load F.gives_ident F.gives_ident_assign F.gives_def F.gives_type_expr) f.old (stmt_payloads x) (stmt_view x) f.new (stmt_payloads) (stmt_view) result }
{
    let StmtP::If(condition, body) = x else {
        unreachable!()
    };
    let condition = placed(alloc, condition, f)?;
    let body = suite(alloc, body, f)?;
    Ok(StmtP::If(condition, body))
}

/// The condition, then both bodies.
#[cycle(statements)]
fn branches<A: AstPayload, B: AstPayload, F: AstPayloadFunction<A, B>>(
    alloc: Global,
    x: StmtP<A>,
    f: &mut F,
) -> Result<StmtP<B>, AllocError>
    requires { form.stmt_shape x ≡ shape.IfElse }
    ensures { Maps (gives F.gives_load F.gives_ident F.gives_ident_assign F.gives_def F.gives_type_expr) f.old (stmt_payloads x) (stmt_view x) f.new (stmt_payloads) (stmt_view) result }
{
    let StmtP::IfElse(condition, bodies) = x else {
        unreachable!()
    };
    let condition = placed(alloc, condition, f)?;
    let bodies = suites(alloc, bodies, f)?;
    Ok(StmtP::IfElse(condition, bodies))
}

/// A statement in a box, at its place.
#[cycle(statements)]
fn suite<A: AstPayload, B: AstPayload, F: AstPayloadFunction<A, B>>(
    alloc: Global,
    x: Box<AstStmtP<A>>,
    f: &mut F,
) -> Result<Box<AstStmtP<B>>, AllocError>
    ensures { Maps (gives F.gives_load F.gives_ident F.gives_ident_assign F.gives_def F.gives_type_expr) f.old (stmt_payloads x.value.node) (seen stmt_view x.value) f.new (λ y. stmt_payloads y.value.node) (held (seen stmt_view)) result }
{
    let Spanned { span, node } = opened(x);
    let node = statement(alloc, node, f)?;
    boxed(alloc, Spanned { span, node })
}

/// The bodies of an `if` and of its `else`.
#[cycle(statements)]
fn suites<A: AstPayload, B: AstPayload, F: AstPayloadFunction<A, B>>(
    alloc: Global,
    x: Box<(AstStmtP<A>, AstStmtP<A>)>,
    f: &mut F,
) -> Result<Box<(AstStmtP<B>, AstStmtP<B>)>, AllocError>
    ensures { Maps (gives F.gives_load F.gives_ident F.gives_ident_assign F.gives_def F.gives_type_expr) f.old (both_of stmt_payloads x.value) (both_seen stmt_view x.value) f.new (held (both_of stmt_payloads)) (held (both_seen stmt_view)) result }
{
    let (x, y) = opened(x);
    let body = statement(alloc, x.node, f)?;
    let other = statement(alloc, y.node, f)?;
    let x = Spanned {
        span: x.span,
        node: body,
    };
    let y = Spanned {
        span: y.span,
        node: other,
    };
    boxed(alloc, (x, y))
}

/// Statements, from the first to the last.
#[cycle(statements)]
fn statements<A: AstPayload, B: AstPayload, F: AstPayloadFunction<A, B>>(
    alloc: Global,
    xs: Vec<AstStmtP<A>>,
    f: &mut F,
) -> Result<Vec<AstStmtP<B>>, AllocError>
    ensures { Maps (gives F.gives_load F.gives_ident F.gives_ident_assign F.gives_def F.gives_type_expr) f.old (all_of stmt_payloads xs.items) (map (seen stmt_view) xs.items) f.new (λ ys. all_of stmt_payloads ys.items) (λ ys. map (seen stmt_view) ys.items) result }
{
    let mut rest = xs;
    rest.reverse();
    let mut done = Vec::new(alloc);
    while let Some(x) = rest.pop() {
        let Spanned { span, node } = x;
        let node = statement(alloc, node, f)?;
        done.push(Spanned { span, node })?;
    }
    Ok(done)
}

/// The target, what is gone over, then the body.
#[cycle(statements)]
pub(crate) fn for_loop<A: AstPayload, B: AstPayload, F: AstPayloadFunction<A, B>>(
    alloc: Global,
    x: ForP<A>,
    f: &mut F,
) -> Result<ForP<B>, AllocError>
    ensures { Maps (gives F.gives_load F.gives_ident F.gives_ident_assign F.gives_def F.gives_type_expr) f.old (for_payloads x) (for_view x) f.new (for_payloads) (for_view) result }
{
    let ForP { var, over, body } = x;
    let var = placed_target(alloc, var, f)?;
    let over = placed(alloc, over, f)?;
    let body = suite(alloc, body, f)?;
    Ok(ForP { var, over, body })
}

/// The name, the parameters, the type, the body, then its own payload.
#[cycle(statements)]
fn def<A: AstPayload, B: AstPayload, F: AstPayloadFunction<A, B>>(
    alloc: Global,
    x: DefP<A>,
    f: &mut F,
) -> Result<DefP<B>, AllocError>
    ensures { Maps (gives F.gives_load F.gives_ident F.gives_ident_assign F.gives_def F.gives_type_expr) f.old (def_payloads x) (def_view x) f.new (def_payloads) (def_view) result }
{
    let DefP {
        name,
        params,
        return_type,
        body,
        payload,
    } = x;
    let name = assigned(name, f);
    let params = parameters(alloc, params, f)?;
    let return_type = maybe_boxed_type(alloc, return_type, f)?;
    let body = suite(alloc, body, f)?;
    let payload = f.map_def(payload);
    Ok(DefP {
        name,
        params,
        return_type,
        body,
        payload,
    })
}
