//! Statements of trees, opened.

ghost use Rattle.std.specs.Prelude.{◌≡◌, ◌++◌, suc, Some, [], map};
ghost use Rattle.std.specs.Option.{option_map};
ghost use Rattle.starlark_ast.specs.Tree as tree;
ghost use Rattle.starlark_ast.specs.View.{assign_view, def_view, expr_view, for_view, load_view, stmt_view, target_view};
ghost use Rattle.starlark_payload.specs.StatementsAround.{plain_view, sequence_of};
ghost use Rattle.starlark_payload.specs.Mapped.{seen};
ghost use Rattle.starlark_payload.specs.Payloads.{all_of, assign_payloads, def_payloads, expr_payloads, for_payloads, load_payloads, maybe_of, stmt_payloads, target_payloads};
ghost use Rattle.starlark_payload.specs.StatementWeights.{def_weight, for_weight, stmt_shape, stmt_weight};
ghost use Rattle.starlark_payload.specs.Weights.{node_weight, total};
ghost use Rattle.starlark_payload.specs.declared.statement_nodes.StmtShape.TheVariants as shape;

use crate::statement_nodes::Plain;
use starlark_ast::ast::{
    AssignOp, AssignP, AstAssignTargetP, AstExprP, AstPayload, AstStmtP, DefP, ForP, LoadP, StmtP,
};

pub(crate) fn open_plain<P: AstPayload>(x: StmtP<P>) -> Plain
    requires { stmt_shape x ≡ shape.Plain }
    ensures kept { stmt_view x ≡ plain_view result }
    ensures payloads { stmt_payloads x ≡ [] }
{
    match x {
        StmtP::Break => Plain::Break,
        StmtP::Continue => Plain::Continue,
        StmtP::Pass => Plain::Pass,
        _ => unreachable!(),
    }
}

pub(crate) fn open_return<P: AstPayload>(x: StmtP<P>) -> Option<AstExprP<P>>
    requires { stmt_shape x ≡ shape.Return }
    ensures kept { stmt_view x ≡ tree.return (option_map (seen expr_view) result) }
    ensures payloads { stmt_payloads x ≡ maybe_of expr_payloads result }
{
    let StmtP::Return(x) = x else { unreachable!() };
    x
}

pub(crate) fn open_expression<P: AstPayload>(x: StmtP<P>) -> AstExprP<P>
    requires { stmt_shape x ≡ shape.Expression }
    ensures kept { stmt_view x ≡ tree.expression (seen expr_view result) }
    ensures payloads { stmt_payloads x ≡ expr_payloads result.node }
{
    let StmtP::Expression(x) = x else {
        unreachable!()
    };
    x
}

pub(crate) fn open_assign<P: AstPayload>(x: StmtP<P>) -> AssignP<P>
    requires { stmt_shape x ≡ shape.Assign }
    ensures kept { stmt_view x ≡ assign_view result }
    ensures payloads { stmt_payloads x ≡ assign_payloads result }
{
    let StmtP::Assign(x) = x else { unreachable!() };
    x
}

pub(crate) fn open_modify<P: AstPayload>(
    x: StmtP<P>,
) -> (AstAssignTargetP<P>, AssignOp, Box<AstExprP<P>>)
    requires { stmt_shape x ≡ shape.AssignModify }
    ensures kept { stmt_view x ≡ tree.assign (seen target_view result.0) tree.untyped (Some result.1) (seen expr_view result.2.value) }
    ensures payloads { stmt_payloads x ≡ target_payloads result.0.node ++ expr_payloads result.2.value.node }
{
    let StmtP::AssignModify(lhs, op, rhs) = x else {
        unreachable!()
    };
    (lhs, op, rhs)
}

pub(crate) fn open_statements<P: AstPayload>(x: StmtP<P>) -> Vec<AstStmtP<P>>
    requires { stmt_shape x ≡ shape.Statements }
    ensures kept { stmt_view x ≡ tree.block (sequence_of (map (seen stmt_view) result.items)) }
    ensures payloads { stmt_payloads x ≡ all_of stmt_payloads result.items }
    ensures weight { stmt_weight x ≡ suc (total (node_weight stmt_weight) result.items) }
{
    let StmtP::Statements(xs) = x else {
        unreachable!()
    };
    xs
}

pub(crate) fn open_for<P: AstPayload>(x: StmtP<P>) -> ForP<P>
    requires { stmt_shape x ≡ shape.For }
    ensures kept { stmt_view x ≡ for_view result }
    ensures payloads { stmt_payloads x ≡ for_payloads result }
    ensures weight { stmt_weight x ≡ suc (for_weight result) }
{
    let StmtP::For(x) = x else { unreachable!() };
    x
}

pub(crate) fn open_def<P: AstPayload>(x: StmtP<P>) -> DefP<P>
    requires { stmt_shape x ≡ shape.Def }
    ensures kept { stmt_view x ≡ def_view result }
    ensures payloads { stmt_payloads x ≡ def_payloads result }
    ensures weight { stmt_weight x ≡ suc (def_weight result) }
{
    let StmtP::Def(x) = x else { unreachable!() };
    x
}

pub(crate) fn open_load<P: AstPayload>(x: StmtP<P>) -> LoadP<P>
    requires { stmt_shape x ≡ shape.Load }
    ensures kept { stmt_view x ≡ load_view result }
    ensures payloads { stmt_payloads x ≡ load_payloads result }
{
    let StmtP::Load(x) = x else { unreachable!() };
    x
}
