//! The nodes of real trees, opened.

ghost use Rattle.std.specs.Prelude.{◌≡◌, ◌++◌, ◌+◌, suc, [], ◌∷◌, flat_map, map, string_bytes};
ghost use Rattle.std.specs.Option.{option_map};
ghost use Rattle.starlark_ast.specs.Tree as tree;
ghost use Rattle.starlark_ast.specs.View.{argument_view, assigned_view, clause_view, expr_view, for_clause_view, ident_view, literal_view, members, parameter_of, parameter_view, target_view, type_view};
ghost use Rattle.starlark_payload.specs.Around.{annotation_of, argument_of, both_at, both_view, bound_of, clauses_of, index_of, many_view, marker_of, one_view, same_member, stars_of, three_at, three_view};
ghost use Rattle.starlark_payload.specs.Mapped.{seen};
ghost use Rattle.starlark_payload.specs.Payloads.{OfDef, OfType, all_of, argument_payloads, assigned_payloads, both_of, clause_payloads, expr_payloads, for_clause_payloads, ident_payloads, maybe_of, parameter_payloads, target_payloads, three_of, type_payloads};
ghost use Rattle.starlark_payload.specs.Weights.{argument_weight, both_weight, clause_shape, clause_weight, expr_shape, expr_weight, for_clause_weight, maybe_weight, node_weight, parameter_shape, parameter_weight, target_shape, target_weight, three_weight, total, type_weight, unboxed};
ghost use Rattle.starlark_payload.specs.declared.nodes.Shape.TheVariants as shape;
ghost use Rattle.starlark_payload.specs.declared.nodes.TargetShape.TheVariants as target;
ghost use Rattle.starlark_payload.specs.declared.nodes.ParameterShape.TheVariants as parameter;
ghost use Rattle.starlark_payload.specs.declared.nodes.ClauseShape.TheVariants as clause;

use crate::nodes::{AroundArgument, AroundMany, AroundOne, AroundThree, Marker, Starred};
use starlark_ast::ast::{
    ArgumentP, AssignTargetP, AstArgumentP, AstAssignIdentP, AstAssignTargetP, AstExprP, AstIdentP,
    AstLiteral, AstParameterP, AstPayload, AstString, AstTypeExprP, BinOp, CallArgsP, ClauseP,
    ExprP, FStringP, ForClauseP, LambdaP, ParameterP, TypeExprP,
};
use starlark_place::pos::Spanned;

pub(crate) fn open_literal<P: AstPayload>(x: ExprP<P>) -> AstLiteral
    requires { expr_shape x ≡ shape.Literal }
    ensures kept { expr_view x ≡ literal_view result }
    ensures payloads { expr_payloads x ≡ [] }
{
    let ExprP::Literal(x) = x else { unreachable!() };
    x
}

pub(crate) fn open_name<P: AstPayload>(x: ExprP<P>) -> AstIdentP<P>
    requires { expr_shape x ≡ shape.Name }
    ensures kept { expr_view x ≡ ident_view result }
    ensures payloads { expr_payloads x ≡ ident_payloads result.node }
{
    let ExprP::Identifier(x) = x else {
        unreachable!()
    };
    x
}

pub(crate) fn open_one<P: AstPayload>(x: ExprP<P>) -> (AroundOne, Box<AstExprP<P>>)
    requires { expr_shape x ≡ shape.One }
    ensures kept { expr_view x ≡ one_view result.0 (seen expr_view result.1.value) }
    ensures payloads { expr_payloads x ≡ expr_payloads result.1.value.node }
    ensures weight { expr_weight x ≡ suc (expr_weight result.1.value.node) }
{
    match x {
        ExprP::Dot(x, name) => (AroundOne::Dot(name), x),
        ExprP::Not(x) => (AroundOne::Not, x),
        ExprP::Minus(x) => (AroundOne::Minus, x),
        ExprP::Plus(x) => (AroundOne::Plus, x),
        ExprP::BitNot(x) => (AroundOne::BitNot, x),
        _ => unreachable!(),
    }
}

pub(crate) fn open_index<P: AstPayload>(x: ExprP<P>) -> Box<(AstExprP<P>, AstExprP<P>)>
    requires { expr_shape x ≡ shape.Index }
    ensures kept { expr_view x ≡ index_of (both_at expr_view result.value) }
    ensures payloads { expr_payloads x ≡ both_of expr_payloads result.value }
    ensures weight { expr_weight x ≡ suc (both_weight expr_weight result.value) }
{
    let ExprP::Index(pair) = x else {
        unreachable!()
    };
    pair
}

pub(crate) fn open_operation<P: AstPayload>(
    x: ExprP<P>,
) -> (Box<AstExprP<P>>, BinOp, Box<AstExprP<P>>)
    requires { expr_shape x ≡ shape.Operation }
    ensures kept { expr_view x ≡ tree.operation (seen expr_view result.0.value) result.1 (seen expr_view result.2.value) }
    ensures payloads { expr_payloads x ≡ expr_payloads result.0.value.node ++ expr_payloads result.2.value.node }
    ensures weight { expr_weight x ≡ suc (expr_weight result.0.value.node + expr_weight result.2.value.node) }
{
    let ExprP::Op(x, op, y) = x else {
        unreachable!()
    };
    (x, op, y)
}

pub(crate) fn open_three<P: AstPayload>(
    x: ExprP<P>,
) -> (AroundThree, Box<(AstExprP<P>, AstExprP<P>, AstExprP<P>)>)
    requires { expr_shape x ≡ shape.Three }
    ensures kept { expr_view x ≡ three_view result.0 (three_at expr_view result.1.value) }
    ensures payloads { expr_payloads x ≡ three_of expr_payloads result.1.value }
    ensures weight { expr_weight x ≡ suc (three_weight expr_weight result.1.value) }
{
    match x {
        ExprP::Index2(all) => (AroundThree::Index2, all),
        ExprP::If(all) => (AroundThree::If, all),
        _ => unreachable!(),
    }
}

pub(crate) fn open_slice<P: AstPayload>(
    x: ExprP<P>,
) -> (
    Box<AstExprP<P>>,
    Option<Box<AstExprP<P>>>,
    Option<Box<AstExprP<P>>>,
    Option<Box<AstExprP<P>>>,
)
    requires { expr_shape x ≡ shape.Slice }
    ensures kept { expr_view x ≡ tree.index (expr_view result.0.value.node result.0.value.span) (tree.slice (bound_of (option_map (λ y. expr_view y.node y.span) (unboxed result.1))) (bound_of (option_map (λ y. expr_view y.node y.span) (unboxed result.2))) (bound_of (option_map (λ y. expr_view y.node y.span) (unboxed result.3)))) }
    ensures payloads { expr_payloads x ≡ expr_payloads result.0.value.node ++ (maybe_of expr_payloads (unboxed result.1) ++ (maybe_of expr_payloads (unboxed result.2) ++ maybe_of expr_payloads (unboxed result.3))) }
    ensures weight { expr_weight x ≡ suc (expr_weight result.0.value.node + (maybe_weight expr_weight (unboxed result.1) + (maybe_weight expr_weight (unboxed result.2) + maybe_weight expr_weight (unboxed result.3)))) }
{
    let ExprP::Slice(x, a, b, c) = x else {
        unreachable!()
    };
    (x, a, b, c)
}

pub(crate) fn open_many<P: AstPayload>(x: ExprP<P>) -> (AroundMany, Vec<AstExprP<P>>)
    requires { expr_shape x ≡ shape.Many }
    ensures kept { expr_view x ≡ many_view result.0 (map (λ y. expr_view y.node y.span) result.1.items) }
    ensures payloads { expr_payloads x ≡ all_of expr_payloads result.1.items }
    ensures weight { expr_weight x ≡ suc (total (node_weight expr_weight) result.1.items) }
{
    match x {
        ExprP::Tuple(xs) => (AroundMany::Tuple, xs),
        ExprP::List(xs) => (AroundMany::List, xs),
        ExprP::FString(x) => {
            let Spanned { span, node } = x;
            let FStringP {
                format,
                expressions,
            } = node;
            (AroundMany::FString(span, format), expressions)
        }
        _ => unreachable!(),
    }
}

pub(crate) fn open_dict<P: AstPayload>(x: ExprP<P>) -> Vec<(AstExprP<P>, AstExprP<P>)>
    requires { expr_shape x ≡ shape.Dict }
    ensures kept { expr_view x ≡ tree.dict (members both_view (map (both_at expr_view) result.items)) }
    ensures payloads { expr_payloads x ≡ flat_map (both_of expr_payloads) result.items }
    ensures weight { expr_weight x ≡ suc (total (both_weight expr_weight) result.items) }
{
    let ExprP::Dict(xs) = x else { unreachable!() };
    xs
}

pub(crate) fn open_argument<P: AstPayload>(x: ArgumentP<P>) -> (AroundArgument, AstExprP<P>)
    ensures kept { argument_view x ≡ argument_of result.0 (expr_view result.1.node result.1.span) }
    ensures payloads { argument_payloads x ≡ expr_payloads result.1.node }
    ensures weight { argument_weight x ≡ suc (expr_weight result.1.node) }
{
    match x {
        ArgumentP::Positional(x) => (AroundArgument::Positional, x),
        ArgumentP::Named(name, x) => (AroundArgument::Named(name), x),
        ArgumentP::Args(x) => (AroundArgument::Args, x),
        ArgumentP::KwArgs(x) => (AroundArgument::KwArgs, x),
    }
}

pub(crate) fn open_call<P: AstPayload>(x: ExprP<P>) -> (Box<AstExprP<P>>, Vec<AstArgumentP<P>>)
    requires { expr_shape x ≡ shape.Call }
    ensures kept { expr_view x ≡ tree.call (expr_view result.0.value.node result.0.value.span) (members same_member (map (λ y. argument_view y.node y.span) result.1.items)) }
    ensures payloads { expr_payloads x ≡ expr_payloads result.0.value.node ++ all_of argument_payloads result.1.items }
    ensures weight { expr_weight x ≡ suc (expr_weight result.0.value.node + total (node_weight argument_weight) result.1.items) }
{
    let ExprP::Call(x, args) = x else {
        unreachable!()
    };
    let CallArgsP { args } = args;
    (x, args)
}

pub(crate) fn open_type_expr<P: AstPayload>(x: TypeExprP<P>) -> (AstExprP<P>, P::TypeExprPayload)
    ensures kept { type_view x ≡ tree.typed (expr_view result.0.node result.0.span) }
    ensures payloads { type_payloads x ≡ expr_payloads result.0.node ++ OfType result.1 ∷ [] }
    ensures weight { type_weight x ≡ suc (expr_weight result.0.node) }
{
    let TypeExprP { expr, payload } = x;
    (expr, payload)
}

pub(crate) fn open_marker<P: AstPayload>(x: ParameterP<P>) -> Marker
    requires { parameter_shape x ≡ parameter.Marker }
    ensures kept { parameter_view x ≡ marker_of result }
    ensures payloads { parameter_payloads x ≡ [] }
{
    match x {
        ParameterP::Slash => Marker::Slash,
        ParameterP::NoArgs => Marker::NoArgs,
        _ => unreachable!(),
    }
}

pub(crate) fn open_normal<P: AstPayload>(
    x: ParameterP<P>,
) -> (
    AstAssignIdentP<P>,
    Option<Box<AstTypeExprP<P>>>,
    Option<Box<AstExprP<P>>>,
)
    requires { parameter_shape x ≡ parameter.Normal }
    ensures kept { parameter_view x ≡ parameter_of tree.plain result.0 (annotation_of (option_map (λ y. type_view y.node y.span) (unboxed result.1))) (bound_of (option_map (λ y. expr_view y.node y.span) (unboxed result.2))) }
    ensures payloads { parameter_payloads x ≡ assigned_payloads result.0.node ++ (maybe_of type_payloads (unboxed result.1) ++ maybe_of expr_payloads (unboxed result.2)) }
    ensures weight { parameter_weight x ≡ suc (maybe_weight type_weight (unboxed result.1) + maybe_weight expr_weight (unboxed result.2)) }
{
    let ParameterP::Normal(name, ty, default) = x else {
        unreachable!()
    };
    (name, ty, default)
}

pub(crate) fn open_starred<P: AstPayload>(
    x: ParameterP<P>,
) -> (Starred, AstAssignIdentP<P>, Option<Box<AstTypeExprP<P>>>)
    requires { parameter_shape x ≡ parameter.Starred }
    ensures kept { parameter_view x ≡ parameter_of (stars_of result.0) result.1 (annotation_of (option_map (λ y. type_view y.node y.span) (unboxed result.2))) tree.absent }
    ensures payloads { parameter_payloads x ≡ assigned_payloads result.1.node ++ maybe_of type_payloads (unboxed result.2) }
    ensures weight { parameter_weight x ≡ suc (maybe_weight type_weight (unboxed result.2)) }
{
    match x {
        ParameterP::Args(name, ty) => (Starred::Args, name, ty),
        ParameterP::KwArgs(name, ty) => (Starred::KwArgs, name, ty),
        _ => unreachable!(),
    }
}

pub(crate) fn open_lambda<P: AstPayload>(
    x: ExprP<P>,
) -> (Vec<AstParameterP<P>>, Box<AstExprP<P>>, P::DefPayload)
    requires { expr_shape x ≡ shape.Lambda }
    ensures kept { expr_view x ≡ tree.lambda (members same_member (map (λ y. parameter_view y.node y.span) result.0.items)) (expr_view result.1.value.node result.1.value.span) }
    ensures payloads { expr_payloads x ≡ all_of parameter_payloads result.0.items ++ (expr_payloads result.1.value.node ++ OfDef result.2 ∷ []) }
    ensures weight { expr_weight x ≡ suc (total (node_weight parameter_weight) result.0.items + expr_weight result.1.value.node) }
{
    let ExprP::Lambda(x) = x else { unreachable!() };
    let LambdaP {
        params,
        body,
        payload,
    } = x;
    (params, body, payload)
}

pub(crate) fn open_target_tuple<P: AstPayload>(x: AssignTargetP<P>) -> Vec<AstAssignTargetP<P>>
    requires { target_shape x ≡ target.Tuple }
    ensures kept { target_view x ≡ tree.tuple (members tree.item (map (λ y. target_view y.node y.span) result.items)) }
    ensures payloads { target_payloads x ≡ all_of target_payloads result.items }
    ensures weight { target_weight x ≡ suc (total (node_weight target_weight) result.items) }
{
    let AssignTargetP::Tuple(xs) = x else {
        unreachable!()
    };
    xs
}

pub(crate) fn open_target_index<P: AstPayload>(
    x: AssignTargetP<P>,
) -> Box<(AstExprP<P>, AstExprP<P>)>
    requires { target_shape x ≡ target.Index }
    ensures kept { target_view x ≡ index_of (both_at expr_view result.value) }
    ensures payloads { target_payloads x ≡ both_of expr_payloads result.value }
    ensures weight { target_weight x ≡ suc (both_weight expr_weight result.value) }
{
    let AssignTargetP::Index(pair) = x else {
        unreachable!()
    };
    pair
}

pub(crate) fn open_target_dot<P: AstPayload>(x: AssignTargetP<P>) -> (Box<AstExprP<P>>, AstString)
    requires { target_shape x ≡ target.Dot }
    ensures kept { target_view x ≡ tree.dot (expr_view result.0.value.node result.0.value.span) (string_bytes result.1.node) result.1.span }
    ensures payloads { target_payloads x ≡ expr_payloads result.0.value.node }
    ensures weight { target_weight x ≡ suc (expr_weight result.0.value.node) }
{
    let AssignTargetP::Dot(x, name) = x else {
        unreachable!()
    };
    (x, name)
}

pub(crate) fn open_target_name<P: AstPayload>(x: AssignTargetP<P>) -> AstAssignIdentP<P>
    requires { target_shape x ≡ target.Name }
    ensures kept { target_view x ≡ assigned_view result }
    ensures payloads { target_payloads x ≡ assigned_payloads result.node }
{
    let AssignTargetP::Identifier(name) = x else {
        unreachable!()
    };
    name
}

pub(crate) fn open_for_clause<P: AstPayload>(x: ForClauseP<P>) -> (AstAssignTargetP<P>, AstExprP<P>)
    ensures kept { for_clause_view x ≡ tree.for_clause (target_view result.0.node result.0.span) (expr_view result.1.node result.1.span) }
    ensures payloads { for_clause_payloads x ≡ target_payloads result.0.node ++ expr_payloads result.1.node }
    ensures weight { for_clause_weight x ≡ suc (target_weight result.0.node + expr_weight result.1.node) }
{
    let ForClauseP { var, over } = x;
    (var, over)
}

pub(crate) fn open_next_for<P: AstPayload>(x: ClauseP<P>) -> ForClauseP<P>
    requires { clause_shape x ≡ clause.For }
    ensures kept { clause_view x ≡ for_clause_view result }
    ensures payloads { clause_payloads x ≡ for_clause_payloads result }
    ensures weight { clause_weight x ≡ suc (for_clause_weight result) }
{
    let ClauseP::For(x) = x else { unreachable!() };
    x
}

pub(crate) fn open_filter<P: AstPayload>(x: ClauseP<P>) -> AstExprP<P>
    requires { clause_shape x ≡ clause.If }
    ensures kept { clause_view x ≡ tree.if_clause (expr_view result.node result.span) }
    ensures payloads { clause_payloads x ≡ expr_payloads result.node }
    ensures weight { clause_weight x ≡ suc (expr_weight result.node) }
{
    let ClauseP::If(x) = x else { unreachable!() };
    x
}

pub(crate) fn open_list_comprehension<P: AstPayload>(
    x: ExprP<P>,
) -> (Box<AstExprP<P>>, Box<ForClauseP<P>>, Vec<ClauseP<P>>)
    requires { expr_shape x ≡ shape.ListComprehension }
    ensures kept { expr_view x ≡ tree.comprehension (tree.item (expr_view result.0.value.node result.0.value.span)) (clauses_of (for_clause_view result.1.value) (map clause_view result.2.items)) }
    ensures payloads { expr_payloads x ≡ expr_payloads result.0.value.node ++ (for_clause_payloads result.1.value ++ flat_map clause_payloads result.2.items) }
    ensures weight { expr_weight x ≡ suc (expr_weight result.0.value.node + (for_clause_weight result.1.value + total clause_weight result.2.items)) }
{
    let ExprP::ListComprehension(x, first, rest) = x else {
        unreachable!()
    };
    (x, first, rest)
}

pub(crate) fn open_dict_comprehension<P: AstPayload>(
    x: ExprP<P>,
) -> (
    Box<(AstExprP<P>, AstExprP<P>)>,
    Box<ForClauseP<P>>,
    Vec<ClauseP<P>>,
)
    requires { expr_shape x ≡ shape.DictComprehension }
    ensures kept { expr_view x ≡ tree.comprehension (both_view (both_at expr_view result.0.value)) (clauses_of (for_clause_view result.1.value) (map clause_view result.2.items)) }
    ensures payloads { expr_payloads x ≡ both_of expr_payloads result.0.value ++ (for_clause_payloads result.1.value ++ flat_map clause_payloads result.2.items) }
    ensures weight { expr_weight x ≡ suc (both_weight expr_weight result.0.value + (for_clause_weight result.1.value + total clause_weight result.2.items)) }
{
    let ExprP::DictComprehension(x, first, rest) = x else {
        unreachable!()
    };
    (x, first, rest)
}
