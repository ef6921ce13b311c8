//! The nodes of real trees, made.

ghost use Rattle.std.specs.Prelude.{◌≡◌, ◌++◌, ◌+◌, [], ◌∷◌, flat_map, map, string_bytes};
ghost use Rattle.std.specs.Option.{option_map};
ghost use Rattle.starlark_ast.specs.Tree as tree;
ghost use Rattle.starlark_ast.specs.View.{argument_view, assigned_view, clause_view, expr_view, for_clause_view, ident_view, literal_view, members, parameter_of, parameter_view, target_view, type_view};
ghost use Rattle.starlark_payload.specs.Around.{annotation_of, argument_of, both_at, both_view, bound_of, clauses_of, index_of, many_view, marker_of, one_view, same_member, stars_of, three_at, three_view};
ghost use Rattle.starlark_payload.specs.Mapped.{seen};
ghost use Rattle.starlark_payload.specs.Payloads.{OfDef, OfType, all_of, argument_payloads, assigned_payloads, both_of, clause_payloads, expr_payloads, for_clause_payloads, ident_payloads, maybe_of, parameter_payloads, target_payloads, three_of, type_payloads};
ghost use Rattle.starlark_payload.specs.Weights.{unboxed};
ghost use Rattle.starlark_payload.specs.declared.nodes.ParameterShape.TheVariants as parameter;

use crate::nodes::{AroundArgument, AroundMany, AroundOne, AroundThree, Marker, Starred};
use starlark_ast::ast::{
    ArgumentP, AssignTargetP, AstArgumentP, AstAssignIdentP, AstAssignTargetP, AstExprP, AstIdentP,
    AstLiteral, AstParameterP, AstPayload, AstString, AstTypeExprP, BinOp, CallArgsP, ClauseP,
    ExprP, FStringP, ForClauseP, LambdaP, ParameterP, TypeExprP,
};
use starlark_place::pos::Spanned;

pub(crate) fn literal<P: AstPayload>(x: AstLiteral) -> ExprP<P>
    ensures kept { expr_view result ≡ literal_view x }
    ensures payloads { expr_payloads result ≡ [] }
{
    ExprP::Literal(x)
}

pub(crate) fn name<P: AstPayload>(x: AstIdentP<P>) -> ExprP<P>
    ensures kept { expr_view result ≡ ident_view x }
    ensures payloads { expr_payloads result ≡ ident_payloads x.node }
{
    ExprP::Identifier(x)
}

pub(crate) fn one<P: AstPayload>(around: AroundOne, x: Box<AstExprP<P>>) -> ExprP<P>
    ensures kept { expr_view result ≡ one_view around (seen expr_view x.value) }
    ensures payloads { expr_payloads result ≡ expr_payloads x.value.node }
{
    match around {
        AroundOne::Dot(name) => ExprP::Dot(x, name),
        AroundOne::Not => ExprP::Not(x),
        AroundOne::Minus => ExprP::Minus(x),
        AroundOne::Plus => ExprP::Plus(x),
        AroundOne::BitNot => ExprP::BitNot(x),
    }
}

pub(crate) fn index<P: AstPayload>(pair: Box<(AstExprP<P>, AstExprP<P>)>) -> ExprP<P>
    ensures kept { expr_view result ≡ index_of (both_at expr_view pair.value) }
    ensures payloads { expr_payloads result ≡ both_of expr_payloads pair.value }
{
    ExprP::Index(pair)
}

pub(crate) fn operation<P: AstPayload>(
    x: Box<AstExprP<P>>,
    op: BinOp,
    y: Box<AstExprP<P>>,
) -> ExprP<P>
    ensures kept { expr_view result ≡ tree.operation (seen expr_view x.value) op (seen expr_view y.value) }
    ensures payloads { expr_payloads result ≡ expr_payloads x.value.node ++ expr_payloads y.value.node }
{
    ExprP::Op(x, op, y)
}

pub(crate) fn three<P: AstPayload>(
    around: AroundThree,
    all: Box<(AstExprP<P>, AstExprP<P>, AstExprP<P>)>,
) -> ExprP<P>
    ensures kept { expr_view result ≡ three_view around (three_at expr_view all.value) }
    ensures payloads { expr_payloads result ≡ three_of expr_payloads all.value }
{
    match around {
        AroundThree::Index2 => ExprP::Index2(all),
        AroundThree::If => ExprP::If(all),
    }
}

pub(crate) fn slice<P: AstPayload>(
    x: Box<AstExprP<P>>,
    a: Option<Box<AstExprP<P>>>,
    b: Option<Box<AstExprP<P>>>,
    c: Option<Box<AstExprP<P>>>,
) -> ExprP<P>
    ensures kept { expr_view result ≡ tree.index (seen expr_view x.value) (tree.slice (bound_of (option_map (seen expr_view) (unboxed a))) (bound_of (option_map (seen expr_view) (unboxed b))) (bound_of (option_map (seen expr_view) (unboxed c)))) }
    ensures payloads { expr_payloads result ≡ expr_payloads x.value.node ++ (maybe_of expr_payloads (unboxed a) ++ (maybe_of expr_payloads (unboxed b) ++ maybe_of expr_payloads (unboxed c))) }
{
    ExprP::Slice(x, a, b, c)
}

pub(crate) fn many<P: AstPayload>(around: AroundMany, xs: Vec<AstExprP<P>>) -> ExprP<P>
    ensures kept { expr_view result ≡ many_view around (map (λ y. expr_view y.node y.span) xs.items) }
    ensures payloads { expr_payloads result ≡ all_of expr_payloads xs.items }
{
    match around {
        AroundMany::Tuple => ExprP::Tuple(xs),
        AroundMany::List => ExprP::List(xs),
        AroundMany::FString(span, format) => {
            let node = FStringP {
                format,
                expressions: xs,
            };
            ExprP::FString(Spanned { span, node })
        }
    }
}

pub(crate) fn dict<P: AstPayload>(xs: Vec<(AstExprP<P>, AstExprP<P>)>) -> ExprP<P>
    ensures kept { expr_view result ≡ tree.dict (members both_view (map (both_at expr_view) xs.items)) }
    ensures payloads { expr_payloads result ≡ flat_map (both_of expr_payloads) xs.items }
{
    ExprP::Dict(xs)
}

pub(crate) fn argument<P: AstPayload>(around: AroundArgument, x: AstExprP<P>) -> ArgumentP<P>
    ensures kept { argument_view result ≡ argument_of around (expr_view x.node x.span) }
    ensures payloads { argument_payloads result ≡ expr_payloads x.node }
{
    match around {
        AroundArgument::Positional => ArgumentP::Positional(x),
        AroundArgument::Named(name) => ArgumentP::Named(name, x),
        AroundArgument::Args => ArgumentP::Args(x),
        AroundArgument::KwArgs => ArgumentP::KwArgs(x),
    }
}

pub(crate) fn call<P: AstPayload>(x: Box<AstExprP<P>>, args: Vec<AstArgumentP<P>>) -> ExprP<P>
    ensures kept { expr_view result ≡ tree.call (seen expr_view x.value) (members same_member (map (seen argument_view) args.items)) }
    ensures payloads { expr_payloads result ≡ expr_payloads x.value.node ++ all_of argument_payloads args.items }
{
    ExprP::Call(x, CallArgsP { args })
}

pub(crate) fn type_expr<P: AstPayload>(x: AstExprP<P>, payload: P::TypeExprPayload) -> TypeExprP<P>
    ensures kept { type_view result ≡ tree.typed (expr_view x.node x.span) }
    ensures payloads { type_payloads result ≡ expr_payloads x.node ++ OfType payload ∷ [] }
{
    TypeExprP { expr: x, payload }
}

pub(crate) fn marker<P: AstPayload>(x: Marker) -> ParameterP<P>
    ensures kept { parameter_view result ≡ marker_of x }
    ensures payloads { parameter_payloads result ≡ [] }
{
    match x {
        Marker::Slash => ParameterP::Slash,
        Marker::NoArgs => ParameterP::NoArgs,
    }
}

pub(crate) fn normal<P: AstPayload>(
    name: AstAssignIdentP<P>,
    ty: Option<Box<AstTypeExprP<P>>>,
    default: Option<Box<AstExprP<P>>>,
) -> ParameterP<P>
    ensures kept { parameter_view result ≡ parameter_of tree.plain name (annotation_of (option_map (seen type_view) (unboxed ty))) (bound_of (option_map (seen expr_view) (unboxed default))) }
    ensures payloads { parameter_payloads result ≡ assigned_payloads name.node ++ (maybe_of type_payloads (unboxed ty) ++ maybe_of expr_payloads (unboxed default)) }
{
    ParameterP::Normal(name, ty, default)
}

pub(crate) fn starred<P: AstPayload>(
    stars: Starred,
    name: AstAssignIdentP<P>,
    ty: Option<Box<AstTypeExprP<P>>>,
) -> ParameterP<P>
    ensures kept { parameter_view result ≡ parameter_of (stars_of stars) name (annotation_of (option_map (seen type_view) (unboxed ty))) tree.absent }
    ensures payloads { parameter_payloads result ≡ assigned_payloads name.node ++ maybe_of type_payloads (unboxed ty) }
{
    match stars {
        Starred::Args => ParameterP::Args(name, ty),
        Starred::KwArgs => ParameterP::KwArgs(name, ty),
    }
}

pub(crate) fn lambda<P: AstPayload>(
    params: Vec<AstParameterP<P>>,
    body: Box<AstExprP<P>>,
    payload: P::DefPayload,
) -> ExprP<P>
    ensures kept { expr_view result ≡ tree.lambda (members same_member (map (seen parameter_view) params.items)) (seen expr_view body.value) }
    ensures payloads { expr_payloads result ≡ all_of parameter_payloads params.items ++ (expr_payloads body.value.node ++ OfDef payload ∷ []) }
{
    ExprP::Lambda(LambdaP {
        params,
        body,
        payload,
    })
}

pub(crate) fn target_tuple<P: AstPayload>(xs: Vec<AstAssignTargetP<P>>) -> AssignTargetP<P>
    ensures kept { target_view result ≡ tree.tuple (members tree.item (map (λ y. target_view y.node y.span) xs.items)) }
    ensures payloads { target_payloads result ≡ all_of target_payloads xs.items }
{
    AssignTargetP::Tuple(xs)
}

pub(crate) fn target_index<P: AstPayload>(pair: Box<(AstExprP<P>, AstExprP<P>)>) -> AssignTargetP<P>
    ensures kept { target_view result ≡ index_of (both_at expr_view pair.value) }
    ensures payloads { target_payloads result ≡ both_of expr_payloads pair.value }
{
    AssignTargetP::Index(pair)
}

pub(crate) fn target_dot<P: AstPayload>(x: Box<AstExprP<P>>, name: AstString) -> AssignTargetP<P>
    ensures kept { target_view result ≡ tree.dot (seen expr_view x.value) (string_bytes name.node) name.span }
    ensures payloads { target_payloads result ≡ expr_payloads x.value.node }
{
    AssignTargetP::Dot(x, name)
}

pub(crate) fn target_name<P: AstPayload>(x: AstAssignIdentP<P>) -> AssignTargetP<P>
    ensures kept { target_view result ≡ assigned_view x }
    ensures payloads { target_payloads result ≡ assigned_payloads x.node }
{
    AssignTargetP::Identifier(x)
}

pub(crate) fn for_clause<P: AstPayload>(
    var: AstAssignTargetP<P>,
    over: AstExprP<P>,
) -> ForClauseP<P>
    ensures kept { for_clause_view result ≡ tree.for_clause (target_view var.node var.span) (expr_view over.node over.span) }
    ensures payloads { for_clause_payloads result ≡ target_payloads var.node ++ expr_payloads over.node }
{
    ForClauseP { var, over }
}

pub(crate) fn next_for<P: AstPayload>(x: ForClauseP<P>) -> ClauseP<P>
    ensures kept { clause_view result ≡ for_clause_view x }
    ensures payloads { clause_payloads result ≡ for_clause_payloads x }
{
    ClauseP::For(x)
}

pub(crate) fn filter<P: AstPayload>(x: AstExprP<P>) -> ClauseP<P>
    ensures kept { clause_view result ≡ tree.if_clause (expr_view x.node x.span) }
    ensures payloads { clause_payloads result ≡ expr_payloads x.node }
{
    ClauseP::If(x)
}

pub(crate) fn list_comprehension<P: AstPayload>(
    x: Box<AstExprP<P>>,
    first: Box<ForClauseP<P>>,
    rest: Vec<ClauseP<P>>,
) -> ExprP<P>
    ensures kept { expr_view result ≡ tree.comprehension (tree.item (seen expr_view x.value)) (clauses_of (for_clause_view first.value) (map clause_view rest.items)) }
    ensures payloads { expr_payloads result ≡ expr_payloads x.value.node ++ (for_clause_payloads first.value ++ flat_map clause_payloads rest.items) }
{
    ExprP::ListComprehension(x, first, rest)
}

pub(crate) fn dict_comprehension<P: AstPayload>(
    x: Box<(AstExprP<P>, AstExprP<P>)>,
    first: Box<ForClauseP<P>>,
    rest: Vec<ClauseP<P>>,
) -> ExprP<P>
    ensures kept { expr_view result ≡ tree.comprehension (both_view (both_at expr_view x.value)) (clauses_of (for_clause_view first.value) (map clause_view rest.items)) }
    ensures payloads { expr_payloads result ≡ both_of expr_payloads x.value ++ (for_clause_payloads first.value ++ flat_map clause_payloads rest.items) }
{
    ExprP::DictComprehension(x, first, rest)
}
