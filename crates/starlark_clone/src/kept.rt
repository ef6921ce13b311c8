//! Trees that are kept.

ghost use Rattle.std.specs.Option.{option_copied};
ghost use Rattle.std.specs.Prelude.{◌≡◌, IfOk, string_bytes};
ghost use Rattle.starlark_place.specs.Place.{Extent};
ghost use Rattle.starlark_clone.specs.Copies.{bound_by, clauses_by, items_by, members_by, pairs_by, seen, type_by};
ghost use Rattle.starlark_clone.specs.Replacing.{operated};
ghost use Rattle.starlark_ast.specs.Tree as tree;
ghost use Rattle.starlark_ast.specs.View.{argument_view, assigned_view, clause_view, expr_view, for_clause_view, ident_view, literal_view, parameter_of, parameter_view, target_view, type_view};

use crate::called::call_of_name;
use crate::make::Make;
use starlark_ast::ast::{
    Argument, ArgumentP, AssignTarget, AssignTargetP, AstAssignIdent, AstIdent, AstLiteral,
    AstString, BinOp, CallArgsP, Clause, ClauseP, Expr, ExprP, FStringP, ForClause, ForClauseP,
    LambdaP, Parameter, ParameterP, TypeExpr, TypeExprP,
};
use starlark_place::pos::{Span, Spanned};
use std::alloc::{AllocError, Global};

/// Makes trees without payload.
pub(crate) struct Kept;

impl Make for Kept {
    ghost use Rattle.starlark_ast.specs.View.{argument_view, clause_view, expr_view, for_clause_view, parameter_view, target_view, type_view};

    type Expr = Expr;

    ghost expr_means = { expr_view };

    type Target = AssignTarget;

    ghost target_means = { target_view };

    type ForClause = ForClause;

    ghost for_means = { for_clause_view };

    type Clause = Clause;

    ghost clause_means = { clause_view };

    type Argument = Argument;

    ghost argument_means = { argument_view };

    type Type = TypeExpr;

    ghost type_means = { type_view };

    type Parameter = Parameter;

    ghost parameter_means = { parameter_view };

    fn tuple(xs: Vec<Spanned<Expr>>) -> Expr
        ensures { (s : Extent) → expr_view result s ≡ tree.tuple (items_by expr_view xs.items) s }
    {
        ExprP::Tuple(xs)
    }

    fn list(xs: Vec<Spanned<Expr>>) -> Expr
        ensures { (s : Extent) → expr_view result s ≡ tree.list (items_by expr_view xs.items) s }
    {
        ExprP::List(xs)
    }

    fn dict(xs: Vec<(Spanned<Expr>, Spanned<Expr>)>) -> Expr
        ensures { (s : Extent) → expr_view result s ≡ tree.dict (pairs_by expr_view xs.items) s }
    {
        ExprP::Dict(xs)
    }

    fn dot(x: Box<Spanned<Expr>>, name: AstString) -> Expr
        ensures { (s : Extent) → expr_view result s ≡ tree.dot (seen expr_view x.value) (string_bytes name.node) name.span s }
    {
        ExprP::Dot(x, name)
    }

    fn call(x: Box<Spanned<Expr>>, args: Vec<Spanned<Argument>>) -> Expr
        ensures { (s : Extent) → expr_view result s ≡ tree.call (seen expr_view x.value) (members_by argument_view args.items) s }
    {
        ExprP::Call(x, CallArgsP { args })
    }

    fn index(x: Box<(Spanned<Expr>, Spanned<Expr>)>) -> Expr
        ensures { (s : Extent) → expr_view result s ≡ tree.index (seen expr_view x.value.0) (tree.single (seen expr_view x.value.1)) s }
    {
        ExprP::Index(x)
    }

    fn index_of_two(x: Box<(Spanned<Expr>, Spanned<Expr>, Spanned<Expr>)>) -> Expr
        ensures { (s : Extent) → expr_view result s ≡ tree.index (seen expr_view x.value.0) (tree.double (seen expr_view x.value.1) (seen expr_view x.value.2)) s }
    {
        ExprP::Index2(x)
    }

    fn slice(
        x: Box<Spanned<Expr>>,
        from: Option<Box<Spanned<Expr>>>,
        to: Option<Box<Spanned<Expr>>>,
        step: Option<Box<Spanned<Expr>>>,
    ) -> Expr
        ensures { (s : Extent) → expr_view result s ≡ tree.index (seen expr_view x.value) (tree.slice (bound_by expr_view from) (bound_by expr_view to) (bound_by expr_view step)) s }
    {
        ExprP::Slice(x, from, to, step)
    }

    fn identifier(x: AstIdent) -> Expr
        ensures { (s : Extent) → expr_view result s ≡ ident_view x s }
    {
        ExprP::Identifier(x)
    }

    fn literal(x: AstLiteral) -> Expr
        ensures { (s : Extent) → expr_view result s ≡ literal_view x s }
    {
        ExprP::Literal(x)
    }

    fn lambda(params: Vec<Spanned<Parameter>>, body: Box<Spanned<Expr>>) -> Expr
        ensures { (s : Extent) → expr_view result s ≡ tree.lambda (members_by parameter_view params.items) (seen expr_view body.value) s }
    {
        ExprP::Lambda(LambdaP {
            params,
            body,
            payload: (),
        })
    }

    fn not(x: Box<Spanned<Expr>>) -> Expr
        ensures { (s : Extent) → expr_view result s ≡ tree.signed tree.Not (seen expr_view x.value) s }
    {
        ExprP::Not(x)
    }

    fn minus(x: Box<Spanned<Expr>>) -> Expr
        ensures { (s : Extent) → expr_view result s ≡ tree.signed tree.Minus (seen expr_view x.value) s }
    {
        ExprP::Minus(x)
    }

    fn plus(x: Box<Spanned<Expr>>) -> Expr
        ensures { (s : Extent) → expr_view result s ≡ tree.signed tree.Plus (seen expr_view x.value) s }
    {
        ExprP::Plus(x)
    }

    fn bit_not(x: Box<Spanned<Expr>>) -> Expr
        ensures { (s : Extent) → expr_view result s ≡ tree.signed tree.BitNot (seen expr_view x.value) s }
    {
        ExprP::BitNot(x)
    }

    fn operation(
        alloc: Global,
        x: Box<Spanned<Expr>>,
        op: BinOp,
        y: Box<Spanned<Expr>>,
        called: Option<&str>,
        span: Span,
    ) -> Result<Expr, AllocError>
        ensures { IfOk result (λ z. expr_view z span ≡ operated (option_copied called.entry) (seen expr_view x.value) op (seen expr_view y.value) span) }
    {
        match called {
            None => Ok(ExprP::Op(x, op, y)),
            Some(name) => Ok(call_of_name(alloc, name, x, y, span)?),
        }
    }

    fn choice(x: Box<(Spanned<Expr>, Spanned<Expr>, Spanned<Expr>)>) -> Expr
        ensures { (s : Extent) → expr_view result s ≡ tree.choice (seen expr_view x.value.0) (seen expr_view x.value.1) (seen expr_view x.value.2) s }
    {
        ExprP::If(x)
    }

    fn list_comprehension(x: Box<Spanned<Expr>>, first: Box<ForClause>, rest: Vec<Clause>) -> Expr
        ensures { (s : Extent) → expr_view result s ≡ tree.comprehension (tree.item (seen expr_view x.value)) (clauses_by (for_clause_view first.value) clause_view rest.items) s }
    {
        ExprP::ListComprehension(x, first, rest)
    }

    fn dict_comprehension(
        x: Box<(Spanned<Expr>, Spanned<Expr>)>,
        first: Box<ForClause>,
        rest: Vec<Clause>,
    ) -> Expr
        ensures { (s : Extent) → expr_view result s ≡ tree.comprehension (tree.pair (seen expr_view x.value.0) (seen expr_view x.value.1)) (clauses_by (for_clause_view first.value) clause_view rest.items) s }
    {
        ExprP::DictComprehension(x, first, rest)
    }

    fn f_string(format: AstString, fields: Vec<Spanned<Expr>>, span: Span) -> Expr
        ensures { (s : Extent) → expr_view result s ≡ tree.fstring (string_bytes format.node) format.span (items_by expr_view fields.items) span s }
    {
        let node = FStringP {
            format,
            expressions: fields,
        };
        ExprP::FString(Spanned { span, node })
    }

    fn target_tuple(xs: Vec<Spanned<AssignTarget>>) -> AssignTarget
        ensures { (s : Extent) → target_view result s ≡ tree.tuple (items_by target_view xs.items) s }
    {
        AssignTargetP::Tuple(xs)
    }

    fn target_index(x: Box<(Spanned<Expr>, Spanned<Expr>)>) -> AssignTarget
        ensures { (s : Extent) → target_view result s ≡ tree.index (seen expr_view x.value.0) (tree.single (seen expr_view x.value.1)) s }
    {
        AssignTargetP::Index(x)
    }

    fn target_dot(x: Box<Spanned<Expr>>, name: AstString) -> AssignTarget
        ensures { (s : Extent) → target_view result s ≡ tree.dot (seen expr_view x.value) (string_bytes name.node) name.span s }
    {
        AssignTargetP::Dot(x, name)
    }

    fn target_name(x: AstAssignIdent) -> AssignTarget
        ensures { (s : Extent) → target_view result s ≡ assigned_view x s }
    {
        AssignTargetP::Identifier(x)
    }

    fn for_clause(var: Spanned<AssignTarget>, over: Spanned<Expr>) -> ForClause
        ensures { for_clause_view result ≡ tree.for_clause (seen target_view var) (seen expr_view over) }
    {
        ForClauseP { var, over }
    }

    fn next_for(x: ForClause) -> Clause
        ensures { clause_view result ≡ for_clause_view x }
    {
        ClauseP::For(x)
    }

    fn if_clause(x: Spanned<Expr>) -> Clause
        ensures { clause_view result ≡ tree.if_clause (seen expr_view x) }
    {
        ClauseP::If(x)
    }

    fn positional(x: Spanned<Expr>) -> Argument
        ensures { (s : Extent) → argument_view result s ≡ tree.positional (seen expr_view x) s }
    {
        ArgumentP::Positional(x)
    }

    fn named(name: AstString, x: Spanned<Expr>) -> Argument
        ensures { (s : Extent) → argument_view result s ≡ tree.named (string_bytes name.node) name.span (seen expr_view x) s }
    {
        ArgumentP::Named(name, x)
    }

    fn args(x: Spanned<Expr>) -> Argument
        ensures { (s : Extent) → argument_view result s ≡ tree.args (seen expr_view x) s }
    {
        ArgumentP::Args(x)
    }

    fn kwargs(x: Spanned<Expr>) -> Argument
        ensures { (s : Extent) → argument_view result s ≡ tree.kwargs (seen expr_view x) s }
    {
        ArgumentP::KwArgs(x)
    }

    fn annotation(x: Spanned<Expr>) -> TypeExpr
        ensures { (s : Extent) → type_view result s ≡ tree.typed (seen expr_view x) s }
    {
        TypeExprP {
            expr: x,
            payload: (),
        }
    }

    fn slash() -> Parameter
        ensures { (s : Extent) → parameter_view result s ≡ tree.slash s }
    {
        ParameterP::Slash
    }

    fn no_args() -> Parameter
        ensures { (s : Extent) → parameter_view result s ≡ tree.no_args s }
    {
        ParameterP::NoArgs
    }

    fn parameter(
        name: AstAssignIdent,
        ty: Option<Box<Spanned<TypeExpr>>>,
        default: Option<Box<Spanned<Expr>>>,
    ) -> Parameter
        ensures { (s : Extent) → parameter_view result s ≡ parameter_of tree.plain name (type_by type_view ty) (bound_by expr_view default) s }
    {
        ParameterP::Normal(name, ty, default)
    }

    fn args_parameter(name: AstAssignIdent, ty: Option<Box<Spanned<TypeExpr>>>) -> Parameter
        ensures { (s : Extent) → parameter_view result s ≡ parameter_of tree.starred name (type_by type_view ty) tree.absent s }
    {
        ParameterP::Args(name, ty)
    }

    fn kwargs_parameter(name: AstAssignIdent, ty: Option<Box<Spanned<TypeExpr>>>) -> Parameter
        ensures { (s : Extent) → parameter_view result s ≡ parameter_of tree.double_starred name (type_by type_view ty) tree.absent s }
    {
        ParameterP::KwArgs(name, ty)
    }
}
