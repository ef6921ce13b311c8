//! Expressions that are kept, without payload.

ghost use Rattle.std.specs.Prelude.{◌≡◌, IfOk, true, string_bytes};
ghost use Rattle.starlark_ast.specs.Tree as tree;
ghost use Rattle.starlark_ast.specs.View.{argument_at, clause_view, expr_at, members, parameter_at};
ghost use Rattle.starlark_grammar.specs.Made.{bound_of, clauses_of, goes_over, items_of, pairs_of};

use crate::boxes::{
    boxed, boxed_both, boxed_first, boxed_with_three, maybe_boxed_first, or_dropped,
};
use crate::parts::{assigned, for_clause, for_part, place_of, signed};
use starlark_ast::ast::{
    ArgumentP, AstArgument, AstExpr, AstLiteral, AstParameter, BinOp, CallArgsP, Clause, ClauseP,
    ExprP, FStringP, IdentP, LambdaP, ParameterP,
};
use starlark_grammar::make::{Make, Sign};
use starlark_lexer::token::TokenInt;
use starlark_place::pos::{Span, Spanned};
use starlark_rulebook::rule::Rule;
use starlark_rules::assign;
use std::alloc::{AllocError, Global};

/// Keeps trees.
pub struct Trees;

impl Make for Trees {
    ghost use Rattle.starlark_ast.specs.View.{argument_at, clause_view, expr_at, parameter_at};

    type Expr = AstExpr;

    ghost means = { expr_at };

    fn place(x: &AstExpr) -> Span {
        place_of(x)
    }

    fn name(name: String, span: Span) -> AstExpr {
        let node = IdentP {
            ident: name,
            payload: (),
        };
        let node = ExprP::Identifier(Spanned { span, node });
        Spanned { span, node }
    }

    fn int(value: TokenInt, span: Span) -> AstExpr {
        let value = Spanned { span, node: value };
        let node = ExprP::Literal(AstLiteral::Int(value));
        Spanned { span, node }
    }

    fn float(text: String, span: Span) -> AstExpr {
        let text = Spanned { span, node: text };
        let node = ExprP::Literal(AstLiteral::Float(text));
        Spanned { span, node }
    }

    fn string(text: String, span: Span) -> AstExpr {
        let text = Spanned { span, node: text };
        let node = ExprP::Literal(AstLiteral::String(text));
        Spanned { span, node }
    }

    fn bytes(bytes: Vec<u8>, span: Span) -> AstExpr {
        let bytes = Spanned { span, node: bytes };
        let node = ExprP::Literal(AstLiteral::Bytes(bytes));
        Spanned { span, node }
    }

    fn ellipsis(span: Span) -> AstExpr {
        let node = ExprP::Literal(AstLiteral::Ellipsis);
        Spanned { span, node }
    }

    fn tuple(members: Vec<AstExpr>, span: Span) -> AstExpr
        ensures { expr_at result ≡ tree.tuple (items_of expr_at members.items) span }
    {
        let node = ExprP::Tuple(members);
        Spanned { span, node }
    }

    fn list(members: Vec<AstExpr>, span: Span) -> AstExpr
        ensures { expr_at result ≡ tree.list (items_of expr_at members.items) span }
    {
        let node = ExprP::List(members);
        Spanned { span, node }
    }

    fn dict(members: Vec<(AstExpr, AstExpr)>, span: Span) -> AstExpr
        ensures { expr_at result ≡ tree.dict (pairs_of expr_at members.items) span }
    {
        let node = ExprP::Dict(members);
        Spanned { span, node }
    }

    fn target_fault(x: &AstExpr) -> Option<Spanned<Rule>> {
        assign::target_fault(x)
    }

    type Clause = Clause;

    ghost clause_means = { clause_view };

    fn for_clause(alloc: Global, target: AstExpr, over: AstExpr) -> Result<Clause, AllocError> {
        let (var, over) = or_dropped(assign::target(alloc, target), over)?;
        Ok(for_clause(var, over))
    }

    fn if_clause(condition: AstExpr) -> Clause {
        ClauseP::If(condition)
    }

    fn list_comprehension(
        alloc: Global,
        member: AstExpr,
        first: Clause,
        rest: Vec<Clause>,
        span: Span,
    ) -> Result<AstExpr, AllocError>
        requires { goes_over (clause_view first) ≡ true }
        ensures { IfOk result (λ x. expr_at x ≡ tree.comprehension (tree.item (expr_at member)) (clauses_of (clause_view first) clause_view rest.items) span) }
    {
        let (member, first, rest) = boxed_both(alloc, member, for_part(first), rest)?;
        let node = ExprP::ListComprehension(member, first, rest);
        Ok(Spanned { span, node })
    }

    fn dict_comprehension(
        alloc: Global,
        member: (AstExpr, AstExpr),
        first: Clause,
        rest: Vec<Clause>,
        span: Span,
    ) -> Result<AstExpr, AllocError>
        requires { goes_over (clause_view first) ≡ true }
        ensures { IfOk result (λ x. expr_at x ≡ tree.comprehension (tree.pair (expr_at member.0) (expr_at member.1)) (clauses_of (clause_view first) clause_view rest.items) span) }
    {
        let (member, first, rest) = boxed_both(alloc, member, for_part(first), rest)?;
        let node = ExprP::DictComprehension(member, first, rest);
        Ok(Spanned { span, node })
    }

    fn dot(
        alloc: Global,
        object: AstExpr,
        attribute: Spanned<String>,
        span: Span,
    ) -> Result<AstExpr, AllocError> {
        let (object, attribute) = boxed_first(alloc, object, attribute)?;
        let node = ExprP::Dot(object, attribute);
        Ok(Spanned { span, node })
    }

    type Argument = AstArgument;

    ghost argument_means = { argument_at };

    fn positional(value: AstExpr, span: Span) -> AstArgument {
        let node = ArgumentP::Positional(value);
        Spanned { span, node }
    }

    fn named(name: Spanned<String>, value: AstExpr, span: Span) -> AstArgument {
        let node = ArgumentP::Named(name, value);
        Spanned { span, node }
    }

    fn args(value: AstExpr, span: Span) -> AstArgument {
        let node = ArgumentP::Args(value);
        Spanned { span, node }
    }

    fn kwargs(value: AstExpr, span: Span) -> AstArgument {
        let node = ArgumentP::KwArgs(value);
        Spanned { span, node }
    }

    fn call(
        alloc: Global,
        callee: AstExpr,
        arguments: Vec<AstArgument>,
        span: Span,
    ) -> Result<AstExpr, AllocError>
        ensures { IfOk result (λ x. expr_at x ≡ tree.call (expr_at callee) (members argument_at arguments.items) span) }
    {
        let (callee, args) = boxed_first(alloc, callee, arguments)?;
        let node = ExprP::Call(callee, CallArgsP { args });
        Ok(Spanned { span, node })
    }

    fn index(
        alloc: Global,
        object: AstExpr,
        index: AstExpr,
        span: Span,
    ) -> Result<AstExpr, AllocError> {
        let node = ExprP::Index(boxed(alloc, (object, index))?);
        Ok(Spanned { span, node })
    }

    fn index_of_two(
        alloc: Global,
        object: AstExpr,
        first: AstExpr,
        second: AstExpr,
        span: Span,
    ) -> Result<AstExpr, AllocError> {
        let node = ExprP::Index2(boxed(alloc, (object, first, second))?);
        Ok(Spanned { span, node })
    }

    fn slice(
        alloc: Global,
        object: AstExpr,
        start: Option<AstExpr>,
        stop: Option<AstExpr>,
        step: Option<AstExpr>,
        span: Span,
    ) -> Result<AstExpr, AllocError>
        ensures { IfOk result (λ x. expr_at x ≡ tree.index (expr_at object) (tree.slice (bound_of expr_at start) (bound_of expr_at stop) (bound_of expr_at step)) span) }
    {
        let (object, start, stop, step) = boxed_with_three(alloc, object, start, stop, step)?;
        let node = ExprP::Slice(object, start, stop, step);
        Ok(Spanned { span, node })
    }

    fn signed(
        alloc: Global,
        sign: Sign,
        operand: AstExpr,
        span: Span,
    ) -> Result<AstExpr, AllocError> {
        let operand = boxed(alloc, operand)?;
        Ok(signed(sign, operand, span))
    }

    fn operation(
        alloc: Global,
        left: AstExpr,
        op: BinOp,
        right: AstExpr,
        span: Span,
    ) -> Result<AstExpr, AllocError> {
        let (left, right, op) = boxed_both(alloc, left, right, op)?;
        let node = ExprP::Op(left, op, right);
        Ok(Spanned { span, node })
    }

    fn choice(
        alloc: Global,
        condition: AstExpr,
        value: AstExpr,
        otherwise: AstExpr,
        span: Span,
    ) -> Result<AstExpr, AllocError> {
        let node = ExprP::If(boxed(alloc, (condition, value, otherwise))?);
        Ok(Spanned { span, node })
    }

    fn f_string(format: String, fields: Vec<AstExpr>, span: Span) -> AstExpr
        ensures { expr_at result ≡ tree.fstring (string_bytes format) span (items_of expr_at fields.items) span span }
    {
        let node = FStringP {
            format: Spanned { span, node: format },
            expressions: fields,
        };
        let node = ExprP::FString(Spanned { span, node });
        Spanned { span, node }
    }

    type Parameter = AstParameter;

    ghost parameter_means = { parameter_at };

    fn slash(span: Span) -> AstParameter {
        let node = ParameterP::Slash;
        Spanned { span, node }
    }

    fn no_args(span: Span) -> AstParameter {
        let node = ParameterP::NoArgs;
        Spanned { span, node }
    }

    fn parameter(
        alloc: Global,
        name: Spanned<String>,
        default: Option<AstExpr>,
        span: Span,
    ) -> Result<AstParameter, AllocError>
        ensures { IfOk result (λ p. parameter_at p ≡ tree.parameter tree.plain (string_bytes name.node) name.span tree.untyped (bound_of expr_at default) span) }
    {
        let (default, name) = maybe_boxed_first(alloc, default, name)?;
        let node = ParameterP::Normal(assigned(name), None, default);
        Ok(Spanned { span, node })
    }

    fn args_parameter(name: Spanned<String>, span: Span) -> AstParameter {
        let node = ParameterP::Args(assigned(name), None);
        Spanned { span, node }
    }

    fn kwargs_parameter(name: Spanned<String>, span: Span) -> AstParameter {
        let node = ParameterP::KwArgs(assigned(name), None);
        Spanned { span, node }
    }

    fn lambda(
        alloc: Global,
        parameters: Vec<AstParameter>,
        body: AstExpr,
        span: Span,
    ) -> Result<AstExpr, AllocError>
        ensures { IfOk result (λ x. expr_at x ≡ tree.lambda (members parameter_at parameters.items) (expr_at body) span) }
    {
        let (body, params) = boxed_first(alloc, body, parameters)?;
        let node = ExprP::Lambda(LambdaP {
            params,
            body,
            payload: (),
        });
        Ok(Spanned { span, node })
    }
}
