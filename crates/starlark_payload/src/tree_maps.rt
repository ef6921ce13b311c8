//! Payload maps of expressions, and of what stands in them.

ghost use Rattle.std.specs.Prelude.{◌≡◌};
ghost use Rattle.starlark_ast.specs.View.{argument_view, clause_view, expr_view, for_clause_view, fstring_view, parameter_view, target_view, type_view};
ghost use Rattle.starlark_payload.specs.Payloads.{argument_payloads, clause_payloads, expr_payloads, for_clause_payloads, fstring_payloads, parameter_payloads, target_payloads, type_payloads};

use crate::f_strings::f_string;
use crate::mapping::{expression, parameter, target};
use crate::payload_map::{AstPayloadFunction, IntoMapPayload};
use crate::single::{argument, clause, for_clause, type_expr};
use starlark_ast::ast::{
    ArgumentP, AssignTargetP, AstPayload, ClauseP, ExprP, FStringP, ForClauseP, ParameterP,
    TypeExprP,
};
use std::alloc::{AllocError, Global};

impl<A: AstPayload, B: AstPayload> IntoMapPayload<A, B> for ExprP<A> {
    type Mapped = ExprP<B>;

    ghost keeps = { λ x y. expr_view y ≡ expr_view x };

    ghost payloads = { expr_payloads };

    ghost mapped_payloads = { expr_payloads };

    fn into_map_payload<F: AstPayloadFunction<A, B>>(
        self,
        alloc: Global,
        f: &mut F,
    ) -> Result<ExprP<B>, AllocError> {
        Ok(expression(alloc, self, f)?)
    }
}

impl<A: AstPayload, B: AstPayload> IntoMapPayload<A, B> for TypeExprP<A> {
    type Mapped = TypeExprP<B>;

    ghost keeps = { λ x y. type_view y ≡ type_view x };

    ghost payloads = { type_payloads };

    ghost mapped_payloads = { type_payloads };

    fn into_map_payload<F: AstPayloadFunction<A, B>>(
        self,
        alloc: Global,
        f: &mut F,
    ) -> Result<TypeExprP<B>, AllocError> {
        Ok(type_expr(alloc, self, f)?)
    }
}

impl<A: AstPayload, B: AstPayload> IntoMapPayload<A, B> for AssignTargetP<A> {
    type Mapped = AssignTargetP<B>;

    ghost keeps = { λ x y. target_view y ≡ target_view x };

    ghost payloads = { target_payloads };

    ghost mapped_payloads = { target_payloads };

    fn into_map_payload<F: AstPayloadFunction<A, B>>(
        self,
        alloc: Global,
        f: &mut F,
    ) -> Result<AssignTargetP<B>, AllocError> {
        Ok(target(alloc, self, f)?)
    }
}

impl<A: AstPayload, B: AstPayload> IntoMapPayload<A, B> for ParameterP<A> {
    type Mapped = ParameterP<B>;

    ghost keeps = { λ x y. parameter_view y ≡ parameter_view x };

    ghost payloads = { parameter_payloads };

    ghost mapped_payloads = { parameter_payloads };

    fn into_map_payload<F: AstPayloadFunction<A, B>>(
        self,
        alloc: Global,
        f: &mut F,
    ) -> Result<ParameterP<B>, AllocError> {
        Ok(parameter(alloc, self, f)?)
    }
}

impl<A: AstPayload, B: AstPayload> IntoMapPayload<A, B> for ArgumentP<A> {
    type Mapped = ArgumentP<B>;

    ghost keeps = { λ x y. argument_view y ≡ argument_view x };

    ghost payloads = { argument_payloads };

    ghost mapped_payloads = { argument_payloads };

    fn into_map_payload<F: AstPayloadFunction<A, B>>(
        self,
        alloc: Global,
        f: &mut F,
    ) -> Result<ArgumentP<B>, AllocError> {
        Ok(argument(alloc, self, f)?)
    }
}

impl<A: AstPayload, B: AstPayload> IntoMapPayload<A, B> for ClauseP<A> {
    type Mapped = ClauseP<B>;

    ghost keeps = { λ x y. clause_view y ≡ clause_view x };

    ghost payloads = { clause_payloads };

    ghost mapped_payloads = { clause_payloads };

    fn into_map_payload<F: AstPayloadFunction<A, B>>(
        self,
        alloc: Global,
        f: &mut F,
    ) -> Result<ClauseP<B>, AllocError> {
        Ok(clause(alloc, self, f)?)
    }
}

impl<A: AstPayload, B: AstPayload> IntoMapPayload<A, B> for ForClauseP<A> {
    type Mapped = ForClauseP<B>;

    ghost keeps = { λ x y. for_clause_view y ≡ for_clause_view x };

    ghost payloads = { for_clause_payloads };

    ghost mapped_payloads = { for_clause_payloads };

    fn into_map_payload<F: AstPayloadFunction<A, B>>(
        self,
        alloc: Global,
        f: &mut F,
    ) -> Result<ForClauseP<B>, AllocError> {
        Ok(for_clause(alloc, self, f)?)
    }
}

impl<A: AstPayload, B: AstPayload> IntoMapPayload<A, B> for FStringP<A> {
    type Mapped = FStringP<B>;

    ghost keeps = { λ x y. fstring_view y ≡ fstring_view x };

    ghost payloads = { fstring_payloads };

    ghost mapped_payloads = { fstring_payloads };

    fn into_map_payload<F: AstPayloadFunction<A, B>>(
        self,
        alloc: Global,
        f: &mut F,
    ) -> Result<FStringP<B>, AllocError> {
        Ok(f_string(alloc, self, f)?)
    }
}
