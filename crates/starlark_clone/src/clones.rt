//! Clones of expressions and of what stands in them.

ghost use Rattle.std.specs.Prelude.{◌≡◌};
ghost use Rattle.starlark_place.specs.Place.{Extent};
ghost use Rattle.starlark_ast.specs.View.{argument_view, call_args_view, clause_view, expr_view, for_clause_view, fstring_view, lambda_view, parameter_view, target_view, type_view};

use crate::again::{
    annotation, argument, arguments, clause, expression, f_string_parts, for_clause, lambda_parts,
    parameter, target,
};
use crate::clone_tree::CloneTree;
use crate::kept::Kept;
use crate::rename::Unchanged;
use starlark_ast::ast::{
    Argument, ArgumentP, AssignTarget, AssignTargetP, AstNoPayload, CallArgsP, Clause, ClauseP,
    Expr, ExprP, FStringP, ForClause, ForClauseP, LambdaP, Parameter, ParameterP, TypeExpr,
    TypeExprP,
};
use starlark_place::pos::{Pos, Span};
use std::alloc::{AllocError, Global};

impl CloneTree for ExprP<AstNoPayload> {
    ghost same = { λ x y. (s : Extent) → expr_view x s ≡ expr_view y s };

    fn clone(&self, alloc: Global) -> Result<Expr, AllocError> {
        let nowhere = Span::new(Pos::new(0), Pos::new(0));
        Ok(expression::<Kept, Unchanged>(alloc, &Unchanged, self, nowhere)?)
    }
}

impl CloneTree for ArgumentP<AstNoPayload> {
    ghost same = { λ x y. (s : Extent) → argument_view x s ≡ argument_view y s };

    fn clone(&self, alloc: Global) -> Result<Argument, AllocError> {
        Ok(argument::<Kept, Unchanged>(alloc, &Unchanged, self)?)
    }
}

impl CloneTree for CallArgsP<AstNoPayload> {
    ghost same = { λ x y. call_args_view x ≡ call_args_view y };

    fn clone(&self, alloc: Global) -> Result<CallArgsP<AstNoPayload>, AllocError> {
        let args = arguments::<Kept, Unchanged>(alloc, &Unchanged, &self.args)?;
        Ok(CallArgsP { args })
    }
}

impl CloneTree for ParameterP<AstNoPayload> {
    ghost same = { λ x y. (s : Extent) → parameter_view x s ≡ parameter_view y s };

    fn clone(&self, alloc: Global) -> Result<Parameter, AllocError> {
        Ok(parameter::<Kept, Unchanged>(alloc, &Unchanged, self)?)
    }
}

impl CloneTree for LambdaP<AstNoPayload> {
    ghost same = { λ x y. (s : Extent) → lambda_view x s ≡ lambda_view y s };

    fn clone(&self, alloc: Global) -> Result<LambdaP<AstNoPayload>, AllocError> {
        let (params, body) = lambda_parts::<Kept, Unchanged>(alloc, &Unchanged, self)?;
        Ok(LambdaP {
            params,
            body,
            payload: (),
        })
    }
}

impl CloneTree for FStringP<AstNoPayload> {
    ghost same = { λ x y. (u s : Extent) → fstring_view x u s ≡ fstring_view y u s };

    fn clone(&self, alloc: Global) -> Result<FStringP<AstNoPayload>, AllocError> {
        let (format, expressions) = f_string_parts::<Kept, Unchanged>(alloc, &Unchanged, self)?;
        Ok(FStringP {
            format,
            expressions,
        })
    }
}

impl CloneTree for TypeExprP<AstNoPayload> {
    ghost same = { λ x y. (s : Extent) → type_view x s ≡ type_view y s };

    fn clone(&self, alloc: Global) -> Result<TypeExpr, AllocError> {
        Ok(annotation::<Kept, Unchanged>(alloc, &Unchanged, self)?)
    }
}

impl CloneTree for AssignTargetP<AstNoPayload> {
    ghost same = { λ x y. (s : Extent) → target_view x s ≡ target_view y s };

    fn clone(&self, alloc: Global) -> Result<AssignTarget, AllocError> {
        Ok(target::<Kept, Unchanged>(alloc, &Unchanged, self)?)
    }
}

impl CloneTree for ForClauseP<AstNoPayload> {
    ghost same = { λ x y. for_clause_view x ≡ for_clause_view y };

    fn clone(&self, alloc: Global) -> Result<ForClause, AllocError> {
        Ok(for_clause::<Kept, Unchanged>(alloc, &Unchanged, self)?)
    }
}

impl CloneTree for ClauseP<AstNoPayload> {
    ghost same = { λ x y. clause_view x ≡ clause_view y };

    fn clone(&self, alloc: Global) -> Result<Clause, AllocError> {
        Ok(clause::<Kept, Unchanged>(alloc, &Unchanged, self)?)
    }
}
