//! Clones of statements and of what holds statements.

ghost use Rattle.std.specs.Prelude.{◌≡◌};
ghost use Rattle.starlark_place.specs.Place.{Extent};
ghost use Rattle.starlark_ast.specs.View.{assign_view, def_view, for_view, stmt_view};

use crate::again_statements::{assign_parts, def_parts, for_parts, statement};
use crate::clone_tree::CloneTree;
use crate::kept::Kept;
use crate::rename::Unchanged;
use starlark_ast::ast::{AssignP, AstNoPayload, DefP, ForP, Stmt, StmtP};
use std::alloc::{AllocError, Global};

impl CloneTree for StmtP<AstNoPayload> {
    ghost same = { λ x y. (s : Extent) → stmt_view x s ≡ stmt_view y s };

    fn clone(&self, alloc: Global) -> Result<Stmt, AllocError> {
        Ok(statement::<Kept, Unchanged>(alloc, &Unchanged, self)?)
    }
}

impl CloneTree for AssignP<AstNoPayload> {
    ghost same = { λ x y. (s : Extent) → assign_view x s ≡ assign_view y s };

    fn clone(&self, alloc: Global) -> Result<AssignP<AstNoPayload>, AllocError> {
        let (lhs, ty, rhs) = assign_parts::<Kept, Unchanged>(alloc, &Unchanged, self)?;
        Ok(AssignP { lhs, ty, rhs })
    }
}

impl CloneTree for ForP<AstNoPayload> {
    ghost same = { λ x y. (s : Extent) → for_view x s ≡ for_view y s };

    fn clone(&self, alloc: Global) -> Result<ForP<AstNoPayload>, AllocError> {
        let (var, over, body) = for_parts::<Kept, Unchanged>(alloc, &Unchanged, self)?;
        Ok(ForP { var, over, body })
    }
}

impl CloneTree for DefP<AstNoPayload> {
    ghost same = { λ x y. (s : Extent) → def_view x s ≡ def_view y s };

    fn clone(&self, alloc: Global) -> Result<DefP<AstNoPayload>, AllocError> {
        let (name, params, return_type, body) = def_parts::<Kept, Unchanged>(
            alloc, &Unchanged, self,
        )?;
        Ok(DefP {
            name,
            params,
            return_type,
            body,
            payload: (),
        })
    }
}
