//! Clones of what stands at a place: of all that can be made again, of names and of texts.

ghost use Rattle.std.specs.Prelude.{◌≡◌, string_bytes};
ghost use Rattle.starlark_ast.specs.View.{text_at};

use crate::clone_tree::CloneTree;
use crate::copies;
use starlark_ast::ast::{AssignIdent, AssignIdentP, AstNoPayload, AstString, Ident, IdentP};
use starlark_place::pos::Spanned;
use std::alloc::{AllocError, Global};

/// At the same place. So what is plain data at each place, as a statement is, is the same plain data at its own.
impl<T: CloneTree> CloneTree for Spanned<T> {
    ghost same = { λ x y. (x.span ≡ y.span) × T.same x.node y.node };

    fn clone(&self, alloc: Global) -> Result<Spanned<T>, AllocError> {
        let node = self.node.clone(alloc)?;
        Ok(Spanned {
            span: self.span,
            node,
        })
    }
}

/// By the `clone` of the type, so that an identifier at a place has one too.
impl CloneTree for IdentP<AstNoPayload> {
    ghost same = { λ x y. string_bytes x.ident ≡ string_bytes y.ident };

    fn clone(&self, alloc: Global) -> Result<Ident, AllocError> {
        self.clone(alloc)
    }
}

/// By the `clone` of the type, so that an identifier at a place has one too.
impl CloneTree for AssignIdentP<AstNoPayload> {
    ghost same = { λ x y. string_bytes x.ident ≡ string_bytes y.ident };

    fn clone(&self, alloc: Global) -> Result<AssignIdent, AllocError> {
        self.clone(alloc)
    }
}

/// At the same place. A text alone has the `clone` of `std`, and a second one beside it could not be told from it.
impl CloneTree for AstString {
    ghost same = { λ x y. text_at x ≡ text_at y };

    fn clone(&self, alloc: Global) -> Result<AstString, AllocError> {
        copies::text_at(alloc, self)
    }
}
