//! Copies of names and texts with their places, and values in boxes.

ghost use Rattle.std.specs.Prelude.{◌≡◌, IfOk, string_bytes};

use starlark_ast::ast::{AstAssignIdent, AstIdent, AstString};
use starlark_place::pos::Spanned;
use std::alloc::{AllocError, Global};

/// The same text at the same place.
pub(crate) fn text_at(alloc: Global, x: &AstString) -> Result<AstString, AllocError>
    ensures bytes { IfOk result (λ y. string_bytes y.node ≡ string_bytes x.now.node) }
    ensures place { IfOk result (λ y. y.span ≡ x.now.span) }
{
    let node = String::from_str(alloc, x.node.as_str())?;
    Ok(Spanned { span: x.span, node })
}

/// The same identifier at the same place.
pub(crate) fn identifier(alloc: Global, x: &AstIdent) -> Result<AstIdent, AllocError>
    ensures bytes { IfOk result (λ y. string_bytes y.node.ident ≡ string_bytes x.now.node.ident) }
    ensures place { IfOk result (λ y. y.span ≡ x.now.span) }
{
    let node = x.node.clone(alloc)?;
    Ok(Spanned { span: x.span, node })
}

/// The same identifier, which is assigned, at the same place.
pub(crate) fn assigned(alloc: Global, x: &AstAssignIdent) -> Result<AstAssignIdent, AllocError>
    ensures bytes { IfOk result (λ y. string_bytes y.node.ident ≡ string_bytes x.now.node.ident) }
    ensures place { IfOk result (λ y. y.span ≡ x.now.span) }
{
    let node = x.node.clone(alloc)?;
    Ok(Spanned { span: x.span, node })
}

/// The value in a box.
pub(crate) fn boxed_value<T: Drop>(alloc: Global, x: T) -> Result<Box<T>, AllocError>
    ensures { IfOk result (λ b. b.value ≡ x) }
{
    Ok(Box::new(alloc, x)?)
}
