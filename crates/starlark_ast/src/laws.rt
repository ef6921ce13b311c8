//! Laws of what is compared and copied.

ghost use Rattle.std.specs.Prelude.{◌≡◌, ◌↔◌, ◌&&◌, true};

use crate::ast::{
    AssignIdentP, AssignOp, AstNoPayload, AstPayload, BinOp, Comma, IdentP, Visibility,
};

/// Operators and visibilities are equal where they are one.
pub fn operators_compare()
    ensures operators { (x y : BinOp) → (⟦<BinOp as PartialEq>⟧.eq x y ≡ true) ↔ (x ≡ y) }
    ensures assigning { (x y : AssignOp) → (⟦<AssignOp as PartialEq>⟧.eq x y ≡ true) ↔ (x ≡ y) }
    ensures visibilities { (x y : Visibility) → (⟦<Visibility as PartialEq>⟧.eq x y ≡ true) ↔ (x ≡ y) }
    ensures payloads { (x y : AstNoPayload) → ⟦<AstNoPayload as PartialEq>⟧.eq x y ≡ true }
{}

/// A name is equal to another where the text and the payload are.
pub fn names_compare<P: AstPayload + PartialEq>(x: &IdentP<P>, y: &IdentP<P>) -> bool
where
    P::IdentPayload: PartialEq,
    ensures equal { result ≡ ⟦<IdentP<P> as PartialEq>⟧.eq x.now y.now }
    ensures parts { result ≡ (⟦<String as PartialEq>⟧.eq x.now.ident y.now.ident && P.IdentPayload.eq x.now.payload y.now.payload) }
{
    *x == *y
}

/// So is a name that is assigned.
pub fn assigned_names_compare<P: AstPayload + PartialEq>(
    x: &AssignIdentP<P>,
    y: &AssignIdentP<P>,
) -> bool
where
    P::IdentAssignPayload: PartialEq,
    ensures equal { result ≡ ⟦<AssignIdentP<P> as PartialEq>⟧.eq x.now y.now }
    ensures parts { result ≡ (⟦<String as PartialEq>⟧.eq x.now.ident y.now.ident && P.IdentAssignPayload.eq x.now.payload y.now.payload) }
{
    *x == *y
}

/// The clone of what is copied is itself.
pub fn clones_are_copies()
    ensures operators { (x y : BinOp) → ⟦<BinOp as Clone>⟧.is_clone x y → y ≡ x }
    ensures assigning { (x y : AssignOp) → ⟦<AssignOp as Clone>⟧.is_clone x y → y ≡ x }
    ensures visibilities { (x y : Visibility) → ⟦<Visibility as Clone>⟧.is_clone x y → y ≡ x }
    ensures payloads { (x y : AstNoPayload) → ⟦<AstNoPayload as Clone>⟧.is_clone x y → y ≡ x }
    ensures commas { (x y : Comma) → ⟦<Comma as Clone>⟧.is_clone x y → y ≡ x }
{}

/// The clone of what is copied is made whatever memory there is.
pub fn clones_succeed()
    ensures operators { (x : BinOp) → ⟦<BinOp as Clone>⟧.is_infallible x }
    ensures assigning { (x : AssignOp) → ⟦<AssignOp as Clone>⟧.is_infallible x }
    ensures visibilities { (x : Visibility) → ⟦<Visibility as Clone>⟧.is_infallible x }
    ensures payloads { (x : AstNoPayload) → ⟦<AstNoPayload as Clone>⟧.is_infallible x }
    ensures commas { (x : Comma) → ⟦<Comma as Clone>⟧.is_infallible x }
{}
