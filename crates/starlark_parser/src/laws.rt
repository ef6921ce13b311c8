//! Laws of what is compared and copied.

ghost use Rattle.std.specs.Prelude.{◌≡◌, ◌↔◌, true};

use crate::fault::ParserErrorKind;

/// Kinds of reasons are equal where they are one, and a clone is always made and is the kind itself.
pub fn kinds_compare()
    ensures equal { (x y : ParserErrorKind) → (⟦<ParserErrorKind as PartialEq>⟧.eq x y ≡ true) ↔ (x ≡ y) }
    ensures cloned { (x y : ParserErrorKind) → ⟦<ParserErrorKind as Clone>⟧.is_clone x y → y ≡ x }
    ensures always { (x : ParserErrorKind) → ⟦<ParserErrorKind as Clone>⟧.is_infallible x }
{}
