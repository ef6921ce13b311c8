//! Laws of what is compared and copied.

ghost use Rattle.std.specs.Prelude.{◌≡◌, ◌↔◌, true};

use crate::cost::Cost;

/// Costs are equal where both counts are, and a clone is always made and has the same.
pub fn costs_compare()
    ensures equal { (x y : Cost) → (⟦<Cost as PartialEq>⟧.eq x y ≡ true) ↔ (x ≡ y) }
    ensures cloned { (x y : Cost) → ⟦<Cost as Clone>⟧.is_clone x y → y ≡ x }
    ensures always { (x : Cost) → ⟦<Cost as Clone>⟧.is_infallible x }
{}
