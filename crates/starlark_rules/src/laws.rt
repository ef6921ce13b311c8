//! Laws of what is compared and copied.

ghost use Rattle.std.specs.Prelude.{◌≡◌, ◌++◌, ◌↔◌, true};
ghost use Rattle.std.specs.Hash as fed;
ghost use Rattle.std.specs.Ordering.{nat_cmp, on, then_cmp};

use crate::def::{DefParamIndices, DefRegularParamMode};
use std::hash::Hash;

/// Modes of parameters are equal where they are one, and a clone is always made and is the mode itself.
pub fn modes_compare()
    ensures equal { (x y : DefRegularParamMode) → (⟦<DefRegularParamMode as PartialEq>⟧.eq x y ≡ true) ↔ (x ≡ y) }
    ensures cloned { (x y : DefRegularParamMode) → ⟦<DefRegularParamMode as Clone>⟧.is_clone x y → y ≡ x }
    ensures always { (x : DefRegularParamMode) → ⟦<DefRegularParamMode as Clone>⟧.is_infallible x }
{}

/// Indices of parameters are equal, ordered and hashed by their fields, from the first to the last, and a clone is always
/// made and has the same.
pub fn indices_compare()
    ensures equal { (x y : DefParamIndices) → (⟦<DefParamIndices as PartialEq>⟧.eq x y ≡ true) ↔ (x ≡ y) }
    ensures ordered { (x y : DefParamIndices) → ⟦<DefParamIndices as Ord>⟧.cmp x y ≡ then_cmp (on (λ x. x.num_positional) nat_cmp) (then_cmp (on (λ x. x.num_positional_only) nat_cmp) (then_cmp (on (λ x. x.args) ⟦<Option<u32> as Ord>⟧.cmp) (on (λ x. x.kwargs) ⟦<Option<u32> as Ord>⟧.cmp))) x y }
    ensures hashed { (x : DefParamIndices) → ⟦<DefParamIndices as Hash>⟧.hash_input x ≡ fed.u32 x.num_positional ++ (fed.u32 x.num_positional_only ++ (⟦<Option<u32> as Hash>⟧.hash_input x.args ++ ⟦<Option<u32> as Hash>⟧.hash_input x.kwargs)) }
    ensures cloned { (x y : DefParamIndices) → ⟦<DefParamIndices as Clone>⟧.is_clone x y → y ≡ x }
    ensures always { (x : DefParamIndices) → ⟦<DefParamIndices as Clone>⟧.is_infallible x }
{}
