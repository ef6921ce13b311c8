//! Laws of edits and of outlines.

ghost use Rattle.std.specs.Prelude.{◌≡◌, ◌≤◌, ◌⊎◌, ◌↔◌, ℕ, List, length, true};
ghost use Rattle.starlark_lexer.specs.declared.dialect.Dialect.{Dialect};
ghost use Rattle.starlark_parts.specs.Edits.{Refuses, Takes};
ghost use Rattle.starlark_parts.specs.Kept.{Edit, edited, inserts, removes};
ghost use Rattle.starlark_parts.specs.Outlines.{IsOutline};
ghost use Rattle.starlark_parts.specs.declared.fault.PartFault.{PartFault};
ghost use Rattle.starlark_parts.specs.declared.word.OutlineItem.{OutlineItem};
ghost use Rattle.starlark_script.specs.Laws.{SayTheSame};

use crate::fault::{End, RunFault};
use starlark_grammar::text_laws::one_refusal;
use starlark_parts::laws;

/// A text has one outline at most.
pub fn one_outline()
    ensures { (dialect : Dialect) (text : List ℕ) (xs ys : List OutlineItem) → IsOutline dialect text xs → IsOutline dialect text ys → xs ≡ ys }
{
    laws::one_outline();
}

/// An edit that is taken may be refused for want of memory alone, and want of memory aside it is refused for one reason
/// at most.
pub fn taken_or_refused()
    ensures taken { (dialect : Dialect) (limit : ℕ) (texts : List (List ℕ)) (edit : Edit) (f : PartFault) → Takes dialect limit texts edit → Refuses dialect limit texts edit f → f ≡ PartFault.Memory }
    ensures one { (dialect : Dialect) (limit : ℕ) (texts : List (List ℕ)) (edit : Edit) (f g : PartFault) → Refuses dialect limit texts edit f → Refuses dialect limit texts edit g → SayTheSame f g ⊎ ((f ≡ PartFault.Memory) ⊎ (g ≡ PartFault.Memory)) }
{
    one_refusal();
}

/// A part that is put in at an index and left out there again leaves the parts from before.
pub fn inserted_then_removed()
    ensures { (texts : List (List ℕ)) (k : ℕ) (text : List ℕ) → k ≤ length texts → edited (edited texts (inserts k text)) (removes k) ≡ texts }
{}

/// Ends and faults of runs are equal where they are one, and a clone is always made and is the same.
pub fn ends_compare()
    ensures ends_equal { (x y : End) → (⟦<End as PartialEq>⟧.eq x y ≡ true) ↔ (x ≡ y) }
    ensures ends_cloned { (x y : End) → ⟦<End as Clone>⟧.is_clone x y → y ≡ x }
    ensures ends_always { (x : End) → ⟦<End as Clone>⟧.is_infallible x }
    ensures faults_equal { (x y : RunFault) → (⟦<RunFault as PartialEq>⟧.eq x y ≡ true) ↔ (x ≡ y) }
    ensures faults_cloned { (x y : RunFault) → ⟦<RunFault as Clone>⟧.is_clone x y → y ≡ x }
    ensures faults_always { (x : RunFault) → ⟦<RunFault as Clone>⟧.is_infallible x }
{}
