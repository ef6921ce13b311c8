//! Laws on places.

ghost use Rattle.std.specs.Prelude.{◌≡◌, ◌<◌, ◌≤◌, ◌+◌, ◌++◌, ◌&&◌, ◌↔◌, ℕ, List, false, length, map, nat_eq, slice_index, true};
ghost use Rattle.std.specs.List.{concat, range_with_len};
ghost use Rattle.std.specs.declared.cmp.Ordering.TheVariants.{Equal};
ghost use Rattle.starlark_place.specs.Place.{Extent, FilePlace, is_continuation, line_at, line_feeds, line_begin, line_text};
ghost use Rattle.starlark_place.specs.Resolved.{resolved, IsAtMost, IsBefore};
ghost use Rattle.starlark_place.specs.Laws.{Intersects, compares, equals, hashes};
ghost use Rattle.std.specs.Ordering.{nat_cmp, on, then_cmp};
ghost use Rattle.std.specs.Hash as fed;

use crate::codemap::{CodeMapError, CodeMapId};
use crate::fast_string::{CharIndex, StrIndices};
use crate::pos::{Pos, Span, Spanned};
use crate::resolved::{ResolvedFileLine, ResolvedFileSpan, ResolvedPos, ResolvedSpan};
use std::hash::Hash;

/// Of two stretches each meets the other or neither does.
pub fn intersects_both_ways()
    ensures { (s t : Extent) → Intersects s t ↔ Intersects t s }
{}

/// Of two places of a text the later has a greater line, or the same line and no smaller column; and a greater column
/// there where a character begins at the earlier.
pub fn resolving_keeps_order()
    ensures weak { (text : List ℕ) (i j : ℕ) → i ≤ j → IsAtMost (resolved text i) (resolved text j) }
    ensures strict { (text : List ℕ) (i j : ℕ) → i < j → j ≤ length text → is_continuation (slice_index text i) ≡ false → IsBefore (resolved text i) (resolved text j) }
{}

/// The lines of a text are one more than its line feeds, and join to it.
pub fn lines_join()
    ensures { (text : List ℕ) → concat (map (line_text text) (range_with_len 0 (line_feeds text + 1))) ≡ text }
{}

/// A line begins where its number of line feeds has been seen.
pub fn lines_begin()
    ensures { (text : List ℕ) (n : ℕ) → n ≤ line_feeds text → line_at text (line_begin n text) ≡ n }
{}

/// Stretches of named sources are equal exactly where the order calls them equal, and then they have one hash.
pub fn comparisons_agree()
    ensures order { (s t : FilePlace) → (equals s t ≡ true) ↔ (compares s t ≡ Equal) }
    ensures hash { (s t : FilePlace) → equals s t ≡ true → hashes s ≡ hashes t }
{}

/// `CodeMapId::EMPTY` is 0.
pub fn empty_id_is_zero()
    ensures { CodeMapId.EMPTY.0 ≡ 0 }
{}

/// Places, ids and counts of characters are equal, ordered and hashed as their numbers.
pub fn numbers_compare()
    ensures places_equal { (p q : Pos) → (⟦<Pos as PartialEq>⟧.eq p q ≡ true) ↔ (p ≡ q) }
    ensures places_ordered { (p q : Pos) → ⟦<Pos as Ord>⟧.cmp p q ≡ nat_cmp p q }
    ensures places_hashed { (p : Pos) → ⟦<Pos as Hash>⟧.hash_input p ≡ fed.u32 p }
    ensures ids_equal { (p q : CodeMapId) → (⟦<CodeMapId as PartialEq>⟧.eq p q ≡ true) ↔ (p ≡ q) }
    ensures ids_ordered { (p q : CodeMapId) → ⟦<CodeMapId as Ord>⟧.cmp p q ≡ nat_cmp p.0 q.0 }
    ensures ids_hashed { (p : CodeMapId) → ⟦<CodeMapId as Hash>⟧.hash_input p ≡ fed.u64 p.0 }
    ensures counts_equal { (p q : CharIndex) → (⟦<CharIndex as PartialEq>⟧.eq p q ≡ true) ↔ (p ≡ q) }
    ensures counts_ordered { (p q : CharIndex) → ⟦<CharIndex as Ord>⟧.cmp p q ≡ nat_cmp p.0 q.0 }
    ensures faults_equal { (x y : CodeMapError) → (⟦<CodeMapError as PartialEq>⟧.eq x y ≡ true) ↔ (x ≡ y) }
    ensures counts_hashed { (p : CharIndex) → ⟦<CharIndex as Hash>⟧.hash_input p ≡ fed.usize p.0 }
{}

/// Lines with columns are equal, ordered and hashed by the line first.
pub fn lines_compare()
    ensures equal { (p q : ResolvedPos) → (⟦<ResolvedPos as PartialEq>⟧.eq p q ≡ true) ↔ (p ≡ q) }
    ensures ordered { (p q : ResolvedPos) → ⟦<ResolvedPos as Ord>⟧.cmp p q ≡ then_cmp (on (λ p. p.line) nat_cmp) (on (λ p. p.column) nat_cmp) p q }
    ensures hashed { (p : ResolvedPos) → ⟦<ResolvedPos as Hash>⟧.hash_input p ≡ fed.usize p.line ++ fed.usize p.column }
{}

/// Stretches are equal where both ends are, and are hashed by the beginning first.
pub fn stretches_compare()
    ensures equal { (s t : Span) → (⟦<Span as PartialEq>⟧.eq s t ≡ true) ↔ (s ≡ t) }
    ensures hashed { (s : Span) → ⟦<Span as Hash>⟧.hash_input s ≡ fed.u32 s.begin ++ fed.u32 s.end }
    ensures lines_equal { (s t : ResolvedSpan) → (⟦<ResolvedSpan as PartialEq>⟧.eq s t ≡ true) ↔ (s ≡ t) }
    ensures lines_hashed { (s : ResolvedSpan) → ⟦<ResolvedSpan as Hash>⟧.hash_input s ≡ ⟦<ResolvedPos as Hash>⟧.hash_input s.begin ++ ⟦<ResolvedPos as Hash>⟧.hash_input s.end }
{}

/// What stands at a stretch is equal where the stretch and the value are, and is hashed by the stretch first.
pub fn spanned_equal<T: PartialEq>()
    ensures { (x y : Spanned T) → ⟦<Spanned<T> as PartialEq>⟧.eq x y ≡ (⟦<Span as PartialEq>⟧.eq x.span y.span && T.eq x.node y.node) }
{}

/// See `spanned_equal`.
pub fn spanned_hashed<T: Hash>()
    ensures { (x : Spanned T) → ⟦<Spanned<T> as Hash>⟧.hash_input x ≡ ⟦<Span as Hash>⟧.hash_input x.span ++ T.hash_input x.node }
{}

/// A line or a stretch of a named file is equal where the name and it are.
pub fn named_lines_equal()
    ensures lines { (x y : ResolvedFileLine) → ⟦<ResolvedFileLine as PartialEq>⟧.eq x y ≡ (⟦<String as PartialEq>⟧.eq x.file y.file && nat_eq x.line y.line) }
    ensures stretches { (x y : ResolvedFileSpan) → ⟦<ResolvedFileSpan as PartialEq>⟧.eq x y ≡ (⟦<String as PartialEq>⟧.eq x.file y.file && ⟦<ResolvedSpan as PartialEq>⟧.eq x.span y.span) }
{}

/// A piece with the characters before it is equal where both are.
pub fn pieces_equal<'a>()
    ensures { (x y : StrIndices) → (⟦<StrIndices<'a> as PartialEq>⟧.eq x y ≡ true) ↔ ((x.start ≡ y.start) × (x.haystack.now ≡ y.haystack.now)) }
{}

/// The clone of what is copied is itself, and that of a piece is the same piece of the same text.
pub fn clones_are_copies<'a>()
    ensures places { (p q : Pos) → ⟦<Pos as Clone>⟧.is_clone p q → q ≡ p }
    ensures stretches { (s t : Span) → ⟦<Span as Clone>⟧.is_clone s t → t ≡ s }
    ensures lines { (p q : ResolvedPos) → ⟦<ResolvedPos as Clone>⟧.is_clone p q → q ≡ p }
    ensures line_stretches { (s t : ResolvedSpan) → ⟦<ResolvedSpan as Clone>⟧.is_clone s t → t ≡ s }
    ensures counts { (p q : CharIndex) → ⟦<CharIndex as Clone>⟧.is_clone p q → q ≡ p }
    ensures ids { (p q : CodeMapId) → ⟦<CodeMapId as Clone>⟧.is_clone p q → q ≡ p }
    ensures faults { (x y : CodeMapError) → ⟦<CodeMapError as Clone>⟧.is_clone x y → y ≡ x }
    ensures pieces { (x y : StrIndices) → ⟦<StrIndices<'a> as Clone>⟧.is_clone x y → y ≡ x }
{}

/// The clone of what is copied is made whatever memory there is.
pub fn clones_succeed<'a>()
    ensures places { (p : Pos) → ⟦<Pos as Clone>⟧.is_infallible p }
    ensures stretches { (s : Span) → ⟦<Span as Clone>⟧.is_infallible s }
    ensures lines { (p : ResolvedPos) → ⟦<ResolvedPos as Clone>⟧.is_infallible p }
    ensures line_stretches { (s : ResolvedSpan) → ⟦<ResolvedSpan as Clone>⟧.is_infallible s }
    ensures counts { (p : CharIndex) → ⟦<CharIndex as Clone>⟧.is_infallible p }
    ensures ids { (p : CodeMapId) → ⟦<CodeMapId as Clone>⟧.is_infallible p }
    ensures faults { (x : CodeMapError) → ⟦<CodeMapError as Clone>⟧.is_infallible x }
    ensures pieces { (x : StrIndices) → ⟦<StrIndices<'a> as Clone>⟧.is_infallible x }
{}
