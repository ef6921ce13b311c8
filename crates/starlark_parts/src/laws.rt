//! Laws of the trees and the outlines of texts.

ghost use Rattle.std.specs.Prelude.{List, ℕ, ◌∷◌, ◌++◌, ◌+◌, ◌≡◌, ◌↔◌, true};
ghost use Rattle.std.specs.List.{All};
ghost use Rattle.starlark_place.specs.Place.{line_feeds};
ghost use Rattle.starlark_lexer.specs.Joining.{IsClosed};
ghost use Rattle.starlark_lexer.specs.declared.dialect.Dialect.{Dialect};
ghost use Rattle.starlark_ast.specs.Tree.{Statement};
ghost use Rattle.starlark_grammar.specs.Language.{Language};
ghost use Rattle.starlark_parts.specs.Flat.{AreWorded, IsFlat};
ghost use Rattle.starlark_parts.specs.Kept.{joined};
ghost use Rattle.starlark_parts.specs.Outlines.{AreAllStatements, AreOutlines, AreTops, IsOutline, Placed, items_down};

use crate::word::{OutlineItem, Word};
use starlark_grammar::text_laws::{nested_places, one_tree};
use starlark_joining::laws::joined_trees;

/// The tree of a text is one line or a list of lines, and a line one statement or a list of statements; and each of these
/// statements has a word: none is a `return`, a `break` or a `continue`.
pub fn good_trees()
    ensures flat { (dialect : Dialect) (text : List ℕ) (tree : Statement) → Language dialect text tree → IsFlat tree }
    ensures worded { (dialect : Dialect) (text : List ℕ) (tree : Statement) → Language dialect text tree → AreWorded tree }
{}

/// Closed texts of the language, one behind another, are in the language, and the outline of the joined text, read from
/// scratch, is the outlines of the texts, each moved down by the line feeds before it.
pub fn joined_outline()
    ensures { (dialect : Dialect) (texts : List (List ℕ)) (items : List OutlineItem) → All IsClosed texts → AreOutlines dialect 0 texts items → IsOutline dialect (joined texts) items }
{
    joined_trees();
    nested_places();
}

/// The statements at the top of such texts are, but for their places, those at the top of the tree of the joined text.
pub fn joined_statements()
    ensures { (dialect : Dialect) (texts : List (List ℕ)) (xs : List Placed) → All IsClosed texts → AreAllStatements dialect 0 texts xs → AreTops dialect (joined texts) xs }
{
    joined_trees();
}

/// A text has one outline at most.
pub fn one_outline()
    ensures { (dialect : Dialect) (text : List ℕ) (xs ys : List OutlineItem) → IsOutline dialect text xs → IsOutline dialect text ys → xs ≡ ys }
{
    one_tree();
}

/// However a text is cut into closed texts of the language, their outlines, one behind another, are the same.
pub fn same_text_same_outline()
    ensures { (dialect : Dialect) (texts others : List (List ℕ)) (xs ys : List OutlineItem) → All IsClosed texts → All IsClosed others → joined texts ≡ joined others → AreOutlines dialect 0 texts xs → AreOutlines dialect 0 others ys → xs ≡ ys }
{
    joined_outline();
    one_outline();
}

/// Where a text among others is replaced by one with as many line feeds, what the outline of the joined text has of all others
/// stays, lines and columns too.
pub fn same_lines()
    ensures { (dialect : Dialect) (before after : List (List ℕ)) (a b : List ℕ) (xs ys vs zs : List OutlineItem) → All IsClosed before → IsClosed a → IsClosed b → All IsClosed after → line_feeds a ≡ line_feeds b → AreOutlines dialect 0 before xs → IsOutline dialect a ys → IsOutline dialect b vs → AreOutlines dialect (line_feeds (joined before) + line_feeds a) after zs → IsOutline dialect (joined (before ++ a ∷ after)) (xs ++ (items_down (line_feeds (joined before)) ys ++ zs)) × IsOutline dialect (joined (before ++ b ∷ after)) (xs ++ (items_down (line_feeds (joined before)) vs ++ zs)) }
{
    joined_outline();
}

/// Words and items of outlines are equal where they say the same, and a clone is always made and is the same.
pub fn items_compare()
    ensures words_equal { (x y : Word) → (⟦<Word as PartialEq>⟧.eq x y ≡ true) ↔ (x ≡ y) }
    ensures words_cloned { (x y : Word) → ⟦<Word as Clone>⟧.is_clone x y → y ≡ x }
    ensures words_always { (x : Word) → ⟦<Word as Clone>⟧.is_infallible x }
    ensures items_equal { (x y : OutlineItem) → (⟦<OutlineItem as PartialEq>⟧.eq x y ≡ true) ↔ (x ≡ y) }
    ensures items_cloned { (x y : OutlineItem) → ⟦<OutlineItem as Clone>⟧.is_clone x y → y ≡ x }
    ensures items_always { (x : OutlineItem) → ⟦<OutlineItem as Clone>⟧.is_infallible x }
{}
