//! Laws of the language as a set of texts.

ghost use Rattle.std.specs.Prelude.{Bool, List, length, ◌≡◌, ◌⊎◌, ℕ};
ghost use Rattle.std.specs.Str.{IsCharBoundary, IsUtf8};
ghost use Rattle.starlark_place.specs.Place.{Extent, Holds};
ghost use Rattle.starlark_grammar.specs.Spans.{stretch};
ghost use Rattle.starlark_lexer.specs.Items.{Lexed};
ghost use Rattle.starlark_lexer.specs.Lex.{Lex, start};
ghost use Rattle.starlark_lexer.specs.declared.dialect.Dialect.{Dialect};
ghost use Rattle.starlark_ast.specs.Tree.{Statement};
ghost use Rattle.starlark_grammar.specs.Comments.{AreComments, AreHeld};
ghost use Rattle.starlark_grammar.specs.Language.{Fault, IsRefused, Language, place_of};
ghost use Rattle.starlark_grammar.specs.Ends.{StatementAt};
ghost use Rattle.starlark_grammar.specs.Nested.{StatementIn};

use starlark_lexer::laws::{in_order, one_reading, whole_characters};

/// A text has one tree with its places at most.
pub fn one_tree()
    ensures { (dialect : Dialect) (text : List ℕ) (a b : Statement) → Language dialect text a → Language dialect text b → a ≡ b }
{
    one_reading();
}

/// A text is refused for one reason at most, and only where it is not in the language.
pub fn one_refusal()
    ensures one { (dialect : Dialect) (text : List ℕ) (f g : Fault) → IsRefused dialect text f → IsRefused dialect text g → f ≡ g }
    ensures other { (dialect : Dialect) (text : List ℕ) (tree : Statement) (f : Fault) → Language dialect text tree → IsRefused dialect text f → ⊥ }
{
    one_reading();
}

/// A text that is cut into lexemes is in the language, with a tree, or refused, for a reason.
pub fn decided()
    ensures { (dialect : Dialect) (text : List ℕ) (lexed : Lexed) → Lex start text lexed → ((tree : Statement) × Language dialect text tree) ⊎ ((f : Fault) × IsRefused dialect text f) }
{}

/// In the tree of a text each part lies in the node around it, and all in the text.
pub fn nested_places()
    ensures { (dialect : Dialect) (text : List ℕ) (tree : Statement) → Language dialect text tree → StatementIn (stretch 0 (length text)) tree }
{
    in_order();
}

/// The place of a refusal lies in the text and cuts no character, and so does each place in the tree of a text and each of a
/// comment.
pub fn held_places()
    ensures refusal { (dialect : Dialect) (text : List ℕ) (f : Fault) → IsUtf8 text → IsRefused dialect text f → Holds text (place_of f) }
    ensures tree { (dialect : Dialect) (text : List ℕ) (tree : Statement) → IsUtf8 text → Language dialect text tree → StatementAt (IsCharBoundary text) tree }
    ensures comments { (text : List ℕ) (places : List Extent) (joined : List Bool) → IsUtf8 text → AreComments text places joined → AreHeld text places joined }
{
    whole_characters();
}
