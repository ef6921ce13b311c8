//! Laws of a text behind another, and of line ends.

ghost use Rattle.std.specs.Prelude.{◌++◌, ◌∷◌, List, true, ℕ};
ghost use Rattle.starlark_lexer.specs.Items.{Item, dedent, item, newline};
ghost use Rattle.starlark_lexer.specs.Joining.{IsClosed};
ghost use Rattle.starlark_lexer.specs.declared.dialect.Dialect.{Dialect};
ghost use Rattle.starlark_ast.specs.Tree.{Statement};
ghost use Rattle.starlark_grammar.specs.Grammar.{Derives};
ghost use Rattle.starlark_grammar.specs.Language.{Language};
ghost use Rattle.starlark_joining.specs.Relaid.{DerivesSame, Relaid};
ghost use Rattle.starlark_joining.specs.Trees.{AreJoined};

use starlark_grammar::laws::{complete, sound};
use starlark_lexer::laws::joined_layouts;

/// Two texts in the language, of which the first is closed, are in it one behind the other. The
/// statements of the first stand there, and behind them those of the second, as long a way on as the
/// first has bytes.
pub fn joined_trees()
    ensures { (dialect : Dialect) (a b : List ℕ) (first second : Statement) → IsClosed a → Language dialect a first → Language dialect b second → AreJoined dialect a b first second }
{
    joined_layouts();
    sound();
    complete();
}

/// Tokens of Module make the same tree, but for places, where a line end right behind a `Dedent` is
/// put before it, where one of two side by side is left out, and where one at the beginning is left
/// out; also where line ends change so at many places.
pub fn newlines_move()
    ensures moved { (xs ys : List Item) (i j g h k l m n : ℕ) (raw : Statement) → Derives (xs ++ item i dedent j ∷ item g newline h ∷ ys) raw → DerivesSame (xs ++ item k newline l ∷ item m dedent n ∷ ys) raw }
    ensures doubled { (xs ys : List Item) (i j g h k l : ℕ) (raw : Statement) → Derives (xs ++ item i newline j ∷ item g newline h ∷ ys) raw → DerivesSame (xs ++ item k newline l ∷ ys) raw }
    ensures first { (ys : List Item) (i j : ℕ) (raw : Statement) → Derives (item i newline j ∷ ys) raw → DerivesSame ys raw }
    ensures all { (us vs : List Item) (raw : Statement) → Relaid true us vs → Derives us raw → DerivesSame vs raw }
{
    sound();
    complete();
}
