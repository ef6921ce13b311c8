//! Laws of the order of tokens and of outlines, and of where the parts of trees begin.

ghost use Rattle.std.specs.List.{All};
ghost use Rattle.std.specs.Prelude.{List, length, ◌<◌, ◌≡◌, ℕ};
ghost use Rattle.starlark_lexer.specs.Items.{Lexed};
ghost use Rattle.starlark_lexer.specs.Lex.{Lex, start};
ghost use Rattle.starlark_lexer.specs.declared.dialect.Dialect.{Dialect};
ghost use Rattle.starlark_ast.specs.Tree.{Statement};
ghost use Rattle.starlark_grammar.specs.Language.{Language};
ghost use Rattle.starlark_joining.specs.Trees.{AreJoined};
ghost use Rattle.starlark_parts.specs.Outlines.{IsOutline};
ghost use Rattle.starlark_parts.specs.declared.word.OutlineItem.{OutlineItem};
ghost use Rattle.starlark_order.specs.Beginnings.{sequence_begins, tree_begins};
ghost use Rattle.starlark_order.specs.Ordered.{AreOrdered, BeginPlainly, HaveBytes};

use starlark_lexer::laws::in_order;
use starlark_place::laws::resolving_keeps_order;

/// Each item but a line end, an `Indent` and a `Dedent` has bytes. The first of them is an ASCII byte,
/// texts, braces, `!` and ends of f-strings aside.
pub fn firm_tokens()
    ensures bytes { (text : List ℕ) (l : Lexed) → Lex start text l → HaveBytes l.items }
    ensures first { (text : List ℕ) (l : Lexed) → Lex start text l → BeginPlainly text l.items }
{}

/// Of two statements of an outline the earlier has the smaller line, or the same line and the
/// smaller column.
pub fn ordered_outline()
    ensures { (dialect : Dialect) (text : List ℕ) (items : List OutlineItem) → IsOutline dialect text items → AreOrdered items }
{
    resolving_keeps_order();
    in_order();
    firm_tokens();
}

/// Each statement in the tree of a text, but the list of all of them, and each part of one that has a place, begins before
/// the text's end.
pub fn firm_trees()
    ensures { (dialect : Dialect) (text : List ℕ) (tree : Statement) → Language dialect text tree → All (λ k. k < length text) (tree_begins tree) }
{
    in_order();
    firm_tokens();
}

/// Where a text stands behind another, all that stands in the statements of the first begins where it
/// did.
pub fn beginnings_stay()
    ensures { (dialect : Dialect) (a b : List ℕ) (first second : Statement) → Language dialect a first → (joined : AreJoined dialect a b first second) → sequence_begins joined.first ≡ sequence_begins joined.first_there }
{
    firm_trees();
}
