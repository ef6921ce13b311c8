//! Statements in a row as one.

ghost use Rattle.std.specs.Prelude.{◌≡◌, [], ◌∷◌, List};
ghost use Rattle.starlark_ast.specs.Tree.{statement_place};
ghost use Rattle.starlark_grammar.specs.Made.{sequence_of};
ghost use Rattle.starlark_grammar.specs.Nodes.{block_of};

use starlark_grammar::build::Build;
use starlark_place::pos::{Pos, Span};

/// Statements behind which the last token ends at `end`: one alone is itself.
pub(crate) fn block<B: Build>(mut statements: Vec<B::Stmt>, end: Pos) -> B::Stmt
    ensures { B.says result ≡ block_of (sequence_of B.says statements.items) end }
{
    if statements.len() == 1 {
        let Some(only) = statements.pop() else {
            unreachable!();
        };
        return only;
    }
    let begin = begin_of::<B>(&statements, end);
    B::block(statements, Span::new(begin, begin.max(end)))
}

/// Where the first of them begins, or `end` where there is none.
fn begin_of<B: Build>(statements: &[B::Stmt], end: Pos) -> Pos
    ensures none { statements.now ≡ [] → result ≡ end }
    ensures some { (x : B.Stmt) (xs : List B.Stmt) → statements.now ≡ x ∷ xs → result ≡ (statement_place (B.says x)).begin }
{
    match statements.first() {
        Some(first) => B::statement_place(first).begin(),
        None => end,
    }
}
