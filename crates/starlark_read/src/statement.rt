//! Statements at the beginning of a line.

ghost use Rattle.std.specs.Prelude.{ℕ, ◌≢◌, ◌<◌, OnOk, None, Some, length};
ghost use Rattle.starlark_lexer.specs.Items.{dedent, newline};
ghost use Rattle.starlark_grammar.specs.Frames.{Blocks, at_line};
ghost use Rattle.starlark_grammar.specs.Machine.{push};
ghost use Rattle.starlark_read.specs.Reads.{Comes, first_lexeme};

use crate::branches::branches;
use crate::definition::definition;
use crate::error::Error;
use crate::for_loop::for_loop;
use crate::kind::Kind;
use crate::row::row;
use crate::tokens::Tokens;
use starlark_grammar::build::Build;
use starlark_lexer::dialect::Dialect;

/// A statement with the end of its last line, where a token stands that is no `Newline` and no `Dedent`.
#[cycle(statement)]
pub(crate) fn statement<B: Build>(tokens: &mut Tokens, dialect: Dialect) -> Result<B::Stmt, Error>
    ensures reads { (k : Blocks) (e : ℕ) → first_lexeme tokens.old.items ≢ None → first_lexeme tokens.old.items ≢ Some newline → first_lexeme tokens.old.items ≢ Some dedent → Comes dialect (at_line k e) (λ x. at_line (push k (B.says x)) tokens.new.last) tokens.old result tokens.new }
    ensures shorter { OnOk result (length tokens.new.items < length tokens.old.items) }
{
    let begin = tokens.begin();
    if tokens.accept(Kind::If)? {
        return branches::<B>(tokens, dialect, begin);
    }
    if tokens.accept(Kind::For)? {
        return for_loop::<B>(tokens, dialect, begin);
    }
    if tokens.accept(Kind::Def)? {
        return definition::<B>(tokens, dialect, begin);
    }
    row::<B>(tokens, dialect)
}
