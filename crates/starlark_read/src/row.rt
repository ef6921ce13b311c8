//! Small statements on one line.

ghost use Rattle.std.specs.Prelude.{◌≡◌, ◌≢◌, ◌<◌, ◌≤◌, IfOk, OnOk, Some, false, if◌then◌else◌, length};
ghost use Rattle.starlark_lexer.specs.Items.{newline};
ghost use Rattle.starlark_lexer.specs.declared.dialect.Dialect.{Dialect};
ghost use Rattle.starlark_ast.specs.Tree.{Sequence, Statement, add_statement, no_statements};
ghost use Rattle.starlark_grammar.specs.Frames.{Rows, behind_small, line, wants_small};
ghost use Rattle.starlark_grammar.specs.Machine.{end_row};
ghost use Rattle.starlark_grammar.specs.Nodes.{block_of};
ghost use Rattle.starlark_read.specs.Reads.{Comes, first_lexeme};

use crate::block::block;
use crate::error::Error;
use crate::kind::Kind;
use crate::lists::{push, single};
use crate::small::small;
use crate::tokens::Tokens;
use starlark_grammar::build::Build;
use starlark_lexer::dialect::Dialect;

/// Small statements with semicolons between, and the end of their line: one alone is itself, several are a list. A list
/// is made for several only.
pub(crate) fn row<B: Build>(tokens: &mut Tokens, dialect: Dialect) -> Result<B::Stmt, Error>
    ensures reads { (k : Rows) → first_lexeme tokens.old.items ≢ Some newline → Comes dialect (wants_small (line no_statements k)) (λ x. end_row k (B.says x) tokens.new.last) tokens.old result tokens.new }
    ensures shorter { OnOk result (length tokens.new.items < length tokens.old.items) }
{
    let first = small::<B>(tokens, dialect)?;
    if row_ends(tokens)? {
        return Ok(first);
    }
    let mut statements = single(tokens.alloc(), first)?;
    loop {
        let next = small::<B>(tokens, dialect)?;
        push(&mut statements, next)?;
        if row_ends(tokens)? {
            return Ok(block::<B>(statements, tokens.last()));
        }
    }
}

/// What stands behind a small statement: the end of its line, a semicolon before it or not, or else a semicolon, with
/// which the line goes on.
fn row_ends(tokens: &mut Tokens) -> Result<bool, Error>
    ensures reads { (d : Dialect) (s : Statement) (ss : Sequence) (k : Rows) → Comes d (behind_small s (line ss k)) (λ ends. if ends then end_row k (block_of (add_statement ss s) tokens.new.last) tokens.new.last else wants_small (line (add_statement ss s) k)) tokens.old result tokens.new }
    ensures goes_on { IfOk result (λ ends. ends ≡ false → first_lexeme tokens.new.items ≢ Some newline) }
    ensures shorter { OnOk result (length tokens.new.items ≤ length tokens.old.items) }
{
    let goes_on = tokens.accept(Kind::Semicolon)?;
    if tokens.accept(Kind::Newline)? {
        return Ok(true);
    }
    if goes_on {
        Ok(false)
    } else {
        Err(Error::Unexpected)
    }
}
