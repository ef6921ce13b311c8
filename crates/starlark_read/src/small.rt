//! Small statements.

ghost use Rattle.std.specs.Prelude.{◌≢◌, ◌<◌, ◌≤◌, OnOk, Some, length};
ghost use Rattle.starlark_lexer.specs.Items.{newline};
ghost use Rattle.starlark_lexer.specs.declared.dialect.Dialect.{Dialect};
ghost use Rattle.starlark_grammar.specs.Frames.{Line, behind_return, behind_small, wants_small};
ghost use Rattle.starlark_read.specs.Reads.{Comes, first_lexeme};

use crate::assignment::assignment;
use crate::error::Error;
use crate::kind::Kind;
use crate::level::TEST;
use crate::listed::listed;
use crate::load::load;
use crate::tokens::Tokens;
use starlark_grammar::build::Build;
use starlark_lexer::dialect::Dialect;
use starlark_place::pos::Pos;

/// A small statement. Behind it nothing goes on with it.
pub(crate) fn small<B: Build>(tokens: &mut Tokens, dialect: Dialect) -> Result<B::Stmt, Error>
    ensures reads { (k : Line) → first_lexeme tokens.old.items ≢ Some newline → Comes dialect (wants_small k) (λ x. behind_small (B.says x) k) tokens.old result tokens.new }
    ensures shorter { OnOk result (length tokens.new.items < length tokens.old.items) }
{
    let begin = tokens.begin();
    if tokens.accept(Kind::Return)? {
        return behind_return::<B>(tokens, begin);
    }
    if tokens.accept(Kind::Break)? {
        return Ok(B::break_statement(tokens.since(begin)));
    }
    if tokens.accept(Kind::Continue)? {
        return Ok(B::continue_statement(tokens.since(begin)));
    }
    if tokens.accept(Kind::Pass)? {
        return Ok(B::pass_statement(tokens.since(begin)));
    }
    if tokens.accept(Kind::Load)? {
        return load::<B>(tokens, begin);
    }
    assignment::<B>(tokens, dialect)
}

// what stands behind a `return` that begins there
fn behind_return<B: Build>(tokens: &mut Tokens, begin: Pos) -> Result<B::Stmt, Error>
    ensures reads { (d : Dialect) (k : Line) → Comes d (behind_return begin tokens.old.last k) (λ x. behind_small (B.says x) k) tokens.old result tokens.new }
    ensures shorter { OnOk result (length tokens.new.items ≤ length tokens.old.items) }
{
    if !tokens.begins_test() {
        return Ok(B::return_statement(None, tokens.since(begin)));
    }
    let value = listed::<B>(tokens, TEST)?;
    Ok(B::return_statement(Some(value), tokens.since(begin)))
}
