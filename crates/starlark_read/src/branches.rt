//! `if` statements.

ghost use Rattle.std.specs.Prelude.{◌<◌, OnOk, length};
ghost use Rattle.starlark_grammar.specs.Frames.{Ifs, at_line, spot, test, wants};
ghost use Rattle.starlark_grammar.specs.Machine.{settled};
ghost use Rattle.starlark_read.specs.Reads.{Comes};

use crate::error::Error;
use crate::expression::expression;
use crate::kind::Kind;
use crate::level::TEST;
use crate::suite::suite;
use crate::tokens::Tokens;
use starlark_grammar::build::Build;
use starlark_lexer::dialect::Dialect;
use starlark_place::pos::Pos;

/// An `if` or `elif` behind its first word, which begins at `begin`, with all that belongs to it.
#[cycle(statement)]
pub(crate) fn branches<B: Build>(
    tokens: &mut Tokens,
    dialect: Dialect,
    begin: Pos,
) -> Result<B::Stmt, Error>
    ensures reads { (k : Ifs) → Comes dialect (wants 12 (spot (test begin k))) (λ x. at_line (settled k (B.says x) tokens.new.last) tokens.new.last) tokens.old result tokens.new }
    ensures shorter { OnOk result (length tokens.new.items < length tokens.old.items) }
{
    let alloc = tokens.alloc();
    let condition = expression::<B>(tokens, TEST)?;
    tokens.expect(Kind::Colon)?;
    let body = suite::<B>(tokens, dialect)?;
    let next = tokens.begin();
    if tokens.accept(Kind::Elif)? {
        let otherwise = branches::<B>(tokens, dialect, next)?;
        let span = tokens.since(begin);
        return Ok(B::if_else_statement(alloc, condition, body, otherwise, span)?);
    }
    if tokens.accept(Kind::Else)? {
        tokens.expect(Kind::Colon)?;
        let otherwise = suite::<B>(tokens, dialect)?;
        let span = tokens.since(begin);
        return Ok(B::if_else_statement(alloc, condition, body, otherwise, span)?);
    }
    let span = tokens.since(begin);
    Ok(B::if_statement(alloc, condition, body, span)?)
}
