//! `for` statements.

ghost use Rattle.std.specs.Prelude.{◌<◌, OnOk, length};
ghost use Rattle.starlark_grammar.specs.Frames.{Blocks, at_line, target, wants_list};
ghost use Rattle.starlark_grammar.specs.Machine.{push};
ghost use Rattle.starlark_read.specs.Reads.{Comes};

use crate::error::Error;
use crate::expression::expression;
use crate::kind::Kind;
use crate::level::{BIT_OR, TEST};
use crate::listed::listed;
use crate::suite::suite;
use crate::tokens::Tokens;
use starlark_grammar::build::Build;
use starlark_lexer::dialect::Dialect;
use starlark_place::pos::Pos;

/// A `for` statement behind its first word, which begins at `begin`.
#[cycle(statement)]
pub(crate) fn for_loop<B: Build>(
    tokens: &mut Tokens,
    dialect: Dialect,
    begin: Pos,
) -> Result<B::Stmt, Error>
    ensures reads { (k : Blocks) → Comes dialect (wants_list (target begin k)) (λ x. at_line (push k (B.says x)) tokens.new.last) tokens.old result tokens.new }
    ensures shorter { OnOk result (length tokens.new.items < length tokens.old.items) }
{
    let targets = listed::<B>(tokens, BIT_OR)?;
    tokens.expect(Kind::In)?;
    let over = expression::<B>(tokens, TEST)?;
    tokens.expect(Kind::Colon)?;
    let body = suite::<B>(tokens, dialect)?;
    if let Some(fault) = B::target_fault(&targets) {
        return Err(tokens.stop(fault));
    }
    let span = tokens.since(begin);
    Ok(B::for_statement(tokens.alloc(), targets, over, body, span)?)
}
