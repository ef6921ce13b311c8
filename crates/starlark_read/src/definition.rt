//! `def` statements.

ghost use Rattle.std.specs.Prelude.{◌<◌, OnOk, length};
ghost use Rattle.starlark_grammar.specs.Frames.{Blocks, at_line, def_name};
ghost use Rattle.starlark_grammar.specs.Machine.{push};
ghost use Rattle.starlark_read.specs.Reads.{Comes};

use crate::error::Error;
use crate::names::name;
use crate::signature::{def_parameters, result_type};
use crate::suite::suite;
use crate::tokens::Tokens;
use starlark_grammar::build::Build;
use starlark_lexer::dialect::Dialect;
use starlark_place::pos::Pos;

/// A `def` behind its first word, which begins at `begin`.
#[cycle(statement)]
pub(crate) fn definition<B: Build>(
    tokens: &mut Tokens,
    dialect: Dialect,
    begin: Pos,
) -> Result<B::Stmt, Error>
    ensures reads { (k : Blocks) → Comes dialect (def_name begin k) (λ x. at_line (push k (B.says x)) tokens.new.last) tokens.old result tokens.new }
    ensures shorter { OnOk result (length tokens.new.items < length tokens.old.items) }
{
    let Some(name) = name(tokens)? else {
        return Err(Error::Unexpected);
    };
    let parameters = def_parameters::<B>(tokens, dialect)?;
    let ty = result_type::<B>(tokens, dialect)?;
    let body = suite::<B>(tokens, dialect)?;
    let span = tokens.since(begin);
    Ok(B::def_statement(tokens.alloc(), name, parameters, ty, body, span)?)
}
