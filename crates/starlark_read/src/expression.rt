//! Expressions of each level, and lists of them without brackets.

ghost use Rattle.std.specs.Prelude.{◌<◌, ◌≤◌, OnOk, length};
ghost use Rattle.starlark_lexer.specs.declared.dialect.Dialect.{Dialect};
ghost use Rattle.starlark_grammar.specs.Frames.{Frames, wants, has};
ghost use Rattle.starlark_read.specs.Reads.{Comes};

use crate::atoms::atom;
use crate::error::Error;
use crate::kind::Kind;
use crate::level::{PRIMARY, UNARY};
use crate::operators::operators;
use crate::signs::{lambda, level_ahead, sign, signed};
use crate::suffixes::suffixes;
use crate::tokens::Tokens;
use starlark_grammar::make::Make;

/// An expression of a level.
#[cycle(expression)]
pub(crate) fn expression<B: Make>(tokens: &mut Tokens, level: u8) -> Result<B::Expr, Error>
    requires { level ≤ 12 }
    ensures reads { (d : Dialect) (k : Frames) → Comes d (wants level k) (λ x. has (B.means x) tokens.new.last k) tokens.old result tokens.new }
    ensures shorter { OnOk result (length tokens.new.items < length tokens.old.items) }
{
    let begin = tokens.begin();
    let floor = level_ahead(tokens, level);
    if floor == PRIMARY {
        let left = atom::<B>(tokens)?;
        if level < tokens.grade() {
            return Ok(left);
        }
        let left = suffixes::<B>(tokens, left)?;
        return operators::<B>(tokens, left, UNARY, level);
    }
    if tokens.accept(Kind::Lambda)? {
        return lambda::<B>(tokens, begin);
    }
    let sign = sign(tokens, floor)?;
    let left = signed::<B>(tokens, begin, sign, floor)?;
    operators::<B>(tokens, left, floor, level)
}
