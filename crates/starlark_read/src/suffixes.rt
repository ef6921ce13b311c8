//! What stands right behind an expression: names, calls and subscripts.

ghost use Rattle.std.specs.Prelude.{◌<◌, ◌≤◌, OnOk, length};
ghost use Rattle.starlark_lexer.specs.declared.dialect.Dialect.{Dialect};
ghost use Rattle.starlark_grammar.specs.Points.{attribute_wanted};
ghost use Rattle.starlark_grammar.specs.Frames.{Frames, has, stands, tail};
ghost use Rattle.starlark_read.specs.Reads.{Comes};

use crate::arguments::call;
use crate::error::Error;
use crate::kind::Kind;
use crate::operators::both;
use crate::subscripts::subscript;
use crate::tokens::Tokens;
use starlark_grammar::make::Make;

/// The suffixes behind an expression.
#[cycle(expression)]
pub(crate) fn suffixes<B: Make>(tokens: &mut Tokens, left: B::Expr) -> Result<B::Expr, Error>
    ensures reads { (d : Dialect) (k : Frames) → Comes d (has (B.means left) tokens.old.last (tail 0 k)) (λ x. has (B.means x) tokens.new.last k) tokens.old result tokens.new }
    ensures shorter { OnOk result (length tokens.new.items ≤ length tokens.old.items) }
{
    let mut left = left;
    loop {
        if tokens.accept(Kind::Dot)? {
            left = attribute::<B>(tokens, left)?;
        } else if tokens.accept(Kind::OpeningRound)? {
            left = call::<B>(tokens, left)?;
        } else if tokens.accept(Kind::OpeningSquare)? {
            left = subscript::<B>(tokens, left)?;
        } else {
            return Ok(left);
        }
    }
}

// the name behind a dot
fn attribute<B: Make>(tokens: &mut Tokens, object: B::Expr) -> Result<B::Expr, Error>
    ensures reads { (d : Dialect) (k : Frames) → Comes d (stands (attribute_wanted (B.means object)) k) (λ x. has (B.means x) tokens.new.last k) tokens.old result tokens.new }
    ensures shorter { OnOk result (length tokens.new.items < length tokens.old.items) }
{
    let Some(name) = tokens.identifier()? else {
        return Err(Error::Unexpected);
    };
    let span = both(B::place(&object), name.span);
    Ok(B::dot(tokens.alloc(), object, name, span)?)
}
