//! Parameters of lambdas.

ghost use Rattle.std.specs.Prelude.{◌≢◌, ℕ, ◌<◌, ◌≤◌, Bool, false, OnOk, Some, length};
ghost use Rattle.starlark_lexer.specs.Items.{colon};
ghost use Rattle.starlark_lexer.specs.declared.dialect.Dialect.{Dialect};
ghost use Rattle.starlark_ast.specs.Tree as tree;
ghost use Rattle.starlark_ast.specs.View.{members};
ghost use Rattle.starlark_grammar.specs.Nodes.{start};
ghost use Rattle.starlark_grammar.specs.Points.{before_body, body, first_at, member_read, member_wanted, star_read};
ghost use Rattle.starlark_grammar.specs.Frames.{Frames, inside, stands, wants};
ghost use Rattle.starlark_read.specs.Reads.{Comes, first_lexeme};

use crate::error::Error;
use crate::expression::expression;
use crate::kind::Kind;
use crate::level::TEST;
use crate::lists::{push, single};
use crate::names::name;
use crate::tokens::Tokens;
use starlark_grammar::make::Make;
use starlark_place::pos::Pos;

/// The parameters of a lambda, with the colon behind them.
#[cycle(expression)]
pub(crate) fn lambda_parameters<B: Make>(tokens: &mut Tokens) -> Result<Vec<B::Parameter>, Error>
    ensures reads { (d : Dialect) (b : ℕ) (k : Frames) → Comes d (stands (member_wanted (before_body b) tree.none false 0 0) k) (λ ps. wants 12 (inside (body (members B.parameter_means ps.items) b) k)) tokens.old result tokens.new }
    ensures shorter { OnOk result (length tokens.new.items < length tokens.old.items) }
{
    if tokens.accept(Kind::Colon)? {
        let none = Vec::new(tokens.alloc());
        return Ok(none);
    }
    let first = parameter::<B>(tokens)?;
    let mut found = single(tokens.alloc(), first)?;
    loop {
        if !tokens.accept(Kind::Comma)? {
            tokens.expect(Kind::Colon)?;
            return Ok(found);
        }
        if tokens.accept(Kind::Colon)? {
            return Ok(found);
        }
        let next = parameter::<B>(tokens)?;
        push(&mut found, next)?;
    }
}

/// A parameter or a marker, where no colon stands.
#[cycle(expression)]
fn parameter<B: Make>(tokens: &mut Tokens) -> Result<B::Parameter, Error>
    ensures reads { (d : Dialect) (b : ℕ) (ms : tree.Members) (t : Bool) (e f : ℕ) (k : Frames) → first_lexeme tokens.old.items ≢ Some colon → Comes d (stands (member_wanted (before_body b) ms t e f) k) (λ x. stands (member_read (before_body b) (tree.more ms (B.parameter_means x)) tokens.new.last (first_at ms f (start tokens.old.items))) k) tokens.old result tokens.new }
    ensures shorter { OnOk result (length tokens.new.items < length tokens.old.items) }
{
    let begin = tokens.begin();
    if tokens.accept(Kind::Slash)? {
        return Ok(B::slash(tokens.since(begin)));
    }
    if tokens.accept(Kind::Star)? {
        return starred::<B>(tokens, begin);
    }
    if tokens.accept(Kind::StarStar)? {
        let Some(name) = name(tokens)? else {
            return Err(Error::Unexpected);
        };
        let span = tokens.since(begin);
        return Ok(B::kwargs_parameter(name, span));
    }
    let Some(name) = name(tokens)? else {
        return Err(Error::Unexpected);
    };
    let span = tokens.since(begin);
    if tokens.accept(Kind::Equal)? {
        let default = expression::<B>(tokens, TEST)?;
        let span = tokens.since(begin);
        return Ok(B::parameter(tokens.alloc(), name, Some(default), span)?);
    }
    Ok(B::parameter(tokens.alloc(), name, None, span)?)
}

/// A parameter behind its `*`, or the marker that this is.
fn starred<B: Make>(tokens: &mut Tokens, begin: Pos) -> Result<B::Parameter, Error>
    ensures reads { (d : Dialect) (b : ℕ) (ms : tree.Members) (f : ℕ) (k : Frames) → Comes d (stands (star_read b ms f begin tokens.old.last) k) (λ x. stands (member_read (before_body b) (tree.more ms (B.parameter_means x)) tokens.new.last f) k) tokens.old result tokens.new }
    ensures shorter { OnOk result (length tokens.new.items ≤ length tokens.old.items) }
{
    let Some(name) = name(tokens)? else {
        return Ok(B::no_args(tokens.since(begin)));
    };
    let span = tokens.since(begin);
    Ok(B::args_parameter(name, span))
}
