//! Members between brackets.

ghost use Rattle.std.specs.Prelude.{◌≡◌, ◌≢◌, ◌<◌, ℕ, Bool, true, OnOk, Some, length};
ghost use Rattle.starlark_lexer.specs.Items.{closing_curly};
ghost use Rattle.starlark_lexer.specs.declared.dialect.Dialect.{Dialect};
ghost use Rattle.starlark_ast.specs.Tree as tree;
ghost use Rattle.starlark_read.specs.Kinds.{is_plain, token_of};
ghost use Rattle.starlark_grammar.specs.Made.{items_of, pairs_of};
ghost use Rattle.starlark_grammar.specs.Nodes.{start};
ghost use Rattle.starlark_grammar.specs.Spans.{stretch};
ghost use Rattle.starlark_grammar.specs.Tables.{Bracket, curly, closing_bracket, kind_in, tests};
ghost use Rattle.starlark_grammar.specs.Points.{brackets, first_at, member_read, member_wanted};
ghost use Rattle.starlark_grammar.specs.Frames.{Frames, stands, has};
ghost use Rattle.starlark_read.specs.Gathered.{gathered};
ghost use Rattle.starlark_read.specs.Reads.{Comes, first_lexeme};

use crate::error::Error;
use crate::expression::expression;
use crate::kind::Kind;
use crate::level::TEST;
use crate::lists::{push, single};
use crate::tokens::Tokens;
use starlark_grammar::make::Make;
use starlark_place::pos::{Pos, Span};

/// The members of a tuple or a list behind the comma of the first, which begins at `begin`, with what closes them, and
/// where they stand without it.
#[cycle(expression)]
pub(crate) fn members_behind<B: Make>(
    tokens: &mut Tokens,
    closing: Kind,
    begin: Pos,
    first: B::Expr,
) -> Result<(Vec<B::Expr>, Span), Error>
    requires { is_plain closing ≡ true }
    ensures reads { (d : Dialect) (p : Bracket) (b : ℕ) (k : Frames) → kind_in p ≡ tests → token_of closing ≡ closing_bracket p → Comes d (stands (member_wanted (brackets p b) (tree.more tree.none (tree.item (B.means first))) true tokens.old.last begin) k) (λ x. has (gathered p (items_of B.means x.0.items) (stretch b tokens.new.last) x.1) tokens.new.last k) tokens.old result tokens.new }
    ensures shorter { OnOk result (length tokens.new.items < length tokens.old.items) }
{
    let mut members = single(tokens.alloc(), first)?;
    loop {
        let span = tokens.since(begin);
        if tokens.accept(closing)? {
            return Ok((members, span));
        }
        let next = expression::<B>(tokens, TEST)?;
        push(&mut members, next)?;
        let span = tokens.since(begin);
        if !tokens.accept(Kind::Comma)? {
            tokens.expect(closing)?;
            return Ok((members, span));
        }
    }
}

/// A key and its value, where no dict ends.
#[cycle(expression)]
pub(crate) fn pair<B: Make>(tokens: &mut Tokens) -> Result<(B::Expr, B::Expr), Error>
    ensures reads { (d : Dialect) (b : ℕ) (ms : tree.Members) (t : Bool) (e f : ℕ) (k : Frames) → first_lexeme tokens.old.items ≢ Some closing_curly → Comes d (stands (member_wanted (brackets curly b) ms t e f) k) (λ x. stands (member_read (brackets curly b) (tree.more ms (tree.pair (B.means x.0) (B.means x.1))) tokens.new.last (first_at ms f (start tokens.old.items))) k) tokens.old result tokens.new }
    ensures shorter { OnOk result (length tokens.new.items < length tokens.old.items) }
{
    let key = expression::<B>(tokens, TEST)?;
    tokens.expect(Kind::Colon)?;
    let value = expression::<B>(tokens, TEST)?;
    Ok((key, value))
}

/// The pairs of a dict behind the comma of the first, with what closes them.
#[cycle(expression)]
pub(crate) fn pairs_behind<B: Make>(
    tokens: &mut Tokens,
    first: (B::Expr, B::Expr),
) -> Result<Vec<(B::Expr, B::Expr)>, Error>
    ensures reads { (d : Dialect) (b f : ℕ) (k : Frames) → Comes d (stands (member_wanted (brackets curly b) (tree.more tree.none (tree.pair (B.means first.0) (B.means first.1))) true tokens.old.last f) k) (λ x. has (tree.dict (pairs_of B.means x.items) (stretch b tokens.new.last)) tokens.new.last k) tokens.old result tokens.new }
    ensures shorter { OnOk result (length tokens.new.items < length tokens.old.items) }
{
    let mut members = single(tokens.alloc(), first)?;
    loop {
        if tokens.accept(Kind::ClosingCurly)? {
            return Ok(members);
        }
        let next = pair::<B>(tokens)?;
        push(&mut members, next)?;
        if !tokens.accept(Kind::Comma)? {
            tokens.expect(Kind::ClosingCurly)?;
            return Ok(members);
        }
    }
}
