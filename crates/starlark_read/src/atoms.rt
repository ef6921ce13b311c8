//! Expressions without operators and suffixes.

ghost use Rattle.std.specs.Prelude.{◌≡◌, ◌<◌, false, OnOk, length};
ghost use Rattle.starlark_lexer.specs.declared.dialect.Dialect.{Dialect};
ghost use Rattle.starlark_ast.specs.Tree as tree;
ghost use Rattle.starlark_grammar.specs.Tables.{beginning, round, square, curly};
ghost use Rattle.starlark_grammar.specs.Points.{brackets, member_wanted};
ghost use Rattle.starlark_grammar.specs.Frames.{Frames, tail, stands, wants, has};
ghost use Rattle.starlark_read.specs.Gathered.{is_leaf, leaf_ahead, opening_ahead};
ghost use Rattle.starlark_read.specs.Kinds.{token_of};
ghost use Rattle.starlark_read.specs.Reads.{Comes};

use crate::brackets::{members_behind, pair, pairs_behind};
use crate::comprehension::clauses;
use crate::error::Error;
use crate::expression::expression;
use crate::f_string::{f_string, opens_f_string};
use crate::kind::Kind;
use crate::level::TEST;
use crate::lists::single;
use crate::tokens::Tokens;
use starlark_grammar::make::Make;
use starlark_lexer::token::Token;
use starlark_place::pos::Pos;

/// An expression without operators and suffixes.
#[cycle(expression)]
pub(crate) fn atom<B: Make>(tokens: &mut Tokens) -> Result<B::Expr, Error>
    ensures reads { (d : Dialect) (k : Frames) → Comes d (wants 0 k) (λ x. has (B.means x) tokens.new.last (tail 0 k)) tokens.old result tokens.new }
    ensures shorter { OnOk result (length tokens.new.items < length tokens.old.items) }
{
    let begin = tokens.begin();
    if tokens.accept(Kind::OpeningRound)? {
        return parenthesized::<B>(tokens, begin);
    }
    if tokens.accept(Kind::OpeningSquare)? {
        return list::<B>(tokens, begin);
    }
    if tokens.accept(Kind::OpeningCurly)? {
        return dict::<B>(tokens, begin);
    }
    if opens_f_string(tokens)? {
        return f_string::<B>(tokens, begin);
    }
    leaf::<B>(tokens)
}

/// Whether the next token is an expression by itself.
fn begins_leaf(tokens: &Tokens) -> bool
    ensures { result ≡ leaf_ahead tokens.now.items }
{
    is_leaf(tokens.kind())
}

/// Whether a token of that kind is an expression by itself.
fn is_leaf(kind: Kind) -> bool
    ensures { result ≡ is_leaf (beginning (token_of kind)) }
{
    match kind {
        Kind::Identifier | Kind::Int | Kind::Float => true,
        Kind::String | Kind::Bytes | Kind::Ellipsis => true,
        _ => false,
    }
}

/// An expression of one token, where no bracket and no f-string begins.
fn leaf<B: Make>(tokens: &mut Tokens) -> Result<B::Expr, Error>
    ensures reads { (d : Dialect) (k : Frames) → opening_ahead tokens.old.items ≡ false → Comes d (wants 0 k) (λ x. has (B.means x) tokens.new.last (tail 0 k)) tokens.old result tokens.new }
    ensures shorter { OnOk result (length tokens.new.items < length tokens.old.items) }
{
    let begin = tokens.begin();
    if !begins_leaf(tokens) {
        return Err(Error::Unexpected);
    }
    let Some((token, _)) = tokens.next()? else {
        unreachable!();
    };
    let span = tokens.since(begin);
    match token {
        Token::Identifier(name) => Ok(B::name(name, span)),
        Token::Int(value) => Ok(B::int(value, span)),
        Token::Float(text) => Ok(B::float(text, span)),
        Token::String(text) => Ok(B::string(text, span)),
        Token::Bytes(bytes) => Ok(B::bytes(bytes, span)),
        Token::Ellipsis => Ok(B::ellipsis(span)),
        _ => unreachable!(),
    }
}

/// An expression in parentheses, or a tuple, behind `(`.
#[cycle(expression)]
fn parenthesized<B: Make>(tokens: &mut Tokens, opening: Pos) -> Result<B::Expr, Error>
    ensures reads { (d : Dialect) (k : Frames) → Comes d (stands (member_wanted (brackets round opening) tree.none false 0 0) k) (λ x. has (B.means x) tokens.new.last k) tokens.old result tokens.new }
    ensures shorter { OnOk result (length tokens.new.items < length tokens.old.items) }
{
    if tokens.accept(Kind::ClosingRound)? {
        let none = Vec::new(tokens.alloc());
        return Ok(B::tuple(none, tokens.since(opening)));
    }
    let begin = tokens.begin();
    let first = expression::<B>(tokens, TEST)?;
    if tokens.accept(Kind::Comma)? {
        let (members, span) = members_behind::<B>(tokens, Kind::ClosingRound, begin, first)?;
        return Ok(B::tuple(members, span));
    }
    tokens.expect(Kind::ClosingRound)?;
    Ok(first)
}

/// A list or a comprehension of one, behind `[`.
#[cycle(expression)]
fn list<B: Make>(tokens: &mut Tokens, opening: Pos) -> Result<B::Expr, Error>
    ensures reads { (d : Dialect) (k : Frames) → Comes d (stands (member_wanted (brackets square opening) tree.none false 0 0) k) (λ x. has (B.means x) tokens.new.last k) tokens.old result tokens.new }
    ensures shorter { OnOk result (length tokens.new.items < length tokens.old.items) }
{
    let alloc = tokens.alloc();
    if tokens.accept(Kind::ClosingSquare)? {
        let none = Vec::new(alloc);
        return Ok(B::list(none, tokens.since(opening)));
    }
    let begin = tokens.begin();
    let first = expression::<B>(tokens, TEST)?;
    if tokens.accept(Kind::For)? {
        let (over, rest) = clauses::<B>(tokens, Kind::ClosingSquare)?;
        let span = tokens.since(opening);
        return Ok(B::list_comprehension(alloc, first, over, rest, span)?);
    }
    if tokens.accept(Kind::Comma)? {
        let (members, _) = members_behind::<B>(tokens, Kind::ClosingSquare, begin, first)?;
        return Ok(B::list(members, tokens.since(opening)));
    }
    tokens.expect(Kind::ClosingSquare)?;
    let only = single(alloc, first)?;
    Ok(B::list(only, tokens.since(opening)))
}

/// A dict or a comprehension of one, behind `{`.
#[cycle(expression)]
fn dict<B: Make>(tokens: &mut Tokens, opening: Pos) -> Result<B::Expr, Error>
    ensures reads { (d : Dialect) (k : Frames) → Comes d (stands (member_wanted (brackets curly opening) tree.none false 0 0) k) (λ x. has (B.means x) tokens.new.last k) tokens.old result tokens.new }
    ensures shorter { OnOk result (length tokens.new.items < length tokens.old.items) }
{
    let alloc = tokens.alloc();
    if tokens.accept(Kind::ClosingCurly)? {
        let none = Vec::new(alloc);
        return Ok(B::dict(none, tokens.since(opening)));
    }
    let first = pair::<B>(tokens)?;
    if tokens.accept(Kind::For)? {
        let (over, rest) = clauses::<B>(tokens, Kind::ClosingCurly)?;
        let span = tokens.since(opening);
        return Ok(B::dict_comprehension(alloc, first, over, rest, span)?);
    }
    if tokens.accept(Kind::Comma)? {
        let members = pairs_behind::<B>(tokens, first)?;
        return Ok(B::dict(members, tokens.since(opening)));
    }
    tokens.expect(Kind::ClosingCurly)?;
    let only = single(alloc, first)?;
    Ok(B::dict(only, tokens.since(opening)))
}
