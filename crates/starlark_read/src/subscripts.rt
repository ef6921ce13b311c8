//! Subscripts: an index, two, or a slice.

ghost use Rattle.std.specs.Prelude.{◌≡◌, ◌⊎◌, ⊤, ◌<◌, ◌≤◌, IfOk, OnOk, MatchOption, Some, length};
ghost use Rattle.starlark_lexer.specs.Items.{closing_square, colon};
ghost use Rattle.starlark_lexer.specs.declared.dialect.Dialect.{Dialect};
ghost use Rattle.starlark_ast.specs.Tree as tree;
ghost use Rattle.starlark_grammar.specs.Made.{bound_of};
ghost use Rattle.starlark_grammar.specs.Points.{Bounds, at_first, at_second, at_third, bound_wanted, second};
ghost use Rattle.starlark_grammar.specs.Frames.{Frames, has, inside, stands, wants};
ghost use Rattle.starlark_read.specs.Reads.{Comes, bound_at, first_lexeme};

use crate::error::Error;
use crate::expression::expression;
use crate::kind::Kind;
use crate::level::TEST;
use crate::tokens::Tokens;
use starlark_grammar::make::Make;

/// What stands in square brackets behind an expression, behind the opening one.
#[cycle(expression)]
pub(crate) fn subscript<B: Make>(tokens: &mut Tokens, object: B::Expr) -> Result<B::Expr, Error>
    ensures reads { (d : Dialect) (k : Frames) → Comes d (stands (bound_wanted (B.means object) at_first) k) (λ x. has (B.means x) tokens.new.last k) tokens.old result tokens.new }
    ensures shorter { OnOk result (length tokens.new.items < length tokens.old.items) }
{
    if tokens.accept(Kind::Colon)? {
        return slice::<B>(tokens, object, None);
    }
    let first = expression::<B>(tokens, TEST)?;
    if tokens.accept(Kind::Comma)? {
        return index_of_two::<B>(tokens, object, first);
    }
    if tokens.accept(Kind::Colon)? {
        return slice::<B>(tokens, object, Some(first));
    }
    tokens.expect(Kind::ClosingSquare)?;
    let span = tokens.since(B::place(&object).begin());
    Ok(B::index(tokens.alloc(), object, first, span)?)
}

// the second of two, behind the comma
#[cycle(expression)]
fn index_of_two<B: Make>(
    tokens: &mut Tokens,
    object: B::Expr,
    first: B::Expr,
) -> Result<B::Expr, Error>
    ensures reads { (d : Dialect) (k : Frames) → Comes d (wants 12 (inside (second (B.means object) (B.means first)) k)) (λ x. has (B.means x) tokens.new.last k) tokens.old result tokens.new }
    ensures shorter { OnOk result (length tokens.new.items < length tokens.old.items) }
{
    let second = expression::<B>(tokens, TEST)?;
    tokens.expect(Kind::ClosingSquare)?;
    let span = tokens.since(B::place(&object).begin());
    Ok(B::index_of_two(tokens.alloc(), object, first, second, span)?)
}

// a slice, behind its first colon
#[cycle(expression)]
fn slice<B: Make>(
    tokens: &mut Tokens,
    object: B::Expr,
    from: Option<B::Expr>,
) -> Result<B::Expr, Error>
    ensures reads { (d : Dialect) (k : Frames) → Comes d (stands (bound_wanted (B.means object) (at_second (bound_of B.means from))) k) (λ x. has (B.means x) tokens.new.last k) tokens.old result tokens.new }
    ensures shorter { OnOk result (length tokens.new.items < length tokens.old.items) }
{
    let to = bound::<B>(tokens)?;
    if tokens.accept(Kind::Colon)? {
        return step::<B>(tokens, object, from, to);
    }
    tokens.expect(Kind::ClosingSquare)?;
    let span = tokens.since(B::place(&object).begin());
    Ok(B::slice(tokens.alloc(), object, from, to, None, span)?)
}

// a slice, behind its second colon
#[cycle(expression)]
fn step<B: Make>(
    tokens: &mut Tokens,
    object: B::Expr,
    from: Option<B::Expr>,
    to: Option<B::Expr>,
) -> Result<B::Expr, Error>
    ensures reads { (d : Dialect) (k : Frames) → Comes d (stands (bound_wanted (B.means object) (at_third (bound_of B.means from) (bound_of B.means to))) k) (λ x. has (B.means x) tokens.new.last k) tokens.old result tokens.new }
    ensures shorter { OnOk result (length tokens.new.items < length tokens.old.items) }
{
    let step = bound::<B>(tokens)?;
    tokens.expect(Kind::ClosingSquare)?;
    let span = tokens.since(B::place(&object).begin());
    Ok(B::slice(tokens.alloc(), object, from, to, step, span)?)
}

// a bound of a slice, or none before a colon or the closing bracket
#[cycle(expression)]
fn bound<B: Make>(tokens: &mut Tokens) -> Result<Option<B::Expr>, Error>
    ensures reads { (d : Dialect) (q : tree.Expr) (bs : Bounds) (k : Frames) → Comes d (stands (bound_wanted q bs) k) (λ o. bound_at q bs (bound_of B.means o) tokens.new.last k) tokens.old result tokens.new }
    ensures ended { IfOk result (λ o. MatchOption o ((first_lexeme tokens.new.items ≡ Some colon) ⊎ (first_lexeme tokens.new.items ≡ Some closing_square)) (λ x. ⊤)) }
    ensures shorter { OnOk result (length tokens.new.items ≤ length tokens.old.items) }
{
    if tokens.stands(Kind::Colon) {
        return Ok(None);
    }
    if tokens.stands(Kind::ClosingSquare) {
        return Ok(None);
    }
    Ok(Some(expression::<B>(tokens, TEST)?))
}
