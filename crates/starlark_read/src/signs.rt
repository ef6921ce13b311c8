//! What stands before an expression: signs, and the parameters of a lambda.

ghost use Rattle.std.specs.Prelude.{ℕ, ◌≡◌, ◌≢◌, ◌⊎◌, ◌+◌, ◌<◌, ◌≤◌, suc, false, OnOk, Some, length};
ghost use Rattle.starlark_lexer.specs.Items.{keyword_lambda};
ghost use Rattle.starlark_lexer.specs.declared.dialect.Dialect.{Dialect};
ghost use Rattle.starlark_ast.specs.Tree as tree;
ghost use Rattle.starlark_grammar.specs.Made.{maybe_sign, sign_of};
ghost use Rattle.starlark_grammar.specs.Nodes.{start};
ghost use Rattle.starlark_grammar.specs.Points.{before_body, behind_sign, member_wanted};
ghost use Rattle.starlark_grammar.specs.Frames.{Frames, has, inside, stands, wants};
ghost use Rattle.starlark_grammar.specs.Machine.{tails};
ghost use Rattle.starlark_grammar.specs.Tables.{beginning};
ghost use Rattle.starlark_read.specs.Kinds.{token_of};
ghost use Rattle.starlark_read.specs.Reads.{Comes, begins_ahead, begins_by, first_lexeme, sign_ahead, sign_in};

use crate::error::Error;
use crate::expression::expression;
use crate::kind::Kind;
use crate::level::{NOT, PRIMARY, TEST, UNARY};
use crate::parameters::lambda_parameters;
use crate::tokens::Tokens;
use starlark_grammar::make::{Make, Sign};
use starlark_place::pos::Pos;

/// A sign, where one stands ahead: what is behind it is of that level.
pub(crate) fn sign(tokens: &mut Tokens, level: u8) -> Result<Sign, Error>
    requires ahead { begins_ahead tokens.old.items ≡ level }
    requires some { 0 < level }
    requires no_lambda { first_lexeme tokens.old.items ≢ Some keyword_lambda }
    ensures reads { (d : Dialect) (c : ℕ) (k : Frames) → Comes d (wants (c + level) k) (λ s. wants level (inside (behind_sign (sign_of s) (start tokens.old.items)) (tails (suc c) level k))) tokens.old result tokens.new }
    ensures shorter { OnOk result (length tokens.new.items < length tokens.old.items) }
{
    let Some(sign) = sign_ahead(tokens) else {
        unreachable!();
    };
    tokens.skip()?;
    Ok(sign)
}

// the sign that stands ahead
fn sign_ahead(tokens: &Tokens) -> Option<Sign>
    ensures { maybe_sign result ≡ sign_ahead tokens.now.items }
{
    sign_of(tokens.kind())
}

// the sign of that kind
fn sign_of(kind: Kind) -> Option<Sign>
    ensures { maybe_sign result ≡ sign_in (beginning (token_of kind)) }
{
    match kind {
        Kind::Not => Some(Sign::Not),
        Kind::Minus => Some(Sign::Minus),
        Kind::Plus => Some(Sign::Plus),
        Kind::Tilde => Some(Sign::BitNot),
        _ => None,
    }
}

/// The level of the sign or the lambda that stands ahead, or `PRIMARY` where none stands there that an expression of a
/// level begins with.
pub(crate) fn level_ahead(tokens: &Tokens, level: u8) -> u8
    ensures none { result ≡ 0 → (begins_ahead tokens.now.items ≡ 0) ⊎ (level < begins_ahead tokens.now.items) }
    ensures some { result ≢ 0 → (begins_ahead tokens.now.items ≡ result) × (result ≤ level) }
{
    let floor = begins_at(tokens);
    if level < floor { PRIMARY } else { floor }
}

// the level of the sign or the lambda that stands ahead, or `PRIMARY`
fn begins_at(tokens: &Tokens) -> u8
    ensures { result ≡ begins_ahead tokens.now.items }
{
    level_of(tokens.kind())
}

// the level of the sign or the lambda of that kind, or `PRIMARY`
fn level_of(kind: Kind) -> u8
    ensures { result ≡ begins_by (beginning (token_of kind)) }
{
    match kind {
        Kind::Minus | Kind::Plus | Kind::Tilde => UNARY,
        Kind::Not => NOT,
        Kind::Lambda => TEST,
        _ => PRIMARY,
    }
}

/// What a sign that begins there stands before, an expression of that level.
#[cycle(expression)]
pub(crate) fn signed<B: Make>(
    tokens: &mut Tokens,
    begin: Pos,
    sign: Sign,
    level: u8,
) -> Result<B::Expr, Error>
    requires { level ≤ 12 }
    ensures reads { (d : Dialect) (k : Frames) → Comes d (wants level (inside (behind_sign (sign_of sign) begin) k)) (λ x. has (B.means x) tokens.new.last k) tokens.old result tokens.new }
    ensures shorter { OnOk result (length tokens.new.items < length tokens.old.items) }
{
    let operand = expression::<B>(tokens, level)?;
    let span = tokens.since(begin);
    Ok(B::signed(tokens.alloc(), sign, operand, span)?)
}

/// The parameters and the body of a lambda that begins there.
#[cycle(expression)]
pub(crate) fn lambda<B: Make>(tokens: &mut Tokens, begin: Pos) -> Result<B::Expr, Error>
    ensures reads { (d : Dialect) (k : Frames) → Comes d (stands (member_wanted (before_body begin) tree.none false 0 0) k) (λ x. has (B.means x) tokens.new.last k) tokens.old result tokens.new }
    ensures shorter { OnOk result (length tokens.new.items < length tokens.old.items) }
{
    let parameters = lambda_parameters::<B>(tokens)?;
    let body = expression::<B>(tokens, TEST)?;
    let span = tokens.since(begin);
    Ok(B::lambda(tokens.alloc(), parameters, body, span)?)
}
