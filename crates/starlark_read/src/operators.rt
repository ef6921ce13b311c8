//! Operators between expressions.

ghost use Rattle.std.specs.Prelude.{ℕ, ◌≡◌, ◌+◌, ◌<◌, ◌≤◌, suc, None, OnOk, if◌then◌else◌, length};
ghost use Rattle.starlark_lexer.specs.declared.dialect.Dialect.{Dialect};
ghost use Rattle.starlark_ast.specs.Tree as tree;
ghost use Rattle.starlark_grammar.specs.Spans.{stretch};
ghost use Rattle.starlark_grammar.specs.Tables.{associates, suffix};
ghost use Rattle.starlark_grammar.specs.Points.{condition, operand};
ghost use Rattle.starlark_grammar.specs.Frames.{Frames, has, inside, tail, wants};
ghost use Rattle.starlark_grammar.specs.Machine.{tails};
ghost use Rattle.starlark_read.specs.Kinds.{token_of};
ghost use Rattle.starlark_read.specs.Reads.{Comes, grade_ahead, operator_ahead, operator_of};

use crate::error::Error;
use crate::expression::expression;
use crate::kind::Kind;
use crate::level::{COMPARISON, NOT, OR, TEST};
use crate::tokens::Tokens;
use starlark_ast::ast::BinOp;
use starlark_grammar::make::Make;
use starlark_place::pos::Span;

/// The operators of the levels from `floor` to `level`, with their right sides, behind an expression.
#[cycle(expression)]
pub(crate) fn operators<B: Make>(
    tokens: &mut Tokens,
    left: B::Expr,
    floor: u8,
    level: u8,
) -> Result<B::Expr, Error>
    requires low { 1 ≤ floor }
    requires below { floor ≤ suc level }
    requires high { level ≤ 12 }
    ensures reads { (d : Dialect) (c : ℕ) (k : Frames) → c + floor ≡ suc level → Comes d (has (B.means left) tokens.old.last (tails c floor k)) (λ x. has (B.means x) tokens.new.last k) tokens.old result tokens.new }
    ensures shorter { OnOk result (length tokens.new.items ≤ length tokens.old.items) }
{
    let mut left = left;
    let mut floor = floor;
    loop {
        let grade = tokens.grade();
        if grade < floor {
            return Ok(left);
        }
        if level < grade {
            return Ok(left);
        }
        if tokens.accept(Kind::If)? {
            return choice::<B>(tokens, left);
        }
        let op = operator(tokens, grade - 1)?;
        let right = expression::<B>(tokens, grade - 1)?;
        let span = both(B::place(&left), B::place(&right));
        left = B::operation(tokens.alloc(), left, op, right, span)?;
        floor = floor_behind(grade);
    }
}

// the condition and what is there without it, behind the `if`
#[cycle(expression)]
fn choice<B: Make>(tokens: &mut Tokens, value: B::Expr) -> Result<B::Expr, Error>
    ensures reads { (d : Dialect) (k : Frames) → Comes d (wants 11 (inside (condition (B.means value)) k)) (λ x. has (B.means x) tokens.new.last k) tokens.old result tokens.new }
    ensures shorter { OnOk result (length tokens.new.items < length tokens.old.items) }
{
    let condition = expression::<B>(tokens, OR)?;
    tokens.expect(Kind::Else)?;
    let otherwise = expression::<B>(tokens, TEST)?;
    let span = tokens.since(B::place(&value).begin());
    Ok(B::choice(tokens.alloc(), condition, value, otherwise, span)?)
}

// an operator whose right side is of that level
fn operator(tokens: &mut Tokens, level: u8) -> Result<BinOp, Error>
    requires ahead { grade_ahead tokens.old.items ≡ suc level }
    requires binary { level < 11 }
    ensures reads { (d : Dialect) (q : tree.Expr) (e : ℕ) (k : Frames) → Comes d (has q e (tail (suc level) k)) (λ o. wants level (inside (operand q o) (if associates (suc level) then tail (suc level) k else k))) tokens.old result tokens.new }
    ensures shorter { OnOk result (length tokens.new.items < length tokens.old.items) }
{
    if tokens.accept(Kind::Not)? {
        tokens.expect(Kind::In)?;
        return Ok(BinOp::NotIn);
    }
    let Some(op) = operator_ahead(tokens) else {
        unreachable!();
    };
    tokens.skip()?;
    Ok(op)
}

// the operator that stands ahead, one of a single token
fn operator_ahead(tokens: &Tokens) -> Option<BinOp>
    ensures { result ≡ operator_ahead tokens.now.items }
{
    operator_of(tokens.kind())
}

// the operator of that kind, one of a single token
fn operator_of(kind: Kind) -> Option<BinOp>
    ensures { result ≡ operator_of (suffix (token_of kind)) }
{
    match kind {
        Kind::Or => Some(BinOp::Or),
        Kind::And => Some(BinOp::And),
        Kind::EqualEqual => Some(BinOp::Equal),
        Kind::BangEqual => Some(BinOp::NotEqual),
        Kind::LessThan => Some(BinOp::Less),
        Kind::GreaterThan => Some(BinOp::Greater),
        Kind::LessEqual => Some(BinOp::LessOrEqual),
        Kind::GreaterEqual => Some(BinOp::GreaterOrEqual),
        Kind::In => Some(BinOp::In),
        Kind::Pipe => Some(BinOp::BitOr),
        Kind::Caret => Some(BinOp::BitXor),
        Kind::Ampersand => Some(BinOp::BitAnd),
        Kind::LessLess => Some(BinOp::LeftShift),
        Kind::GreaterGreater => Some(BinOp::RightShift),
        Kind::Plus => Some(BinOp::Add),
        Kind::Minus => Some(BinOp::Subtract),
        Kind::Star => Some(BinOp::Multiply),
        Kind::Slash => Some(BinOp::Divide),
        Kind::SlashSlash => Some(BinOp::FloorDivide),
        Kind::Percent => Some(BinOp::Percent),
        _ => None,
    }
}

/// From where the one begins to where the other ends.
pub(crate) fn both(left: Span, right: Span) -> Span
    ensures is { result ≡ stretch left.begin right.end }
    ensures order { right.begin ≤ right.end }
{
    Span::new(left.begin(), left.begin().max(right.end()))
}

// the least level of an operator behind an operation of a level
fn floor_behind(level: u8) -> u8
    requires { level < 12 }
    ensures { result ≡ if associates level then level else suc level }
{
    if level == COMPARISON { NOT } else { level }
}
