//! Suites.

ghost use Rattle.std.specs.Prelude.{◌≡◌, ◌<◌, ℕ, OnOk, length};
ghost use Rattle.starlark_ast.specs.Tree.{no_statements};
ghost use Rattle.starlark_grammar.specs.Frames.{Suites, at_line, inner, wants_indent, wants_suite};
ghost use Rattle.starlark_grammar.specs.Machine.{close};
ghost use Rattle.starlark_read.specs.Reads.{Comes};
ghost use Rattle.starlark_read.specs.Lines.{line_ahead, line_of};

use crate::block::block;
use crate::error::Error;
use crate::kind::Kind;
use crate::lists::push;
use crate::row::row;
use crate::statement::statement;
use crate::tokens::Tokens;
use starlark_grammar::build::Build;
use starlark_lexer::dialect::Dialect;

/// What stands behind the colon of an `if`, a `for` or a `def`: small statements on its line, or lines further in.
#[cycle(statement)]
pub(crate) fn suite<B: Build>(tokens: &mut Tokens, dialect: Dialect) -> Result<B::Stmt, Error>
    ensures reads { (k : Suites) → Comes dialect (wants_suite k) (λ x. close k (B.says x) tokens.new.last) tokens.old result tokens.new }
    ensures shorter { OnOk result (length tokens.new.items < length tokens.old.items) }
{
    if tokens.accept(Kind::Newline)? {
        return indented::<B>(tokens, dialect);
    }
    row::<B>(tokens, dialect)
}

/// Lines further in, behind the line end of what they belong to.
#[cycle(statement)]
fn indented<B: Build>(tokens: &mut Tokens, dialect: Dialect) -> Result<B::Stmt, Error>
    ensures reads { (k : Suites) → Comes dialect (wants_indent k) (λ x. close k (B.says x) tokens.new.last) tokens.old result tokens.new }
    ensures shorter { OnOk result (length tokens.new.items < length tokens.old.items) }
{
    while tokens.accept(Kind::Newline)? {}
    tokens.expect(Kind::Indent)?;
    lines::<B>(tokens, dialect)
}

/// The statements of lines further in, one at least, with the `Dedent` behind them.
#[cycle(statement)]
fn lines<B: Build>(tokens: &mut Tokens, dialect: Dialect) -> Result<B::Stmt, Error>
    ensures reads { (k : Suites) (e : ℕ) → Comes dialect (at_line (inner no_statements k) e) (λ x. close k (B.says x) tokens.new.last) tokens.old result tokens.new }
    ensures shorter { OnOk result (length tokens.new.items < length tokens.old.items) }
{
    let mut statements = Vec::new(tokens.alloc());
    loop {
        let end = tokens.last();
        if tokens.accept(Kind::Newline)? {
            continue;
        }
        if begins_line(tokens) {
            let next = statement::<B>(tokens, dialect)?;
            push(&mut statements, next)?;
        } else if statements.is_empty() {
            return Err(Error::Unexpected);
        } else {
            tokens.expect(Kind::Dedent)?;
            return Ok(block::<B>(statements, end));
        }
    }
}

/// Whether the next token can begin a line, which neither a `Dedent` nor the end does.
fn begins_line(tokens: &Tokens) -> bool
    ensures { result ≡ line_ahead tokens.now.items }
{
    is_line(tokens.kind())
}

/// Whether a token of that kind can begin a line.
fn is_line(kind: Kind) -> bool
    ensures { result ≡ line_of kind }
{
    match kind {
        Kind::Dedent | Kind::End => false,
        _ => true,
    }
}
