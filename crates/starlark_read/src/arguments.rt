//! Arguments of calls.

ghost use Rattle.std.specs.Prelude.{ℕ, ◌≡◌, ◌≢◌, ◌<◌, ◌≤◌, Bool, false, OnOk, Some, length, string_bytes};
ghost use Rattle.starlark_lexer.specs.Items.{closing_round};
ghost use Rattle.starlark_lexer.specs.declared.dialect.Dialect.{Dialect};
ghost use Rattle.starlark_ast.specs.Tree as tree;
ghost use Rattle.starlark_ast.specs.View.{members};
ghost use Rattle.starlark_grammar.specs.Nodes.{from, start};
ghost use Rattle.starlark_grammar.specs.Points.{behind, first_at, member_wanted, member_read};
ghost use Rattle.starlark_grammar.specs.Frames.{Frames, has, perhaps_named, stands};
ghost use Rattle.starlark_read.specs.Reads.{Comes, first_lexeme};

use crate::error::Error;
use crate::expression::expression;
use crate::kind::Kind;
use crate::level::{TEST, UNARY};
use crate::lists::push;
use crate::operators::operators;
use crate::suffixes::suffixes;
use crate::tokens::Tokens;
use starlark_grammar::make::Make;
use starlark_place::pos::Spanned;

/// A call, behind its opening parenthesis.
#[cycle(expression)]
pub(crate) fn call<B: Make>(tokens: &mut Tokens, callee: B::Expr) -> Result<B::Expr, Error>
    ensures reads { (d : Dialect) (k : Frames) → Comes d (stands (member_wanted (behind (B.means callee)) tree.none false 0 0) k) (λ x. has (B.means x) tokens.new.last k) tokens.old result tokens.new }
    ensures shorter { OnOk result (length tokens.new.items < length tokens.old.items) }
{
    let found = arguments::<B>(tokens)?;
    let span = tokens.since(B::place(&callee).begin());
    Ok(B::call(tokens.alloc(), callee, found, span)?)
}

// the arguments of a call, with its closing parenthesis
#[cycle(expression)]
fn arguments<B: Make>(tokens: &mut Tokens) -> Result<Vec<B::Argument>, Error>
    ensures reads { (d : Dialect) (q : tree.Expr) (k : Frames) → Comes d (stands (member_wanted (behind q) tree.none false 0 0) k) (λ xs. has (tree.call q (members B.argument_means xs.items) (from q tokens.new.last)) tokens.new.last k) tokens.old result tokens.new }
    ensures shorter { OnOk result (length tokens.new.items < length tokens.old.items) }
{
    let mut found = Vec::new(tokens.alloc());
    loop {
        if tokens.accept(Kind::ClosingRound)? {
            return Ok(found);
        }
        let next = argument::<B>(tokens)?;
        push(&mut found, next)?;
        if !tokens.accept(Kind::Comma)? {
            tokens.expect(Kind::ClosingRound)?;
            return Ok(found);
        }
    }
}

// an argument
#[cycle(expression)]
fn argument<B: Make>(tokens: &mut Tokens) -> Result<B::Argument, Error>
    requires { first_lexeme tokens.old.items ≢ Some closing_round }
    ensures reads { (d : Dialect) (q : tree.Expr) (ms : tree.Members) (t : Bool) (e f : ℕ) (k : Frames) → Comes d (stands (member_wanted (behind q) ms t e f) k) (λ x. stands (member_read (behind q) (tree.more ms (B.argument_means x)) tokens.new.last (first_at ms f (start tokens.old.items))) k) tokens.old result tokens.new }
    ensures shorter { OnOk result (length tokens.new.items < length tokens.old.items) }
{
    let begin = tokens.begin();
    if tokens.accept(Kind::Star)? {
        let value = expression::<B>(tokens, TEST)?;
        let span = tokens.since(begin);
        return Ok(B::args(value, span));
    }
    if tokens.accept(Kind::StarStar)? {
        let value = expression::<B>(tokens, TEST)?;
        let span = tokens.since(begin);
        return Ok(B::kwargs(value, span));
    }
    if let Some(name) = tokens.identifier()? {
        return behind_name::<B>(tokens, name);
    }
    let value = expression::<B>(tokens, TEST)?;
    let span = tokens.since(begin);
    Ok(B::positional(value, span))
}

// an argument behind the identifier that it begins with
#[cycle(expression)]
fn behind_name<B: Make>(tokens: &mut Tokens, name: Spanned<String>) -> Result<B::Argument, Error>
    requires { tokens.old.last ≡ name.span.end }
    ensures reads { (d : Dialect) (q : tree.Expr) (ms : tree.Members) (f : ℕ) (k : Frames) → Comes d (perhaps_named q ms f (string_bytes name.node) name.span.begin name.span.end k) (λ x. stands (member_read (behind q) (tree.more ms (B.argument_means x)) tokens.new.last f) k) tokens.old result tokens.new }
    ensures shorter { OnOk result (length tokens.new.items ≤ length tokens.old.items) }
{
    let begin = name.span.begin();
    if tokens.accept(Kind::Equal)? {
        let value = expression::<B>(tokens, TEST)?;
        let span = tokens.since(begin);
        return Ok(B::named(name, value, span));
    }
    let left = B::name(name.node, name.span);
    let left = suffixes::<B>(tokens, left)?;
    let value = operators::<B>(tokens, left, UNARY, TEST)?;
    let span = tokens.since(begin);
    Ok(B::positional(value, span))
}
