//! Clauses of comprehensions.

ghost use Rattle.std.specs.Prelude.{◌≡◌, ◌<◌, ℕ, true, false, IfOk, OnOk, length};
ghost use Rattle.starlark_lexer.specs.declared.dialect.Dialect.{Dialect};
ghost use Rattle.starlark_ast.specs.Tree as tree;
ghost use Rattle.starlark_read.specs.Kinds.{is_plain, token_of};
ghost use Rattle.starlark_grammar.specs.Made.{clauses_of, goes_over};
ghost use Rattle.starlark_grammar.specs.Spans.{stretch};
ghost use Rattle.starlark_grammar.specs.Tables.{Bracket, closing_bracket};
ghost use Rattle.starlark_grammar.specs.Points.{clauses_read, member_wanted, targets_in};
ghost use Rattle.starlark_grammar.specs.Frames.{Frames, stands, has};
ghost use Rattle.starlark_read.specs.Reads.{Comes};

use crate::error::Error;
use crate::expression::expression;
use crate::kind::Kind;
use crate::level::{BIT_OR, OR};
use crate::listed::listed;
use crate::lists::push;
use crate::tokens::Tokens;
use starlark_grammar::make::Make;

/// The clauses of a comprehension behind the first `for`, with what closes the brackets.
#[cycle(expression)]
pub(crate) fn clauses<B: Make>(
    tokens: &mut Tokens,
    closing: Kind,
) -> Result<(B::Clause, Vec<B::Clause>), Error>
    requires { is_plain closing ≡ true }
    ensures reads { (d : Dialect) (p : Bracket) (b : ℕ) (m : tree.Member) (k : Frames) → token_of closing ≡ closing_bracket p → Comes d (stands (member_wanted (targets_in p b m tree.no_clauses) tree.none false 0 0) k) (λ x. has (tree.comprehension m (clauses_of (B.clause_means x.0) B.clause_means x.1.items) (stretch b tokens.new.last)) tokens.new.last k) tokens.old result tokens.new }
    ensures over { IfOk result (λ x. goes_over (B.clause_means x.0) ≡ true) }
    ensures shorter { OnOk result (length tokens.new.items < length tokens.old.items) }
{
    let first = for_clause::<B>(tokens)?;
    let mut rest = Vec::new(tokens.alloc());
    loop {
        if tokens.accept(Kind::For)? {
            let next = for_clause::<B>(tokens)?;
            push(&mut rest, next)?;
        } else if tokens.accept(Kind::If)? {
            let condition = expression::<B>(tokens, OR)?;
            push(&mut rest, B::if_clause(condition))?;
        } else {
            tokens.expect(closing)?;
            return Ok((first, rest));
        }
    }
}

/// A clause behind its `for`.
#[cycle(expression)]
fn for_clause<B: Make>(tokens: &mut Tokens) -> Result<B::Clause, Error>
    ensures reads { (d : Dialect) (p : Bracket) (b : ℕ) (m : tree.Member) (cs : tree.Clauses) (k : Frames) → Comes d (stands (member_wanted (targets_in p b m cs) tree.none false 0 0) k) (λ x. stands (clauses_read p b m (tree.and_clause cs (B.clause_means x))) k) tokens.old result tokens.new }
    ensures over { IfOk result (λ x. goes_over (B.clause_means x) ≡ true) }
    ensures shorter { OnOk result (length tokens.new.items < length tokens.old.items) }
{
    let targets = listed::<B>(tokens, BIT_OR)?;
    tokens.expect(Kind::In)?;
    let over = expression::<B>(tokens, OR)?;
    if let Some(fault) = B::target_fault(&targets) {
        return Err(tokens.stop(fault));
    }
    Ok(B::for_clause(tokens.alloc(), targets, over)?)
}
