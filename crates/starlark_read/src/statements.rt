//! The statements of a whole text.

ghost use Rattle.std.specs.Prelude.{◌≡◌, ◌≢◌, ℕ, [], None, true, false, IfOk};
ghost use Rattle.starlark_ast.specs.Tree.{no_statements};
ghost use Rattle.starlark_grammar.specs.Events.{end_finding};
ghost use Rattle.starlark_grammar.specs.Frames.{at_line, outer};
ghost use Rattle.starlark_grammar.specs.Made.{sequence_of};
ghost use Rattle.starlark_grammar.specs.Nodes.{block_of};
ghost use Rattle.starlark_read.specs.Reads.{Comes};

use crate::error::Error;
use crate::kind::Kind;
use crate::lists::push;
use crate::statement::statement;
use crate::tokens::Tokens;
use starlark_grammar::build::Build;
use starlark_lexer::dialect::Dialect;
use std::alloc::{AllocError, Global};

/// The statements of a text.
pub(crate) struct TopStatements<S> {
    pub(crate) items: Vec<S>,
    /// Whether none of them breaks a rule that counts at the end.
    pub(crate) are_clean: bool,
}

/// The statements of a text, up to its end or to the lexer's fault. Each is looked at as soon as it is read, while it is
/// at hand: a tree that has grown large is slow to go through.
pub(crate) fn statements<B: Build>(
    tokens: &mut Tokens,
    dialect: Dialect,
) -> Result<TopStatements<B::Stmt>, Error>
    ensures reads { Comes dialect (at_line (outer no_statements) tokens.old.last) (λ xs. at_line (outer (sequence_of B.says xs.items.items)) tokens.new.last) tokens.old result tokens.new }
    ensures whole { IfOk result (λ xs. tokens.new.items ≡ []) }
    ensures clean { IfOk result (λ xs. xs.are_clean ≡ true → (e : ℕ) → end_finding dialect (block_of (sequence_of B.says xs.items.items) e) ≡ None) }
    ensures unclean { IfOk result (λ xs. xs.are_clean ≡ false → (e : ℕ) → end_finding dialect (block_of (sequence_of B.says xs.items.items) e) ≢ None) }
{
    let mut found = Vec::new(tokens.alloc());
    let mut are_clean = true;
    loop {
        if tokens.accept(Kind::Newline)? {
            continue;
        }
        match tokens.kind() {
            Kind::End => {
                return Ok(TopStatements {
                    items: found,
                    are_clean,
                });
            }
            Kind::Dedent => return Err(Error::Unexpected),
            _ => {
                let next = statement::<B>(tokens, dialect)?;
                are_clean = still_clean::<B>(tokens.alloc(), dialect, are_clean, &next)?;
                push(&mut found, next)?;
            }
        }
    }
}

/// Whether a statement breaks no rule that counts at the end, and those before it did not, as `before` says.
fn still_clean<B: Build>(
    alloc: Global,
    dialect: Dialect,
    before: bool,
    s: &B::Stmt,
) -> Result<bool, AllocError>
    ensures clean { IfOk result (λ b. b ≡ true → (before ≡ true) × (end_finding dialect (B.says s.now) ≡ None)) }
    ensures unclean { IfOk result (λ b. b ≡ false → before ≡ true → end_finding dialect (B.says s.now) ≢ None) }
{
    if !before {
        return Ok(false);
    }
    let found = B::end_fault(alloc, &dialect, s)?;
    Ok(found.is_none())
}
