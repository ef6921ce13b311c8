//! Types.

ghost use Rattle.std.specs.Prelude.{◌≡◌, ◌<◌, IfOk, OnOk, Some, length};
ghost use Rattle.starlark_ast.specs.Tree.{Expr};
ghost use Rattle.starlark_rulebook.specs.Types.{has_types};
ghost use Rattle.starlark_grammar.specs.Events.{typed};
ghost use Rattle.starlark_grammar.specs.Frames.{Spots, spot, wants, has};
ghost use Rattle.starlark_grammar.specs.Runs.{ended_by};
ghost use Rattle.starlark_read.specs.Reads.{Comes, IsType, type_read};

use crate::error::Error;
use crate::expression::expression;
use crate::level::TEST;
use crate::tokens::Tokens;
use starlark_grammar::build::Build;
use starlark_lexer::dialect::{Dialect, DialectTypes};
use starlark_place::pos::Spanned;
use starlark_rulebook::rule::Rule;

/// A type, where one is wanted in a statement.
pub(crate) fn type_expression<B: Build>(
    tokens: &mut Tokens,
    dialect: Dialect,
) -> Result<B::Type, Error>
    ensures reads { (k : Spots) → ((q : Expr) → ended_by k q ≡ Some (typed q)) → Comes dialect (wants 12 (spot k)) (λ x. has (type_read (B.type_means x)) tokens.new.last (spot k)) tokens.old result tokens.new }
    ensures right { IfOk result (λ x. IsType dialect (B.type_means x)) }
    ensures shorter { OnOk result (length tokens.new.items < length tokens.old.items) }
{
    let found = expression::<B>(tokens, TEST)?;
    if !has_types(dialect) {
        let span = B::place(&found);
        let node = Rule::TypesDisabled;
        return Err(tokens.stop(Spanned { span, node }));
    }
    if let Some(fault) = B::type_fault(tokens.alloc(), &found)? {
        return Err(tokens.stop(fault));
    }
    Ok(B::type_of(tokens.alloc(), found)?)
}

// whether a dialect has types
fn has_types(dialect: Dialect) -> bool
    ensures { result ≡ has_types dialect.enable_types }
{
    match dialect.enable_types {
        DialectTypes::Disable => false,
        _ => true,
    }
}
