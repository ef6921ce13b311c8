//! Lists of expressions without brackets.

ghost use Rattle.std.specs.Prelude.{◌≡◌, ◌≢◌, ◌<◌, ◌≤◌, OnOk, Some, length};
ghost use Rattle.starlark_lexer.specs.Items.{comma};
ghost use Rattle.starlark_lexer.specs.declared.dialect.Dialect.{Dialect};
ghost use Rattle.starlark_ast.specs.Tree as tree;
ghost use Rattle.starlark_grammar.specs.Nodes.{start};
ghost use Rattle.starlark_grammar.specs.Tables.{level_of};
ghost use Rattle.starlark_grammar.specs.Frames.{has};
ghost use Rattle.starlark_read.specs.Reads.{Comes, Unbracketed, first_lexeme, kind_within, one_of, wants_first};

use crate::error::Error;
use crate::expression::expression;
use crate::kind::Kind;
use crate::lists::{push, single};
use crate::tokens::Tokens;
use starlark_grammar::make::Make;
use starlark_place::pos::{Pos, Spanned};
use starlark_rulebook::rule::Rule;

/// An expression of a level, or several with commas between: those of a list without brackets. Behind it no comma stands.
#[cycle(expression)]
pub(crate) fn listed<B: Make>(tokens: &mut Tokens, level: u8) -> Result<B::Expr, Error>
    requires { level ≤ 12 }
    ensures reads { (d : Dialect) (k : Unbracketed) → level_of (kind_within k) ≡ level → Comes d (wants_first k) (λ x. has (B.means x) tokens.new.last (one_of k tree.none (start tokens.old.items))) tokens.old result tokens.new }
    ensures ends { OnOk result (first_lexeme tokens.new.items ≢ Some comma) }
    ensures shorter { OnOk result (length tokens.new.items < length tokens.old.items) }
{
    let begin = tokens.begin();
    let first = expression::<B>(tokens, level)?;
    listed_behind::<B>(tokens, level, begin, first)
}

/// The same behind its first expression, which begins at `begin`.
#[cycle(expression)]
pub(crate) fn listed_behind<B: Make>(
    tokens: &mut Tokens,
    level: u8,
    begin: Pos,
    first: B::Expr,
) -> Result<B::Expr, Error>
    requires { level ≤ 12 }
    ensures reads { (d : Dialect) (k : Unbracketed) → level_of (kind_within k) ≡ level → Comes d (has (B.means first) tokens.old.last (one_of k tree.none begin)) (λ x. has (B.means x) tokens.new.last (one_of k tree.none begin)) tokens.old result tokens.new }
    ensures ends { OnOk result (first_lexeme tokens.new.items ≢ Some comma) }
    ensures shorter { OnOk result (length tokens.new.items ≤ length tokens.old.items) }
{
    if !tokens.accept(Kind::Comma)? {
        return Ok(first);
    }
    let mut members = single(tokens.alloc(), first)?;
    loop {
        let span = tokens.since(begin);
        if !tokens.begins_test() {
            let node = Rule::TrailingComma;
            return Err(tokens.stop(Spanned { span, node }));
        }
        let next = expression::<B>(tokens, level)?;
        push(&mut members, next)?;
        let span = tokens.since(begin);
        if !tokens.accept(Kind::Comma)? {
            return Ok(B::tuple(members, span));
        }
    }
}
