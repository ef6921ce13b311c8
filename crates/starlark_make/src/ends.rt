//! What counts at the end of a text.

ghost use Rattle.std.specs.Prelude.{◌≡◌, IfOk};
ghost use Rattle.starlark_ast.specs.View.{stmt_at};
ghost use Rattle.starlark_grammar.specs.Events.{end_finding};
ghost use Rattle.starlark_rulebook.specs.Found.{findings};
ghost use Rattle.starlark_rulebook.specs.Rules.{first_finding};
ghost use Rattle.starlark_rulebook.specs.View.{maybe_finding};

use starlark_ast::ast::AstStmt;
use starlark_lexer::dialect::Dialect;
use starlark_place::pos::Spanned;
use starlark_rulebook::rule::Rule;
use starlark_rules::kept::kept_fault;
use starlark_rules::tree::rules_of;
use std::alloc::{AllocError, Global};

/// The first rule that counts at the end of a text: of those that were kept, else of those on the whole tree.
pub(crate) fn end_fault(
    alloc: Global,
    dialect: &Dialect,
    s: &AstStmt,
) -> Result<Option<Spanned<Rule>>, AllocError>
    ensures { IfOk result (λ found. maybe_finding found ≡ end_finding dialect.now (stmt_at s.now)) }
{
    if let Some(found) = kept_fault(s, dialect) {
        return Ok(Some(found));
    }
    let late = rules_of(alloc, s, dialect)?;
    Ok(first(late))
}

/// The first of some.
fn first(all: Vec<Spanned<Rule>>) -> Option<Spanned<Rule>>
    ensures { maybe_finding result ≡ first_finding (findings all.items) }
{
    let mut all = all;
    if all.is_empty() {
        return None;
    }
    Some(all.swap_remove(0))
}
