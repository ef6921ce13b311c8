//! What a whole tree breaks.

ghost use Rattle.std.specs.Prelude.{◌≡◌, IfOk, OnOk};
ghost use Rattle.starlark_ast.specs.View.{expr_at, stmt_at};
ghost use Rattle.starlark_rulebook.specs.Found.{Adds, findings};
ghost use Rattle.starlark_rulebook.specs.Late as late;

use crate::expressions::expression_rules;
use crate::statements::{Standing, statement_rules};
use starlark_ast::ast::{AstExprP, AstPayload, AstStmtP};
use starlark_lexer::dialect::Dialect;
use starlark_place::pos::Spanned;
use starlark_rulebook::rule::Rule;
use starlark_visit::visit::VisitExpr;
use std::alloc::{AllocError, Global};

/// The rules that count last, each at its place: what the statements of a tree break, each before those within it, and
/// then what its expressions break, each before those within it, siblings in the order of docs/LANGUAGE.md, Orders. The
/// parameters of a `def` or a lambda come right behind it, before its body. The rules and their places stand there in
/// Rules. `Err` comes only where memory lacks for the list.
pub fn rules_of<P: AstPayload>(
    alloc: Global,
    tree: &AstStmtP<P>,
    dialect: &Dialect,
) -> Result<Vec<Spanned<Rule>>, AllocError>
    ensures { IfOk result (λ all. findings all.items ≡ late.late_rules dialect.now (stmt_at tree.now)) }
{
    let mut all = Vec::new(alloc);
    let top = Standing {
        at_top: true,
        in_for: false,
        in_def: false,
    };
    statement_rules(&mut all, dialect, top, tree)?;
    inner_rules(&mut all, dialect, tree)?;
    Ok(all)
}

/// Adds what the expressions in a statement and in those within it break.
fn inner_rules<P: AstPayload>(
    out: &mut Vec<Spanned<Rule>>,
    dialect: &Dialect,
    x: &AstStmtP<P>,
) -> Result<(), AllocError>
    ensures { OnOk result (Adds out.old.items (late.expressions_rules dialect.now (stmt_at x.now)) out.new.items) }
{
    x.node.visit_expr_err(
        &mut |outermost: &AstExprP<P>| -> Result<(), AllocError>
            ensures { OnOk result (Adds out.entry.now.items (late.expr_rules dialect.entry.now (expr_at outermost.now)) out.exit.now.items) }
        { expression_rules(out, dialect, outermost) },
    )
}
