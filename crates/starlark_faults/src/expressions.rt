//! What the expressions of a tree break.

ghost use Rattle.std.specs.Prelude.{◌≡◌, ℕ, ◌<◌, ◌++◌, List, OnOk};
ghost use Rattle.starlark_ast.specs.View.{expr_at, literal_view};
ghost use Rattle.starlark_lexer.specs.declared.dialect.Dialect.{Dialect};
ghost use Rattle.starlark_rulebook.specs.Found.{Adds, findings};
ghost use Rattle.starlark_rulebook.specs.Late as late;
ghost use Rattle.starlark_rulebook.specs.Rules.{Finding};
ghost use Rattle.starlark_rulebook.specs.Types as types;
ghost use Rattle.starlark_faults.specs.Levels.{own_rules};
ghost use Rattle.starlark_visit.specs.Sizes.{size};

use crate::late::{Finder, add_unless, parameter_rules};
use starlark_ast::ast::{AstExprP, AstLiteral, AstPayload, ExprP};
use starlark_lexer::dialect::{Dialect, DialectTypes};
use starlark_place::pos::{Span, Spanned};
use starlark_rulebook::rule::Rule;
use starlark_visit::visit::VisitExpr;
use std::alloc::AllocError;

/// What goes to each expression in turn. A clause sees what is found so far. It is a trait, so that the function that goes
/// down is over any type of it (docs/DECISIONS.md, Rules).
trait Finds<P: AstPayload> {
    ghost found: { Self → List Finding };

    ghost dialect: { Self → Dialect };

    /// Where it keeps that.
    ghost name: { Self → ℕ };

    /// Adds what an expression breaks by itself.
    fn find(&mut self, x: &AstExprP<P>) -> Result<(), AllocError>
        ensures found { OnOk result (found self.new ≡ found self.old ++ own_rules (dialect self.old) (expr_at x.now)) }
        ensures dialect { dialect self.new ≡ dialect self.old }
        ensures name { name self.new ≡ name self.old };
}

impl<'a, P: AstPayload> Finds<P> for Finder<'a> {
    ghost found = { λ s. findings s.out.now.items };

    ghost dialect = { λ s. s.dialect.now };

    ghost name = { λ s. s.out.ghost_name };

    fn find(&mut self, x: &AstExprP<P>) -> Result<(), AllocError> {
        own_rules(self.out, self.dialect, x)
    }
}

/// Goes to an expression and to those within it, parents first.
fn every<P: AstPayload, F: Finds<P>>(finder: &mut F, x: &AstExprP<P>) -> Result<(), AllocError>
    ensures found { OnOk result (F.found finder.new ≡ F.found finder.old ++ late.expr_rules (F.dialect finder.old) (expr_at x.now)) }
    ensures dialect { F.dialect finder.new ≡ F.dialect finder.old }
    ensures name { F.name finder.new ≡ F.name finder.old }
{
    finder.find(x)?;
    x.node.lend_exprs(
        &mut |below: &AstExprP<P>| -> Result<(), AllocError>
            requires { size (expr_at below.now) < size (expr_at x.now) }
            ensures found { OnOk result (F.found finder.exit.now ≡ F.found finder.entry.now ++ late.expr_rules (F.dialect finder.entry.now) (expr_at below.now)) }
            ensures dialect { F.dialect finder.exit.now ≡ F.dialect finder.entry.now }
            ensures name { F.name finder.exit.now ≡ F.name finder.entry.now }
        {
            // so that the clause may speak of it
            let _above: &AstExprP<P> = &*x;
            every(finder, below)
        },
    )
}

/// Adds what an expression and those within it break, parents first.
pub(crate) fn expression_rules<P: AstPayload>(
    out: &mut Vec<Spanned<Rule>>,
    dialect: &Dialect,
    x: &AstExprP<P>,
) -> Result<(), AllocError>
    ensures { OnOk result (Adds out.old.items (late.expr_rules dialect.now (expr_at x.now)) out.new.items) }
{
    let mut finder = Finder { out, dialect };
    every(&mut finder, x)
}

/// Adds what an expression breaks by itself: a lambda itself, where lambdas are off, and what its parameters break; a
/// `...` where types are off.
fn own_rules<P: AstPayload>(
    out: &mut Vec<Spanned<Rule>>,
    dialect: &Dialect,
    x: &AstExprP<P>,
) -> Result<(), AllocError>
    ensures { OnOk result (Adds out.old.items (own_rules dialect.now (expr_at x.now)) out.new.items) }
{
    match &x.node {
        ExprP::Lambda(inner) => {
            add_unless(out, dialect.enable_lambda, Rule::LambdaDisabled, x.span)?;
            parameter_rules(out, dialect, &inner.params)
        }
        ExprP::Literal(literal) => literal_rules(out, dialect, literal, x.span),
        _ => Ok(()),
    }
}

/// Adds what a literal breaks: a `...` where types are off.
fn literal_rules(
    out: &mut Vec<Spanned<Rule>>,
    dialect: &Dialect,
    literal: &AstLiteral,
    span: Span,
) -> Result<(), AllocError>
    ensures { OnOk result (Adds out.old.items (late.expr_rules dialect.now (literal_view literal.now span)) out.new.items) }
{
    match literal {
        AstLiteral::Ellipsis => add_unless(out, has_types(dialect), Rule::EllipsisDisabled, span),
        AstLiteral::Int(_) => Ok(()),
        AstLiteral::Float(_) => Ok(()),
        AstLiteral::String(_) => Ok(()),
        AstLiteral::Bytes(_) => Ok(()),
    }
}

/// Whether types are read.
fn has_types(dialect: &Dialect) -> bool
    ensures { result ≡ types.has_types dialect.now.enable_types }
{
    match dialect.enable_types {
        DialectTypes::Disable => false,
        DialectTypes::ParseOnly => true,
        DialectTypes::Enable => true,
    }
}
