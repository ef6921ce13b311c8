//! What the statements of a tree break.

ghost use Rattle.std.specs.Prelude.{◌≡◌, ◌<◌, ◌++◌, ℕ, List, IfOk, OnOk};
ghost use Rattle.starlark_ast.specs.Statements.{stmts_below};
ghost use Rattle.starlark_ast.specs.Tree.{Statement};
ghost use Rattle.starlark_ast.specs.View.{stmt_at};
ghost use Rattle.starlark_lexer.specs.declared.dialect.Dialect.{Dialect};
ghost use Rattle.starlark_place.specs.declared.pos.Spanned.{Spanned};
ghost use Rattle.starlark_rulebook.specs.Found.{Adds, findings};
ghost use Rattle.starlark_rulebook.specs.Late as late;
ghost use Rattle.starlark_rulebook.specs.Rules.{Finding};
ghost use Rattle.starlark_faults.specs.Standings.{rules_below, standing_of, AllSmaller};
ghost use Rattle.starlark_visit.specs.Sizes.{statement_size};

use crate::late::{Finder, add, add_unless, parameter_rules};
use starlark_ast::ast::{AstPayload, AstStmtP, StmtP};
use starlark_lexer::dialect::Dialect;
use starlark_place::pos::Spanned;
use starlark_rulebook::rule::Rule;
use starlark_visit::walk::VisitStmt;
use std::alloc::AllocError;

/// Where a statement stands.
#[derive(Clone, Copy)]
pub(crate) struct Standing {
    /// In no other one but a list.
    pub(crate) at_top: bool,
    /// In a `for` of the same `def`.
    pub(crate) in_for: bool,
    /// In a `def`.
    pub(crate) in_def: bool,
}

impl Standing {
    /// Whether a `for` or an `if` may stand there.
    fn may_nest(self, dialect: &Dialect) -> bool
        ensures { result ≡ late.may_nest dialect.now (standing_of self) }
    {
        !self.at_top || dialect.enable_top_level_stmt
    }

    /// The body of an `if` there.
    fn in_if_body(self) -> Standing
        ensures { standing_of result ≡ late.in_if_body (standing_of self) }
    {
        Standing {
            at_top: false,
            in_for: self.in_for,
            in_def: self.in_def,
        }
    }

    /// The body of a `for` there.
    fn in_for_body(self) -> Standing
        ensures { standing_of result ≡ late.in_for_body (standing_of self) }
    {
        Standing {
            at_top: false,
            in_for: true,
            in_def: self.in_def,
        }
    }
}

/// The body of a `def`.
fn in_def_body() -> Standing
    ensures { standing_of result ≡ late.in_def_body }
{
    Standing {
        at_top: false,
        in_for: false,
        in_def: true,
    }
}

/// What goes to each statement in turn. A clause sees what is found so far. It is a trait, so that the function that goes
/// down is over any type of statements (docs/DECISIONS.md, Rules).
trait Judges<N: VisitStmt<Spanned<N>>> {
    ghost found: { Self → List Finding };

    ghost dialect: { Self → Dialect };

    /// Where it keeps what is found.
    ghost name: { Self → ℕ };

    /// A statement as plain data.
    ghost plain: { Spanned N → Statement };

    /// Adds what a statement breaks by itself, and tells where those right below it stand, where these are looked at.
    fn judge(&mut self, place: Standing, x: &Spanned<N>) -> Result<Option<Standing>, AllocError>
        ensures found { IfOk result (λ inner. found self.new ++ rules_below (dialect self.old) inner plain (N.stmts x.now.node) ≡ found self.old ++ late.statement_rules (dialect self.old) (standing_of place) (plain x.now)) }
        ensures smaller { AllSmaller plain (statement_size (plain x.now)) (N.stmts x.now.node) }
        ensures dialect { dialect self.new ≡ dialect self.old }
        ensures name { name self.new ≡ name self.old };
}

impl<'a, P: AstPayload> Judges<StmtP<P>> for Finder<'a> {
    ghost found = { λ s. findings s.out.now.items };

    ghost dialect = { λ s. s.dialect.now };

    ghost name = { λ s. s.out.ghost_name };

    ghost plain = { stmt_at };

    fn judge(&mut self, place: Standing, x: &AstStmtP<P>) -> Result<Option<Standing>, AllocError> {
        rules_here(self.out, self.dialect, place, x)
    }
}

/// Goes to a statement and to those within it, parents first.
fn every<N: VisitStmt<Spanned<N>>, F: Judges<N>>(
    finder: &mut F,
    place: Standing,
    x: &Spanned<N>,
) -> Result<(), AllocError>
    ensures found { OnOk result (F.found finder.new ≡ F.found finder.old ++ late.statement_rules (F.dialect finder.old) (standing_of place) (F.plain x.now)) }
    ensures dialect { F.dialect finder.new ≡ F.dialect finder.old }
    ensures name { F.name finder.new ≡ F.name finder.old }
{
    let Some(inner) = finder.judge(place, x)? else {
        return Ok(());
    };
    x.node.lend_stmts_to(
        &mut |below: &Spanned<N>| -> Result<(), AllocError>
            requires { statement_size (F.plain below.now) < statement_size (F.plain x.now) }
            ensures found { OnOk result (F.found finder.exit.now ≡ F.found finder.entry.now ++ late.statement_rules (F.dialect finder.entry.now) (standing_of inner) (F.plain below.now)) }
            ensures dialect { F.dialect finder.exit.now ≡ F.dialect finder.entry.now }
            ensures name { F.name finder.exit.now ≡ F.name finder.entry.now }
        {
            // so that the clause may speak of it
            let _above: &Spanned<N> = &*x;
            every(finder, inner, below)
        },
    )
}

/// Adds what a statement and those within it break, parents first.
pub(crate) fn statement_rules<P: AstPayload>(
    out: &mut Vec<Spanned<Rule>>,
    dialect: &Dialect,
    place: Standing,
    x: &AstStmtP<P>,
) -> Result<(), AllocError>
    ensures { OnOk result (Adds out.old.items (late.statement_rules dialect.now (standing_of place) (stmt_at x.now)) out.new.items) }
{
    let mut finder = Finder { out, dialect };
    every(&mut finder, place, x)
}

/// Adds what a statement breaks by itself, and tells where those right below it stand, where these are looked at: the
/// bodies of an `if` and of a `for` that may not stand there are not.
fn rules_here<P: AstPayload>(
    out: &mut Vec<Spanned<Rule>>,
    dialect: &Dialect,
    place: Standing,
    x: &AstStmtP<P>,
) -> Result<Option<Standing>, AllocError>
    ensures { IfOk result (λ inner. findings out.new.items ++ rules_below dialect.now inner stmt_at (stmts_below x.now.node) ≡ findings out.old.items ++ late.statement_rules dialect.now (standing_of place) (stmt_at x.now)) }
{
    match &x.node {
        StmtP::Break => add_unless(out, place.in_for, Rule::BreakOutsideFor, x.span)?,
        StmtP::Continue => add_unless(out, place.in_for, Rule::ContinueOutsideFor, x.span)?,
        StmtP::Return(_) => add_unless(out, place.in_def, Rule::ReturnOutsideDef, x.span)?,
        StmtP::Load(_) => {
            add_unless(out, place.at_top, Rule::LoadNotTop, x.span)?;
            add_unless(out, dialect.enable_load, Rule::LoadDisabled, x.span)?;
        }
        StmtP::If(_, _) => {
            if place.may_nest(dialect) {
                return Ok(Some(place.in_if_body()));
            }
            add(out, Rule::IfOutsideDef, x.span)?;
        }
        StmtP::IfElse(_, _) => {
            if place.may_nest(dialect) {
                return Ok(Some(place.in_if_body()));
            }
            add(out, Rule::IfOutsideDef, x.span)?;
        }
        StmtP::For(_) => {
            if place.may_nest(dialect) {
                return Ok(Some(place.in_for_body()));
            }
            add(out, Rule::ForOutsideDef, x.span)?;
        }
        StmtP::Def(inner) => {
            add_unless(out, dialect.enable_def, Rule::DefDisabled, x.span)?;
            parameter_rules(out, dialect, &inner.params)?;
            return Ok(Some(in_def_body()));
        }
        StmtP::Statements(_) => return Ok(Some(place)),
        StmtP::Pass => {}
        StmtP::Expression(_) => {}
        StmtP::Assign(_) => {}
        StmtP::AssignModify(_, _, _) => {}
    }
    Ok(None)
}
