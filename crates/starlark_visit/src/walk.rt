//! Visitors of statements.

ghost use Rattle.std.specs.Prelude.{◌≡◌, List, Result};
ghost use Rattle.starlark_ast.specs.Calls.{lent, CalledOn, CallsEach, StopsAtErr};
ghost use Rattle.starlark_ast.specs.Statements.{assign_places, def_places, exprs_below, for_places, maybe_here, maybe_type_here, outer_exprs, stmts_below};
ghost use Rattle.starlark_visit.specs.Listed.{listed};
ghost use Rattle.starlark_visit.specs.Ready.{ReadyFor};
ghost use Rattle.starlark_visit.specs.Steps.{StepsUntil};
ghost use Rattle.starlark_visit.specs.Takes.{MayCall, Takes};

use crate::visit::{VisitExpr, boxed, each, maybe_type, one, parameters, target, two};
use starlark_ast::ast::{AssignP, AstExprP, AstPayload, AstStmtP, AstTypeExprP, DefP, ForP, StmtP};

/// What is lent statements, one at a time.
pub trait StmtVisitor<S, E> {
    /// What holds before a call at a statement.
    ghost ready: { Self → S → Type 0 };

    /// What a call at a statement may answer, and what it may leave of the visitor.
    ghost leaves: { Self → S → Result (Unit {0}) E → Self → Type 0 };

    /// Is lent a statement. After an `Err` a visit makes no more calls.
    fn at(&mut self, x: &S) -> Result<(), E>
        requires { ready self.old x.now }
        ensures { leaves self.old x.now result self.new };
}

/// What has statements right below it, in an order of its own (docs/LANGUAGE.md, Orders).
pub trait VisitStmt<S> {
    ghost stmts: { Self → List S };

    /// Lends each of them to a visitor for the time of a call, up to the first `Err`, which is the answer. It takes no memory.
    /// The visitor has to be ready for these statements alone, in turn.
    fn lend_stmts<E, V: StmtVisitor<S, E>>(&self, v: &mut V) -> Result<(), E>
        requires { ReadyFor V.ready V.leaves v.old (stmts self.now) }
        ensures { StepsUntil V.leaves v.old (stmts self.now) result v.new };

    /// The same with a closure. It has to be callable at these statements alone, in turn: so it may ask that what it is lent is
    /// smaller than what stands around it, and a function that goes down a tree may stand in it.
    final fn lend_stmts_to<E, F: FnMut(&S) -> Result<(), E>>(&self, f: &mut F) -> Result<(), E>
        requires { Takes lent F.FnMut f.old (stmts self.now) }
        ensures { StopsAtErr lent F.FnMut f.old (stmts self.now) result f.new }
    {
        lend_until(self, f)
    }

    /// The same with a closure that may always be called.
    final fn visit_stmt_result<E, F: FnMut(&S) -> Result<(), E>>(&self, f: &mut F) -> Result<(), E>
        requires { F.IsAlwaysCallable f.old }
        ensures calls { StopsAtErr lent F.FnMut f.old (stmts self.now) result f.new }
        ensures callable { F.IsAlwaysCallable f.new }
    {
        lend_always(self, f)
    }

    /// The same with a closure that always goes on.
    final fn visit_stmt<F: FnMut(&S)>(&self, f: &mut F)
        requires { F.IsAlwaysCallable f.old }
        ensures calls { CallsEach lent F.FnMut f.old (stmts self.now) f.new }
        ensures callable { F.IsAlwaysCallable f.new }
    {
        lend_each(self, f)
    }
}

// calls a closure at each statement
#[derive(Drop)]
struct Calls<'a, F> {
    f: &'a mut F,
}

impl<'a, S, E, F: FnMut(&S) -> Result<(), E>> StmtVisitor<S, E> for Calls<'a, F> {
    ghost ready = { λ s x. MayCall lent F.FnMut s.f.now x };

    ghost leaves = { λ s x r t. CalledOn lent F.FnMut s.f.now x r t.f.now × (t.f.ghost_name ≡ s.f.ghost_name) };

    fn at(&mut self, x: &S) -> Result<(), E> {
        (self.f)(x)
    }
}

fn lend_until<S, L: VisitStmt<S>, E, F: FnMut(&S) -> Result<(), E>>(
    x: &L,
    f: &mut F,
) -> Result<(), E>
    requires { Takes lent F.FnMut f.old (L.stmts x.now) }
    ensures { StopsAtErr lent F.FnMut f.old (L.stmts x.now) result f.new }
{
    let mut v = Calls { f };
    x.lend_stmts(&mut v)
}

fn lend_always<S, L: VisitStmt<S>, E, F: FnMut(&S) -> Result<(), E>>(
    x: &L,
    f: &mut F,
) -> Result<(), E>
    requires { F.IsAlwaysCallable f.old }
    ensures calls { StopsAtErr lent F.FnMut f.old (L.stmts x.now) result f.new }
    ensures callable { F.IsAlwaysCallable f.new }
{
    x.lend_stmts_to(f)
}

fn lend_each<S, L: VisitStmt<S>, F: FnMut(&S)>(x: &L, f: &mut F)
    requires { F.IsAlwaysCallable f.old }
    ensures calls { CallsEach lent F.FnMut f.old (L.stmts x.now) f.new }
    ensures callable { F.IsAlwaysCallable f.new }
{
    let mut go = |x: &S| -> Result<(), ()> {
        f(x);
        Ok(())
    };
    let _ = x.visit_stmt_result(&mut go);
}

// the statements right below a statement
#[derive(Drop)]
enum StmtsBelow<'a, S> {
    Empty,
    One(&'a S),
    Two(&'a S, &'a S),
    Each(&'a [S]),
}

fn all<S, E, F: FnMut(&S) -> Result<(), E>>(xs: StmtsBelow<'_, S>, f: &mut F) -> Result<(), E>
    requires { Takes lent F.FnMut f.old (listed xs) }
    ensures { StopsAtErr lent F.FnMut f.old (listed xs.entry) result f.new }
{
    match xs {
        StmtsBelow::Empty => Ok(()),
        StmtsBelow::One(x) => one(x, f),
        StmtsBelow::Two(x, y) => two(x, y, f),
        StmtsBelow::Each(xs) => each(xs, f),
    }
}

fn lend_all<S, E, V: StmtVisitor<S, E>>(xs: StmtsBelow<'_, S>, v: &mut V) -> Result<(), E>
    requires { ReadyFor V.ready V.leaves v.old (listed xs) }
    ensures { StepsUntil V.leaves v.old (listed xs.entry) result v.new }
{
    let mut go = |x: &S| -> Result<(), E>
        requires { V.ready v.now x.now }
        ensures { V.leaves v.entry.now x.now result v.exit.now }
    { v.at(x) };
    all(xs, &mut go)
}

fn held<T, E, F: FnMut(&T) -> Result<(), E>>(x: &Option<T>, f: &mut F) -> Result<(), E>
    requires { Takes lent F.FnMut f.old (maybe_here x.now) }
    ensures { StopsAtErr lent F.FnMut f.old (maybe_here x.now) result f.new }
{
    match x {
        None => Ok(()),
        Some(x) => f(x),
    }
}

fn held_type<P: AstPayload, E, F: FnMut(&AstExprP<P>) -> Result<(), E>>(
    x: &Option<AstTypeExprP<P>>,
    f: &mut F,
) -> Result<(), E>
    requires { Takes lent F.FnMut f.old (maybe_type_here x.now) }
    ensures { StopsAtErr lent F.FnMut f.old (maybe_type_here x.now) result f.new }
{
    match x {
        None => Ok(()),
        Some(x) => f(&x.node.expr),
    }
}

fn assign<P: AstPayload, E, F: FnMut(&AstExprP<P>) -> Result<(), E>>(
    x: &AssignP<P>,
    f: &mut F,
) -> Result<(), E>
    requires { Takes lent F.FnMut f.old (assign_places x.now) }
    ensures { StopsAtErr lent F.FnMut f.old (assign_places x.now) result f.new }
{
    target(&x.lhs.node, f)?;
    held_type(&x.ty, f)?;
    one(&x.rhs, f)
}

fn for_head<P: AstPayload, E, F: FnMut(&AstExprP<P>) -> Result<(), E>>(
    x: &ForP<P>,
    f: &mut F,
) -> Result<(), E>
    requires { Takes lent F.FnMut f.old (for_places x.now) }
    ensures { StopsAtErr lent F.FnMut f.old (for_places x.now) result f.new }
{
    target(&x.var.node, f)?;
    one(&x.over, f)
}

impl<P: AstPayload> VisitExpr<P> for DefP<P> {
    ghost parts = { def_places };

    fn lend_exprs<E, F: FnMut(&AstExprP<P>) -> Result<(), E>>(&self, f: &mut F) -> Result<(), E> {
        parameters(&self.params, f)?;
        maybe_type(&self.return_type, f)
    }
}

// each expression right below, up to the first `Err`
fn own<P: AstPayload, E, F: FnMut(&AstExprP<P>) -> Result<(), E>>(
    whole: &StmtP<P>,
    f: &mut F,
) -> Result<(), E>
    requires { Takes lent F.FnMut f.old (exprs_below whole.now) }
    ensures { StopsAtErr lent F.FnMut f.old (exprs_below whole.now) result f.new }
{
    match whole {
        StmtP::Break => Ok(()),
        StmtP::Continue => Ok(()),
        StmtP::Pass => Ok(()),
        StmtP::Return(x) => held(x, f),
        StmtP::Expression(x) => one(x, f),
        StmtP::Assign(x) => assign(x, f),
        StmtP::AssignModify(lhs, _, rhs) => {
            target(&lhs.node, f)?;
            boxed(rhs, f)
        }
        StmtP::Statements(_) => Ok(()),
        StmtP::If(c, _) => one(c, f),
        StmtP::IfElse(c, _) => one(c, f),
        StmtP::For(x) => for_head(x, f),
        StmtP::Def(x) => x.lend_exprs(f),
        StmtP::Load(_) => Ok(()),
    }
}

// the outermost expressions in the statement and the statements in it, up to the first `Err`
fn outer<P: AstPayload, E, F: FnMut(&AstExprP<P>) -> Result<(), E>>(
    whole: &StmtP<P>,
    f: &mut F,
) -> Result<(), E>
    requires { Takes lent F.FnMut f.old (outer_exprs whole.now) }
    ensures { StopsAtErr lent F.FnMut f.old (outer_exprs whole.now) result f.new }
{
    own(whole, f)?;
    match whole {
        StmtP::Statements(xs) => {
            for x in xs {
                outer(&x.node, f)?;
            }
            Ok(())
        }
        StmtP::If(_, x) => outer(&x.node, f),
        StmtP::IfElse(_, x) => {
            outer(&x.0.node, f)?;
            outer(&x.1.node, f)
        }
        StmtP::For(x) => outer(&x.body.node, f),
        StmtP::Def(x) => outer(&x.body.node, f),
        _ => Ok(()),
    }
}

impl<P: AstPayload> VisitExpr<P> for StmtP<P> {
    ghost parts = { outer_exprs };

    fn lend_exprs<E, F: FnMut(&AstExprP<P>) -> Result<(), E>>(&self, f: &mut F) -> Result<(), E> {
        outer(self, f)
    }
}

fn below<P: AstPayload>(whole: &StmtP<P>) -> StmtsBelow<'_, AstStmtP<P>>
    ensures { listed result ≡ stmts_below whole.now }
{
    match whole {
        StmtP::Break => StmtsBelow::Empty,
        StmtP::Continue => StmtsBelow::Empty,
        StmtP::Pass => StmtsBelow::Empty,
        StmtP::Return(_) => StmtsBelow::Empty,
        StmtP::Expression(_) => StmtsBelow::Empty,
        StmtP::Assign(_) => StmtsBelow::Empty,
        StmtP::AssignModify(_, _, _) => StmtsBelow::Empty,
        StmtP::Statements(xs) => StmtsBelow::Each(xs),
        StmtP::If(_, x) => StmtsBelow::One(x),
        StmtP::IfElse(_, x) => StmtsBelow::Two(&x.0, &x.1),
        StmtP::For(x) => StmtsBelow::One(&x.body),
        StmtP::Def(x) => StmtsBelow::One(&x.body),
        StmtP::Load(_) => StmtsBelow::Empty,
    }
}

impl<P: AstPayload> VisitStmt<AstStmtP<P>> for StmtP<P> {
    ghost stmts = { stmts_below };

    fn lend_stmts<E, V: StmtVisitor<AstStmtP<P>, E>>(&self, v: &mut V) -> Result<(), E> {
        lend_all(below(self), v)
    }
}

/// A statement without those in it: the expressions right below it are lent.
#[derive(Drop)]
pub(crate) struct Alone<'a, P: AstPayload> {
    pub(crate) statement: &'a StmtP<P>,
}

impl<'a, P: AstPayload> VisitExpr<P> for Alone<'a, P> {
    ghost parts = { λ x. exprs_below x.statement.now };

    fn lend_exprs<E, F: FnMut(&AstExprP<P>) -> Result<(), E>>(&self, f: &mut F) -> Result<(), E> {
        own(self.statement, f)
    }
}
