//! Writes to the types in a statement.

ghost use Rattle.std.specs.Prelude.{◌≡◌, List, ◌++◌, flat_map};
ghost use Rattle.std.specs.Vec.{SameBlock};
ghost use Rattle.starlark_write.specs.Beside.{AtPlace, SameBox};
ghost use Rattle.starlark_write.specs.BesideTypes.{KeepsAssign, KeepsDef, KeepsForStmt, KeepsReturned, KeepsStmtTypes, KeepsStmtsTypes, KeepsTargetTypes, KeepsTypes};
ghost use Rattle.starlark_write.specs.TypePlaces.{Y, assign_types, def_types, expr_types, for_types, returned_types, stmt_types, target_types};
ghost use Rattle.starlark_write.specs.Writing.{WritesUntil};

use crate::exprs::{boxed, defaults, expr, target};
use crate::own_types::{assigned, defined};
use starlark_ast::ast::{
    AssignOp, AssignP, AstAssignTargetP, AstExprP, AstPayload, AstStmtP, AstTypeExprP, DefP, ForP,
    StmtP,
};

/// What has types that a closure may write: a node's own before those in what stands right below it (docs/LANGUAGE.md, Orders).
pub trait VisitTypeExprErrMut<P: AstPayload> {
    ghost types: { Self → List (Y P P.LoadPayload P.IdentPayload P.IdentAssignPayload P.DefPayload P.TypeExprPayload) };

    /// What stays whatever is written: all but these types.
    ghost keeps: { Self → Self → Type 0 };

    /// Lends each of them for the time of a call, up to the first `Err`, which is the answer. What was written before it
    /// stays, and so does all else. What stands in a type is not lent. It takes no memory.
    fn visit_type_expr_err_mut<E, F: FnMut(&mut AstTypeExprP<P>) -> Result<(), E>>(
        &mut self,
        f: &mut F,
    ) -> Result<(), E>
        requires { F.IsAlwaysCallable f.old }
        ensures calls { WritesUntil F.FnMut f.old (types self.old) result f.new (types self.new) }
        ensures kept { keeps self.old self.new }
        ensures callable { F.IsAlwaysCallable f.new };
}

fn returned<P: AstPayload, E, F: FnMut(&mut AstTypeExprP<P>) -> Result<(), E>>(
    x: &mut Option<AstExprP<P>>,
    f: &mut F,
) -> Result<(), E>
    requires { F.IsAlwaysCallable f.old }
    ensures calls { WritesUntil F.FnMut f.old (returned_types x.old) result f.new (returned_types x.new) }
    ensures kept { KeepsReturned x.old x.new }
    ensures callable { F.IsAlwaysCallable f.new }
{
    match x {
        None => Ok(()),
        Some(x) => expr(x, f),
    }
}

fn assign<P: AstPayload, E, F: FnMut(&mut AstTypeExprP<P>) -> Result<(), E>>(
    x: &mut AssignP<P>,
    f: &mut F,
) -> Result<(), E>
    requires { F.IsAlwaysCallable f.old }
    ensures calls { WritesUntil F.FnMut f.old (assign_types x.old) result f.new (assign_types x.new) }
    ensures kept { KeepsAssign x.old x.new }
    ensures callable { F.IsAlwaysCallable f.new }
{
    assigned(&mut x.ty, f)?;
    target(&mut x.lhs, f)?;
    expr(&mut x.rhs, f)
}

// the operator stays
fn modify<P: AstPayload, E, F: FnMut(&mut AstTypeExprP<P>) -> Result<(), E>>(
    lhs: &mut AstAssignTargetP<P>,
    op: &mut AssignOp,
    rhs: &mut Box<AstExprP<P>>,
    f: &mut F,
) -> Result<(), E>
    requires { F.IsAlwaysCallable f.old }
    ensures calls { WritesUntil F.FnMut f.old (target_types lhs.old.node ++ expr_types rhs.old.value.node) result f.new (target_types lhs.new.node ++ expr_types rhs.new.value.node) }
    ensures block { SameBox rhs.old rhs.new }
    ensures target { KeepsTargetTypes lhs.old lhs.new }
    ensures op { op.new ≡ op.old }
    ensures kept { KeepsTypes rhs.old.value rhs.new.value }
    ensures callable { F.IsAlwaysCallable f.new }
{
    target(lhs, f)?;
    boxed(rhs, f)
}

#[cycle(stmts)]
fn stmt<P: AstPayload, E, F: FnMut(&mut AstTypeExprP<P>) -> Result<(), E>>(
    x: &mut StmtP<P>,
    f: &mut F,
) -> Result<(), E>
    requires { F.IsAlwaysCallable f.old }
    ensures calls { WritesUntil F.FnMut f.old (stmt_types x.old) result f.new (stmt_types x.new) }
    ensures kept { KeepsStmtTypes x.old x.new }
    ensures callable { F.IsAlwaysCallable f.new }
{
    match x {
        StmtP::Break => Ok(()),
        StmtP::Continue => Ok(()),
        StmtP::Pass => Ok(()),
        StmtP::Return(x) => returned(x, f),
        StmtP::Expression(x) => expr(x, f),
        StmtP::Assign(x) => assign(x, f),
        StmtP::AssignModify(lhs, op, rhs) => modify(lhs, op, rhs, f),
        StmtP::Statements(xs) => stmts(xs, f),
        StmtP::If(c, x) => branch(c, x, f),
        StmtP::IfElse(c, x) => branches(c, x, f),
        StmtP::For(x) => repeat(x, f),
        StmtP::Def(x) => define(x, f),
        StmtP::Load(_) => Ok(()),
    }
}

#[cycle(stmts)]
fn stmts<P: AstPayload, E, F: FnMut(&mut AstTypeExprP<P>) -> Result<(), E>>(
    xs: &mut Vec<AstStmtP<P>>,
    f: &mut F,
) -> Result<(), E>
    requires { F.IsAlwaysCallable f.old }
    ensures calls { WritesUntil F.FnMut f.old (flat_map (λ x. stmt_types x.node) xs.old.items) result f.new (flat_map (λ x. stmt_types x.node) xs.new.items) }
    ensures block { SameBlock xs.old xs.new }
    ensures kept { KeepsStmtsTypes xs.old.items xs.new.items }
    ensures callable { F.IsAlwaysCallable f.new }
{
    each_stmt(xs, f)
}

#[cycle(stmts)]
fn each_stmt<P: AstPayload, E, F: FnMut(&mut AstTypeExprP<P>) -> Result<(), E>>(
    xs: &mut [AstStmtP<P>],
    f: &mut F,
) -> Result<(), E>
    requires { F.IsAlwaysCallable f.old }
    ensures calls { WritesUntil F.FnMut f.old (flat_map (λ x. stmt_types x.node) xs.old) result f.new (flat_map (λ x. stmt_types x.node) xs.new) }
    ensures kept { KeepsStmtsTypes xs.old xs.new }
    ensures callable { F.IsAlwaysCallable f.new }
{
    for i in 0..xs.len() {
        stmt(&mut xs[i].node, f)?;
    }
    Ok(())
}

#[cycle(stmts)]
fn body<P: AstPayload, E, F: FnMut(&mut AstTypeExprP<P>) -> Result<(), E>>(
    x: &mut Box<AstStmtP<P>>,
    f: &mut F,
) -> Result<(), E>
    requires { F.IsAlwaysCallable f.old }
    ensures calls { WritesUntil F.FnMut f.old (stmt_types x.old.value.node) result f.new (stmt_types x.new.value.node) }
    ensures block { SameBox x.old x.new }
    ensures kept { AtPlace KeepsStmtTypes x.old.value x.new.value }
    ensures callable { F.IsAlwaysCallable f.new }
{
    let whole = &mut **x;
    stmt(&mut whole.node, f)
}

#[cycle(stmts)]
fn branch<P: AstPayload, E, F: FnMut(&mut AstTypeExprP<P>) -> Result<(), E>>(
    c: &mut AstExprP<P>,
    x: &mut Box<AstStmtP<P>>,
    f: &mut F,
) -> Result<(), E>
    requires { F.IsAlwaysCallable f.old }
    ensures calls { WritesUntil F.FnMut f.old (expr_types c.old.node ++ stmt_types x.old.value.node) result f.new (expr_types c.new.node ++ stmt_types x.new.value.node) }
    ensures block { SameBox x.old x.new }
    ensures condition { KeepsTypes c.old c.new }
    ensures kept { AtPlace KeepsStmtTypes x.old.value x.new.value }
    ensures callable { F.IsAlwaysCallable f.new }
{
    expr(c, f)?;
    body(x, f)
}

#[cycle(stmts)]
fn branches<P: AstPayload, E, F: FnMut(&mut AstTypeExprP<P>) -> Result<(), E>>(
    c: &mut AstExprP<P>,
    x: &mut Box<(AstStmtP<P>, AstStmtP<P>)>,
    f: &mut F,
) -> Result<(), E>
    requires { F.IsAlwaysCallable f.old }
    ensures calls { WritesUntil F.FnMut f.old (expr_types c.old.node ++ (stmt_types x.old.value.0.node ++ stmt_types x.old.value.1.node)) result f.new (expr_types c.new.node ++ (stmt_types x.new.value.0.node ++ stmt_types x.new.value.1.node)) }
    ensures block { SameBox x.old x.new }
    ensures condition { KeepsTypes c.old c.new }
    ensures first { AtPlace KeepsStmtTypes x.old.value.0 x.new.value.0 }
    ensures second { AtPlace KeepsStmtTypes x.old.value.1 x.new.value.1 }
    ensures callable { F.IsAlwaysCallable f.new }
{
    expr(c, f)?;
    both_stmts(x, f)
}

#[cycle(stmts)]
fn both_stmts<P: AstPayload, E, F: FnMut(&mut AstTypeExprP<P>) -> Result<(), E>>(
    x: &mut Box<(AstStmtP<P>, AstStmtP<P>)>,
    f: &mut F,
) -> Result<(), E>
    requires { F.IsAlwaysCallable f.old }
    ensures calls { WritesUntil F.FnMut f.old (stmt_types x.old.value.0.node ++ stmt_types x.old.value.1.node) result f.new (stmt_types x.new.value.0.node ++ stmt_types x.new.value.1.node) }
    ensures block { SameBox x.old x.new }
    ensures first { AtPlace KeepsStmtTypes x.old.value.0 x.new.value.0 }
    ensures second { AtPlace KeepsStmtTypes x.old.value.1 x.new.value.1 }
    ensures callable { F.IsAlwaysCallable f.new }
{
    let parts = &mut **x;
    two_stmts(&mut parts.0, &mut parts.1, f)
}

#[cycle(stmts)]
fn two_stmts<P: AstPayload, E, F: FnMut(&mut AstTypeExprP<P>) -> Result<(), E>>(
    x: &mut AstStmtP<P>,
    y: &mut AstStmtP<P>,
    f: &mut F,
) -> Result<(), E>
    requires { F.IsAlwaysCallable f.old }
    ensures calls { WritesUntil F.FnMut f.old (stmt_types x.old.node ++ stmt_types y.old.node) result f.new (stmt_types x.new.node ++ stmt_types y.new.node) }
    ensures first { AtPlace KeepsStmtTypes x.old x.new }
    ensures second { AtPlace KeepsStmtTypes y.old y.new }
    ensures callable { F.IsAlwaysCallable f.new }
{
    stmt(&mut x.node, f)?;
    stmt(&mut y.node, f)
}

#[cycle(stmts)]
fn repeat<P: AstPayload, E, F: FnMut(&mut AstTypeExprP<P>) -> Result<(), E>>(
    x: &mut ForP<P>,
    f: &mut F,
) -> Result<(), E>
    requires { F.IsAlwaysCallable f.old }
    ensures calls { WritesUntil F.FnMut f.old (for_types x.old) result f.new (for_types x.new) }
    ensures kept { KeepsForStmt x.old x.new }
    ensures callable { F.IsAlwaysCallable f.new }
{
    target(&mut x.var, f)?;
    expr(&mut x.over, f)?;
    body(&mut x.body, f)
}

#[cycle(stmts)]
fn define<P: AstPayload, E, F: FnMut(&mut AstTypeExprP<P>) -> Result<(), E>>(
    x: &mut DefP<P>,
    f: &mut F,
) -> Result<(), E>
    requires { F.IsAlwaysCallable f.old }
    ensures calls { WritesUntil F.FnMut f.old (def_types x.old) result f.new (def_types x.new) }
    ensures kept { KeepsDef x.old x.new }
    ensures callable { F.IsAlwaysCallable f.new }
{
    defined(&mut x.params, &mut x.return_type, f)?;
    defaults(&mut x.params, f)?;
    body(&mut x.body, f)
}

impl<P: AstPayload> VisitTypeExprErrMut<P> for StmtP<P> {
    ghost types = { stmt_types };

    ghost keeps = { KeepsStmtTypes };

    fn visit_type_expr_err_mut<E, F: FnMut(&mut AstTypeExprP<P>) -> Result<(), E>>(
        &mut self,
        f: &mut F,
    ) -> Result<(), E> {
        stmt(self, f)
    }
}
