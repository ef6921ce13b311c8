//! Visitors of the nodes right below a statement or an expression.

ghost use Rattle.std.specs.Prelude.{◌≡◌, List, Result, map, Ok, []};
ghost use Rattle.starlark_ast.specs.Calls.{CalledOn, CallsEach, StopsAtErr};
ghost use Rattle.starlark_ast.specs.Nodes.{below, def_nodes, expression, Node, nodes_below, statement};
ghost use Rattle.starlark_visit.specs.Steps.{StepsUntil};
ghost use Rattle.starlark_visit.specs.Visited.{visited};

use crate::visit::VisitExpr;
use crate::walk::{Alone, VisitStmt};
use starlark_ast::ast::{AstExprP, AstPayload, AstStmtP, DefP, StmtP};

/// A statement or an expression, lent.
#[derive(Drop)]
pub enum VisitOf<'a, S, X> {
    Stmt(&'a S),
    Expr(&'a X),
}

/// A statement or an expression of a tree, as visitors lend it.
pub type Visit<'a, P> = VisitOf<'a, AstStmtP<P>, AstExprP<P>>;

/// What is lent statements and expressions, one at a time.
pub trait NodeVisitor<S, X, E> {
    /// What holds before each call, and after it.
    ghost ready: { Self → Type 0 };

    /// What a call at a node may answer, and what it may leave of the visitor.
    ghost leaves: { Self → Node S X → Result (Unit {0}) E → Self → Type 0 };

    /// Is lent a statement. After an `Err` a visit makes no more calls.
    fn at_stmt(&mut self, x: &S) -> Result<(), E>
        requires { ready self.old }
        ensures called { leaves self.old (statement x.now) result self.new }
        ensures ready { ready self.new };

    /// Is lent an expression. After an `Err` a visit makes no more calls.
    fn at_expr(&mut self, x: &X) -> Result<(), E>
        requires { ready self.old }
        ensures called { leaves self.old (expression x.now) result self.new }
        ensures ready { ready self.new };
}

/// What has nodes right below it, in an order of its own (docs/LANGUAGE.md, Orders).
pub trait VisitChildren<S, X> {
    ghost nodes: { Self → List (Node S X) };

    /// Lends each of them to a visitor for the time of a call, up to the first `Err`, which is the answer. It takes no memory.
    fn lend_children<E, V: NodeVisitor<S, X, E>>(&self, v: &mut V) -> Result<(), E>
        requires { V.ready v.old }
        ensures calls { StepsUntil V.leaves v.old (nodes self.now) result v.new }
        ensures ready { V.ready v.new };

    /// The same with a closure.
    final fn visit_children_err<E, F: FnMut(VisitOf<'_, S, X>) -> Result<(), E>>(
        &self,
        f: &mut F,
    ) -> Result<(), E>
        requires { F.IsAlwaysCallable f.old }
        ensures calls { StopsAtErr visited F.FnMut f.old (nodes self.now) result f.new }
        ensures callable { F.IsAlwaysCallable f.new }
    {
        lend_until(self, f)
    }

    /// The same with a closure that always goes on.
    final fn visit_children<F: FnMut(VisitOf<'_, S, X>)>(&self, f: &mut F)
        requires { F.IsAlwaysCallable f.old }
        ensures calls { CallsEach visited F.FnMut f.old (nodes self.now) f.new }
        ensures callable { F.IsAlwaysCallable f.new }
    {
        lend_nodes(self, f)
    }
}

// calls a closure at each node
#[derive(Drop)]
struct Calls<'a, F> {
    f: &'a mut F,
}

impl<'a, S, X, E, F: FnMut(VisitOf<'_, S, X>) -> Result<(), E>> NodeVisitor<S, X, E>
    for Calls<'a, F> {
    ghost ready = { λ s. F.IsAlwaysCallable s.f.now };

    ghost leaves = { λ s x r t. CalledOn visited F.FnMut s.f.now x r t.f.now × (t.f.ghost_name ≡ s.f.ghost_name) };

    fn at_stmt(&mut self, x: &S) -> Result<(), E> {
        (self.f)(VisitOf::Stmt(x))
    }

    fn at_expr(&mut self, x: &X) -> Result<(), E> {
        (self.f)(VisitOf::Expr(x))
    }
}

fn lend_until<S, X, L: VisitChildren<S, X>, E, F: FnMut(VisitOf<'_, S, X>) -> Result<(), E>>(
    x: &L,
    f: &mut F,
) -> Result<(), E>
    requires { F.IsAlwaysCallable f.old }
    ensures calls { StopsAtErr visited F.FnMut f.old (L.nodes x.now) result f.new }
    ensures callable { F.IsAlwaysCallable f.new }
{
    let mut v = Calls { f };
    x.lend_children(&mut v)
}

/// Each node that it lends.
fn lend_nodes<S, X, L: VisitChildren<S, X>, F: FnMut(VisitOf<'_, S, X>)>(x: &L, f: &mut F)
    requires { F.IsAlwaysCallable f.old }
    ensures calls { CallsEach visited F.FnMut f.old (L.nodes x.now) f.new }
    ensures callable { F.IsAlwaysCallable f.new }
{
    let mut go = |x: VisitOf<'_, S, X>| -> Result<(), ()>
        requires { F.IsAlwaysCallable f.now }
        ensures calls { CalledOn visited F.FnMut f.entry.now (visited x.entry) tt f.exit.now }
        ensures goes_on { result ≡ Ok tt }
        ensures callable { F.IsAlwaysCallable f.exit.now }
    {
        f(x);
        Ok(())
    };
    let _ = x.visit_children_err(&mut go);
}

// each statement right below, as a node
fn stmt_nodes<S, X, L: VisitStmt<S>, E, V: NodeVisitor<S, X, E>>(x: &L, v: &mut V) -> Result<(), E>
    requires { V.ready v.old }
    ensures calls { StepsUntil V.leaves v.old (map statement (L.stmts x.now)) result v.new }
    ensures ready { V.ready v.new }
{
    let mut go = |x: &S| -> Result<(), E>
        requires { V.ready v.now }
        ensures called { V.leaves v.entry.now (statement x.now) result v.exit.now }
        ensures ready { V.ready v.exit.now }
    { v.at_stmt(x) };
    x.visit_stmt_result(&mut go)
}

// each expression that it lends, as a node
fn expr_nodes<P: AstPayload, S, L: VisitExpr<P>, E, V: NodeVisitor<S, AstExprP<P>, E>>(
    x: &L,
    v: &mut V,
) -> Result<(), E>
    requires { V.ready v.old }
    ensures calls { StepsUntil V.leaves v.old (map expression (L.parts x.now)) result v.new }
    ensures ready { V.ready v.new }
{
    let mut go = |x: &AstExprP<P>| -> Result<(), E>
        requires { V.ready v.now }
        ensures called { V.leaves v.entry.now (expression x.now) result v.exit.now }
        ensures ready { V.ready v.exit.now }
    { v.at_expr(x) };
    x.visit_expr_err(&mut go)
}

impl<P: AstPayload> VisitChildren<AstStmtP<P>, AstExprP<P>> for StmtP<P> {
    ghost nodes = { nodes_below };

    fn lend_children<E, V: NodeVisitor<AstStmtP<P>, AstExprP<P>, E>>(
        &self,
        v: &mut V,
    ) -> Result<(), E> {
        let alone = Alone { statement: self };
        expr_nodes(&alone, v)?;
        stmt_nodes(self, v)
    }
}

impl<P: AstPayload> VisitChildren<AstStmtP<P>, AstExprP<P>> for DefP<P> {
    ghost nodes = { def_nodes };

    fn lend_children<E, V: NodeVisitor<AstStmtP<P>, AstExprP<P>, E>>(
        &self,
        v: &mut V,
    ) -> Result<(), E> {
        expr_nodes(self, v)?;
        v.at_stmt(&self.body)
    }
}

impl<'a, P: AstPayload> VisitChildren<AstStmtP<P>, AstExprP<P>>
    for VisitOf<'a, AstStmtP<P>, AstExprP<P>> {
    ghost nodes = { λ x. below (visited x) };

    fn lend_children<E, V: NodeVisitor<AstStmtP<P>, AstExprP<P>, E>>(
        &self,
        v: &mut V,
    ) -> Result<(), E> {
        match self {
            VisitOf::Stmt(x) => x.node.lend_children(v),
            VisitOf::Expr(x) => expr_nodes(&x.node, v),
        }
    }
}
