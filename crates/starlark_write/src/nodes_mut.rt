//! Visitors that write to the nodes right below a statement.

ghost use Rattle.std.specs.Prelude.{◌≡◌, List, Result, Ok, map, [], ◌∷◌, length};
ghost use Rattle.std.specs.Vec.{SameBlock};
ghost use Rattle.starlark_ast.specs.Calls.{CalledOn};
ghost use Rattle.starlark_ast.specs.Nodes.{Node, expression, nodes_below, statement};
ghost use Rattle.starlark_ast.specs.Statements.{exprs_below};
ghost use Rattle.starlark_write.specs.Beside.{SameBox};
ghost use Rattle.starlark_write.specs.BesideStatements.{KeepsNodes, KeepsStmt};
ghost use Rattle.starlark_write.specs.WritingNodes.{NodesEach, NodesUntil, visited};

use crate::statements::exprs_err_mut;
use starlark_ast::ast::{AstExprP, AstPayload, AstStmtP, StmtP};

/// A statement or an expression, lent to be written to.
#[derive(Drop)]
pub enum VisitMutOf<'a, S, X> {
    Stmt(&'a mut S),
    Expr(&'a mut X),
}

/// A statement or an expression of a tree, as visitors that write lend it.
pub type VisitMut<'a, P> = VisitMutOf<'a, AstStmtP<P>, AstExprP<P>>;

/// What is lent statements and expressions, one at a time, and may write to them.
pub trait NodeVisitorMut<S, X, E> {
    /// What holds before each call, and after it.
    ghost ready: { Self → Type 0 };

    /// What a call at a node may answer, and what it may leave of the visitor and at the node.
    ghost leaves: { Self → Node S X → Result (Unit {0}) E → Self → Node S X → Type 0 };

    /// Is lent a statement to write to; what it leaves there stays, also behind an `Err`. After that a visit makes no more
    /// calls.
    fn at_stmt(&mut self, x: &mut S) -> Result<(), E>
        requires { ready self.old }
        ensures called { leaves self.old (statement x.old) result self.new (statement x.new) }
        ensures ready { ready self.new };

    /// The same with an expression.
    fn at_expr(&mut self, x: &mut X) -> Result<(), E>
        requires { ready self.old }
        ensures called { leaves self.old (expression x.old) result self.new (expression x.new) }
        ensures ready { ready self.new };
}

/// What has nodes that a visitor may write to, in an order of its own (docs/LANGUAGE.md, Orders).
pub trait VisitChildrenMut<S, X> {
    ghost nodes: { Self → List (Node S X) };

    /// What stays whatever is written: all but these nodes.
    ghost keeps_nodes: { Self → Self → Type 0 };

    /// Lends each of them to a visitor for the time of a call, up to the first `Err`, which is the answer. What was
    /// written before it stays, and so does all else. It takes no memory.
    fn lend_children_mut<E, V: NodeVisitorMut<S, X, E>>(&mut self, v: &mut V) -> Result<(), E>
        requires { V.ready v.old }
        ensures calls { NodesUntil V.leaves v.old (nodes self.old) result v.new (nodes self.new) }
        ensures kept { keeps_nodes self.old self.new }
        ensures ready { V.ready v.new };

    /// The same with a closure. What it leaves at a node is not told.
    final fn visit_children_err_mut<E, F: FnMut(VisitMutOf<'_, S, X>) -> Result<(), E>>(
        &mut self,
        f: &mut F,
    ) -> Result<(), E>
        requires { F.IsAlwaysCallable f.old }
        ensures calls { NodesUntil (λ p x r q y. CalledOn visited F.FnMut p x r q) f.old (nodes self.old) result f.new (nodes self.new) }
        ensures kept { keeps_nodes self.old self.new }
        ensures callable { F.IsAlwaysCallable f.new }
    {
        lend_until(self, f)
    }

    /// The same with a closure that always goes on.
    final fn visit_children_mut<F: FnMut(VisitMutOf<'_, S, X>)>(&mut self, f: &mut F)
        requires { F.IsAlwaysCallable f.old }
        ensures calls { NodesEach (λ p x q y. CalledOn visited F.FnMut p x tt q) f.old (nodes self.old) f.new (nodes self.new) }
        ensures kept { keeps_nodes self.old self.new }
        ensures callable { F.IsAlwaysCallable f.new }
    {
        lend_each(self, f)
    }
}

// calls a closure at each node
#[derive(Drop)]
struct Calls<'a, F> {
    f: &'a mut F,
}

impl<'a, S, X, E, F: FnMut(VisitMutOf<'_, S, X>) -> Result<(), E>> NodeVisitorMut<S, X, E>
    for Calls<'a, F> {
    ghost ready = { λ s. F.IsAlwaysCallable s.f.now };

    ghost leaves = { λ s x r t y. CalledOn visited F.FnMut s.f.now x r t.f.now × (t.f.ghost_name ≡ s.f.ghost_name) };

    fn at_stmt(&mut self, x: &mut S) -> Result<(), E> {
        (self.f)(VisitMutOf::Stmt(x))
    }

    fn at_expr(&mut self, x: &mut X) -> Result<(), E> {
        (self.f)(VisitMutOf::Expr(x))
    }
}

// calls a closure at each node, and goes on
#[derive(Drop)]
struct GoesOn<'a, F> {
    f: &'a mut F,
}

impl<'a, S, X, F: FnMut(VisitMutOf<'_, S, X>)> NodeVisitorMut<S, X, ()> for GoesOn<'a, F> {
    ghost ready = { λ s. F.IsAlwaysCallable s.f.now };

    ghost leaves = { λ s x r t y. (r ≡ Ok tt) × CalledOn visited F.FnMut s.f.now x tt t.f.now × (t.f.ghost_name ≡ s.f.ghost_name) };

    fn at_stmt(&mut self, x: &mut S) -> Result<(), ()> {
        (self.f)(VisitMutOf::Stmt(x));
        Ok(())
    }

    fn at_expr(&mut self, x: &mut X) -> Result<(), ()> {
        (self.f)(VisitMutOf::Expr(x));
        Ok(())
    }
}

fn lend_until<S, X, L: VisitChildrenMut<S, X>, E, F: FnMut(VisitMutOf<'_, S, X>) -> Result<(), E>>(
    x: &mut L,
    f: &mut F,
) -> Result<(), E>
    requires { F.IsAlwaysCallable f.old }
    ensures calls { NodesUntil (λ p x r q y. CalledOn visited F.FnMut p x r q) f.old (L.nodes x.old) result f.new (L.nodes x.new) }
    ensures kept { L.keeps_nodes x.old x.new }
    ensures callable { F.IsAlwaysCallable f.new }
{
    let mut v = Calls { f };
    x.lend_children_mut(&mut v)
}

fn lend_each<S, X, L: VisitChildrenMut<S, X>, F: FnMut(VisitMutOf<'_, S, X>)>(x: &mut L, f: &mut F)
    requires { F.IsAlwaysCallable f.old }
    ensures calls { NodesEach (λ p x q y. CalledOn visited F.FnMut p x tt q) f.old (L.nodes x.old) f.new (L.nodes x.new) }
    ensures kept { L.keeps_nodes x.old x.new }
    ensures callable { F.IsAlwaysCallable f.new }
{
    let mut v = GoesOn { f };
    let _ = x.lend_children_mut(&mut v);
}

fn one<S, X, E, V: NodeVisitorMut<S, X, E>>(x: &mut S, v: &mut V) -> Result<(), E>
    requires { V.ready v.old }
    ensures calls { NodesUntil V.leaves v.old (statement x.old ∷ []) result v.new (statement x.new ∷ []) }
    ensures ready { V.ready v.new }
{
    v.at_stmt(x)
}

fn boxed<S, X, E, V: NodeVisitorMut<S, X, E>>(x: &mut Box<S>, v: &mut V) -> Result<(), E>
    requires { V.ready v.old }
    ensures calls { NodesUntil V.leaves v.old (statement x.old.value ∷ []) result v.new (statement x.new.value ∷ []) }
    ensures block { SameBox x.old x.new }
    ensures ready { V.ready v.new }
{
    one(&mut **x, v)
}

fn two<S, X, E, V: NodeVisitorMut<S, X, E>>(x: &mut S, y: &mut S, v: &mut V) -> Result<(), E>
    requires { V.ready v.old }
    ensures calls { NodesUntil V.leaves v.old (statement x.old ∷ statement y.old ∷ []) result v.new (statement x.new ∷ statement y.new ∷ []) }
    ensures ready { V.ready v.new }
{
    v.at_stmt(x)?;
    one(y, v)
}

// what a box holds; what stands beside it stays
fn beside<S, X, U, E, V: NodeVisitorMut<S, X, E>>(
    x: &mut Box<S>,
    other: &mut U,
    v: &mut V,
) -> Result<(), E>
    requires { V.ready v.old }
    ensures calls { NodesUntil V.leaves v.old (statement x.old.value ∷ []) result v.new (statement x.new.value ∷ []) }
    ensures block { SameBox x.old x.new }
    ensures kept { other.new ≡ other.old }
    ensures ready { V.ready v.new }
{
    boxed(x, v)
}

fn pair<S, X, U, E, V: NodeVisitorMut<S, X, E>>(
    x: &mut Box<(S, S)>,
    other: &mut U,
    v: &mut V,
) -> Result<(), E>
    requires { V.ready v.old }
    ensures calls { NodesUntil V.leaves v.old (statement x.old.value.0 ∷ statement x.old.value.1 ∷ []) result v.new (statement x.new.value.0 ∷ statement x.new.value.1 ∷ []) }
    ensures block { SameBox x.old x.new }
    ensures kept { other.new ≡ other.old }
    ensures ready { V.ready v.new }
{
    let parts = &mut **x;
    two(&mut parts.0, &mut parts.1, v)
}

fn each<S, X, E, V: NodeVisitorMut<S, X, E>>(xs: &mut [S], v: &mut V) -> Result<(), E>
    requires { V.ready v.old }
    ensures calls { NodesUntil V.leaves v.old (map statement xs.old) result v.new (map statement xs.new) }
    ensures kept { length xs.new ≡ length xs.old }
    ensures ready { V.ready v.new }
{
    for i in 0..xs.len() {
        v.at_stmt(&mut xs[i])?;
    }
    Ok(())
}

fn list<S, X, E, V: NodeVisitorMut<S, X, E>>(xs: &mut Vec<S>, v: &mut V) -> Result<(), E>
    requires { V.ready v.old }
    ensures calls { NodesUntil V.leaves v.old (map statement xs.old.items) result v.new (map statement xs.new.items) }
    ensures block { SameBlock xs.old xs.new }
    ensures kept { length xs.new.items ≡ length xs.old.items }
    ensures ready { V.ready v.new }
{
    each(xs, v)
}

// each expression right below, up to the first `Err`
fn expr_nodes<P: AstPayload, S, E, V: NodeVisitorMut<S, AstExprP<P>, E>>(
    x: &mut StmtP<P>,
    v: &mut V,
) -> Result<(), E>
    requires { V.ready v.old }
    ensures calls { NodesUntil V.leaves v.old (map expression (exprs_below x.old)) result v.new (map expression (exprs_below x.new)) }
    ensures kept { KeepsStmt x.old x.new }
    ensures ready { V.ready v.new }
{
    let mut go = |x: &mut AstExprP<P>| -> Result<(), E>
        requires { V.ready v.now }
        ensures called { V.leaves v.entry.now (expression x.old) result v.exit.now (expression x.new) }
        ensures ready { V.ready v.exit.now }
    { v.at_expr(x) };
    exprs_err_mut(x, &mut go)
}

impl<P: AstPayload> VisitChildrenMut<AstStmtP<P>, AstExprP<P>> for StmtP<P> {
    ghost nodes = { nodes_below };

    ghost keeps_nodes = { KeepsNodes };

    fn lend_children_mut<E, V: NodeVisitorMut<AstStmtP<P>, AstExprP<P>, E>>(
        &mut self,
        v: &mut V,
    ) -> Result<(), E> {
        expr_nodes(self, v)?;
        match self {
            StmtP::Statements(xs) => list(xs, v),
            StmtP::If(c, x) => beside(x, c, v),
            StmtP::IfElse(c, x) => pair(x, c, v),
            StmtP::For(x) => boxed(&mut x.body, v),
            StmtP::Def(x) => boxed(&mut x.body, v),
            _ => Ok(()),
        }
    }
}
