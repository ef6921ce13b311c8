//! The identifiers that are read, each lent to a closure.

ghost use Rattle.std.specs.Prelude.{◌<◌, List, Result};
ghost use Rattle.starlark_ast.specs.Calls.{lent, StopsAtErr};
ghost use Rattle.starlark_ast.specs.View.{expr_at};
ghost use Rattle.starlark_visit.specs.Idents.{N as Read, expr_reads, stmt_reads};
ghost use Rattle.starlark_visit.specs.Sizes.{size};

use crate::visit::VisitExpr;
use starlark_ast::ast::{AstExprP, AstIdentP, AstPayload, ExprP, StmtP};

/// What reads identifiers.
pub trait VisitIdent<P: AstPayload> {
    ghost reads: { Self → List (Read P P.LoadPayload P.IdentPayload P.IdentAssignPayload P.DefPayload P.TypeExprPayload) };

    /// Lends each of them, in order, for the time of a call, up to the first `Err`, which is the answer: those of types and of
    /// defaults too, and of a comprehension those of its clauses before those of its element. What is assigned is not read.
    /// It takes no memory.
    fn visit_ident<E, F: FnMut(&AstIdentP<P>) -> Result<(), E>>(&self, f: &mut F) -> Result<(), E>
        requires { F.IsAlwaysCallable f.old }
        ensures calls { StopsAtErr lent F.FnMut f.old (reads self.now) result f.new }
        ensures callable { F.IsAlwaysCallable f.new };
}

/// Those in an expression.
fn names<P: AstPayload, E, F: FnMut(&AstIdentP<P>) -> Result<(), E>>(
    x: &AstExprP<P>,
    f: &mut F,
) -> Result<(), E>
    requires { F.IsAlwaysCallable f.old }
    ensures calls { StopsAtErr lent F.FnMut f.old (expr_reads x.now.node) result f.new }
    ensures callable { F.IsAlwaysCallable f.new }
{
    if let ExprP::Identifier(name) = &x.node {
        return f(name);
    }
    x.node.lend_exprs(
        &mut |below: &AstExprP<P>| -> Result<(), E>
            requires { (size (expr_at below.now) < size (expr_at x.now)) × F.IsAlwaysCallable f.now }
            ensures calls { StopsAtErr lent F.FnMut f.entry.now (expr_reads below.now.node) result f.exit.now }
            ensures callable { F.IsAlwaysCallable f.exit.now }
        {
            // so that the clause may speak of it
            let _above: &AstExprP<P> = &*x;
            names(below, f)
        },
    )
}

impl<P: AstPayload> VisitIdent<P> for StmtP<P> {
    ghost reads = { stmt_reads };

    fn visit_ident<E, F: FnMut(&AstIdentP<P>) -> Result<(), E>>(&self, f: &mut F) -> Result<(), E> {
        self.lend_exprs(
            &mut |x: &AstExprP<P>| -> Result<(), E>
                requires { F.IsAlwaysCallable f.now }
                ensures calls { StopsAtErr lent F.FnMut f.entry.now (expr_reads x.now.node) result f.exit.now }
                ensures callable { F.IsAlwaysCallable f.exit.now }
            { names(x, f) },
        )
    }
}
