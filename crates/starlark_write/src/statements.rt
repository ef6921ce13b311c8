//! Writes to what stands right below a statement.

ghost use Rattle.std.specs.Prelude.{◌≡◌, [], ◌∷◌, ◌++◌};
ghost use Rattle.starlark_write.specs.Beside.{AtPlace, KeepsTarget, SameBox, stands};
ghost use Rattle.starlark_write.specs.BesideStatements.{KeepsAssign, KeepsDef, KeepsFor, KeepsStmt, KeepsTypeHere};
ghost use Rattle.starlark_ast.specs.Places.{target_places};
ghost use Rattle.starlark_ast.specs.Statements.{assign_places, def_places, exprs_below, for_places, maybe_here, maybe_type_here};
ghost use Rattle.starlark_write.specs.Writing.{WritesUntil};

use crate::visit_mut::{VisitExprMut, boxed, maybe_type, one, parts};
use starlark_ast::ast::{
    AssignOp, AssignP, AstAssignTargetP, AstExprP, AstPayload, AstTypeExprP, DefP, ForP, StmtP,
};

fn held<T, E, F: FnMut(&mut T) -> Result<(), E>>(x: &mut Option<T>, f: &mut F) -> Result<(), E>
    requires { F.IsAlwaysCallable f.old }
    ensures calls { WritesUntil F.FnMut f.old (maybe_here x.old) result f.new (maybe_here x.new) }
    ensures kept { stands x.new ≡ stands x.old }
    ensures callable { F.IsAlwaysCallable f.new }
{
    match x {
        None => Ok(()),
        Some(x) => one(x, f),
    }
}

fn held_type<P: AstPayload, E, F: FnMut(&mut AstExprP<P>) -> Result<(), E>>(
    x: &mut Option<AstTypeExprP<P>>,
    f: &mut F,
) -> Result<(), E>
    requires { F.IsAlwaysCallable f.old }
    ensures calls { WritesUntil F.FnMut f.old (maybe_type_here x.old) result f.new (maybe_type_here x.new) }
    ensures kept { KeepsTypeHere x.old x.new }
    ensures callable { F.IsAlwaysCallable f.new }
{
    match x {
        None => Ok(()),
        Some(x) => one(&mut x.node.expr, f),
    }
}

// what stands before something else, which stays
fn leading<T, U, E, F: FnMut(&mut T) -> Result<(), E>>(
    x: &mut T,
    other: &mut U,
    f: &mut F,
) -> Result<(), E>
    requires { F.IsAlwaysCallable f.old }
    ensures calls { WritesUntil F.FnMut f.old (x.old ∷ []) result f.new (x.new ∷ []) }
    ensures kept { other.new ≡ other.old }
    ensures callable { F.IsAlwaysCallable f.new }
{
    one(x, f)
}

fn modified<P: AstPayload, E, F: FnMut(&mut AstExprP<P>) -> Result<(), E>>(
    lhs: &mut AstAssignTargetP<P>,
    op: &mut AssignOp,
    rhs: &mut Box<AstExprP<P>>,
    f: &mut F,
) -> Result<(), E>
    requires { F.IsAlwaysCallable f.old }
    ensures calls { WritesUntil F.FnMut f.old (target_places lhs.old.node ++ rhs.old.value ∷ []) result f.new (target_places lhs.new.node ++ rhs.new.value ∷ []) }
    ensures block { SameBox rhs.old rhs.new }
    ensures target { AtPlace KeepsTarget lhs.old lhs.new }
    ensures operator { op.new ≡ op.old }
    ensures callable { F.IsAlwaysCallable f.new }
{
    lhs.node.visit_expr_err_mut(f)?;
    boxed(rhs, f)
}

impl<P: AstPayload> VisitExprMut<P> for AssignP<P> {
    ghost parts = { assign_places };

    ghost keeps = { KeepsAssign };

    fn visit_expr_err_mut<E, F: FnMut(&mut AstExprP<P>) -> Result<(), E>>(
        &mut self,
        f: &mut F,
    ) -> Result<(), E> {
        self.lhs.node.visit_expr_err_mut(f)?;
        held_type(&mut self.ty, f)?;
        one(&mut self.rhs, f)
    }
}

impl<P: AstPayload> VisitExprMut<P> for ForP<P> {
    ghost parts = { for_places };

    ghost keeps = { KeepsFor };

    fn visit_expr_err_mut<E, F: FnMut(&mut AstExprP<P>) -> Result<(), E>>(
        &mut self,
        f: &mut F,
    ) -> Result<(), E> {
        self.var.node.visit_expr_err_mut(f)?;
        one(&mut self.over, f)
    }
}

impl<P: AstPayload> VisitExprMut<P> for DefP<P> {
    ghost parts = { def_places };

    ghost keeps = { KeepsDef };

    fn visit_expr_err_mut<E, F: FnMut(&mut AstExprP<P>) -> Result<(), E>>(
        &mut self,
        f: &mut F,
    ) -> Result<(), E> {
        parts(&mut self.params, f)?;
        maybe_type(&mut self.return_type, f)
    }
}

/// The expressions right below a statement, up to the first `Err`.
pub(crate) fn exprs_err_mut<P: AstPayload, E, F: FnMut(&mut AstExprP<P>) -> Result<(), E>>(
    x: &mut StmtP<P>,
    f: &mut F,
) -> Result<(), E>
    requires { F.IsAlwaysCallable f.old }
    ensures calls { WritesUntil F.FnMut f.old (exprs_below x.old) result f.new (exprs_below x.new) }
    ensures kept { KeepsStmt x.old x.new }
    ensures callable { F.IsAlwaysCallable f.new }
{
    match x {
        StmtP::Break => Ok(()),
        StmtP::Continue => Ok(()),
        StmtP::Pass => Ok(()),
        StmtP::Return(x) => held(x, f),
        StmtP::Expression(x) => one(x, f),
        StmtP::Assign(x) => x.visit_expr_err_mut(f),
        StmtP::AssignModify(lhs, op, rhs) => modified(lhs, op, rhs, f),
        StmtP::Statements(_) => Ok(()),
        StmtP::If(c, x) => leading(c, x, f),
        StmtP::IfElse(c, x) => leading(c, x, f),
        StmtP::For(x) => x.visit_expr_err_mut(f),
        StmtP::Def(x) => x.visit_expr_err_mut(f),
        StmtP::Load(_) => Ok(()),
    }
}
