//! Writes to targets.

ghost use Rattle.std.specs.Prelude.{◌≡◌, Ok, [], flat_map};
ghost use Rattle.std.specs.Fn.{CalledAtMut};
ghost use Rattle.std.specs.Vec.{SameBlock};
ghost use Rattle.starlark_write.specs.Beside.{KeepsAllPlaces, KeepsPlaces, KeepsTarget, KeepsTargets};
ghost use Rattle.starlark_ast.specs.Places.{assigned_places, target_places};
ghost use Rattle.starlark_write.specs.Writing.{WritesUntil};

use crate::visit_mut::{VisitExprMut, VisitLvalueMut, beside, one, pair};
use starlark_ast::ast::{AssignTargetP, AstAssignIdentP, AstAssignTargetP, AstExprP, AstPayload};

#[cycle(targets)]
fn target<P: AstPayload, E, F: FnMut(&mut AstExprP<P>) -> Result<(), E>>(
    x: &mut AssignTargetP<P>,
    f: &mut F,
) -> Result<(), E>
    requires { F.IsAlwaysCallable f.old }
    ensures calls { WritesUntil F.FnMut f.old (target_places x.old) result f.new (target_places x.new) }
    ensures kept { KeepsTarget x.old x.new }
    ensures callable { F.IsAlwaysCallable f.new }
{
    match x {
        AssignTargetP::Tuple(xs) => targets(xs, f),
        AssignTargetP::Index(x) => pair(x, f),
        AssignTargetP::Dot(x, name) => beside(x, name, f),
        AssignTargetP::Identifier(_) => Ok(()),
    }
}

#[cycle(targets)]
fn targets<P: AstPayload, E, F: FnMut(&mut AstExprP<P>) -> Result<(), E>>(
    xs: &mut Vec<AstAssignTargetP<P>>,
    f: &mut F,
) -> Result<(), E>
    requires { F.IsAlwaysCallable f.old }
    ensures calls { WritesUntil F.FnMut f.old (flat_map (λ x. target_places x.node) xs.old.items) result f.new (flat_map (λ x. target_places x.node) xs.new.items) }
    ensures block { SameBlock xs.old xs.new }
    ensures kept { KeepsTargets xs.old.items xs.new.items }
    ensures callable { F.IsAlwaysCallable f.new }
{
    all_targets(xs, f)
}

#[cycle(targets)]
fn all_targets<P: AstPayload, E, F: FnMut(&mut AstExprP<P>) -> Result<(), E>>(
    xs: &mut [AstAssignTargetP<P>],
    f: &mut F,
) -> Result<(), E>
    requires { F.IsAlwaysCallable f.old }
    ensures calls { WritesUntil F.FnMut f.old (flat_map (λ x. target_places x.node) xs.old) result f.new (flat_map (λ x. target_places x.node) xs.new) }
    ensures kept { KeepsTargets xs.old xs.new }
    ensures callable { F.IsAlwaysCallable f.new }
{
    for i in 0..xs.len() {
        target(&mut xs[i].node, f)?;
    }
    Ok(())
}

#[cycle(lvalues)]
fn lvalue<P: AstPayload, E, F: FnMut(&mut AstAssignIdentP<P>) -> Result<(), E>>(
    x: &mut AssignTargetP<P>,
    f: &mut F,
) -> Result<(), E>
    requires { F.IsAlwaysCallable f.old }
    ensures calls { WritesUntil F.FnMut f.old (assigned_places x.old) result f.new (assigned_places x.new) }
    ensures kept { KeepsPlaces x.old x.new }
    ensures callable { F.IsAlwaysCallable f.new }
{
    match x {
        AssignTargetP::Tuple(xs) => lvalues(xs, f),
        AssignTargetP::Index(_) => Ok(()),
        AssignTargetP::Dot(_, _) => Ok(()),
        AssignTargetP::Identifier(x) => one(x, f),
    }
}

#[cycle(lvalues)]
fn lvalues<P: AstPayload, E, F: FnMut(&mut AstAssignIdentP<P>) -> Result<(), E>>(
    xs: &mut Vec<AstAssignTargetP<P>>,
    f: &mut F,
) -> Result<(), E>
    requires { F.IsAlwaysCallable f.old }
    ensures calls { WritesUntil F.FnMut f.old (flat_map (λ x. assigned_places x.node) xs.old.items) result f.new (flat_map (λ x. assigned_places x.node) xs.new.items) }
    ensures block { SameBlock xs.old xs.new }
    ensures kept { KeepsAllPlaces xs.old.items xs.new.items }
    ensures callable { F.IsAlwaysCallable f.new }
{
    all_lvalues(xs, f)
}

#[cycle(lvalues)]
fn all_lvalues<P: AstPayload, E, F: FnMut(&mut AstAssignIdentP<P>) -> Result<(), E>>(
    xs: &mut [AstAssignTargetP<P>],
    f: &mut F,
) -> Result<(), E>
    requires { F.IsAlwaysCallable f.old }
    ensures calls { WritesUntil F.FnMut f.old (flat_map (λ x. assigned_places x.node) xs.old) result f.new (flat_map (λ x. assigned_places x.node) xs.new) }
    ensures kept { KeepsAllPlaces xs.old xs.new }
    ensures callable { F.IsAlwaysCallable f.new }
{
    for i in 0..xs.len() {
        lvalue(&mut xs[i].node, f)?;
    }
    Ok(())
}

// a call that goes on
fn called<P: AstPayload, F: FnMut(&mut AstAssignIdentP<P>)>(
    x: &mut AstAssignIdentP<P>,
    f: &mut F,
) -> Result<(), ()>
    requires { F.IsAlwaysCallable f.old }
    ensures calls { CalledAtMut F.FnMut f.old x.old tt f.new x.new }
    ensures goes_on { result ≡ Ok tt }
    ensures callable { F.IsAlwaysCallable f.new }
{
    f(x);
    Ok(())
}

impl<P: AstPayload> VisitExprMut<P> for AssignTargetP<P> {
    ghost parts = { target_places };

    ghost keeps = { KeepsTarget };

    fn visit_expr_err_mut<E, F: FnMut(&mut AstExprP<P>) -> Result<(), E>>(
        &mut self,
        f: &mut F,
    ) -> Result<(), E> {
        target(self, f)
    }
}

impl<P: AstPayload> VisitLvalueMut<P> for AssignTargetP<P> {
    ghost names = { assigned_places };

    ghost keeps_places = { KeepsPlaces };

    fn visit_lvalue_mut<F: FnMut(&mut AstAssignIdentP<P>)>(&mut self, f: &mut F) {
        let mut go = |x: &mut AstAssignIdentP<P>| -> Result<(), ()>
            requires { F.IsAlwaysCallable f.now }
            ensures calls { CalledAtMut F.FnMut f.entry.now x.old tt f.exit.now x.new }
            ensures goes_on { result ≡ Ok tt }
            ensures callable { F.IsAlwaysCallable f.exit.now }
        { called(x, f) };
        let _ = lvalue(self, &mut go);
    }
}
