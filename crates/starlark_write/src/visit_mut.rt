//! Visitors that write, and writes to the parts of a node.

ghost use Rattle.std.specs.Prelude.{◌≡◌, Ok, List, [], ◌∷◌, flat_map, length};
ghost use Rattle.std.specs.Fn.{CalledAtMut};
ghost use Rattle.std.specs.Vec.{SameBlock};
ghost use Rattle.starlark_write.specs.Beside.{Each, KeepsMaybeType, SameBox, block_of};
ghost use Rattle.starlark_write.specs.Beside.{Assigned};
ghost use Rattle.starlark_ast.specs.Places.{E as Place, maybe_place, maybe_type_place};
ghost use Rattle.starlark_write.specs.Writing.{WritesEach, WritesUntil};

use starlark_ast::ast::{AstAssignIdentP, AstExprP, AstPayload, AstTypeExprP};

/// What has expressions that a closure may write, in an order of its own (docs/LANGUAGE.md, Orders).
pub trait VisitExprMut<P: AstPayload> {
    ghost parts: { Self → List (Place P P.LoadPayload P.IdentPayload P.IdentAssignPayload P.DefPayload P.TypeExprPayload) };

    /// What stays whatever is written: all but these expressions.
    ghost keeps: { Self → Self → Type 0 };

    /// Lends each of them for the time of a call, up to the first `Err`, which is the answer. What was written before it
    /// stays, and so does all else. It takes no memory.
    fn visit_expr_err_mut<E, F: FnMut(&mut AstExprP<P>) -> Result<(), E>>(
        &mut self,
        f: &mut F,
    ) -> Result<(), E>
        requires { F.IsAlwaysCallable f.old }
        ensures calls { WritesUntil F.FnMut f.old (parts self.old) result f.new (parts self.new) }
        ensures kept { keeps self.old self.new }
        ensures callable { F.IsAlwaysCallable f.new };

    /// Lends each of them for the time of a call. All else stays. It takes no memory.
    final fn visit_expr_mut<F: FnMut(&mut AstExprP<P>)>(&mut self, f: &mut F)
        requires { F.IsAlwaysCallable f.old }
        ensures calls { WritesEach F.FnMut f.old (parts self.old) f.new (parts self.new) }
        ensures kept { keeps self.old self.new }
        ensures callable { F.IsAlwaysCallable f.new }
    {
        lend_each_mut(self, f)
    }
}

/// What assigns identifiers that a closure may write.
pub trait VisitLvalueMut<P: AstPayload> {
    ghost names: { Self → List (Assigned P P.LoadPayload P.IdentPayload P.IdentAssignPayload P.DefPayload P.TypeExprPayload) };

    /// What stays whatever is written: all but these identifiers.
    ghost keeps_places: { Self → Self → Type 0 };

    /// Lends each of them, in order, for the time of a call. All else stays. It takes no memory.
    fn visit_lvalue_mut<F: FnMut(&mut AstAssignIdentP<P>)>(&mut self, f: &mut F)
        requires { F.IsAlwaysCallable f.old }
        ensures calls { WritesEach F.FnMut f.old (names self.old) f.new (names self.new) }
        ensures kept { keeps_places self.old self.new }
        ensures callable { F.IsAlwaysCallable f.new };
}

// a call that goes on
fn called<P: AstPayload, F: FnMut(&mut AstExprP<P>)>(
    x: &mut AstExprP<P>,
    f: &mut F,
) -> Result<(), ()>
    requires { F.IsAlwaysCallable f.old }
    ensures calls { CalledAtMut F.FnMut f.old x.old tt f.new x.new }
    ensures goes_on { result ≡ Ok tt }
    ensures callable { F.IsAlwaysCallable f.new }
{
    f(x);
    Ok(())
}

/// Each expression that it lends.
pub(crate) fn lend_each_mut<P: AstPayload, L: VisitExprMut<P>, F: FnMut(&mut AstExprP<P>)>(
    parts: &mut L,
    f: &mut F,
)
    requires { F.IsAlwaysCallable f.old }
    ensures calls { WritesEach F.FnMut f.old (L.parts parts.old) f.new (L.parts parts.new) }
    ensures kept { L.keeps parts.old parts.new }
    ensures callable { F.IsAlwaysCallable f.new }
{
    let mut go = |x: &mut AstExprP<P>| -> Result<(), ()>
        requires { F.IsAlwaysCallable f.now }
        ensures calls { CalledAtMut F.FnMut f.entry.now x.old tt f.exit.now x.new }
        ensures goes_on { result ≡ Ok tt }
        ensures callable { F.IsAlwaysCallable f.exit.now }
    { called(x, f) };
    let _ = parts.visit_expr_err_mut(&mut go);
}

/// The expressions that each of some parts lends.
pub(crate) fn each_part<
    P: AstPayload,
    L: VisitExprMut<P>,
    E,
    F: FnMut(&mut AstExprP<P>) -> Result<(), E>,
>(xs: &mut [L], f: &mut F) -> Result<(), E>
    requires { F.IsAlwaysCallable f.old }
    ensures calls { WritesUntil F.FnMut f.old (flat_map L.parts xs.old) result f.new (flat_map L.parts xs.new) }
    ensures kept { Each L.keeps xs.old xs.new }
    ensures callable { F.IsAlwaysCallable f.new }
{
    for i in 0..xs.len() {
        xs[i].visit_expr_err_mut(f)?;
    }
    Ok(())
}

pub(crate) fn one<T, E, F: FnMut(&mut T) -> Result<(), E>>(x: &mut T, f: &mut F) -> Result<(), E>
    requires { F.IsAlwaysCallable f.old }
    ensures calls { WritesUntil F.FnMut f.old (x.old ∷ []) result f.new (x.new ∷ []) }
    ensures callable { F.IsAlwaysCallable f.new }
{
    f(x)
}

pub(crate) fn boxed<T, E, F: FnMut(&mut T) -> Result<(), E>>(
    x: &mut Box<T>,
    f: &mut F,
) -> Result<(), E>
    requires { F.IsAlwaysCallable f.old }
    ensures calls { WritesUntil F.FnMut f.old (x.old.value ∷ []) result f.new (x.new.value ∷ []) }
    ensures block { SameBox x.old x.new }
    ensures callable { F.IsAlwaysCallable f.new }
{
    one(&mut **x, f)
}

pub(crate) fn two<T, E, F: FnMut(&mut T) -> Result<(), E>>(
    x: &mut T,
    y: &mut T,
    f: &mut F,
) -> Result<(), E>
    requires { F.IsAlwaysCallable f.old }
    ensures calls { WritesUntil F.FnMut f.old (x.old ∷ y.old ∷ []) result f.new (x.new ∷ y.new ∷ []) }
    ensures callable { F.IsAlwaysCallable f.new }
{
    f(x)?;
    one(y, f)
}

pub(crate) fn three<T, E, F: FnMut(&mut T) -> Result<(), E>>(
    x: &mut T,
    y: &mut T,
    z: &mut T,
    f: &mut F,
) -> Result<(), E>
    requires { F.IsAlwaysCallable f.old }
    ensures calls { WritesUntil F.FnMut f.old (x.old ∷ y.old ∷ z.old ∷ []) result f.new (x.new ∷ y.new ∷ z.new ∷ []) }
    ensures callable { F.IsAlwaysCallable f.new }
{
    f(x)?;
    two(y, z, f)
}

pub(crate) fn pair<T, E, F: FnMut(&mut T) -> Result<(), E>>(
    x: &mut Box<(T, T)>,
    f: &mut F,
) -> Result<(), E>
    requires { F.IsAlwaysCallable f.old }
    ensures calls { WritesUntil F.FnMut f.old (x.old.value.0 ∷ x.old.value.1 ∷ []) result f.new (x.new.value.0 ∷ x.new.value.1 ∷ []) }
    ensures block { SameBox x.old x.new }
    ensures callable { F.IsAlwaysCallable f.new }
{
    let parts = &mut **x;
    two(&mut parts.0, &mut parts.1, f)
}

pub(crate) fn triple<T, E, F: FnMut(&mut T) -> Result<(), E>>(
    x: &mut Box<(T, T, T)>,
    f: &mut F,
) -> Result<(), E>
    requires { F.IsAlwaysCallable f.old }
    ensures calls { WritesUntil F.FnMut f.old (x.old.value.0 ∷ x.old.value.1 ∷ x.old.value.2 ∷ []) result f.new (x.new.value.0 ∷ x.new.value.1 ∷ x.new.value.2 ∷ []) }
    ensures block { SameBox x.old x.new }
    ensures callable { F.IsAlwaysCallable f.new }
{
    let parts = &mut **x;
    three(&mut parts.0, &mut parts.1, &mut parts.2, f)
}

pub(crate) fn maybe<T, E, F: FnMut(&mut T) -> Result<(), E>>(
    x: &mut Option<Box<T>>,
    f: &mut F,
) -> Result<(), E>
    requires { F.IsAlwaysCallable f.old }
    ensures calls { WritesUntil F.FnMut f.old (maybe_place x.old) result f.new (maybe_place x.new) }
    ensures kept { block_of x.new ≡ block_of x.old }
    ensures callable { F.IsAlwaysCallable f.new }
{
    match x {
        None => Ok(()),
        Some(x) => boxed(x, f),
    }
}

pub(crate) fn maybe_type<P: AstPayload, E, F: FnMut(&mut AstExprP<P>) -> Result<(), E>>(
    x: &mut Option<Box<AstTypeExprP<P>>>,
    f: &mut F,
) -> Result<(), E>
    requires { F.IsAlwaysCallable f.old }
    ensures calls { WritesUntil F.FnMut f.old (maybe_type_place x.old) result f.new (maybe_type_place x.new) }
    ensures kept { KeepsMaybeType x.old x.new }
    ensures callable { F.IsAlwaysCallable f.new }
{
    match x {
        None => Ok(()),
        Some(x) => one(&mut x.node.expr, f),
    }
}

pub(crate) fn each<T, E, F: FnMut(&mut T) -> Result<(), E>>(
    xs: &mut [T],
    f: &mut F,
) -> Result<(), E>
    requires { F.IsAlwaysCallable f.old }
    ensures calls { WritesUntil F.FnMut f.old xs.old result f.new xs.new }
    ensures kept { length xs.new ≡ length xs.old }
    ensures callable { F.IsAlwaysCallable f.new }
{
    for i in 0..xs.len() {
        f(&mut xs[i])?;
    }
    Ok(())
}

pub(crate) fn list<T, E, F: FnMut(&mut T) -> Result<(), E>>(
    xs: &mut Vec<T>,
    f: &mut F,
) -> Result<(), E>
    requires { F.IsAlwaysCallable f.old }
    ensures calls { WritesUntil F.FnMut f.old xs.old.items result f.new xs.new.items }
    ensures block { SameBlock xs.old xs.new }
    ensures kept { length xs.new.items ≡ length xs.old.items }
    ensures callable { F.IsAlwaysCallable f.new }
{
    each(xs, f)
}

/// The expressions that each of some parts in a vector lends.
pub(crate) fn parts<
    P: AstPayload,
    L: VisitExprMut<P>,
    E,
    F: FnMut(&mut AstExprP<P>) -> Result<(), E>,
>(xs: &mut Vec<L>, f: &mut F) -> Result<(), E>
    requires { F.IsAlwaysCallable f.old }
    ensures calls { WritesUntil F.FnMut f.old (flat_map L.parts xs.old.items) result f.new (flat_map L.parts xs.new.items) }
    ensures block { SameBlock xs.old xs.new }
    ensures kept { Each L.keeps xs.old.items xs.new.items }
    ensures callable { F.IsAlwaysCallable f.new }
{
    each_part(xs, f)
}

/// What a box holds; what stands beside it stays.
pub(crate) fn beside<T, U, E, F: FnMut(&mut T) -> Result<(), E>>(
    x: &mut Box<T>,
    other: &mut U,
    f: &mut F,
) -> Result<(), E>
    requires { F.IsAlwaysCallable f.old }
    ensures calls { WritesUntil F.FnMut f.old (x.old.value ∷ []) result f.new (x.new.value ∷ []) }
    ensures block { SameBox x.old x.new }
    ensures kept { other.new ≡ other.old }
    ensures callable { F.IsAlwaysCallable f.new }
{
    boxed(x, f)
}

/// What two boxes hold; what stands between them stays.
pub(crate) fn around<T, U, E, F: FnMut(&mut T) -> Result<(), E>>(
    x: &mut Box<T>,
    other: &mut U,
    y: &mut Box<T>,
    f: &mut F,
) -> Result<(), E>
    requires { F.IsAlwaysCallable f.old }
    ensures calls { WritesUntil F.FnMut f.old (x.old.value ∷ y.old.value ∷ []) result f.new (x.new.value ∷ y.new.value ∷ []) }
    ensures first_block { SameBox x.old x.new }
    ensures second_block { SameBox y.old y.new }
    ensures kept { other.new ≡ other.old }
    ensures callable { F.IsAlwaysCallable f.new }
{
    two(&mut **x, &mut **y, f)
}
