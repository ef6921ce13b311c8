//! Writes to the types of parameters, of a `def` and of an assignment.

ghost use Rattle.std.specs.Prelude.{◌≡◌, ◌++◌, flat_map};
ghost use Rattle.std.specs.Vec.{SameBlock};
ghost use Rattle.starlark_ast.specs.Places.{maybe_place};
ghost use Rattle.starlark_ast.specs.Statements.{maybe_here};
ghost use Rattle.starlark_write.specs.Beside.{AtPlace, Each, block_of, stands};
ghost use Rattle.starlark_write.specs.BesideTypes.{KeepsOwn};
ghost use Rattle.starlark_write.specs.TypePlaces.{own_type};
ghost use Rattle.starlark_write.specs.Writing.{WritesUntil};

use crate::visit_mut::{maybe, one};
use starlark_ast::ast::{
    AstAssignIdentP, AstExprP, AstParameterP, AstPayload, AstTypeExprP, ParameterP,
};

/// The type of each parameter that has one.
pub(crate) fn own_types<P: AstPayload, E, F: FnMut(&mut AstTypeExprP<P>) -> Result<(), E>>(
    xs: &mut Vec<AstParameterP<P>>,
    f: &mut F,
) -> Result<(), E>
    requires { F.IsAlwaysCallable f.old }
    ensures calls { WritesUntil F.FnMut f.old (flat_map (λ p. own_type p.node) xs.old.items) result f.new (flat_map (λ p. own_type p.node) xs.new.items) }
    ensures block { SameBlock xs.old xs.new }
    ensures kept { Each (AtPlace KeepsOwn) xs.old.items xs.new.items }
    ensures callable { F.IsAlwaysCallable f.new }
{
    each_own(xs, f)
}

fn each_own<P: AstPayload, E, F: FnMut(&mut AstTypeExprP<P>) -> Result<(), E>>(
    xs: &mut [AstParameterP<P>],
    f: &mut F,
) -> Result<(), E>
    requires { F.IsAlwaysCallable f.old }
    ensures calls { WritesUntil F.FnMut f.old (flat_map (λ p. own_type p.node) xs.old) result f.new (flat_map (λ p. own_type p.node) xs.new) }
    ensures kept { Each (AtPlace KeepsOwn) xs.old xs.new }
    ensures callable { F.IsAlwaysCallable f.new }
{
    for i in 0..xs.len() {
        own(&mut xs[i].node, f)?;
    }
    Ok(())
}

fn own<P: AstPayload, E, F: FnMut(&mut AstTypeExprP<P>) -> Result<(), E>>(
    x: &mut ParameterP<P>,
    f: &mut F,
) -> Result<(), E>
    requires { F.IsAlwaysCallable f.old }
    ensures calls { WritesUntil F.FnMut f.old (own_type x.old) result f.new (own_type x.new) }
    ensures kept { KeepsOwn x.old x.new }
    ensures callable { F.IsAlwaysCallable f.new }
{
    match x {
        ParameterP::Slash => Ok(()),
        ParameterP::Normal(name, ty, default) => between(name, ty, default, f),
        ParameterP::NoArgs => Ok(()),
        ParameterP::Args(name, ty) => behind(name, ty, f),
        ParameterP::KwArgs(name, ty) => behind(name, ty, f),
    }
}

// the type behind a name, which stays
fn behind<P: AstPayload, E, F: FnMut(&mut AstTypeExprP<P>) -> Result<(), E>>(
    name: &mut AstAssignIdentP<P>,
    ty: &mut Option<Box<AstTypeExprP<P>>>,
    f: &mut F,
) -> Result<(), E>
    requires { F.IsAlwaysCallable f.old }
    ensures calls { WritesUntil F.FnMut f.old (maybe_place ty.old) result f.new (maybe_place ty.new) }
    ensures name { name.new ≡ name.old }
    ensures kept { block_of ty.new ≡ block_of ty.old }
    ensures callable { F.IsAlwaysCallable f.new }
{
    maybe(ty, f)
}

// the same, before a default, which stays
fn between<P: AstPayload, E, F: FnMut(&mut AstTypeExprP<P>) -> Result<(), E>>(
    name: &mut AstAssignIdentP<P>,
    ty: &mut Option<Box<AstTypeExprP<P>>>,
    default: &mut Option<Box<AstExprP<P>>>,
    f: &mut F,
) -> Result<(), E>
    requires { F.IsAlwaysCallable f.old }
    ensures calls { WritesUntil F.FnMut f.old (maybe_place ty.old) result f.new (maybe_place ty.new) }
    ensures name { name.new ≡ name.old }
    ensures kept { block_of ty.new ≡ block_of ty.old }
    ensures default { default.new ≡ default.old }
    ensures callable { F.IsAlwaysCallable f.new }
{
    maybe(ty, f)
}

/// Of an assignment its type.
pub(crate) fn assigned<P: AstPayload, E, F: FnMut(&mut AstTypeExprP<P>) -> Result<(), E>>(
    x: &mut Option<AstTypeExprP<P>>,
    f: &mut F,
) -> Result<(), E>
    requires { F.IsAlwaysCallable f.old }
    ensures calls { WritesUntil F.FnMut f.old (maybe_here x.old) result f.new (maybe_here x.new) }
    ensures kept { stands x.new ≡ stands x.old }
    ensures callable { F.IsAlwaysCallable f.new }
{
    match x {
        None => Ok(()),
        Some(x) => one(x, f),
    }
}

/// Of a `def` the types of its parameters, and that of what it returns.
pub(crate) fn defined<P: AstPayload, E, F: FnMut(&mut AstTypeExprP<P>) -> Result<(), E>>(
    params: &mut Vec<AstParameterP<P>>,
    returned: &mut Option<Box<AstTypeExprP<P>>>,
    f: &mut F,
) -> Result<(), E>
    requires { F.IsAlwaysCallable f.old }
    ensures calls { WritesUntil F.FnMut f.old (flat_map (λ p. own_type p.node) params.old.items ++ maybe_place returned.old) result f.new (flat_map (λ p. own_type p.node) params.new.items ++ maybe_place returned.new) }
    ensures block { SameBlock params.old params.new }
    ensures params { Each (AtPlace KeepsOwn) params.old.items params.new.items }
    ensures returned { block_of returned.new ≡ block_of returned.old }
    ensures callable { F.IsAlwaysCallable f.new }
{
    own_types(params, f)?;
    maybe(returned, f)
}
