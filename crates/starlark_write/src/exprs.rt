//! Writes to the types in expressions.

ghost use Rattle.std.specs.Prelude.{◌≡◌, ◌++◌, flat_map};
ghost use Rattle.std.specs.Vec.{SameBlock};
ghost use Rattle.starlark_ast.specs.Access.{argument_expr};
ghost use Rattle.starlark_write.specs.Beside.{AtPlace, KeepsArgument, SameBox};
ghost use Rattle.starlark_write.specs.BesideTypes.{KeepsAll, KeepsArguments, KeepsClauseTypes, KeepsClauses, KeepsDefault, KeepsDefaults, KeepsFor, KeepsLambda, KeepsMaybe, KeepsPairs, KeepsTargetTypes, KeepsTargetsTypes, KeepsTypes};
ghost use Rattle.starlark_write.specs.TypePlaces.{argument_types, clause_types, default_types, expr_types, for_clause_types, lambda_types, maybe_expr_types, target_types};
ghost use Rattle.starlark_write.specs.Writing.{WritesUntil};

use crate::own_types::own_types;
use starlark_ast::ast::{
    AssignTargetP, AstArgumentP, AstAssignIdentP, AstAssignTargetP, AstExprP, AstFStringP,
    AstParameterP, AstPayload, AstString, AstTypeExprP, BinOp, CallArgsP, ClauseP, ExprP,
    ForClauseP, LambdaP, ParameterP,
};

// those in an expression
#[cycle(exprs)]
pub(crate) fn expr<P: AstPayload, E, F: FnMut(&mut AstTypeExprP<P>) -> Result<(), E>>(
    x: &mut AstExprP<P>,
    f: &mut F,
) -> Result<(), E>
    requires { F.IsAlwaysCallable f.old }
    ensures calls { WritesUntil F.FnMut f.old (expr_types x.old.node) result f.new (expr_types x.new.node) }
    ensures kept { KeepsTypes x.old x.new }
    ensures callable { F.IsAlwaysCallable f.new }
{
    match &mut x.node {
        ExprP::Tuple(xs) => list(xs, f),
        ExprP::Dot(x, name) => named(x, name, f),
        ExprP::Call(x, args) => call(x, args, f),
        ExprP::Index(x) => pair(x, f),
        ExprP::Index2(x) => triple(x, f),
        ExprP::Slice(x, a, b, c) => slice(x, a, b, c, f),
        ExprP::Identifier(_) => Ok(()),
        ExprP::Lambda(x) => lambda(x, f),
        ExprP::Literal(_) => Ok(()),
        ExprP::Not(x) => boxed(x, f),
        ExprP::Minus(x) => boxed(x, f),
        ExprP::Plus(x) => boxed(x, f),
        ExprP::BitNot(x) => boxed(x, f),
        ExprP::Op(x, op, y) => operation(x, op, y, f),
        ExprP::If(x) => triple(x, f),
        ExprP::List(xs) => list(xs, f),
        ExprP::Dict(xs) => dict(xs, f),
        ExprP::ListComprehension(x, first, rest) => listed(x, first, rest, f),
        ExprP::DictComprehension(x, first, rest) => mapped(x, first, rest, f),
        ExprP::FString(x) => fstring(x, f),
    }
}

#[cycle(exprs)]
pub(crate) fn boxed<P: AstPayload, E, F: FnMut(&mut AstTypeExprP<P>) -> Result<(), E>>(
    x: &mut Box<AstExprP<P>>,
    f: &mut F,
) -> Result<(), E>
    requires { F.IsAlwaysCallable f.old }
    ensures calls { WritesUntil F.FnMut f.old (expr_types x.old.value.node) result f.new (expr_types x.new.value.node) }
    ensures block { SameBox x.old x.new }
    ensures kept { KeepsTypes x.old.value x.new.value }
    ensures callable { F.IsAlwaysCallable f.new }
{
    expr(&mut **x, f)
}

// what stands beside stays
#[cycle(exprs)]
fn named<P: AstPayload, E, F: FnMut(&mut AstTypeExprP<P>) -> Result<(), E>>(
    x: &mut Box<AstExprP<P>>,
    name: &mut AstString,
    f: &mut F,
) -> Result<(), E>
    requires { F.IsAlwaysCallable f.old }
    ensures calls { WritesUntil F.FnMut f.old (expr_types x.old.value.node) result f.new (expr_types x.new.value.node) }
    ensures block { SameBox x.old x.new }
    ensures kept { KeepsTypes x.old.value x.new.value }
    ensures name { name.new ≡ name.old }
    ensures callable { F.IsAlwaysCallable f.new }
{
    boxed(x, f)
}

#[cycle(exprs)]
fn both<P: AstPayload, E, F: FnMut(&mut AstTypeExprP<P>) -> Result<(), E>>(
    x: &mut AstExprP<P>,
    y: &mut AstExprP<P>,
    f: &mut F,
) -> Result<(), E>
    requires { F.IsAlwaysCallable f.old }
    ensures calls { WritesUntil F.FnMut f.old (expr_types x.old.node ++ expr_types y.old.node) result f.new (expr_types x.new.node ++ expr_types y.new.node) }
    ensures first { KeepsTypes x.old x.new }
    ensures second { KeepsTypes y.old y.new }
    ensures callable { F.IsAlwaysCallable f.new }
{
    expr(x, f)?;
    expr(y, f)
}

#[cycle(exprs)]
fn operation<P: AstPayload, E, F: FnMut(&mut AstTypeExprP<P>) -> Result<(), E>>(
    x: &mut Box<AstExprP<P>>,
    op: &mut BinOp,
    y: &mut Box<AstExprP<P>>,
    f: &mut F,
) -> Result<(), E>
    requires { F.IsAlwaysCallable f.old }
    ensures calls { WritesUntil F.FnMut f.old (expr_types x.old.value.node ++ expr_types y.old.value.node) result f.new (expr_types x.new.value.node ++ expr_types y.new.value.node) }
    ensures first_block { SameBox x.old x.new }
    ensures second_block { SameBox y.old y.new }
    ensures first { KeepsTypes x.old.value x.new.value }
    ensures op { op.new ≡ op.old }
    ensures second { KeepsTypes y.old.value y.new.value }
    ensures callable { F.IsAlwaysCallable f.new }
{
    both(&mut **x, &mut **y, f)
}

#[cycle(exprs)]
fn pair<P: AstPayload, E, F: FnMut(&mut AstTypeExprP<P>) -> Result<(), E>>(
    x: &mut Box<(AstExprP<P>, AstExprP<P>)>,
    f: &mut F,
) -> Result<(), E>
    requires { F.IsAlwaysCallable f.old }
    ensures calls { WritesUntil F.FnMut f.old (expr_types x.old.value.0.node ++ expr_types x.old.value.1.node) result f.new (expr_types x.new.value.0.node ++ expr_types x.new.value.1.node) }
    ensures block { SameBox x.old x.new }
    ensures first { KeepsTypes x.old.value.0 x.new.value.0 }
    ensures second { KeepsTypes x.old.value.1 x.new.value.1 }
    ensures callable { F.IsAlwaysCallable f.new }
{
    let parts = &mut **x;
    both(&mut parts.0, &mut parts.1, f)
}

#[cycle(exprs)]
fn three<P: AstPayload, E, F: FnMut(&mut AstTypeExprP<P>) -> Result<(), E>>(
    x: &mut AstExprP<P>,
    y: &mut AstExprP<P>,
    z: &mut AstExprP<P>,
    f: &mut F,
) -> Result<(), E>
    requires { F.IsAlwaysCallable f.old }
    ensures calls { WritesUntil F.FnMut f.old (expr_types x.old.node ++ (expr_types y.old.node ++ expr_types z.old.node)) result f.new (expr_types x.new.node ++ (expr_types y.new.node ++ expr_types z.new.node)) }
    ensures first { KeepsTypes x.old x.new }
    ensures second { KeepsTypes y.old y.new }
    ensures third { KeepsTypes z.old z.new }
    ensures callable { F.IsAlwaysCallable f.new }
{
    expr(x, f)?;
    both(y, z, f)
}

#[cycle(exprs)]
fn triple<P: AstPayload, E, F: FnMut(&mut AstTypeExprP<P>) -> Result<(), E>>(
    x: &mut Box<(AstExprP<P>, AstExprP<P>, AstExprP<P>)>,
    f: &mut F,
) -> Result<(), E>
    requires { F.IsAlwaysCallable f.old }
    ensures calls { WritesUntil F.FnMut f.old (expr_types x.old.value.0.node ++ (expr_types x.old.value.1.node ++ expr_types x.old.value.2.node)) result f.new (expr_types x.new.value.0.node ++ (expr_types x.new.value.1.node ++ expr_types x.new.value.2.node)) }
    ensures block { SameBox x.old x.new }
    ensures first { KeepsTypes x.old.value.0 x.new.value.0 }
    ensures second { KeepsTypes x.old.value.1 x.new.value.1 }
    ensures third { KeepsTypes x.old.value.2 x.new.value.2 }
    ensures callable { F.IsAlwaysCallable f.new }
{
    let parts = &mut **x;
    three(&mut parts.0, &mut parts.1, &mut parts.2, f)
}

#[cycle(exprs)]
fn bound<P: AstPayload, E, F: FnMut(&mut AstTypeExprP<P>) -> Result<(), E>>(
    x: &mut Option<Box<AstExprP<P>>>,
    f: &mut F,
) -> Result<(), E>
    requires { F.IsAlwaysCallable f.old }
    ensures calls { WritesUntil F.FnMut f.old (maybe_expr_types x.old) result f.new (maybe_expr_types x.new) }
    ensures kept { KeepsMaybe x.old x.new }
    ensures callable { F.IsAlwaysCallable f.new }
{
    match x {
        None => Ok(()),
        Some(x) => boxed(x, f),
    }
}

#[cycle(exprs)]
fn bounds<P: AstPayload, E, F: FnMut(&mut AstTypeExprP<P>) -> Result<(), E>>(
    a: &mut Option<Box<AstExprP<P>>>,
    b: &mut Option<Box<AstExprP<P>>>,
    c: &mut Option<Box<AstExprP<P>>>,
    f: &mut F,
) -> Result<(), E>
    requires { F.IsAlwaysCallable f.old }
    ensures calls { WritesUntil F.FnMut f.old (maybe_expr_types a.old ++ (maybe_expr_types b.old ++ maybe_expr_types c.old)) result f.new (maybe_expr_types a.new ++ (maybe_expr_types b.new ++ maybe_expr_types c.new)) }
    ensures first { KeepsMaybe a.old a.new }
    ensures second { KeepsMaybe b.old b.new }
    ensures third { KeepsMaybe c.old c.new }
    ensures callable { F.IsAlwaysCallable f.new }
{
    bound(a, f)?;
    bound(b, f)?;
    bound(c, f)
}

#[cycle(exprs)]
fn slice<P: AstPayload, E, F: FnMut(&mut AstTypeExprP<P>) -> Result<(), E>>(
    x: &mut Box<AstExprP<P>>,
    a: &mut Option<Box<AstExprP<P>>>,
    b: &mut Option<Box<AstExprP<P>>>,
    c: &mut Option<Box<AstExprP<P>>>,
    f: &mut F,
) -> Result<(), E>
    requires { F.IsAlwaysCallable f.old }
    ensures calls { WritesUntil F.FnMut f.old (expr_types x.old.value.node ++ (maybe_expr_types a.old ++ (maybe_expr_types b.old ++ maybe_expr_types c.old))) result f.new (expr_types x.new.value.node ++ (maybe_expr_types a.new ++ (maybe_expr_types b.new ++ maybe_expr_types c.new))) }
    ensures block { SameBox x.old x.new }
    ensures kept { KeepsTypes x.old.value x.new.value }
    ensures first { KeepsMaybe a.old a.new }
    ensures second { KeepsMaybe b.old b.new }
    ensures third { KeepsMaybe c.old c.new }
    ensures callable { F.IsAlwaysCallable f.new }
{
    boxed(x, f)?;
    bounds(a, b, c, f)
}

#[cycle(exprs)]
fn call<P: AstPayload, E, F: FnMut(&mut AstTypeExprP<P>) -> Result<(), E>>(
    x: &mut Box<AstExprP<P>>,
    args: &mut CallArgsP<P>,
    f: &mut F,
) -> Result<(), E>
    requires { F.IsAlwaysCallable f.old }
    ensures calls { WritesUntil F.FnMut f.old (expr_types x.old.value.node ++ flat_map (λ a. argument_types a.node) args.old.args.items) result f.new (expr_types x.new.value.node ++ flat_map (λ a. argument_types a.node) args.new.args.items) }
    ensures block { SameBox x.old x.new }
    ensures arguments_block { SameBlock args.old.args args.new.args }
    ensures kept { KeepsTypes x.old.value x.new.value }
    ensures arguments { KeepsArguments args.old.args.items args.new.args.items }
    ensures callable { F.IsAlwaysCallable f.new }
{
    boxed(x, f)?;
    arguments(&mut args.args, f)
}

#[cycle(exprs)]
fn list<P: AstPayload, E, F: FnMut(&mut AstTypeExprP<P>) -> Result<(), E>>(
    xs: &mut Vec<AstExprP<P>>,
    f: &mut F,
) -> Result<(), E>
    requires { F.IsAlwaysCallable f.old }
    ensures calls { WritesUntil F.FnMut f.old (flat_map (λ x. expr_types x.node) xs.old.items) result f.new (flat_map (λ x. expr_types x.node) xs.new.items) }
    ensures block { SameBlock xs.old xs.new }
    ensures kept { KeepsAll xs.old.items xs.new.items }
    ensures callable { F.IsAlwaysCallable f.new }
{
    each(xs, f)
}

#[cycle(exprs)]
fn each<P: AstPayload, E, F: FnMut(&mut AstTypeExprP<P>) -> Result<(), E>>(
    xs: &mut [AstExprP<P>],
    f: &mut F,
) -> Result<(), E>
    requires { F.IsAlwaysCallable f.old }
    ensures calls { WritesUntil F.FnMut f.old (flat_map (λ x. expr_types x.node) xs.old) result f.new (flat_map (λ x. expr_types x.node) xs.new) }
    ensures kept { KeepsAll xs.old xs.new }
    ensures callable { F.IsAlwaysCallable f.new }
{
    for i in 0..xs.len() {
        expr(&mut xs[i], f)?;
    }
    Ok(())
}

#[cycle(exprs)]
fn dict<P: AstPayload, E, F: FnMut(&mut AstTypeExprP<P>) -> Result<(), E>>(
    xs: &mut Vec<(AstExprP<P>, AstExprP<P>)>,
    f: &mut F,
) -> Result<(), E>
    requires { F.IsAlwaysCallable f.old }
    ensures calls { WritesUntil F.FnMut f.old (flat_map (λ x. expr_types x.0.node ++ expr_types x.1.node) xs.old.items) result f.new (flat_map (λ x. expr_types x.0.node ++ expr_types x.1.node) xs.new.items) }
    ensures block { SameBlock xs.old xs.new }
    ensures kept { KeepsPairs xs.old.items xs.new.items }
    ensures callable { F.IsAlwaysCallable f.new }
{
    pairs(xs, f)
}

#[cycle(exprs)]
fn pairs<P: AstPayload, E, F: FnMut(&mut AstTypeExprP<P>) -> Result<(), E>>(
    xs: &mut [(AstExprP<P>, AstExprP<P>)],
    f: &mut F,
) -> Result<(), E>
    requires { F.IsAlwaysCallable f.old }
    ensures calls { WritesUntil F.FnMut f.old (flat_map (λ x. expr_types x.0.node ++ expr_types x.1.node) xs.old) result f.new (flat_map (λ x. expr_types x.0.node ++ expr_types x.1.node) xs.new) }
    ensures kept { KeepsPairs xs.old xs.new }
    ensures callable { F.IsAlwaysCallable f.new }
{
    for i in 0..xs.len() {
        entry(&mut xs[i], f)?;
    }
    Ok(())
}

#[cycle(exprs)]
fn entry<P: AstPayload, E, F: FnMut(&mut AstTypeExprP<P>) -> Result<(), E>>(
    x: &mut (AstExprP<P>, AstExprP<P>),
    f: &mut F,
) -> Result<(), E>
    requires { F.IsAlwaysCallable f.old }
    ensures calls { WritesUntil F.FnMut f.old (expr_types x.old.0.node ++ expr_types x.old.1.node) result f.new (expr_types x.new.0.node ++ expr_types x.new.1.node) }
    ensures first { KeepsTypes x.old.0 x.new.0 }
    ensures second { KeepsTypes x.old.1 x.new.1 }
    ensures callable { F.IsAlwaysCallable f.new }
{
    both(&mut x.0, &mut x.1, f)
}

#[cycle(exprs)]
fn arguments<P: AstPayload, E, F: FnMut(&mut AstTypeExprP<P>) -> Result<(), E>>(
    xs: &mut Vec<AstArgumentP<P>>,
    f: &mut F,
) -> Result<(), E>
    requires { F.IsAlwaysCallable f.old }
    ensures calls { WritesUntil F.FnMut f.old (flat_map (λ a. argument_types a.node) xs.old.items) result f.new (flat_map (λ a. argument_types a.node) xs.new.items) }
    ensures block { SameBlock xs.old xs.new }
    ensures kept { KeepsArguments xs.old.items xs.new.items }
    ensures callable { F.IsAlwaysCallable f.new }
{
    each_argument(xs, f)
}

#[cycle(exprs)]
fn each_argument<P: AstPayload, E, F: FnMut(&mut AstTypeExprP<P>) -> Result<(), E>>(
    xs: &mut [AstArgumentP<P>],
    f: &mut F,
) -> Result<(), E>
    requires { F.IsAlwaysCallable f.old }
    ensures calls { WritesUntil F.FnMut f.old (flat_map (λ a. argument_types a.node) xs.old) result f.new (flat_map (λ a. argument_types a.node) xs.new) }
    ensures kept { KeepsArguments xs.old xs.new }
    ensures callable { F.IsAlwaysCallable f.new }
{
    for i in 0..xs.len() {
        argument(&mut xs[i], f)?;
    }
    Ok(())
}

#[cycle(exprs)]
fn argument<P: AstPayload, E, F: FnMut(&mut AstTypeExprP<P>) -> Result<(), E>>(
    x: &mut AstArgumentP<P>,
    f: &mut F,
) -> Result<(), E>
    requires { F.IsAlwaysCallable f.old }
    ensures calls { WritesUntil F.FnMut f.old (argument_types x.old.node) result f.new (argument_types x.new.node) }
    ensures kind { AtPlace KeepsArgument x.old x.new }
    ensures kept { KeepsTypes (argument_expr x.old.node) (argument_expr x.new.node) }
    ensures callable { F.IsAlwaysCallable f.new }
{
    expr(x.node.expr_mut(), f)
}

// its own, those in the defaults, those in the body
#[cycle(exprs)]
fn lambda<P: AstPayload, E, F: FnMut(&mut AstTypeExprP<P>) -> Result<(), E>>(
    x: &mut LambdaP<P>,
    f: &mut F,
) -> Result<(), E>
    requires { F.IsAlwaysCallable f.old }
    ensures calls { WritesUntil F.FnMut f.old (lambda_types x.old) result f.new (lambda_types x.new) }
    ensures kept { KeepsLambda x.old x.new }
    ensures callable { F.IsAlwaysCallable f.new }
{
    own_types(&mut x.params, f)?;
    defaults(&mut x.params, f)?;
    boxed(&mut x.body, f)
}

#[cycle(exprs)]
pub(crate) fn defaults<P: AstPayload, E, F: FnMut(&mut AstTypeExprP<P>) -> Result<(), E>>(
    xs: &mut Vec<AstParameterP<P>>,
    f: &mut F,
) -> Result<(), E>
    requires { F.IsAlwaysCallable f.old }
    ensures calls { WritesUntil F.FnMut f.old (flat_map (λ p. default_types p.node) xs.old.items) result f.new (flat_map (λ p. default_types p.node) xs.new.items) }
    ensures block { SameBlock xs.old xs.new }
    ensures kept { KeepsDefaults xs.old.items xs.new.items }
    ensures callable { F.IsAlwaysCallable f.new }
{
    each_default(xs, f)
}

#[cycle(exprs)]
fn each_default<P: AstPayload, E, F: FnMut(&mut AstTypeExprP<P>) -> Result<(), E>>(
    xs: &mut [AstParameterP<P>],
    f: &mut F,
) -> Result<(), E>
    requires { F.IsAlwaysCallable f.old }
    ensures calls { WritesUntil F.FnMut f.old (flat_map (λ p. default_types p.node) xs.old) result f.new (flat_map (λ p. default_types p.node) xs.new) }
    ensures kept { KeepsDefaults xs.old xs.new }
    ensures callable { F.IsAlwaysCallable f.new }
{
    for i in 0..xs.len() {
        default(&mut xs[i], f)?;
    }
    Ok(())
}

#[cycle(exprs)]
fn default<P: AstPayload, E, F: FnMut(&mut AstTypeExprP<P>) -> Result<(), E>>(
    x: &mut AstParameterP<P>,
    f: &mut F,
) -> Result<(), E>
    requires { F.IsAlwaysCallable f.old }
    ensures calls { WritesUntil F.FnMut f.old (default_types x.old.node) result f.new (default_types x.new.node) }
    ensures kept { KeepsDefault x.old x.new }
    ensures callable { F.IsAlwaysCallable f.new }
{
    match &mut x.node {
        ParameterP::Slash => Ok(()),
        ParameterP::Normal(name, ty, default) => plain(name, ty, default, f),
        ParameterP::NoArgs => Ok(()),
        ParameterP::Args(_, _) => Ok(()),
        ParameterP::KwArgs(_, _) => Ok(()),
    }
}

#[cycle(exprs)]
fn plain<P: AstPayload, E, F: FnMut(&mut AstTypeExprP<P>) -> Result<(), E>>(
    name: &mut AstAssignIdentP<P>,
    ty: &mut Option<Box<AstTypeExprP<P>>>,
    x: &mut Option<Box<AstExprP<P>>>,
    f: &mut F,
) -> Result<(), E>
    requires { F.IsAlwaysCallable f.old }
    ensures calls { WritesUntil F.FnMut f.old (maybe_expr_types x.old) result f.new (maybe_expr_types x.new) }
    ensures name { name.new ≡ name.old }
    ensures ty { ty.new ≡ ty.old }
    ensures kept { KeepsMaybe x.old x.new }
    ensures callable { F.IsAlwaysCallable f.new }
{
    bound(x, f)
}

#[cycle(exprs)]
fn listed<P: AstPayload, E, F: FnMut(&mut AstTypeExprP<P>) -> Result<(), E>>(
    x: &mut Box<AstExprP<P>>,
    first: &mut Box<ForClauseP<P>>,
    rest: &mut Vec<ClauseP<P>>,
    f: &mut F,
) -> Result<(), E>
    requires { F.IsAlwaysCallable f.old }
    ensures calls { WritesUntil F.FnMut f.old (for_clause_types first.old.value ++ (flat_map clause_types rest.old.items ++ expr_types x.old.value.node)) result f.new (for_clause_types first.new.value ++ (flat_map clause_types rest.new.items ++ expr_types x.new.value.node)) }
    ensures block { SameBox x.old x.new }
    ensures first_block { SameBox first.old first.new }
    ensures rest_block { SameBlock rest.old rest.new }
    ensures first { KeepsFor first.old.value first.new.value }
    ensures rest { KeepsClauses rest.old.items rest.new.items }
    ensures kept { KeepsTypes x.old.value x.new.value }
    ensures callable { F.IsAlwaysCallable f.new }
{
    clauses(first, rest, f)?;
    boxed(x, f)
}

#[cycle(exprs)]
fn mapped<P: AstPayload, E, F: FnMut(&mut AstTypeExprP<P>) -> Result<(), E>>(
    x: &mut Box<(AstExprP<P>, AstExprP<P>)>,
    first: &mut Box<ForClauseP<P>>,
    rest: &mut Vec<ClauseP<P>>,
    f: &mut F,
) -> Result<(), E>
    requires { F.IsAlwaysCallable f.old }
    ensures calls { WritesUntil F.FnMut f.old (for_clause_types first.old.value ++ (flat_map clause_types rest.old.items ++ (expr_types x.old.value.0.node ++ expr_types x.old.value.1.node))) result f.new (for_clause_types first.new.value ++ (flat_map clause_types rest.new.items ++ (expr_types x.new.value.0.node ++ expr_types x.new.value.1.node))) }
    ensures block { SameBox x.old x.new }
    ensures first_block { SameBox first.old first.new }
    ensures rest_block { SameBlock rest.old rest.new }
    ensures first { KeepsFor first.old.value first.new.value }
    ensures rest { KeepsClauses rest.old.items rest.new.items }
    ensures key { KeepsTypes x.old.value.0 x.new.value.0 }
    ensures kept { KeepsTypes x.old.value.1 x.new.value.1 }
    ensures callable { F.IsAlwaysCallable f.new }
{
    clauses(first, rest, f)?;
    pair(x, f)
}

#[cycle(exprs)]
fn clauses<P: AstPayload, E, F: FnMut(&mut AstTypeExprP<P>) -> Result<(), E>>(
    first: &mut Box<ForClauseP<P>>,
    rest: &mut Vec<ClauseP<P>>,
    f: &mut F,
) -> Result<(), E>
    requires { F.IsAlwaysCallable f.old }
    ensures calls { WritesUntil F.FnMut f.old (for_clause_types first.old.value ++ flat_map clause_types rest.old.items) result f.new (for_clause_types first.new.value ++ flat_map clause_types rest.new.items) }
    ensures first_block { SameBox first.old first.new }
    ensures rest_block { SameBlock rest.old rest.new }
    ensures first { KeepsFor first.old.value first.new.value }
    ensures rest { KeepsClauses rest.old.items rest.new.items }
    ensures callable { F.IsAlwaysCallable f.new }
{
    for_clause(&mut **first, f)?;
    others(rest, f)
}

#[cycle(exprs)]
fn others<P: AstPayload, E, F: FnMut(&mut AstTypeExprP<P>) -> Result<(), E>>(
    xs: &mut Vec<ClauseP<P>>,
    f: &mut F,
) -> Result<(), E>
    requires { F.IsAlwaysCallable f.old }
    ensures calls { WritesUntil F.FnMut f.old (flat_map clause_types xs.old.items) result f.new (flat_map clause_types xs.new.items) }
    ensures block { SameBlock xs.old xs.new }
    ensures kept { KeepsClauses xs.old.items xs.new.items }
    ensures callable { F.IsAlwaysCallable f.new }
{
    each_clause(xs, f)
}

#[cycle(exprs)]
fn each_clause<P: AstPayload, E, F: FnMut(&mut AstTypeExprP<P>) -> Result<(), E>>(
    xs: &mut [ClauseP<P>],
    f: &mut F,
) -> Result<(), E>
    requires { F.IsAlwaysCallable f.old }
    ensures calls { WritesUntil F.FnMut f.old (flat_map clause_types xs.old) result f.new (flat_map clause_types xs.new) }
    ensures kept { KeepsClauses xs.old xs.new }
    ensures callable { F.IsAlwaysCallable f.new }
{
    for i in 0..xs.len() {
        clause(&mut xs[i], f)?;
    }
    Ok(())
}

#[cycle(exprs)]
fn clause<P: AstPayload, E, F: FnMut(&mut AstTypeExprP<P>) -> Result<(), E>>(
    x: &mut ClauseP<P>,
    f: &mut F,
) -> Result<(), E>
    requires { F.IsAlwaysCallable f.old }
    ensures calls { WritesUntil F.FnMut f.old (clause_types x.old) result f.new (clause_types x.new) }
    ensures kept { KeepsClauseTypes x.old x.new }
    ensures callable { F.IsAlwaysCallable f.new }
{
    match x {
        ClauseP::For(x) => for_clause(x, f),
        ClauseP::If(x) => expr(x, f),
    }
}

#[cycle(exprs)]
fn for_clause<P: AstPayload, E, F: FnMut(&mut AstTypeExprP<P>) -> Result<(), E>>(
    x: &mut ForClauseP<P>,
    f: &mut F,
) -> Result<(), E>
    requires { F.IsAlwaysCallable f.old }
    ensures calls { WritesUntil F.FnMut f.old (for_clause_types x.old) result f.new (for_clause_types x.new) }
    ensures kept { KeepsFor x.old x.new }
    ensures callable { F.IsAlwaysCallable f.new }
{
    target(&mut x.var, f)?;
    expr(&mut x.over, f)
}

#[cycle(exprs)]
pub(crate) fn target<P: AstPayload, E, F: FnMut(&mut AstTypeExprP<P>) -> Result<(), E>>(
    x: &mut AstAssignTargetP<P>,
    f: &mut F,
) -> Result<(), E>
    requires { F.IsAlwaysCallable f.old }
    ensures calls { WritesUntil F.FnMut f.old (target_types x.old.node) result f.new (target_types x.new.node) }
    ensures kept { KeepsTargetTypes x.old x.new }
    ensures callable { F.IsAlwaysCallable f.new }
{
    match &mut x.node {
        AssignTargetP::Tuple(xs) => targets(xs, f),
        AssignTargetP::Index(x) => pair(x, f),
        AssignTargetP::Dot(x, name) => named(x, name, f),
        AssignTargetP::Identifier(_) => Ok(()),
    }
}

#[cycle(exprs)]
fn targets<P: AstPayload, E, F: FnMut(&mut AstTypeExprP<P>) -> Result<(), E>>(
    xs: &mut Vec<AstAssignTargetP<P>>,
    f: &mut F,
) -> Result<(), E>
    requires { F.IsAlwaysCallable f.old }
    ensures calls { WritesUntil F.FnMut f.old (flat_map (λ x. target_types x.node) xs.old.items) result f.new (flat_map (λ x. target_types x.node) xs.new.items) }
    ensures block { SameBlock xs.old xs.new }
    ensures kept { KeepsTargetsTypes xs.old.items xs.new.items }
    ensures callable { F.IsAlwaysCallable f.new }
{
    all_targets(xs, f)
}

#[cycle(exprs)]
fn all_targets<P: AstPayload, E, F: FnMut(&mut AstTypeExprP<P>) -> Result<(), E>>(
    xs: &mut [AstAssignTargetP<P>],
    f: &mut F,
) -> Result<(), E>
    requires { F.IsAlwaysCallable f.old }
    ensures calls { WritesUntil F.FnMut f.old (flat_map (λ x. target_types x.node) xs.old) result f.new (flat_map (λ x. target_types x.node) xs.new) }
    ensures kept { KeepsTargetsTypes xs.old xs.new }
    ensures callable { F.IsAlwaysCallable f.new }
{
    for i in 0..xs.len() {
        target(&mut xs[i], f)?;
    }
    Ok(())
}

#[cycle(exprs)]
fn fstring<P: AstPayload, E, F: FnMut(&mut AstTypeExprP<P>) -> Result<(), E>>(
    x: &mut AstFStringP<P>,
    f: &mut F,
) -> Result<(), E>
    requires { F.IsAlwaysCallable f.old }
    ensures calls { WritesUntil F.FnMut f.old (flat_map (λ y. expr_types y.node) x.old.node.expressions.items) result f.new (flat_map (λ y. expr_types y.node) x.new.node.expressions.items) }
    ensures block { SameBlock x.old.node.expressions x.new.node.expressions }
    ensures span { x.new.span ≡ x.old.span }
    ensures format { x.new.node.format ≡ x.old.node.format }
    ensures kept { KeepsAll x.old.node.expressions.items x.new.node.expressions.items }
    ensures callable { F.IsAlwaysCallable f.new }
{
    list(&mut x.node.expressions, f)
}
