//! Visitors of expressions, and of the identifiers that a target assigns.

ghost use Rattle.std.specs.Prelude.{List, [], ◌∷◌, map, flat_map};
ghost use Rattle.starlark_ast.specs.Calls.{lent, CallsEach, StopsAtErr};
ghost use Rattle.starlark_ast.specs.Places.{argument_place, assigned_places, children, clause_places, E as Place, for_clause_places, maybe_place, maybe_type_place, pair_places, parameter_places, target_places};
ghost use Rattle.starlark_visit.specs.Idents.{Assigned};
ghost use Rattle.starlark_visit.specs.Takes.{Takes};

use starlark_ast::ast::{
    AssignTargetP, AstArgumentP, AstAssignIdentP, AstExprP, AstParameterP, AstPayload,
    AstTypeExprP, ClauseP, ExprP, ForClauseP, ParameterP,
};

/// What has expressions that a closure may be lent, in an order of its own (docs/LANGUAGE.md, Orders).
pub trait VisitExpr<P: AstPayload> {
    ghost parts: { Self → List (Place P P.LoadPayload P.IdentPayload P.IdentAssignPayload P.DefPayload P.TypeExprPayload) };

    /// Lends each of them for the time of a call, up to the first `Err`, which is the answer. It takes no memory. The
    /// closure has to be callable at these places alone, in turn: so it may ask that what it is lent is smaller than what
    /// stands around it, and a function that goes down a tree may stand in it.
    fn lend_exprs<E, F: FnMut(&AstExprP<P>) -> Result<(), E>>(&self, f: &mut F) -> Result<(), E>
        requires { Takes lent F.FnMut f.old (parts self.now) }
        ensures { StopsAtErr lent F.FnMut f.old (parts self.now) result f.new };

    /// The same with a closure that may always be called.
    final fn visit_expr_err<E, F: FnMut(&AstExprP<P>) -> Result<(), E>>(
        &self,
        f: &mut F,
    ) -> Result<(), E>
        requires { F.IsAlwaysCallable f.old }
        ensures calls { StopsAtErr lent F.FnMut f.old (parts self.now) result f.new }
        ensures callable { F.IsAlwaysCallable f.new }
    {
        lend_always(self, f)
    }

    /// The same as `visit_expr_err`, by its other name.
    final fn visit_expr_result<E, F: FnMut(&AstExprP<P>) -> Result<(), E>>(
        &self,
        f: &mut F,
    ) -> Result<(), E>
        requires { F.IsAlwaysCallable f.old }
        ensures calls { StopsAtErr lent F.FnMut f.old (parts self.now) result f.new }
        ensures callable { F.IsAlwaysCallable f.new }
    {
        self.visit_expr_err(f)
    }

    /// Lends each of them for the time of a call. It takes no memory.
    final fn visit_expr<F: FnMut(&AstExprP<P>)>(&self, f: &mut F)
        requires { F.IsAlwaysCallable f.old }
        ensures calls { CallsEach lent F.FnMut f.old (parts self.now) f.new }
        ensures callable { F.IsAlwaysCallable f.new }
    {
        lend_each(self, f)
    }
}

/// What assigns identifiers.
pub trait VisitLvalue<P: AstPayload> {
    ghost names: { Self → List (Assigned P P.LoadPayload P.IdentPayload P.IdentAssignPayload P.DefPayload P.TypeExprPayload) };

    /// Lends each of them, in order, for the time of a call. It takes no memory.
    fn visit_lvalue<F: FnMut(&AstAssignIdentP<P>)>(&self, f: &mut F)
        requires { F.IsAlwaysCallable f.old }
        ensures calls { CallsEach lent F.FnMut f.old (names self.now) f.new }
        ensures callable { F.IsAlwaysCallable f.new };
}

/// Each expression that it lends, up to the first `Err`, to a closure that may always be called.
fn lend_always<P: AstPayload, L: VisitExpr<P>, E, F: FnMut(&AstExprP<P>) -> Result<(), E>>(
    parts: &L,
    f: &mut F,
) -> Result<(), E>
    requires { F.IsAlwaysCallable f.old }
    ensures calls { StopsAtErr lent F.FnMut f.old (L.parts parts.now) result f.new }
    ensures callable { F.IsAlwaysCallable f.new }
{
    parts.lend_exprs(f)
}

/// Each expression that it lends.
fn lend_each<P: AstPayload, L: VisitExpr<P>, F: FnMut(&AstExprP<P>)>(parts: &L, f: &mut F)
    requires { F.IsAlwaysCallable f.old }
    ensures calls { CallsEach lent F.FnMut f.old (L.parts parts.now) f.new }
    ensures callable { F.IsAlwaysCallable f.new }
{
    let mut go = |x: &AstExprP<P>| -> Result<(), ()> {
        f(x);
        Ok(())
    };
    let _ = parts.visit_expr_err(&mut go);
}

pub(crate) fn one<T, E, F: FnMut(&T) -> Result<(), E>>(x: &T, f: &mut F) -> Result<(), E>
    requires { Takes lent F.FnMut f.old (x.now ∷ []) }
    ensures { StopsAtErr lent F.FnMut f.old (x.now ∷ []) result f.new }
{
    f(x)
}

pub(crate) fn boxed<T, E, F: FnMut(&T) -> Result<(), E>>(x: &Box<T>, f: &mut F) -> Result<(), E>
    requires { Takes lent F.FnMut f.old (x.now.value ∷ []) }
    ensures { StopsAtErr lent F.FnMut f.old (x.now.value ∷ []) result f.new }
{
    one(&**x, f)
}

fn operands<T, E, F: FnMut(&T) -> Result<(), E>>(x: &Box<T>, y: &Box<T>, f: &mut F) -> Result<(), E>
    requires { Takes lent F.FnMut f.old (x.now.value ∷ y.now.value ∷ []) }
    ensures { StopsAtErr lent F.FnMut f.old (x.now.value ∷ y.now.value ∷ []) result f.new }
{
    two(&**x, &**y, f)
}

pub(crate) fn two<T, E, F: FnMut(&T) -> Result<(), E>>(x: &T, y: &T, f: &mut F) -> Result<(), E>
    requires { Takes lent F.FnMut f.old (x.now ∷ y.now ∷ []) }
    ensures { StopsAtErr lent F.FnMut f.old (x.now ∷ y.now ∷ []) result f.new }
{
    f(x)?;
    f(y)
}

fn three<T, E, F: FnMut(&T) -> Result<(), E>>(x: &T, y: &T, z: &T, f: &mut F) -> Result<(), E>
    requires { Takes lent F.FnMut f.old (x.now ∷ y.now ∷ z.now ∷ []) }
    ensures { StopsAtErr lent F.FnMut f.old (x.now ∷ y.now ∷ z.now ∷ []) result f.new }
{
    f(x)?;
    two(y, z, f)
}

fn maybe<T, E, F: FnMut(&T) -> Result<(), E>>(x: &Option<Box<T>>, f: &mut F) -> Result<(), E>
    requires { Takes lent F.FnMut f.old (maybe_place x.now) }
    ensures { StopsAtErr lent F.FnMut f.old (maybe_place x.now) result f.new }
{
    match x {
        None => Ok(()),
        Some(x) => f(x),
    }
}

pub(crate) fn maybe_type<P: AstPayload, E, F: FnMut(&AstExprP<P>) -> Result<(), E>>(
    x: &Option<Box<AstTypeExprP<P>>>,
    f: &mut F,
) -> Result<(), E>
    requires { Takes lent F.FnMut f.old (maybe_type_place x.now) }
    ensures { StopsAtErr lent F.FnMut f.old (maybe_type_place x.now) result f.new }
{
    match x {
        None => Ok(()),
        Some(x) => f(&x.node.expr),
    }
}

pub(crate) fn each<T, E, F: FnMut(&T) -> Result<(), E>>(xs: &[T], f: &mut F) -> Result<(), E>
    requires { Takes lent F.FnMut f.old xs.now }
    ensures { StopsAtErr lent F.FnMut f.old xs.now result f.new }
{
    let mut rest = xs;
    while let Some((x, tail)) = rest.split_first() {
        f(x)?;
        rest = tail;
    }
    Ok(())
}

fn pairs<T, E, F: FnMut(&T) -> Result<(), E>>(xs: &[(T, T)], f: &mut F) -> Result<(), E>
    requires { Takes lent F.FnMut f.old (flat_map pair_places xs.now) }
    ensures { StopsAtErr lent F.FnMut f.old (flat_map pair_places xs.now) result f.new }
{
    let mut rest = xs;
    while let Some((x, tail)) = rest.split_first() {
        two(&x.0, &x.1, f)?;
        rest = tail;
    }
    Ok(())
}

fn arguments<P: AstPayload, E, F: FnMut(&AstExprP<P>) -> Result<(), E>>(
    xs: &[AstArgumentP<P>],
    f: &mut F,
) -> Result<(), E>
    requires { Takes lent F.FnMut f.old (map argument_place xs.now) }
    ensures { StopsAtErr lent F.FnMut f.old (map argument_place xs.now) result f.new }
{
    let mut rest = xs;
    while let Some((x, tail)) = rest.split_first() {
        f(x.node.expr())?;
        rest = tail;
    }
    Ok(())
}

pub(crate) fn parameters<P: AstPayload, E, F: FnMut(&AstExprP<P>) -> Result<(), E>>(
    xs: &[AstParameterP<P>],
    f: &mut F,
) -> Result<(), E>
    requires { Takes lent F.FnMut f.old (flat_map (λ p. parameter_places p.node) xs.now) }
    ensures { StopsAtErr lent F.FnMut f.old (flat_map (λ p. parameter_places p.node) xs.now) result f.new }
{
    let mut rest = xs;
    while let Some((x, tail)) = rest.split_first() {
        x.node.lend_exprs(f)?;
        rest = tail;
    }
    Ok(())
}

fn clauses<P: AstPayload, E, F: FnMut(&AstExprP<P>) -> Result<(), E>>(
    xs: &[ClauseP<P>],
    f: &mut F,
) -> Result<(), E>
    requires { Takes lent F.FnMut f.old (flat_map clause_places xs.now) }
    ensures { StopsAtErr lent F.FnMut f.old (flat_map clause_places xs.now) result f.new }
{
    let mut rest = xs;
    while let Some((x, tail)) = rest.split_first() {
        x.lend_exprs(f)?;
        rest = tail;
    }
    Ok(())
}

// the expressions in the `Dot` and `Index` members of a target, up to the first `Err`
pub(crate) fn target<P: AstPayload, E, F: FnMut(&AstExprP<P>) -> Result<(), E>>(
    whole: &AssignTargetP<P>,
    f: &mut F,
) -> Result<(), E>
    requires { Takes lent F.FnMut f.old (target_places whole.now) }
    ensures { StopsAtErr lent F.FnMut f.old (target_places whole.now) result f.new }
{
    match whole {
        AssignTargetP::Tuple(xs) => {
            for x in xs {
                target(&x.node, f)?;
            }
            Ok(())
        }
        AssignTargetP::Index(x) => two(&x.0, &x.1, f),
        AssignTargetP::Dot(x, _) => boxed(x, f),
        AssignTargetP::Identifier(_) => Ok(()),
    }
}

fn lvalues<P: AstPayload, F: FnMut(&AstAssignIdentP<P>)>(whole: &AssignTargetP<P>, f: &mut F)
    requires { F.IsAlwaysCallable f.old }
    ensures calls { CallsEach lent F.FnMut f.old (assigned_places whole.now) f.new }
    ensures callable { F.IsAlwaysCallable f.new }
{
    match whole {
        AssignTargetP::Tuple(xs) => {
            for x in xs {
                lvalues(&x.node, f);
            }
        }
        AssignTargetP::Index(_) => {}
        AssignTargetP::Dot(_, _) => {}
        AssignTargetP::Identifier(x) => f(x),
    }
}

impl<P: AstPayload> VisitExpr<P> for ParameterP<P> {
    ghost parts = { parameter_places };

    fn lend_exprs<E, F: FnMut(&AstExprP<P>) -> Result<(), E>>(&self, f: &mut F) -> Result<(), E> {
        match self {
            ParameterP::Slash => Ok(()),
            ParameterP::Normal(_, ty, default) => {
                maybe_type(ty, f)?;
                maybe(default, f)
            }
            ParameterP::NoArgs => Ok(()),
            ParameterP::Args(_, ty) => maybe_type(ty, f),
            ParameterP::KwArgs(_, ty) => maybe_type(ty, f),
        }
    }
}

impl<P: AstPayload> VisitExpr<P> for AssignTargetP<P> {
    ghost parts = { target_places };

    fn lend_exprs<E, F: FnMut(&AstExprP<P>) -> Result<(), E>>(&self, f: &mut F) -> Result<(), E> {
        target(self, f)
    }
}

impl<P: AstPayload> VisitLvalue<P> for AssignTargetP<P> {
    ghost names = { assigned_places };

    fn visit_lvalue<F: FnMut(&AstAssignIdentP<P>)>(&self, f: &mut F) {
        lvalues(self, f)
    }
}

impl<P: AstPayload> VisitExpr<P> for ForClauseP<P> {
    ghost parts = { for_clause_places };

    fn lend_exprs<E, F: FnMut(&AstExprP<P>) -> Result<(), E>>(&self, f: &mut F) -> Result<(), E> {
        target(&self.var.node, f)?;
        one(&self.over, f)
    }
}

impl<P: AstPayload> VisitExpr<P> for ClauseP<P> {
    ghost parts = { clause_places };

    fn lend_exprs<E, F: FnMut(&AstExprP<P>) -> Result<(), E>>(&self, f: &mut F) -> Result<(), E> {
        match self {
            ClauseP::For(x) => x.lend_exprs(f),
            ClauseP::If(x) => one(x, f),
        }
    }
}

impl<P: AstPayload> VisitExpr<P> for ExprP<P> {
    ghost parts = { children };

    fn lend_exprs<E, F: FnMut(&AstExprP<P>) -> Result<(), E>>(&self, f: &mut F) -> Result<(), E> {
        match self {
            ExprP::Tuple(xs) => each(xs, f),
            ExprP::Dot(x, _) => boxed(x, f),
            ExprP::Call(x, args) => {
                f(x)?;
                arguments(&args.args, f)
            }
            ExprP::Index(x) => two(&x.0, &x.1, f),
            ExprP::Index2(x) => three(&x.0, &x.1, &x.2, f),
            ExprP::Slice(x, a, b, c) => {
                f(x)?;
                maybe(a, f)?;
                maybe(b, f)?;
                maybe(c, f)
            }
            ExprP::Identifier(_) => Ok(()),
            ExprP::Lambda(x) => {
                parameters(&x.params, f)?;
                boxed(&x.body, f)
            }
            ExprP::Literal(_) => Ok(()),
            ExprP::Not(x) | ExprP::Minus(x) | ExprP::Plus(x) | ExprP::BitNot(x) => boxed(x, f),
            ExprP::Op(x, _, y) => operands(x, y, f),
            ExprP::If(x) => three(&x.0, &x.1, &x.2, f),
            ExprP::List(xs) => each(xs, f),
            ExprP::Dict(xs) => pairs(xs, f),
            ExprP::ListComprehension(x, first, rest) => {
                first.lend_exprs(f)?;
                clauses(rest, f)?;
                boxed(x, f)
            }
            ExprP::DictComprehension(x, first, rest) => {
                first.lend_exprs(f)?;
                clauses(rest, f)?;
                two(&x.0, &x.1, f)
            }
            ExprP::FString(x) => each(&x.node.expressions, f),
        }
    }
}
