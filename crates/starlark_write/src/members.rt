//! Writes to the expressions in arguments, parameters, clauses, lambdas and f-strings.

ghost use Rattle.std.specs.Prelude.{◌≡◌, ⊤, [], ◌∷◌, ◌++◌};
ghost use Rattle.starlark_write.specs.Beside.{AtPlace, KeepsArgs, KeepsArgument, KeepsClause, KeepsForClause, KeepsFString, KeepsLambda, KeepsMaybeType, KeepsParameter, args_places, block_of, fstring_places, lambda_places};
ghost use Rattle.starlark_ast.specs.Places.{argument_place, clause_places, for_clause_places, maybe_place, maybe_type_place, pair_places, parameter_places};
ghost use Rattle.starlark_write.specs.Writing.{WritesUntil};

use crate::visit_mut::{VisitExprMut, boxed, list, maybe, maybe_type, one, parts, two};
use starlark_ast::ast::{
    AstArgumentP, AstExprP, AstFStringP, AstParameterP, AstPayload, AstTypeExprP, CallArgsP,
    ClauseP, ForClauseP, LambdaP, ParameterP,
};

impl<P: AstPayload> VisitExprMut<P> for (AstExprP<P>, AstExprP<P>) {
    ghost parts = { pair_places };

    ghost keeps = { λ x y. ⊤ };

    fn visit_expr_err_mut<E, F: FnMut(&mut AstExprP<P>) -> Result<(), E>>(
        &mut self,
        f: &mut F,
    ) -> Result<(), E> {
        two(&mut self.0, &mut self.1, f)
    }
}

impl<P: AstPayload> VisitExprMut<P> for AstArgumentP<P> {
    ghost parts = { λ x. argument_place x ∷ [] };

    ghost keeps = { AtPlace KeepsArgument };

    fn visit_expr_err_mut<E, F: FnMut(&mut AstExprP<P>) -> Result<(), E>>(
        &mut self,
        f: &mut F,
    ) -> Result<(), E> {
        one(self.node.expr_mut(), f)
    }
}

// the expression of a type; the name beside it stays
fn typed<P: AstPayload, U, E, F: FnMut(&mut AstExprP<P>) -> Result<(), E>>(
    other: &mut U,
    ty: &mut Option<Box<AstTypeExprP<P>>>,
    f: &mut F,
) -> Result<(), E>
    requires { F.IsAlwaysCallable f.old }
    ensures calls { WritesUntil F.FnMut f.old (maybe_type_place ty.old) result f.new (maybe_type_place ty.new) }
    ensures other { other.new ≡ other.old }
    ensures ty { KeepsMaybeType ty.old ty.new }
    ensures callable { F.IsAlwaysCallable f.new }
{
    maybe_type(ty, f)
}

// the same, and then the default
fn normal<P: AstPayload, U, E, F: FnMut(&mut AstExprP<P>) -> Result<(), E>>(
    other: &mut U,
    ty: &mut Option<Box<AstTypeExprP<P>>>,
    default: &mut Option<Box<AstExprP<P>>>,
    f: &mut F,
) -> Result<(), E>
    requires { F.IsAlwaysCallable f.old }
    ensures calls { WritesUntil F.FnMut f.old (maybe_type_place ty.old ++ maybe_place default.old) result f.new (maybe_type_place ty.new ++ maybe_place default.new) }
    ensures other { other.new ≡ other.old }
    ensures ty { KeepsMaybeType ty.old ty.new }
    ensures default { block_of default.new ≡ block_of default.old }
    ensures callable { F.IsAlwaysCallable f.new }
{
    maybe_type(ty, f)?;
    maybe(default, f)
}

impl<P: AstPayload> VisitExprMut<P> for ParameterP<P> {
    ghost parts = { parameter_places };

    ghost keeps = { KeepsParameter };

    fn visit_expr_err_mut<E, F: FnMut(&mut AstExprP<P>) -> Result<(), E>>(
        &mut self,
        f: &mut F,
    ) -> Result<(), E> {
        match self {
            ParameterP::Slash => Ok(()),
            ParameterP::Normal(name, ty, default) => normal(name, ty, default, f),
            ParameterP::NoArgs => Ok(()),
            ParameterP::Args(name, ty) => typed(name, ty, f),
            ParameterP::KwArgs(name, ty) => typed(name, ty, f),
        }
    }
}

impl<P: AstPayload> VisitExprMut<P> for AstParameterP<P> {
    ghost parts = { λ x. parameter_places x.node };

    ghost keeps = { AtPlace KeepsParameter };

    fn visit_expr_err_mut<E, F: FnMut(&mut AstExprP<P>) -> Result<(), E>>(
        &mut self,
        f: &mut F,
    ) -> Result<(), E> {
        self.node.visit_expr_err_mut(f)
    }
}

impl<P: AstPayload> VisitExprMut<P> for ForClauseP<P> {
    ghost parts = { for_clause_places };

    ghost keeps = { KeepsForClause };

    fn visit_expr_err_mut<E, F: FnMut(&mut AstExprP<P>) -> Result<(), E>>(
        &mut self,
        f: &mut F,
    ) -> Result<(), E> {
        self.var.node.visit_expr_err_mut(f)?;
        one(&mut self.over, f)
    }
}

impl<P: AstPayload> VisitExprMut<P> for ClauseP<P> {
    ghost parts = { clause_places };

    ghost keeps = { KeepsClause };

    fn visit_expr_err_mut<E, F: FnMut(&mut AstExprP<P>) -> Result<(), E>>(
        &mut self,
        f: &mut F,
    ) -> Result<(), E> {
        match self {
            ClauseP::For(x) => x.visit_expr_err_mut(f),
            ClauseP::If(x) => one(x, f),
        }
    }
}

impl<P: AstPayload> VisitExprMut<P> for CallArgsP<P> {
    ghost parts = { args_places };

    ghost keeps = { KeepsArgs };

    fn visit_expr_err_mut<E, F: FnMut(&mut AstExprP<P>) -> Result<(), E>>(
        &mut self,
        f: &mut F,
    ) -> Result<(), E> {
        parts(&mut self.args, f)
    }
}

impl<P: AstPayload> VisitExprMut<P> for LambdaP<P> {
    ghost parts = { lambda_places };

    ghost keeps = { KeepsLambda };

    fn visit_expr_err_mut<E, F: FnMut(&mut AstExprP<P>) -> Result<(), E>>(
        &mut self,
        f: &mut F,
    ) -> Result<(), E> {
        parts(&mut self.params, f)?;
        boxed(&mut self.body, f)
    }
}

impl<P: AstPayload> VisitExprMut<P> for AstFStringP<P> {
    ghost parts = { fstring_places };

    ghost keeps = { AtPlace KeepsFString };

    fn visit_expr_err_mut<E, F: FnMut(&mut AstExprP<P>) -> Result<(), E>>(
        &mut self,
        f: &mut F,
    ) -> Result<(), E> {
        list(&mut self.node.expressions, f)
    }
}
