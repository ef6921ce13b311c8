//! Writes to the expressions right below an expression.

ghost use Rattle.std.specs.Prelude.{◌≡◌, [], ◌∷◌, ◌++◌, flat_map};
ghost use Rattle.std.specs.Vec.{SameBlock};
ghost use Rattle.starlark_write.specs.Beside.{Each, KeepsArgs, KeepsClause, KeepsExpr, KeepsForClause, SameBox, args_places, block_of};
ghost use Rattle.starlark_ast.specs.Places.{children, clause_places, for_clause_places, maybe_place};
ghost use Rattle.starlark_write.specs.Writing.{WritesUntil};

use crate::visit_mut::{VisitExprMut, around, beside, boxed, list, maybe, pair, parts, triple};
use starlark_ast::ast::{AstExprP, AstPayload, CallArgsP, ClauseP, ExprP, ForClauseP};

fn call<P: AstPayload, E, F: FnMut(&mut AstExprP<P>) -> Result<(), E>>(
    x: &mut Box<AstExprP<P>>,
    args: &mut CallArgsP<P>,
    f: &mut F,
) -> Result<(), E>
    requires { F.IsAlwaysCallable f.old }
    ensures calls { WritesUntil F.FnMut f.old (x.old.value ∷ args_places args.old) result f.new (x.new.value ∷ args_places args.new) }
    ensures block { SameBox x.old x.new }
    ensures kept { KeepsArgs args.old args.new }
    ensures callable { F.IsAlwaysCallable f.new }
{
    boxed(x, f)?;
    args.visit_expr_err_mut(f)
}

fn bounds<P: AstPayload, E, F: FnMut(&mut AstExprP<P>) -> Result<(), E>>(
    a: &mut Option<Box<AstExprP<P>>>,
    b: &mut Option<Box<AstExprP<P>>>,
    c: &mut Option<Box<AstExprP<P>>>,
    f: &mut F,
) -> Result<(), E>
    requires { F.IsAlwaysCallable f.old }
    ensures calls { WritesUntil F.FnMut f.old (maybe_place a.old ++ (maybe_place b.old ++ maybe_place c.old)) result f.new (maybe_place a.new ++ (maybe_place b.new ++ maybe_place c.new)) }
    ensures first { block_of a.new ≡ block_of a.old }
    ensures second { block_of b.new ≡ block_of b.old }
    ensures third { block_of c.new ≡ block_of c.old }
    ensures callable { F.IsAlwaysCallable f.new }
{
    maybe(a, f)?;
    maybe(b, f)?;
    maybe(c, f)
}

fn slice<P: AstPayload, E, F: FnMut(&mut AstExprP<P>) -> Result<(), E>>(
    x: &mut Box<AstExprP<P>>,
    a: &mut Option<Box<AstExprP<P>>>,
    b: &mut Option<Box<AstExprP<P>>>,
    c: &mut Option<Box<AstExprP<P>>>,
    f: &mut F,
) -> Result<(), E>
    requires { F.IsAlwaysCallable f.old }
    ensures calls { WritesUntil F.FnMut f.old (x.old.value ∷ maybe_place a.old ++ (maybe_place b.old ++ maybe_place c.old)) result f.new (x.new.value ∷ maybe_place a.new ++ (maybe_place b.new ++ maybe_place c.new)) }
    ensures block { SameBox x.old x.new }
    ensures first { block_of a.new ≡ block_of a.old }
    ensures second { block_of b.new ≡ block_of b.old }
    ensures third { block_of c.new ≡ block_of c.old }
    ensures callable { F.IsAlwaysCallable f.new }
{
    boxed(x, f)?;
    bounds(a, b, c, f)
}

fn clauses<P: AstPayload, E, F: FnMut(&mut AstExprP<P>) -> Result<(), E>>(
    first: &mut Box<ForClauseP<P>>,
    rest: &mut Vec<ClauseP<P>>,
    f: &mut F,
) -> Result<(), E>
    requires { F.IsAlwaysCallable f.old }
    ensures calls { WritesUntil F.FnMut f.old (for_clause_places first.old.value ++ flat_map clause_places rest.old.items) result f.new (for_clause_places first.new.value ++ flat_map clause_places rest.new.items) }
    ensures first_block { SameBox first.old first.new }
    ensures rest_block { SameBlock rest.old rest.new }
    ensures first { KeepsForClause first.old.value first.new.value }
    ensures rest { Each KeepsClause rest.old.items rest.new.items }
    ensures callable { F.IsAlwaysCallable f.new }
{
    (**first).visit_expr_err_mut(f)?;
    parts(rest, f)
}

fn listed<P: AstPayload, E, F: FnMut(&mut AstExprP<P>) -> Result<(), E>>(
    x: &mut Box<AstExprP<P>>,
    first: &mut Box<ForClauseP<P>>,
    rest: &mut Vec<ClauseP<P>>,
    f: &mut F,
) -> Result<(), E>
    requires { F.IsAlwaysCallable f.old }
    ensures calls { WritesUntil F.FnMut f.old (for_clause_places first.old.value ++ (flat_map clause_places rest.old.items ++ x.old.value ∷ [])) result f.new (for_clause_places first.new.value ++ (flat_map clause_places rest.new.items ++ x.new.value ∷ [])) }
    ensures block { SameBox x.old x.new }
    ensures first_block { SameBox first.old first.new }
    ensures rest_block { SameBlock rest.old rest.new }
    ensures first { KeepsForClause first.old.value first.new.value }
    ensures rest { Each KeepsClause rest.old.items rest.new.items }
    ensures callable { F.IsAlwaysCallable f.new }
{
    clauses(first, rest, f)?;
    boxed(x, f)
}

fn mapped<P: AstPayload, E, F: FnMut(&mut AstExprP<P>) -> Result<(), E>>(
    x: &mut Box<(AstExprP<P>, AstExprP<P>)>,
    first: &mut Box<ForClauseP<P>>,
    rest: &mut Vec<ClauseP<P>>,
    f: &mut F,
) -> Result<(), E>
    requires { F.IsAlwaysCallable f.old }
    ensures calls { WritesUntil F.FnMut f.old (for_clause_places first.old.value ++ (flat_map clause_places rest.old.items ++ x.old.value.0 ∷ x.old.value.1 ∷ [])) result f.new (for_clause_places first.new.value ++ (flat_map clause_places rest.new.items ++ x.new.value.0 ∷ x.new.value.1 ∷ [])) }
    ensures block { SameBox x.old x.new }
    ensures first_block { SameBox first.old first.new }
    ensures rest_block { SameBlock rest.old rest.new }
    ensures first { KeepsForClause first.old.value first.new.value }
    ensures rest { Each KeepsClause rest.old.items rest.new.items }
    ensures callable { F.IsAlwaysCallable f.new }
{
    clauses(first, rest, f)?;
    pair(x, f)
}

impl<P: AstPayload> VisitExprMut<P> for ExprP<P> {
    ghost parts = { children };

    ghost keeps = { KeepsExpr };

    fn visit_expr_err_mut<E, F: FnMut(&mut AstExprP<P>) -> Result<(), E>>(
        &mut self,
        f: &mut F,
    ) -> Result<(), E> {
        match self {
            ExprP::Tuple(xs) => list(xs, f),
            ExprP::Dot(x, name) => beside(x, name, f),
            ExprP::Call(x, args) => call(x, args, f),
            ExprP::Index(x) => pair(x, f),
            ExprP::Index2(x) => triple(x, f),
            ExprP::Slice(x, a, b, c) => slice(x, a, b, c, f),
            ExprP::Identifier(_) => Ok(()),
            ExprP::Lambda(x) => x.visit_expr_err_mut(f),
            ExprP::Literal(_) => Ok(()),
            ExprP::Not(x) => boxed(x, f),
            ExprP::Minus(x) => boxed(x, f),
            ExprP::Plus(x) => boxed(x, f),
            ExprP::BitNot(x) => boxed(x, f),
            ExprP::Op(x, op, y) => around(x, op, y, f),
            ExprP::If(x) => triple(x, f),
            ExprP::List(xs) => list(xs, f),
            ExprP::Dict(xs) => parts(xs, f),
            ExprP::ListComprehension(x, first, rest) => listed(x, first, rest, f),
            ExprP::DictComprehension(x, first, rest) => mapped(x, first, rest, f),
            ExprP::FString(x) => x.visit_expr_err_mut(f),
        }
    }
}
