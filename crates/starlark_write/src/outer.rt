//! Writes to the outermost expressions of a statement.

ghost use Rattle.std.specs.Prelude.{◌≡◌, [], ◌∷◌, flat_map};
ghost use Rattle.std.specs.Vec.{SameBlock};
ghost use Rattle.starlark_ast.specs.Statements.{outer_exprs, stmts_below};
ghost use Rattle.starlark_write.specs.Beside.{SameBox};
ghost use Rattle.starlark_write.specs.BesideStatements.{KeepsDefHead, KeepsForHead, KeepsHead, KeepsOuter, KeepsOuters, def_body, for_body};
ghost use Rattle.starlark_write.specs.Writing.{WritesUntil};

use crate::statements::exprs_err_mut;
use crate::visit_mut::VisitExprMut;
use starlark_ast::ast::{AstExprP, AstPayload, AstStmtP, DefP, ForP, StmtP};

#[cycle(outer)]
fn outer<P: AstPayload, E, F: FnMut(&mut AstExprP<P>) -> Result<(), E>>(
    x: &mut StmtP<P>,
    f: &mut F,
) -> Result<(), E>
    requires { F.IsAlwaysCallable f.old }
    ensures calls { WritesUntil F.FnMut f.old (outer_exprs x.old) result f.new (outer_exprs x.new) }
    ensures kept { KeepsOuter x.old x.new }
    ensures callable { F.IsAlwaysCallable f.new }
{
    exprs_err_mut(x, f)?;
    inner(x, f)
}

// the outermost expressions of the statements right below
#[cycle(outer)]
fn inner<P: AstPayload, E, F: FnMut(&mut AstExprP<P>) -> Result<(), E>>(
    x: &mut StmtP<P>,
    f: &mut F,
) -> Result<(), E>
    requires { F.IsAlwaysCallable f.old }
    ensures calls { WritesUntil F.FnMut f.old (flat_map (λ s. outer_exprs s.node) (stmts_below x.old)) result f.new (flat_map (λ s. outer_exprs s.node) (stmts_below x.new)) }
    ensures kept { KeepsHead x.old x.new }
    ensures below { KeepsOuters (stmts_below x.old) (stmts_below x.new) }
    ensures callable { F.IsAlwaysCallable f.new }
{
    match x {
        StmtP::Break => Ok(()),
        StmtP::Continue => Ok(()),
        StmtP::Pass => Ok(()),
        StmtP::Return(_) => Ok(()),
        StmtP::Expression(_) => Ok(()),
        StmtP::Assign(_) => Ok(()),
        StmtP::AssignModify(_, _, _) => Ok(()),
        StmtP::Statements(xs) => in_list(xs, f),
        StmtP::If(c, x) => in_box_beside(x, c, f),
        StmtP::IfElse(c, x) => in_pair(x, c, f),
        StmtP::For(x) => in_for(x, f),
        StmtP::Def(x) => in_def(x, f),
        StmtP::Load(_) => Ok(()),
    }
}

#[cycle(outer)]
fn in_list<P: AstPayload, E, F: FnMut(&mut AstExprP<P>) -> Result<(), E>>(
    xs: &mut Vec<AstStmtP<P>>,
    f: &mut F,
) -> Result<(), E>
    requires { F.IsAlwaysCallable f.old }
    ensures calls { WritesUntil F.FnMut f.old (flat_map (λ s. outer_exprs s.node) xs.old.items) result f.new (flat_map (λ s. outer_exprs s.node) xs.new.items) }
    ensures block { SameBlock xs.old xs.new }
    ensures kept { KeepsOuters xs.old.items xs.new.items }
    ensures callable { F.IsAlwaysCallable f.new }
{
    in_each(xs, f)
}

#[cycle(outer)]
fn in_each<P: AstPayload, E, F: FnMut(&mut AstExprP<P>) -> Result<(), E>>(
    xs: &mut [AstStmtP<P>],
    f: &mut F,
) -> Result<(), E>
    requires { F.IsAlwaysCallable f.old }
    ensures calls { WritesUntil F.FnMut f.old (flat_map (λ s. outer_exprs s.node) xs.old) result f.new (flat_map (λ s. outer_exprs s.node) xs.new) }
    ensures kept { KeepsOuters xs.old xs.new }
    ensures callable { F.IsAlwaysCallable f.new }
{
    for i in 0..xs.len() {
        outer(&mut xs[i].node, f)?;
    }
    Ok(())
}

#[cycle(outer)]
fn in_box<P: AstPayload, E, F: FnMut(&mut AstExprP<P>) -> Result<(), E>>(
    x: &mut Box<AstStmtP<P>>,
    f: &mut F,
) -> Result<(), E>
    requires { F.IsAlwaysCallable f.old }
    ensures calls { WritesUntil F.FnMut f.old (flat_map (λ s. outer_exprs s.node) (x.old.value ∷ [])) result f.new (flat_map (λ s. outer_exprs s.node) (x.new.value ∷ [])) }
    ensures block { SameBox x.old x.new }
    ensures kept { KeepsOuters (x.old.value ∷ []) (x.new.value ∷ []) }
    ensures callable { F.IsAlwaysCallable f.new }
{
    outer(&mut x.node, f)
}

// the same; what stands beside it stays
#[cycle(outer)]
fn in_box_beside<P: AstPayload, E, F: FnMut(&mut AstExprP<P>) -> Result<(), E>>(
    x: &mut Box<AstStmtP<P>>,
    other: &mut AstExprP<P>,
    f: &mut F,
) -> Result<(), E>
    requires { F.IsAlwaysCallable f.old }
    ensures calls { WritesUntil F.FnMut f.old (flat_map (λ s. outer_exprs s.node) (x.old.value ∷ [])) result f.new (flat_map (λ s. outer_exprs s.node) (x.new.value ∷ [])) }
    ensures block { SameBox x.old x.new }
    ensures kept { KeepsOuters (x.old.value ∷ []) (x.new.value ∷ []) }
    ensures other { other.new ≡ other.old }
    ensures callable { F.IsAlwaysCallable f.new }
{
    in_box(x, f)
}

#[cycle(outer)]
fn in_pair<P: AstPayload, E, F: FnMut(&mut AstExprP<P>) -> Result<(), E>>(
    x: &mut Box<(AstStmtP<P>, AstStmtP<P>)>,
    other: &mut AstExprP<P>,
    f: &mut F,
) -> Result<(), E>
    requires { F.IsAlwaysCallable f.old }
    ensures calls { WritesUntil F.FnMut f.old (flat_map (λ s. outer_exprs s.node) (x.old.value.0 ∷ x.old.value.1 ∷ [])) result f.new (flat_map (λ s. outer_exprs s.node) (x.new.value.0 ∷ x.new.value.1 ∷ [])) }
    ensures block { SameBox x.old x.new }
    ensures kept { KeepsOuters (x.old.value.0 ∷ x.old.value.1 ∷ []) (x.new.value.0 ∷ x.new.value.1 ∷ []) }
    ensures other { other.new ≡ other.old }
    ensures callable { F.IsAlwaysCallable f.new }
{
    let parts = &mut **x;
    outer(&mut parts.0.node, f)?;
    outer(&mut parts.1.node, f)
}

#[cycle(outer)]
fn in_for<P: AstPayload, E, F: FnMut(&mut AstExprP<P>) -> Result<(), E>>(
    x: &mut ForP<P>,
    f: &mut F,
) -> Result<(), E>
    requires { F.IsAlwaysCallable f.old }
    ensures calls { WritesUntil F.FnMut f.old (flat_map (λ s. outer_exprs s.node) (for_body x.old ∷ [])) result f.new (flat_map (λ s. outer_exprs s.node) (for_body x.new ∷ [])) }
    ensures head { KeepsForHead x.old x.new }
    ensures kept { KeepsOuters (for_body x.old ∷ []) (for_body x.new ∷ []) }
    ensures callable { F.IsAlwaysCallable f.new }
{
    in_box(&mut x.body, f)
}

#[cycle(outer)]
fn in_def<P: AstPayload, E, F: FnMut(&mut AstExprP<P>) -> Result<(), E>>(
    x: &mut DefP<P>,
    f: &mut F,
) -> Result<(), E>
    requires { F.IsAlwaysCallable f.old }
    ensures calls { WritesUntil F.FnMut f.old (flat_map (λ s. outer_exprs s.node) (def_body x.old ∷ [])) result f.new (flat_map (λ s. outer_exprs s.node) (def_body x.new ∷ [])) }
    ensures head { KeepsDefHead x.old x.new }
    ensures kept { KeepsOuters (def_body x.old ∷ []) (def_body x.new ∷ []) }
    ensures callable { F.IsAlwaysCallable f.new }
{
    in_box(&mut x.body, f)
}

impl<P: AstPayload> VisitExprMut<P> for StmtP<P> {
    ghost parts = { outer_exprs };

    ghost keeps = { KeepsOuter };

    fn visit_expr_err_mut<E, F: FnMut(&mut AstExprP<P>) -> Result<(), E>>(
        &mut self,
        f: &mut F,
    ) -> Result<(), E> {
        outer(self, f)
    }
}
