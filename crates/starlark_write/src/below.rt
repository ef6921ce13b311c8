//! Writes to the statements right below a statement.

ghost use Rattle.std.specs.Prelude.{◌≡◌, [], ◌∷◌, length};
ghost use Rattle.std.specs.Vec.{SameBlock};
ghost use Rattle.starlark_ast.specs.Statements.{stmts_below};
ghost use Rattle.starlark_write.specs.Beside.{SameBox};
ghost use Rattle.starlark_write.specs.BesideStatements.{KeepsHead};
ghost use Rattle.starlark_write.specs.Writing.{WritesEach, WritesUntil};

use crate::visit_mut::{beside, boxed, list, pair};
use starlark_ast::ast::{AstPayload, AstStmtP, StmtP};

fn pair_beside<T, U, E, F: FnMut(&mut T) -> Result<(), E>>(
    x: &mut Box<(T, T)>,
    other: &mut U,
    f: &mut F,
) -> Result<(), E>
    requires { F.IsAlwaysCallable f.old }
    ensures calls { WritesUntil F.FnMut f.old (x.old.value.0 ∷ x.old.value.1 ∷ []) result f.new (x.new.value.0 ∷ x.new.value.1 ∷ []) }
    ensures block { SameBox x.old x.new }
    ensures kept { other.new ≡ other.old }
    ensures callable { F.IsAlwaysCallable f.new }
{
    pair(x, f)
}

fn on_one<T, F: FnMut(&mut T)>(x: &mut T, f: &mut F)
    requires { F.IsAlwaysCallable f.old }
    ensures calls { WritesEach F.FnMut f.old (x.old ∷ []) f.new (x.new ∷ []) }
    ensures callable { F.IsAlwaysCallable f.new }
{
    f(x)
}

fn on_boxed<T, F: FnMut(&mut T)>(x: &mut Box<T>, f: &mut F)
    requires { F.IsAlwaysCallable f.old }
    ensures calls { WritesEach F.FnMut f.old (x.old.value ∷ []) f.new (x.new.value ∷ []) }
    ensures block { SameBox x.old x.new }
    ensures callable { F.IsAlwaysCallable f.new }
{
    on_one(&mut **x, f)
}

fn on_two<T, F: FnMut(&mut T)>(x: &mut T, y: &mut T, f: &mut F)
    requires { F.IsAlwaysCallable f.old }
    ensures calls { WritesEach F.FnMut f.old (x.old ∷ y.old ∷ []) f.new (x.new ∷ y.new ∷ []) }
    ensures callable { F.IsAlwaysCallable f.new }
{
    f(x);
    on_one(y, f)
}

fn on_pair<T, F: FnMut(&mut T)>(x: &mut Box<(T, T)>, f: &mut F)
    requires { F.IsAlwaysCallable f.old }
    ensures calls { WritesEach F.FnMut f.old (x.old.value.0 ∷ x.old.value.1 ∷ []) f.new (x.new.value.0 ∷ x.new.value.1 ∷ []) }
    ensures block { SameBox x.old x.new }
    ensures callable { F.IsAlwaysCallable f.new }
{
    let parts = &mut **x;
    on_two(&mut parts.0, &mut parts.1, f)
}

fn on_beside<T, U, F: FnMut(&mut T)>(x: &mut Box<T>, other: &mut U, f: &mut F)
    requires { F.IsAlwaysCallable f.old }
    ensures calls { WritesEach F.FnMut f.old (x.old.value ∷ []) f.new (x.new.value ∷ []) }
    ensures block { SameBox x.old x.new }
    ensures kept { other.new ≡ other.old }
    ensures callable { F.IsAlwaysCallable f.new }
{
    on_boxed(x, f)
}

fn on_pair_beside<T, U, F: FnMut(&mut T)>(x: &mut Box<(T, T)>, other: &mut U, f: &mut F)
    requires { F.IsAlwaysCallable f.old }
    ensures calls { WritesEach F.FnMut f.old (x.old.value.0 ∷ x.old.value.1 ∷ []) f.new (x.new.value.0 ∷ x.new.value.1 ∷ []) }
    ensures block { SameBox x.old x.new }
    ensures kept { other.new ≡ other.old }
    ensures callable { F.IsAlwaysCallable f.new }
{
    on_pair(x, f)
}

fn on_each<T, F: FnMut(&mut T)>(xs: &mut [T], f: &mut F)
    requires { F.IsAlwaysCallable f.old }
    ensures calls { WritesEach F.FnMut f.old xs.old f.new xs.new }
    ensures kept { length xs.new ≡ length xs.old }
    ensures callable { F.IsAlwaysCallable f.new }
{
    for i in 0..xs.len() {
        f(&mut xs[i]);
    }
}

fn on_list<T, F: FnMut(&mut T)>(xs: &mut Vec<T>, f: &mut F)
    requires { F.IsAlwaysCallable f.old }
    ensures calls { WritesEach F.FnMut f.old xs.old.items f.new xs.new.items }
    ensures block { SameBlock xs.old xs.new }
    ensures kept { length xs.new.items ≡ length xs.old.items }
    ensures callable { F.IsAlwaysCallable f.new }
{
    on_each(xs, f)
}

/// Lends each statement right below a statement, in order (docs/LANGUAGE.md, Orders), for the time of a call, up to the first
/// `Err`, which is the answer. What was written before it stays, and so does all else. It takes no memory.
pub fn visit_stmt_err_mut<P: AstPayload, E, F: FnMut(&mut AstStmtP<P>) -> Result<(), E>>(
    whole: &mut StmtP<P>,
    f: &mut F,
) -> Result<(), E>
    requires { F.IsAlwaysCallable f.old }
    ensures calls { WritesUntil F.FnMut f.old (stmts_below whole.old) result f.new (stmts_below whole.new) }
    ensures kept { KeepsHead whole.old whole.new }
    ensures callable { F.IsAlwaysCallable f.new }
{
    match whole {
        StmtP::Break => Ok(()),
        StmtP::Continue => Ok(()),
        StmtP::Pass => Ok(()),
        StmtP::Return(_) => Ok(()),
        StmtP::Expression(_) => Ok(()),
        StmtP::Assign(_) => Ok(()),
        StmtP::AssignModify(_, _, _) => Ok(()),
        StmtP::Statements(xs) => list(xs, f),
        StmtP::If(c, x) => beside(x, c, f),
        StmtP::IfElse(c, x) => pair_beside(x, c, f),
        StmtP::For(x) => boxed(&mut x.body, f),
        StmtP::Def(x) => boxed(&mut x.body, f),
        StmtP::Load(_) => Ok(()),
    }
}

/// Lends each statement right below a statement, in order, for the time of a call. All else stays. It takes no memory.
pub fn visit_stmt_mut<P: AstPayload, F: FnMut(&mut AstStmtP<P>)>(whole: &mut StmtP<P>, f: &mut F)
    requires { F.IsAlwaysCallable f.old }
    ensures calls { WritesEach F.FnMut f.old (stmts_below whole.old) f.new (stmts_below whole.new) }
    ensures kept { KeepsHead whole.old whole.new }
    ensures callable { F.IsAlwaysCallable f.new }
{
    match whole {
        StmtP::Break => {}
        StmtP::Continue => {}
        StmtP::Pass => {}
        StmtP::Return(_) => {}
        StmtP::Expression(_) => {}
        StmtP::Assign(_) => {}
        StmtP::AssignModify(_, _, _) => {}
        StmtP::Statements(xs) => on_list(xs, f),
        StmtP::If(c, x) => on_beside(x, c, f),
        StmtP::IfElse(c, x) => on_pair_beside(x, c, f),
        StmtP::For(x) => on_boxed(&mut x.body, f),
        StmtP::Def(x) => on_boxed(&mut x.body, f),
        StmtP::Load(_) => {}
    }
}
