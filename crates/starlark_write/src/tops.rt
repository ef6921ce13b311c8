//! Writes to the statements at the top of a tree.

ghost use Rattle.std.specs.Vec.{SameBlock};
ghost use Rattle.starlark_write.specs.Tops.{WritesEachTop, WritesTops};

use starlark_ast::ast::{AstPayload, AstStmtP, StmtP};

/// Lends each statement of a tree at its top, in order, for the time of a call: those of a list in its place, also of one in
/// another, and any other itself. What the closure leaves at a place stands there, a list too. All else stays. It takes no memory.
#[cycle(tops)]
pub fn top_level_stmts_mut<P: AstPayload, F: FnMut(&mut AstStmtP<P>)>(
    top: &mut AstStmtP<P>,
    f: &mut F,
)
    requires { F.IsAlwaysCallable f.old }
    ensures written { WritesTops F.FnMut f.old top.old f.new top.new }
    ensures callable { F.IsAlwaysCallable f.new }
{
    if let StmtP::Statements(xs) = &mut top.node {
        list(xs, f)
    } else {
        f(top)
    }
}

#[cycle(tops)]
fn list<P: AstPayload, F: FnMut(&mut AstStmtP<P>)>(xs: &mut Vec<AstStmtP<P>>, f: &mut F)
    requires { F.IsAlwaysCallable f.old }
    ensures written { WritesEachTop F.FnMut f.old xs.old.items f.new xs.new.items }
    ensures block { SameBlock xs.old xs.new }
    ensures callable { F.IsAlwaysCallable f.new }
{
    each(xs, f)
}

#[cycle(tops)]
fn each<P: AstPayload, F: FnMut(&mut AstStmtP<P>)>(xs: &mut [AstStmtP<P>], f: &mut F)
    requires { F.IsAlwaysCallable f.old }
    ensures written { WritesEachTop F.FnMut f.old xs.old f.new xs.new }
    ensures callable { F.IsAlwaysCallable f.new }
{
    for i in 0..xs.len() {
        top_level_stmts_mut(&mut xs[i], f);
    }
}
