//! Values at their places, and lists of statements.

ghost use Rattle.std.specs.Prelude.{◌≡◌, ◌^◌, ◌<◌, ◌≤◌, IfOk, map, ◌++◌};
ghost use Rattle.starlark_place.specs.Place.{extent};
ghost use Rattle.starlark_ast.specs.Access.{statements_at, top_level};

use crate::ast::{AstPayload, AstStmt, AstStmtP, StmtP};
use starlark_place::pos::{Pos, Span, Spanned};
use std::alloc::{AllocError, Global};

/// What can be put at a place.
pub trait ToAst: Sized {
    /// The value at `begin..end`, in bytes. `begin` is at most `end`, and both fit 32 bits.
    final fn ast(self, begin: usize, end: usize) -> Spanned<Self>
        requires order { begin ≤ end }
        requires fits { end < 2 ^ 32 }
        ensures span { result.span ≡ extent begin end }
        ensures node { result.node ≡ self }
    {
        Spanned {
            span: Span::new(Pos::new(begin as u32), Pos::new(end as u32)),
            node: self,
        }
    }
}

impl<T> ToAst for T {}

/// An only statement itself, at its own place; else all of them as a list at `begin..end`. `begin` is at most `end`, and both fit 32 bits.
pub fn statements(xs: Vec<AstStmt>, begin: usize, end: usize) -> AstStmt
    requires order { begin ≤ end }
    requires fits { end < 2 ^ 32 }
    ensures { result ≡ statements_at xs (extent begin end) }
{
    match <[AstStmt; 1]>::try_from(xs) {
        Ok([only]) => only,
        Err(xs) => StmtP::Statements(xs).ast(begin, end),
    }
}

/// The statements of a tree at its top, in order: those of a list in its place, also of one in another, and any other itself.
/// It is refused where memory runs out for the answer's list.
pub fn top_level_stmts<P: AstPayload>(
    alloc: Global,
    top: &AstStmtP<P>,
) -> Result<Vec<&AstStmtP<P>>, AllocError>
    ensures { IfOk result (λ all. map (λ x. x.now) all.items ≡ top_level top.now) }
{
    let mut all = Vec::new(alloc);
    top.node.open(top, &mut all)?;
    Ok(all)
}

impl<P: AstPayload> StmtP<P> {
    // puts the statements at the top of one, which stands in `whole`, behind those so far
    fn open<'a>(
        &'a self,
        whole: &'a AstStmtP<P>,
        all: &mut Vec<&'a AstStmtP<P>>,
    ) -> Result<(), AllocError>
        requires { whole.now.node ≡ self.now }
        ensures { IfOk result (λ u. map (λ x. x.now) all.new.items ≡ map (λ x. x.now) all.old.items ++ top_level whole.now) }
    {
        let StmtP::Statements(xs) = self else {
            all.push(whole)?;
            return Ok(());
        };
        for x in xs {
            x.node.open(x, all)?;
        }
        Ok(())
    }
}
