//! Parts of the trees of texts. What remains of a tree that is taken apart is left: how trees are let go is proved
//! anew in each crate that does so.

use crate::maker::{Maker, leave};
use starlark_ast::ast::{
    AssignP, AstArgument, AstExpr, AstParameter, AstTypeExpr, CallArgsP, DefP, ExprP, StmtP,
};
use std::process::Abort;

// the last of those that a text has. The others are left
fn last<T>(m: &Maker<'_, impl Abort>, xs: Vec<T>) -> T {
    let mut xs = xs;
    let last = xs.pop();
    leave(xs);
    match last {
        Some(x) => x,
        None => m.unlike(()),
    }
}

/// The expression that a text is.
pub(crate) fn expression(m: &Maker<'_, impl Abort>, text: &str) -> AstExpr {
    let node = m.tree(text).node;
    match node {
        StmtP::Expression(x) => x,
        other => m.unlike(other),
    }
}

/// The type in the assignment that a text is.
pub(crate) fn type_in(m: &Maker<'_, impl Abort>, text: &str) -> Option<AstTypeExpr> {
    let node = m.tree(text).node;
    match node {
        StmtP::Assign(AssignP { lhs, ty, rhs }) => {
            leave(lhs);
            leave(rhs);
            ty
        }
        other => m.unlike(other),
    }
}

/// The last argument of the call that a text is.
pub(crate) fn argument(m: &Maker<'_, impl Abort>, text: &str) -> AstArgument {
    let node = expression(m, text).node;
    match node {
        ExprP::Call(called, args) => {
            let CallArgsP { args } = args;
            leave(called);
            last(m, args)
        }
        other => m.unlike(other),
    }
}

/// The last parameter of the `def` that a text is.
pub(crate) fn parameter(m: &Maker<'_, impl Abort>, text: &str) -> AstParameter {
    let node = m.tree(text).node;
    match node {
        StmtP::Def(
            DefP {
                name,
                params,
                return_type,
                body,
                payload: _,
            },
        ) => {
            leave(name);
            leave(return_type);
            leave(body);
            last(m, params)
        }
        other => m.unlike(other),
    }
}
