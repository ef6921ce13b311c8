//! Trees of texts, and parts of them. What remains of a tree that is taken apart is left: how trees are let go is proved
//! anew in each crate that does so.

use crate::maker::leave;
use starlark_ast::ast::{
    AssignP, AstAssignTarget, AstExpr, AstParameter, AstStmt, Clause, DefP, ExprP, StmtP,
};
use starlark_lexer::dialect::Dialect;
use starlark_parser::fields::AstModuleFields;
use starlark_parser::module::AstModule;
use starlark_place::codemap::CodeMapId;
use std::alloc::{AllocError, Global};
use std::fmt::Display;
use std::test::Fail;

/// What it prints. It is left.
pub(crate) fn printed<T: Display>(alloc: Global, x: T) -> Result<String, AllocError> {
    let text = x.to_string(alloc);
    leave(x);
    text
}

// leaves what a text has in the place of the form that is wanted. The fault names the text
fn unlike<T>(text: &str, x: T) -> Fail {
    leave(x);
    Fail::from(text)
}

// the last of those that a text has. The others are left
fn last<T>(text: &str, xs: Vec<T>) -> Result<T, Fail> {
    let mut xs = xs;
    let last = xs.pop();
    leave(xs);
    match last {
        Some(x) => Ok(x),
        None => Err(Fail::from(text)),
    }
}

/// The tree of a text, in the dialect that has all.
pub(crate) fn tree(alloc: Global, text: &str) -> Result<AstStmt, Fail> {
    let content = String::from_str(alloc, text)?;
    let dialect = &Dialect::AllOptionsInternal;
    match AstModule::parse(alloc, CodeMapId(1), "t", content, dialect) {
        Ok(module) => {
            let (_codemap, tree, _, _) = module.into_parts();
            Ok(tree)
        }
        Err(_) => Err(Fail::from(text)),
    }
}

/// The expression that a text is.
pub(crate) fn expression(alloc: Global, text: &str) -> Result<AstExpr, Fail> {
    let node = tree(alloc, text)?.node;
    match node {
        StmtP::Expression(x) => Ok(x),
        other => Err(unlike(text, other)),
    }
}

/// What the assignment assigns that a text is.
pub(crate) fn target(alloc: Global, text: &str) -> Result<AstAssignTarget, Fail> {
    let node = tree(alloc, text)?.node;
    match node {
        StmtP::Assign(AssignP { lhs, ty, rhs }) => {
            leave(ty);
            leave(rhs);
            Ok(lhs)
        }
        other => Err(unlike(text, other)),
    }
}

/// The last parameter of the `def` that a text is.
pub(crate) fn parameter(alloc: Global, text: &str) -> Result<AstParameter, Fail> {
    let node = tree(alloc, text)?.node;
    match node {
        StmtP::Def(
            DefP {
                name,
                params,
                return_type,
                body,
                payload: _,
            },
        ) => {
            leave(name);
            leave(return_type);
            leave(body);
            last(text, params)
        }
        other => Err(unlike(text, other)),
    }
}

/// The last clause of the comprehension of a list that a text is.
pub(crate) fn clause(alloc: Global, text: &str) -> Result<Clause, Fail> {
    let node = expression(alloc, text)?.node;
    match node {
        ExprP::ListComprehension(element, first, rest) => {
            leave(element);
            leave(first);
            last(text, rest)
        }
        other => Err(unlike(text, other)),
    }
}
