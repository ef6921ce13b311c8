//! What a closure leaves at the places that it is lent, and where it stops. What it puts something else in the place of is left:
//! how trees are let go is proved anew in each crate that does so.

use crate::check::equal;
use crate::maker::{Maker, leave};
use starlark_ast::ast::{
    AssignIdent, AssignTarget, AssignTargetP, AstAssignIdent, AstExpr, AstLiteral, BinOp, Expr,
    ExprP, Ident,
};
use starlark_ast::making::ToAst;
use starlark_write::visit_mut::{VisitExprMut, VisitLvalueMut};
use std::mem;
use std::process::Abort;

fn name(m: &Maker<'_, impl Abort>, text: &str) -> AstExpr {
    let ident = m.text(text);
    let name = Ident { ident, payload: () };
    ExprP::Identifier(name.ast(0, 1)).ast(0, 1)
}

fn sum(m: &Maker<'_, impl Abort>) -> Expr {
    let left = m.boxed(name(m, "a"));
    let right = m.boxed(name(m, "b"));
    ExprP::Op(left, BinOp::Add, right)
}

fn triple(m: &Maker<'_, impl Abort>) -> Expr {
    let mut members = m.both(name(m, "a"), name(m, "b"));
    m.made(members.push(name(m, "c")));
    ExprP::Tuple(members)
}

// puts `...` there
fn dots(x: &mut AstExpr) {
    leave(mem::replace(&mut x.node, ExprP::Literal(AstLiteral::Ellipsis)));
}

/// How many members a tuple has room for.
fn room(x: &Expr) -> usize {
    if let ExprP::Tuple(members) = x {
        members.capacity()
    } else {
        0
    }
}

/// `(a, b[c])`
fn target(m: &Maker<'_, impl Abort>) -> AssignTarget {
    let ident = m.text("a");
    let first = AssignIdent { ident, payload: () };
    let second = m.boxed((name(m, "b"), name(m, "c")));
    let first = AssignTargetP::Identifier(first.ast(1, 2)).ast(1, 2);
    let second = AssignTargetP::Index(second).ast(4, 8);
    AssignTargetP::Tuple(m.both(first, second))
}

#[test]
fn operands(rt: HostRuntime) {
    let m = &Maker::new(&rt, rt.alloc());
    let mut sum = sum(m);
    let mut calls = 0u64;
    sum.visit_expr_mut(&mut |x: &mut AstExpr| {
        calls = calls.wrapping_add(1);
        if calls == 2 {
            dots(x);
        }
    });
    equal(&rt, calls, 2);
    m.printed(sum, "(a + ...)");
}

#[test]
fn stops(rt: HostRuntime) {
    let m = &Maker::new(&rt, rt.alloc());
    let mut triple = triple(m);
    let mut calls = 0u64;
    let answer = triple.visit_expr_err_mut(&mut |x: &mut AstExpr| -> Result<(), u64> {
        calls = calls.wrapping_add(1);
        dots(x);
        if calls == 2 { Err(calls) } else { Ok(()) }
    });
    equal(&rt, answer, Err(2));
    equal(&rt, calls, 2);
    m.printed(triple, "(..., ..., c)");
}

#[test]
fn keeps_room(rt: HostRuntime) {
    let m = &Maker::new(&rt, rt.alloc());
    let mut triple = triple(m);
    let before = room(&triple);
    triple.visit_expr_mut(&mut |x: &mut AstExpr| {
        dots(x);
    });
    equal(&rt, room(&triple), before);
    m.printed(triple, "(..., ..., ...)");
}

#[test]
fn targets(rt: HostRuntime) {
    let m = &Maker::new(&rt, rt.alloc());
    let mut target = target(m);
    let mut calls = 0u64;
    target.visit_expr_mut(&mut |x: &mut AstExpr| {
        calls = calls.wrapping_add(1);
        dots(x);
    });
    equal(&rt, calls, 2);
    m.prints(&target, "(a, ...[...])");
    let mut names = 0u64;
    target.visit_lvalue_mut(&mut |x: &mut AstAssignIdent| {
        names = names.wrapping_add(1);
        x.node.ident.clear();
    });
    equal(&rt, names, 1);
    m.printed(target, "(, ...[...])");
}
