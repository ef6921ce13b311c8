//! Visitors: which places a closure is lent, in which order, and where it stops. A place is noted by where it begins, two
//! digits each.

use crate::check::{count, equal};
use crate::maker::Maker;
use starlark_parser::ast::ast::{AstAssignIdent, AstExpr, AstIdent, AstStmt, ExprP, StmtP};
use starlark_visit::idents::VisitIdent;
use starlark_visit::nodes::{Visit, VisitChildren};
use starlark_visit::visit::{VisitExpr, VisitLvalue};
use starlark_visit::walk::VisitStmt;

fn noted(so_far: u64, begin: u32) -> u64 {
    so_far.wrapping_mul(100).wrapping_add(u64::from(begin))
}

#[test]
fn expressions(rt: HostRuntime) {
    let m = Maker::new(&rt, rt.alloc());
    let module = m.parsed("[x for y in z if w]");
    let StmtP::Expression(list) = &module.statement().node else {
        panic!(rt; "it has another form")
    };
    let mut seen = 0;
    list.node.visit_expr(&mut |x: &AstExpr| seen = noted(seen, x.span.begin().get()));
    equal(&rt, seen, 12_17_01);
    let ExprP::ListComprehension(_, first, rest) = &list.node else {
        panic!(rt; "it has another form")
    };
    let mut seen = 0;
    first.visit_expr(&mut |x: &AstExpr| seen = noted(seen, x.span.begin().get()));
    equal(&rt, seen, 12);
    count(&rt, rest.len(), 1);
    let mut seen = 0;
    rest[0].visit_expr(&mut |x: &AstExpr| seen = noted(seen, x.span.begin().get()));
    equal(&rt, seen, 17);
}

#[test]
fn targets(rt: HostRuntime) {
    let m = Maker::new(&rt, rt.alloc());
    let module = m.parsed("(a, [b, c.d], e[0]) = g");
    let StmtP::Assign(assign) = &module.statement().node else {
        panic!(rt; "it has another form")
    };
    let mut seen = 0;
    let mut name = |x: &AstAssignIdent| seen = noted(seen, x.span.begin().get());
    assign.lhs.node.visit_lvalue(&mut name);
    equal(&rt, seen, 1_05);
    let mut seen = 0;
    assign.lhs.node.visit_expr(&mut |x: &AstExpr| seen = noted(seen, x.span.begin().get()));
    equal(&rt, seen, 8_14_16);
}

#[test]
fn stops(rt: HostRuntime) {
    let m = Maker::new(&rt, rt.alloc());
    let module = m.parsed("a; b; c");
    let tree = &module.statement().node;
    let mut calls = 0u64;
    let answer = tree.visit_expr_result(&mut |x: &AstExpr| -> Result<(), u32> {
        calls = calls.wrapping_add(1);
        let begin = x.span.begin().get();
        if begin == 3 { Err(begin) } else { Ok(()) }
    });
    equal(&rt, answer, Err(3));
    equal(&rt, calls, 2);
    let mut calls = 0u64;
    let answer = tree.visit_stmt_result(&mut |_: &AstStmt| -> Result<(), u32> {
        calls = calls.wrapping_add(1);
        Ok(())
    });
    equal(&rt, answer, Ok(()));
    equal(&rt, calls, 3);
}

#[test]
fn statements(rt: HostRuntime) {
    let m = Maker::new(&rt, rt.alloc());
    let module = m.parsed("def f(a: t = 1) -> r:\n  x\n  y\n");
    let tree = &module.statement().node;
    let mut seen = 0;
    tree.visit_stmt(&mut |x: &AstStmt| seen = noted(seen, x.span.begin().get()));
    equal(&rt, seen, 24);
    let mut seen = 0;
    tree.visit_expr(&mut |x: &AstExpr| seen = noted(seen, x.span.begin().get()));
    equal(&rt, seen, 9_13_19_24_28);
    let mut seen = 0;
    tree.visit_children(&mut |x: Visit<'_, _>| {
        let span = match x {
            Visit::Stmt(x) => x.span,
            Visit::Expr(x) => x.span,
        };
        seen = noted(seen, span.begin().get())
    });
    equal(&rt, seen, 9_13_19_24);
}

#[test]
fn identifiers(rt: HostRuntime) {
    let m = Maker::new(&rt, rt.alloc());
    let module = m.parsed("(f(a, b.c))");
    let tree = &module.statement().node;
    let mut seen = 0;
    let answer = tree.visit_ident(&mut |x: &AstIdent| -> Result<(), u32> {
        seen = noted(seen, x.span.begin().get());
        Ok(())
    });
    equal(&rt, answer, Ok(()));
    equal(&rt, seen, 1_03_06);
    let mut seen = 0;
    let answer = tree.visit_ident(&mut |x: &AstIdent| -> Result<(), u32> {
        let begin = x.span.begin().get();
        seen = noted(seen, begin);
        if begin == 3 { Err(begin) } else { Ok(()) }
    });
    equal(&rt, answer, Err(3));
    equal(&rt, seen, 1_03);
}
