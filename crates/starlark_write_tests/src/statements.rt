//! What stands in a statement once a closure has written to it, over trees that are parsed. A tree is left in the end, and so is
//! what a closure puts something else in the place of: how trees are let go is proved anew in each crate that does so.

use crate::check::equal;
use crate::maker::{Maker, leave};
use starlark_lexer::dialect::Dialect;
use starlark_parser::ast::ast::{AstExpr, AstStmt, AstTypeExpr, ExprP, StmtP};
use starlark_parser::fields::AstModuleFields;
use starlark_parser::module::AstModule;
use starlark_place::codemap::CodeMapId;
use starlark_write::below::{visit_stmt_err_mut, visit_stmt_mut};
use starlark_write::nodes_mut::{NodeVisitorMut, VisitChildrenMut};
use starlark_write::tops::top_level_stmts_mut;
use starlark_write::type_exprs::VisitTypeExprErrMut;
use starlark_write::visit_mut::VisitExprMut;
use std::alloc::{AllocError, Global};
use std::mem;
use std::test::Fail;

/// The tree of a text, in the dialect that has all.
fn tree(alloc: Global, text: &str) -> Result<AstStmt, Fail> {
    let content = String::from_str(alloc, text)?;
    let dialect = &Dialect::AllOptionsInternal;
    match AstModule::parse(alloc, CodeMapId(1), "t", content, dialect) {
        Ok(module) => {
            let (_codemap, tree, _, _) = module.into_parts();
            Ok(tree)
        }
        Err(_) => Err(Fail::from(AllocError)),
    }
}

fn pass(x: &mut AstStmt) {
    leave(mem::replace(&mut x.node, StmtP::Pass))
}

fn empty(alloc: Global, x: &mut AstExpr) {
    leave(mem::replace(&mut x.node, ExprP::Tuple(Vec::new(alloc))))
}

// empties each node, and stops at the third
#[derive(Drop)]
struct Empties {
    alloc: Global,
    calls: u64,
}

impl Empties {
    fn counted(&mut self) -> Result<(), u64> {
        self.calls = self.calls.wrapping_add(1);
        if self.calls == 3 {
            return Err(self.calls);
        }
        Ok(())
    }
}

impl NodeVisitorMut<AstStmt, AstExpr, u64> for Empties {
    ghost ready = { λ s. Unit {0} };

    ghost leaves = { λ s x r t y. Unit {0} };

    fn at_stmt(&mut self, x: &mut AstStmt) -> Result<(), u64> {
        self.counted()?;
        pass(x);
        Ok(())
    }

    fn at_expr(&mut self, x: &mut AstExpr) -> Result<(), u64> {
        self.counted()?;
        empty(self.alloc, x);
        Ok(())
    }
}

fn noted(so_far: u64, begin: u32) -> u64 {
    so_far.wrapping_mul(100).wrapping_add(u64::from(begin))
}

#[test]
fn top_statements(rt: HostRuntime) -> Result<(), Fail> {
    let alloc = rt.alloc();
    let m = Maker::new(&rt, alloc);
    let mut tree = tree(alloc, "a; b")?;
    top_level_stmts_mut(&mut tree, &mut |x: &mut AstStmt| pass(x));
    m.printed(tree.node, "pass\npass\n");
    Ok(())
}

#[test]
fn statements_below(rt: HostRuntime) -> Result<(), Fail> {
    let alloc = rt.alloc();
    let m = Maker::new(&rt, alloc);
    let mut tree = tree(alloc, "if a:\n  b\nelse:\n  c\n")?;
    visit_stmt_mut(&mut tree.node, &mut |x: &mut AstStmt| pass(x));
    m.printed(tree.node, "if a:\n  pass\nelse:\n  pass\n");
    Ok(())
}

#[test]
fn stops_below(rt: HostRuntime) -> Result<(), Fail> {
    let alloc = rt.alloc();
    let m = Maker::new(&rt, alloc);
    let mut tree = tree(alloc, "a; b; c")?;
    let mut calls = 0u64;
    let answer = visit_stmt_err_mut(
        &mut tree.node,
        &mut |x: &mut AstStmt| -> Result<(), u64> {
            calls = calls.wrapping_add(1);
            if calls == 2 {
                return Err(calls);
            }
            pass(x);
            Ok(())
        },
    );
    equal(&rt, answer, Err(2));
    equal(&rt, calls, 2);
    m.printed(tree.node, "pass\nb\nc\n");
    Ok(())
}

#[test]
fn outermost_expressions(rt: HostRuntime) -> Result<(), Fail> {
    let alloc = rt.alloc();
    let m = Maker::new(&rt, alloc);
    let mut tree = tree(alloc, "x = a + b\nif c:\n  d\n")?;
    tree.node
        .visit_expr_mut(&mut |x: &mut AstExpr| empty(alloc, x));
    m.printed(tree.node, "x = ()\nif ():\n  ()\n");
    Ok(())
}

#[test]
fn types(rt: HostRuntime) -> Result<(), Fail> {
    let alloc = rt.alloc();
    let m = Maker::new(&rt, alloc);
    let mut tree = tree(alloc, "def f(a: t) -> r: pass")?;
    let mut seen = 0;
    let answer = tree
        .node
        .visit_type_expr_err_mut(&mut |x: &mut AstTypeExpr| -> Result<(), u64> {
            seen = noted(seen, x.span.begin().get());
            Ok(())
        });
    equal(&rt, answer, Ok(()));
    equal(&rt, seen, 9_15);
    m.printed(tree.node, "def f(a: t) -> r:\n  pass\n");
    Ok(())
}

#[test]
fn nodes_below(rt: HostRuntime) -> Result<(), Fail> {
    let alloc = rt.alloc();
    let m = Maker::new(&rt, alloc);
    let mut tree = tree(alloc, "for x[0] in y: z")?;
    let mut empties = Empties { alloc, calls: 3 };
    let answer = tree.node.lend_children_mut(&mut empties);
    equal(&rt, answer, Ok(()));
    equal(&rt, empties.calls, 7);
    m.printed(tree.node, "for ()[()] in ():\n  pass\n");
    Ok(())
}

#[test]
fn stops_at_a_node(rt: HostRuntime) -> Result<(), Fail> {
    let alloc = rt.alloc();
    let m = Maker::new(&rt, alloc);
    let mut tree = tree(alloc, "if a:\n  b\nelse:\n  c\n")?;
    let mut empties = Empties { alloc, calls: 0 };
    let answer = tree.node.lend_children_mut(&mut empties);
    equal(&rt, answer, Err(3));
    m.printed(tree.node, "if ():\n  pass\nelse:\n  c\n");
    Ok(())
}
