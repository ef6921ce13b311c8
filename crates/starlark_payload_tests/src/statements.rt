//! Payload maps of statements. Trees are left in the end: how they are let go is proved anew in each
//! crate that does so.

use crate::check::{equal, holds};
use crate::common::{Counter, Numbered, assigned, read};
use crate::maker::{Maker, leave};
use starlark_ast::ast::{
    AssignP, AssignTarget, AssignTargetP, AstAssignTarget, AstAssignTargetP, AstExpr, AstExprP,
    AstNoPayload, AstStmt, AstStmtP, Comma, DefP, Expr, ExprP, ForP, LoadArgP, LoadP, Parameter,
    ParameterP, Stmt, StmtP,
};
use starlark_ast::making::ToAst;
use starlark_payload::payload_map::IntoMapPayload;
use starlark_payload::statement_maps::StmtPExt;
use starlark_place::pos::Spanned;
use std::process::Abort;

// a name of one letter
fn name(m: &Maker<'_, impl Abort>, text: &str) -> AstExpr {
    let node: Expr = ExprP::Identifier(read(m, text).ast(0, 1));
    node.ast(0, 1)
}

// a name as a statement
fn line(m: &Maker<'_, impl Abort>, text: &str) -> AstStmt {
    let node: Stmt = StmtP::Expression(name(m, text));
    node.ast(0, 1)
}

// `x`
fn target(m: &Maker<'_, impl Abort>) -> AstAssignTarget {
    let node: AssignTarget = AssignTargetP::Identifier(assigned(m, "x").ast(0, 1));
    node.ast(0, 1)
}

// `x` and `*y`, as parameters
fn parameters(m: &Maker<'_, impl Abort>) -> Vec<Spanned<Parameter>> {
    let x = assigned(m, "x").ast(6, 7);
    let y = assigned(m, "y").ast(10, 11);
    let first: Parameter = ParameterP::Normal(x, None, None);
    let second: Parameter = ParameterP::Args(y, None);
    m.both(first.ast(6, 7), second.ast(9, 11))
}

// `def f(x, *y): a; return b`
fn def(m: &Maker<'_, impl Abort>) -> AstStmt {
    let last: Stmt = StmtP::Return(Some(name(m, "b")));
    let first = line(m, "a");
    let body: Stmt = StmtP::Statements(m.both(first, last.ast(17, 25)));
    let body = m.boxed(body.ast(14, 25));
    let params = parameters(m);
    let name = assigned(m, "f").ast(4, 5);
    let node: Stmt = StmtP::Def(DefP {
        name,
        params,
        return_type: None,
        body,
        payload: (),
    });
    node.ast(0, 25)
}

// `if c: a` and `else: b`
fn branches(m: &Maker<'_, impl Abort>) -> Stmt {
    let bodies = (line(m, "a"), line(m, "b"));
    let bodies = m.boxed(bodies);
    StmtP::IfElse(name(m, "c"), bodies)
}

// `for x in y: z`
fn for_loop(m: &Maker<'_, impl Abort>) -> ForP<AstNoPayload> {
    let body = m.boxed(line(m, "z"));
    let over = name(m, "y");
    let var = target(m);
    ForP { var, over, body }
}

// `x = a`
fn assignment(m: &Maker<'_, impl Abort>) -> AssignP<AstNoPayload> {
    let rhs = name(m, "a");
    let lhs = target(m);
    AssignP { lhs, ty: None, rhs }
}

// `load("m", "a", b="c")`
fn load(m: &Maker<'_, impl Abort>) -> Stmt {
    let a = LoadArgP {
        local: assigned(m, "a").ast(10, 13),
        their: m.text("a").ast(10, 13),
        comma: Some(Comma.ast(13, 14)),
    };
    let b = LoadArgP {
        local: assigned(m, "b").ast(15, 16),
        their: m.text("c").ast(17, 20),
        comma: None,
    };
    let args = m.both(a, b);
    let module = m.text("m").ast(5, 8);
    StmtP::Load(LoadP {
        module,
        args,
        payload: (),
    })
}

fn then(number: u32, next: u32) -> u32 {
    number.wrapping_mul(10).wrapping_add(next)
}

// what a name was given
fn number_of(x: &AstExprP<Numbered>) -> u32 {
    let ExprP::Identifier(x) = &x.node else {
        return 999;
    };
    u32::from(x.node.payload)
}

fn number_of_target(x: &AstAssignTargetP<Numbered>) -> u32 {
    let AssignTargetP::Identifier(x) = &x.node else {
        return 999;
    };
    u32::from(x.node.payload)
}

// what the name in a statement was given
fn number_of_line(x: &AstStmtP<Numbered>) -> u32 {
    match &x.node {
        StmtP::Expression(x) => number_of(x),
        StmtP::Return(Some(x)) => number_of(x),
        _ => 999,
    }
}

fn number_of_parameter(x: &ParameterP<Numbered>) -> u32 {
    match x {
        ParameterP::Normal(x, _, _) => u32::from(x.node.payload),
        ParameterP::Args(x, _) => u32::from(x.node.payload),
        _ => 999,
    }
}

// what a function's name, its parameters, its body and itself were given
fn numbers_of_def(x: &AstStmtP<Numbered>) -> u32 {
    let StmtP::Def(x) = &x.node else {
        return 999;
    };
    let mut number = u32::from(x.name.node.payload);
    for param in &x.params {
        number = then(number, number_of_parameter(&param.node));
    }
    if let StmtP::Statements(lines) = &x.body.node {
        for line in lines {
            number = then(number, number_of_line(line));
        }
    }
    then(number, u32::from(x.payload))
}

// what the condition and the bodies were given
fn numbers_of_branches(x: &StmtP<Numbered>) -> u32 {
    let StmtP::IfElse(condition, bodies) = x else {
        return 999;
    };
    let number = then(number_of(condition), number_of_line(&bodies.0));
    then(number, number_of_line(&bodies.1))
}

// what a load and its names were given
fn numbers_of_load(x: &StmtP<Numbered>) -> u32 {
    let StmtP::Load(x) = x else {
        return 999;
    };
    let mut number = u32::from(x.payload);
    for arg in &x.args {
        number = then(number, u32::from(arg.local.node.payload));
    }
    number
}

// whether the names of the load stand as they did, the first with the number 2
fn keeps_names(x: &StmtP<Numbered>) -> bool {
    let StmtP::Load(x) = x else {
        return false;
    };
    let mut kept = x.module.node.as_str() == "m";
    for arg in &x.args {
        let is_first = arg.local.node.payload == 2;
        let (local, their) = if is_first { ("a", "a") } else { ("b", "c") };
        kept = kept && arg.local.node.ident.as_str() == local;
        kept = kept && arg.their.node.as_str() == their;
        kept = kept && arg.comma.is_some() == is_first;
    }
    kept
}

#[test]
fn a_def(rt: HostRuntime) {
    let alloc = rt.alloc();
    let m = &Maker::new(&rt, alloc);
    let mut counter = Counter::new();
    counter.next = 1;
    let tree: AstStmtP<Numbered> = m.made(StmtPExt::into_map_payload(def(m), alloc, &mut counter));
    equal(&rt, numbers_of_def(&tree), 123456);
    equal(&rt, counter.next, 7);
    leave(tree);
}

#[test]
fn branches_and_a_loop(rt: HostRuntime) {
    let alloc = rt.alloc();
    let m = &Maker::new(&rt, alloc);
    let mut counter = Counter::new();
    counter.next = 1;
    let tree: StmtP<Numbered> = m.made(branches(m).into_map_payload(alloc, &mut counter));
    equal(&rt, numbers_of_branches(&tree), 123);
    equal(&rt, counter.next, 4);
    leave(tree);
    let tree: ForP<Numbered> = m.made(for_loop(m).into_map_payload(alloc, &mut counter));
    equal(&rt, number_of_target(&tree.var), 4);
    equal(&rt, number_of(&tree.over), 5);
    equal(&rt, number_of_line(&tree.body), 6);
    leave(tree);
}

#[test]
fn an_assignment(rt: HostRuntime) {
    let alloc = rt.alloc();
    let m = &Maker::new(&rt, alloc);
    let mut counter = Counter::new();
    let tree: AssignP<Numbered> = m.made(assignment(m).into_map_payload(alloc, &mut counter));
    equal(&rt, number_of_target(&tree.lhs), 0);
    equal(&rt, number_of(&tree.rhs), 1);
    leave(tree);
}

#[test]
fn a_load(rt: HostRuntime) {
    let alloc = rt.alloc();
    let m = &Maker::new(&rt, alloc);
    let mut counter = Counter::new();
    counter.next = 1;
    let tree: StmtP<Numbered> = m.made(load(m).into_map_payload(alloc, &mut counter));
    holds(&rt, counter.is_of_m);
    equal(&rt, numbers_of_load(&tree), 123);
    holds(&rt, keeps_names(&tree));
    equal(&rt, counter.next, 4);
    leave(tree);
}
