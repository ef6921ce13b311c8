//! Payload maps of every form of a statement, an expression, a target, a parameter and a clause, and of arguments in calls:
//! each is Ok, prints what the tree prints, and calls its function once for each payload. A row is a small text with the form
//! and the number of payloads. Trees are left in the end: how they are let go is proved anew in each crate that does so.

use crate::check::equal_in;
use crate::common::{Counter, Numbered};
use crate::parsed::{clause, expression, parameter, printed, target, tree};
use starlark_ast::ast::{
    AssignTargetP, AstAssignTarget, AstAssignTargetP, AstExpr, AstExprP, AstParameter,
    AstParameterP, AstStmt, AstStmtP, Clause, ClauseP, ExprP, ParameterP, StmtP,
};
use starlark_ast::making::ToAst;
use starlark_payload::payload_map::IntoMapPayload;
use starlark_payload::placed_maps::{AssignTargetPExt, ExprPExt, ParameterPExt};
use starlark_payload::statement_maps::StmtPExt;
use std::alloc::{AllocError, Global};
use std::process::Abort;
use std::test::Fail;

/// What a map prints, and how often its function was called.
type Mapped = Result<(String, u8), AllocError>;

/// Each form of an expression, and in some of them each form of an argument, a parameter and a clause.
static EXPRESSIONS: [(&str, u8); 46] = [
    ("()", 0),
    ("[abc, def_.ghi, \"\", \"é\", 2147483647, 0]", 2),
    ("(a, b)", 2),
    ("a.b", 1),
    ("a()", 1),
    ("a(b, c)", 3),
    ("a(b = c)", 2),
    ("a(*b)", 2),
    ("a(**b)", 2),
    ("a(b, c = d, *e, **f)", 5),
    ("a[b]", 2),
    ("a[b, c]", 3),
    ("a[:]", 1),
    ("a[b:]", 2),
    ("a[:b]", 2),
    ("a[::b]", 2),
    ("a[b:c:d]", 4),
    ("a", 1),
    ("lambda: a", 2),
    ("lambda a: b", 3),
    ("lambda a, /, b = c, *d, e, **f: g", 8),
    ("lambda *, a: b", 3),
    ("1", 0),
    ("0x80000000", 0),
    ("1.5", 0),
    ("\"a\"", 0),
    ("b\"a\"", 0),
    ("...", 0),
    ("not a", 1),
    ("-a", 1),
    ("+a", 1),
    ("~a", 1),
    ("a + b", 2),
    ("a not in b", 2),
    ("a if b else c", 3),
    ("[]", 0),
    ("[a, b, c, d, e]", 5),
    ("{}", 0),
    ("{a: b, c: d}", 4),
    ("[a for b in c]", 3),
    ("[a for b, c in d for e in f if g]", 7),
    ("{a: b for c in d}", 4),
    ("{a: b for c in d for e[f] in g if h}", 8),
    ("f\"a\"", 0),
    ("f\"a{b}{c!r}\"", 2),
    ("[{a: lambda b = -c[d:e]: f(g, *h)} for i in j if k]", 12),
];

/// Each form of a statement, and in some of them each form of a target, a type and a parameter.
static STATEMENTS: [(&str, u8); 37] = [
    ("for a in b: break", 2),
    ("for a in b: continue", 2),
    ("pass", 0),
    ("def a(): return", 2),
    ("def a(): return b", 3),
    ("a", 1),
    ("a = b", 2),
    ("a: b = c", 4),
    ("a: b[c] | d = e", 6),
    ("a += b", 2),
    ("a[b] += c", 3),
    ("", 0),
    ("a; b", 2),
    ("a; b\nc", 3),
    ("if a: b", 2),
    ("if a: b\nelse: c", 3),
    ("if a: b\nelif c: d\nelse: e", 5),
    ("for a in b: c", 3),
    ("def a(): pass", 2),
    ("def a() -> b: pass", 4),
    ("load(\"m\", \"a\")", 2),
    ("load(\"m\", \"a\", b = \"c\",)", 3),
    ("a, b = c", 3),
    ("a[b] = c", 3),
    ("a.b = c", 2),
    ("(a, (b, c[d]), e.f) = g", 6),
    ("def a(b): pass", 3),
    ("def a(b = c): pass", 4),
    ("def a(b: c): pass", 5),
    ("def a(b: c = d): pass", 6),
    ("def a(b, /): pass", 3),
    ("def a(*, b): pass", 3),
    ("def a(*b): pass", 3),
    ("def a(*b: c): pass", 5),
    ("def a(**b): pass", 3),
    ("def a(**b: c): pass", 5),
    ("def a(b: c) -> d:\n  for e in f:\n    g\n  return h", 11),
];

/// Assignments, with the payloads of the target.
static TARGETS: [(&str, u8); 5] = [
    ("a = b", 1),
    ("a, b = c", 2),
    ("a[b] = c", 2),
    ("a.b = c", 1),
    ("(a, (b, c[d]), e.f) = g", 5),
];

/// Functions, with the payloads of the last parameter.
static PARAMETERS: [(&str, u8); 9] = [
    ("def a(b): pass", 1),
    ("def a(b = c): pass", 2),
    ("def a(b: c): pass", 3),
    ("def a(b: c = d): pass", 4),
    ("def a(b, /): pass", 0),
    ("def a(*b): pass", 1),
    ("def a(*b: c): pass", 3),
    ("def a(**b): pass", 1),
    ("def a(**b: c): pass", 3),
];

/// Comprehensions, with the payloads of the last clause.
static CLAUSES: [(&str, u8); 2] = [("[a for b in c for d in e]", 2), ("[a for b in c if d]", 1)];

fn map_of_statement(alloc: Global, x: AstStmt) -> Mapped {
    let mut counter = Counter::new();
    let x: StmtP<Numbered> = x.node.into_map_payload(alloc, &mut counter)?;
    Ok((printed(alloc, x)?, counter.next))
}

fn map_of_placed_statement(alloc: Global, x: AstStmt) -> Mapped {
    let mut counter = Counter::new();
    let x: AstStmtP<Numbered> = StmtPExt::into_map_payload(x, alloc, &mut counter)?;
    Ok((printed(alloc, x.node)?, counter.next))
}

fn map_of_expression(alloc: Global, x: AstExpr) -> Mapped {
    let mut counter = Counter::new();
    let x: ExprP<Numbered> = x.node.into_map_payload(alloc, &mut counter)?;
    Ok((printed(alloc, x)?, counter.next))
}

fn map_of_placed_expression(alloc: Global, x: AstExpr) -> Mapped {
    let mut counter = Counter::new();
    let x: AstExprP<Numbered> = ExprPExt::into_map_payload(x, alloc, &mut counter)?;
    Ok((printed(alloc, x.node)?, counter.next))
}

fn map_of_target(alloc: Global, x: AstAssignTarget) -> Mapped {
    let mut counter = Counter::new();
    let x: AssignTargetP<Numbered> = x.node.into_map_payload(alloc, &mut counter)?;
    Ok((printed(alloc, x)?, counter.next))
}

fn map_of_placed_target(alloc: Global, x: AstAssignTarget) -> Mapped {
    let mut counter = Counter::new();
    let x: AstAssignTargetP<Numbered> = AssignTargetPExt::into_map_payload(x, alloc, &mut counter)?;
    Ok((printed(alloc, x.node)?, counter.next))
}

fn map_of_parameter(alloc: Global, x: AstParameter) -> Mapped {
    let mut counter = Counter::new();
    let x: ParameterP<Numbered> = x.node.into_map_payload(alloc, &mut counter)?;
    Ok((printed(alloc, x)?, counter.next))
}

fn map_of_placed_parameter(alloc: Global, x: AstParameter) -> Mapped {
    let mut counter = Counter::new();
    let x: AstParameterP<Numbered> = ParameterPExt::into_map_payload(x, alloc, &mut counter)?;
    Ok((printed(alloc, x.node)?, counter.next))
}

fn map_of_clause(alloc: Global, x: Clause) -> Mapped {
    let mut counter = Counter::new();
    let x: ClauseP<Numbered> = x.into_map_payload(alloc, &mut counter)?;
    Ok((printed(alloc, x)?, counter.next))
}

// both maps print the text that is wanted, and called their function so often
fn agree(rt: &impl Abort, text: &str, want: (String, u8), alone: Mapped, placed: Mapped) {
    let want: Mapped = Ok(want);
    equal_in(rt, text, &alone, &want);
    equal_in(rt, text, &placed, &want);
}

fn statement(rt: &impl Abort, alloc: Global, text: &str, payloads: u8) -> Result<(), Fail> {
    let want = (printed(alloc, tree(alloc, text)?.node)?, payloads);
    let alone = map_of_statement(alloc, tree(alloc, text)?);
    let placed = map_of_placed_statement(alloc, tree(alloc, text)?);
    agree(rt, text, want, alone, placed);
    Ok(())
}

#[test]
fn statements(rt: HostRuntime) -> Result<(), Fail> {
    for (text, payloads) in &STATEMENTS {
        statement(&rt, rt.alloc(), text, *payloads)?;
    }
    for (text, payloads) in &EXPRESSIONS {
        statement(&rt, rt.alloc(), text, *payloads)?;
    }
    Ok(())
}

#[test]
fn expressions(rt: HostRuntime) -> Result<(), Fail> {
    let alloc = rt.alloc();
    for (text, payloads) in &EXPRESSIONS {
        let want = (printed(alloc, expression(alloc, text)?.node)?, *payloads);
        let alone = map_of_expression(alloc, expression(alloc, text)?);
        let placed = map_of_placed_expression(alloc, expression(alloc, text)?);
        agree(&rt, text, want, alone, placed);
    }
    Ok(())
}

#[test]
fn targets(rt: HostRuntime) -> Result<(), Fail> {
    let alloc = rt.alloc();
    for (text, payloads) in &TARGETS {
        let want = (printed(alloc, target(alloc, text)?.node)?, *payloads);
        let alone = map_of_target(alloc, target(alloc, text)?);
        let placed = map_of_placed_target(alloc, target(alloc, text)?);
        agree(&rt, text, want, alone, placed);
    }
    Ok(())
}

#[test]
fn parameters(rt: HostRuntime) -> Result<(), Fail> {
    let alloc = rt.alloc();
    for (text, payloads) in &PARAMETERS {
        let want = (printed(alloc, parameter(alloc, text)?.node)?, *payloads);
        let alone = map_of_parameter(alloc, parameter(alloc, text)?);
        let placed = map_of_placed_parameter(alloc, parameter(alloc, text)?);
        agree(&rt, text, want, alone, placed);
    }
    // in a text a parameter stands behind it
    let want = (String::from_str(alloc, "*")?, 0);
    let alone = map_of_parameter(alloc, ParameterP::NoArgs.ast(0, 1));
    let placed = map_of_placed_parameter(alloc, ParameterP::NoArgs.ast(0, 1));
    agree(&rt, "*", want, alone, placed);
    Ok(())
}

#[test]
fn clauses(rt: HostRuntime) -> Result<(), Fail> {
    let alloc = rt.alloc();
    for (text, payloads) in &CLAUSES {
        let want = (printed(alloc, clause(alloc, text)?)?, *payloads);
        let alone = map_of_clause(alloc, clause(alloc, text)?);
        equal_in(&rt, text, alone, Ok(want));
    }
    Ok(())
}
