//! Operators of modules that become calls, as what their trees print.

use crate::check::{count, equal};
use crate::common::span;
use crate::maker::Maker;
use starlark_ast::ast::{ExprP, StmtP};
use std::alloc::{AllocError, Global};
use std::collections::HashMap;
use std::process::Abort;

fn names(alloc: Global, pairs: &[(&str, &str)]) -> Result<HashMap<String, String>, AllocError> {
    let mut names = HashMap::new(alloc);
    for (operator, name) in pairs {
        let operator = String::from_str(alloc, operator)?;
        let _ = names.insert(operator, String::from_str(alloc, name)?)?;
    }
    Ok(names)
}

/// What a text prints once its operators are replaced.
fn replaced(
    m: &Maker<'_, impl Abort>,
    alloc: Global,
    pairs: &[(&str, &str)],
    text: &str,
    want: &str,
) {
    let mut module = m.parsed(text);
    let names = m.made(names(alloc, pairs));
    m.made(module.replace_binary_operators(alloc, &names));
    m.prints(&module.statement().node, want);
}

#[test]
fn operators(rt: HostRuntime) {
    let alloc = rt.alloc();
    let m = &Maker::new(&rt, alloc);
    let plus = [("+", "plus")];
    replaced(m, alloc, &plus, "x = 1 + 2 * 3", "x = plus(1, (2 * 3))\n");
    replaced(m, alloc, &plus, "-a + b + c", "plus(plus(-a, b), c)\n");
    replaced(m, alloc, &plus, "a += +b", "a += +b\n");
    let logic = [("==", "eq"), ("and", "both"), ("not in", "lacks")];
    replaced(m, alloc, &logic, "a == b and c", "both(eq(a, b), c)\n");
    replaced(m, alloc, &logic, "not a not in b", "(not lacks(a, b))\n");
}

// In types, a default, a target, an f-string, the body of a `def` and the clauses of a comprehension.
#[test]
fn everywhere(rt: HostRuntime) {
    let alloc = rt.alloc();
    let m = &Maker::new(&rt, alloc);
    let both = [("|", "any"), ("+", "plus")];
    let text = "def f(a: b | c = d + e) -> g:\n  h[i + j] = k\n";
    let want = "def f(a: any(b, c) = plus(d, e)) -> g:\n  h[plus(i, j)] = k\n";
    replaced(m, alloc, &both, text, want);
    replaced(m, alloc, &both, "x: a | b = +c", "x : any(a, b) = +c\n");
    replaced(m, alloc, &both, "f\"x{a + b}\"", "x{}.format(plus(a, b))\n");
    let text = "[a + b for c in d + e if f + g]\n";
    let want = "[plus(a, b) for c in plus(d, e) if plus(f, g)]\n";
    replaced(m, alloc, &both, text, want);
}

// A map that names no operator changes nothing, places among it.
#[test]
fn nothing(rt: HostRuntime) {
    let alloc = rt.alloc();
    let m = Maker::new(&rt, alloc);
    let text = "# a\nx = a + b if c and d else [e == f] # b\n";
    let mut module = m.parsed(text);
    let none = m.made(names(alloc, &[]));
    m.made(module.replace_binary_operators(alloc, &none));
    m.same(&module, &m.parsed(text));
    let others = [("=", "set"), (" + ", "plus"), ("not", "no"), ("if", "when")];
    let others = m.made(names(alloc, &others));
    m.made(module.replace_binary_operators(alloc, &others));
    m.same(&module, &m.parsed(text));
}

// The call and the name stand where the operation did, each argument where its operand does.
#[test]
fn places(rt: HostRuntime) {
    let alloc = rt.alloc();
    let m = Maker::new(&rt, alloc);
    let mut module = m.parsed("a + (bc)");
    let plus = m.made(names(alloc, &[("+", "plus")]));
    m.made(module.replace_binary_operators(alloc, &plus));
    let StmtP::Expression(call) = &module.statement().node else {
        panic!(rt; "it has another form")
    };
    let ExprP::Call(name, args) = &call.node else {
        panic!(rt; "it has another form")
    };
    equal(&rt, call.span, span(0, 7));
    equal(&rt, name.span, span(0, 7));
    count(&rt, args.args.len(), 2);
    equal(&rt, args.args[0].span, span(0, 1));
    equal(&rt, args.args[1].span, span(5, 7));
}
