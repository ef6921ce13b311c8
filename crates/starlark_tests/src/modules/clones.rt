//! Clones show the same as what they are of, places and texts among it. They are left: how trees are let go is proved anew in each
//! crate that does so.

use crate::check::equal;
use crate::common::span;
use crate::maker::Maker;
use starlark_ast::ast::{AstStmt, ExprP, StmtP};
use starlark_clone::clone_tree::CloneTree;

/// Expressions of each form.
static EXPRESSIONS: [&str; 30] = [
    "[(), (1, 2), [3, 0x80000000], {4: 5.5, \"a\": \"b\"}]",
    "a.b[c](d, e = f, *g, **h)[i, j][k:l:m][:]",
    "not a and -b + +c * ~d or (... if e else f)",
    "[a for (b, c[0]), d.e in f if g for h in i]",
    "{a: b for c in d}",
    "{a: b for c in d if e for f in g}",
    "[a == b, a != b, a < b, a > b, a <= b, a >= b, a in b, a not in b, a - b, a % b, a / b, a // b, a & b, a | b, a ^ b, a << b, a >> b]",
    "f(b\"a\\xff\", b\"\")",
    "f\"x{a}y{b}\"",
    "lambda a, b = 1, *args, c, **kwargs: lambda *, d: a",
    "a()",
    "[]",
    "{}",
    "lambda: a",
    "a",
    "1",
    "...",
    "\"a\"",
    "()",
    "(a, b)",
    "a.b",
    "a[b]",
    "a[b, c]",
    "a[b:]",
    "a + b",
    "not a",
    "-a",
    "+a",
    "~a",
    "a if b else c",
];

#[test]
fn clones_of_expressions(rt: HostRuntime) {
    let alloc = rt.alloc();
    let m = Maker::new(&rt, alloc);
    for text in &EXPRESSIONS {
        let module = m.parsed(text);
        let StmtP::Expression(x) = &module.statement().node else {
            panic!(rt; "it has another form")
        };
        m.copied(x.node.clone(alloc), &x.node);
    }
}

/// Arguments, parameters, clauses and targets of each form.
const PARTS: &str =
    "f(lambda a, /, b = 1, *c, d, **e: a, lambda *, a: a, x = [a for b in c if d for e in g], *[a for (b, c) in d], **[a for b[0] in c for d.e in b])";

#[test]
fn clones_of_parts(rt: HostRuntime) {
    let alloc = rt.alloc();
    let m = Maker::new(&rt, alloc);
    let module = m.parsed(PARTS);
    let StmtP::Expression(x) = &module.statement().node else {
        panic!(rt; "it has another form")
    };
    let ExprP::Call(_, args) = &x.node else {
        panic!(rt; "it has another form")
    };
    m.copied(args.clone(alloc), args);
    for arg in &args.args {
        m.copied(arg.node.clone(alloc), &arg.node);
        match &arg.node.expr().node {
            ExprP::Lambda(lambda) => {
                m.copied(lambda.clone(alloc), lambda);
                for param in &lambda.params {
                    m.copied(param.node.clone(alloc), &param.node);
                }
            }
            ExprP::ListComprehension(_, first, rest) => {
                let first = &**first;
                m.copied(first.clone(alloc), first);
                m.copied(first.var.node.clone(alloc), &first.var.node);
                for clause in rest {
                    m.copied(clause.clone(alloc), clause);
                }
            }
            _ => panic!(rt; "it has another form"),
        }
    }
}

/// Statements of each form.
static STATEMENTS: [&str; 16] = [
    "load(\"m\", \"a\", b = \"c\",)\nx = 1; y: list[int] = 2\nz.w += 3\nv[0], [u, (t)] = s\n",
    "load(\"m\", \"a\")\nload(\"m\", \"a\", b = \"c\")\n",
    "a -= b; a *= b; a /= b; a //= b; a %= b; a &= b; a |= b; a ^= b; a <<= b; a >>= b\n",
    "def f(a, /, b: int = 1, *c: t, d: str, **e: u) -> None:\n  if a:\n    return\n  elif b:\n    pass\n  return c\n",
    "for i, j[0] in k:\n  if i:\n    break\n  else:\n    continue\n",
    "f\"x{a}y{b}\"\n",
    "def a(): pass",
    "",
    "pass",
    "a += b",
    "load(\"m\", \"a\")",
    "if a: b",
    "if a: b\nelse: c",
    "def f(): return",
    "for a in b: break",
    "for a in b: continue",
];

#[test]
fn clones_of_statements(rt: HostRuntime) {
    let alloc = rt.alloc();
    let m = Maker::new(&rt, alloc);
    for text in &STATEMENTS {
        let module = m.parsed(text);
        let tree = &module.statement().node;
        m.copied(tree.clone(alloc), tree);
        match tree {
            StmtP::Def(x) => {
                m.copied(x.clone(alloc), x);
                m.copied(x.body.node.clone(alloc), &x.body.node);
            }
            StmtP::For(x) => {
                m.copied(x.clone(alloc), x);
                m.copied(x.body.node.clone(alloc), &x.body.node);
            }
            StmtP::Expression(x) => {
                let ExprP::FString(x) = &x.node else {
                    panic!(rt; "it has another form")
                };
                m.copied(x.node.clone(alloc), &x.node);
            }
            _ => {}
        }
    }
    let module = m.parsed("x: int = 1");
    let StmtP::Assign(x) = &module.statement().node else {
        panic!(rt; "it has another form")
    };
    m.copied(x.clone(alloc), x);
    let Some(ty) = &x.ty else {
        panic!(rt; "it has another form")
    };
    m.copied(ty.node.clone(alloc), &ty.node);
}

#[test]
fn clones_at_places(rt: HostRuntime) {
    let alloc = rt.alloc();
    let m = Maker::new(&rt, alloc);
    let module = m.parsed("a\nb");
    let tree = module.statement();
    let again: AstStmt = m.made(tree.clone(alloc));
    equal(&rt, again.span, span(0, 3));
    m.same(&again, tree);
    m.printed(again.node, "a\nb\n");
}

#[test]
fn clones_of_names_at_places(rt: HostRuntime) {
    let alloc = rt.alloc();
    let m = Maker::new(&rt, alloc);
    let module = m.parsed("def f(): return a.b");
    let StmtP::Def(def) = &module.statement().node else {
        panic!(rt; "it has another form")
    };
    m.copied(def.name.clone(alloc), &def.name);
    let StmtP::Return(Some(x)) = &def.body.node else {
        panic!(rt; "it has another form")
    };
    m.copied(x.clone(alloc), x);
    let ExprP::Dot(object, name) = &x.node else {
        panic!(rt; "it has another form")
    };
    m.copied(name.clone(alloc), name);
    let ExprP::Identifier(read) = &object.node else {
        panic!(rt; "it has another form")
    };
    m.copied(read.clone(alloc), read);
}

#[test]
fn clones_of_modules(rt: HostRuntime) {
    let alloc = rt.alloc();
    let m = Maker::new(&rt, alloc);
    let module = m.parsed("# a\n# b\nx = [1] # c\n");
    m.copied(module.clone(alloc), &module);
}
