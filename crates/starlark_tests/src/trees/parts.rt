//! What arguments, parameters, types and clauses print by themselves, lent from the trees of texts, and what no text is read as.

use crate::check::count;
use crate::maker::Maker;
use starlark_ast::ast::{ExprP, LoadP, ParameterP, Stmt, StmtP};
use starlark_ast::making::ToAst;
use starlark_parser::fields::AstModuleFields;

#[test]
fn arguments(rt: HostRuntime) {
    let m = Maker::new(&rt, rt.alloc());
    let module = m.parsed("f(a, x = a, *a, **a)");
    let StmtP::Expression(call) = &module.statement().node else {
        panic!(rt; "it has another form")
    };
    let ExprP::Call(_, args) = &call.node else {
        panic!(rt; "it has another form")
    };
    count(&rt, args.args.len(), 4);
    m.prints(&args.args[0].node, "a");
    m.prints(&args.args[1].node, "x = a");
    m.prints(&args.args[2].node, "*a");
    m.prints(&args.args[3].node, "**a");
}

#[test]
fn parameters(rt: HostRuntime) {
    let m = Maker::new(&rt, rt.alloc());
    let module = m.parsed("def f(x, /, y: T = a, *args: T, z = a, **kwargs: T): pass");
    let StmtP::Def(def) = &module.statement().node else {
        panic!(rt; "it has another form")
    };
    count(&rt, def.params.len(), 6);
    m.prints(&def.params[0].node, "x");
    m.prints(&def.params[1].node, "/");
    m.prints(&def.params[2].node, "y: T = a");
    m.prints(&def.params[3].node, "*args: T");
    m.prints(&def.params[4].node, "z = a");
    m.prints(&def.params[5].node, "**kwargs: T");
    let ParameterP::Normal(_, Some(ty), _) = &def.params[2].node else {
        panic!(rt; "it has another form")
    };
    m.prints(&ty.node, "T");
}

#[test]
fn stars(rt: HostRuntime) {
    let m = Maker::new(&rt, rt.alloc());
    let module = m.parsed("lambda *, x: (lambda *args: x)");
    let StmtP::Expression(outer) = &module.statement().node else {
        panic!(rt; "it has another form")
    };
    let ExprP::Lambda(outer) = &outer.node else {
        panic!(rt; "it has another form")
    };
    count(&rt, outer.params.len(), 2);
    m.prints(&outer.params[0].node, "*");
    let ExprP::Lambda(inner) = &outer.body.node else {
        panic!(rt; "it has another form")
    };
    count(&rt, inner.params.len(), 1);
    m.prints(&inner.params[0].node, "*args");
}

#[test]
fn clauses(rt: HostRuntime) {
    let m = Maker::new(&rt, rt.alloc());
    let module = m.parsed("[a for b in c for d in e if f]");
    let StmtP::Expression(list) = &module.statement().node else {
        panic!(rt; "it has another form")
    };
    let ExprP::ListComprehension(_, first, rest) = &list.node else {
        panic!(rt; "it has another form")
    };
    m.prints(&**first, " for b in c");
    count(&rt, rest.len(), 2);
    m.prints(&rest[0], " for d in e");
    m.prints(&rest[1], " if f");
}

/// A load that binds nothing.
#[test]
fn empty_load(rt: HostRuntime) {
    let m = Maker::new(&rt, rt.alloc());
    let load: Stmt = StmtP::Load(LoadP {
        module: m.text("m").ast(5, 8),
        args: m.none(),
        payload: (),
    });
    m.printed(load, "load(\"m\", )\n");
}
