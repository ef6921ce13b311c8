//! Arguments, parameters and types by their parts, lent from the trees of texts.

use crate::check::{count, equal, holds};
use crate::common::span;
use crate::maker::Maker;
use starlark_parser::ast::ast::{AstPayload, ExprP, StmtP};
use starlark_parser::fields::AstModuleFields;
use starlark_parser::rules::arguments::CallArgsUnpack;
use starlark_parser::rules::call::call_fault;
use starlark_parser::rules::def::{
    DefParamIndices, DefParamKind as Kind, DefParams, DefRegularParamMode as Mode,
};
use starlark_parser::rules::parameters::parameter_fault;
use starlark_parser::rules::type_expr::{TypeExprUnpackP, type_str_literal_is_wildcard};
use starlark_parser::rules::types::type_fault;
use starlark_place::diagnostic::Refusal;
use std::alloc::Global;
use std::process::Abort;

#[test]
fn arguments(rt: HostRuntime) {
    let m = Maker::new(&rt, rt.alloc());
    let module = m.parsed("f(1, a=2, *b, **c)");
    let StmtP::Expression(call) = &module.statement().node else {
        panic!(rt; "it has another form")
    };
    let ExprP::Call(_, args) = &call.node else {
        panic!(rt; "it has another form")
    };
    if call_fault(&args.args).is_some() {
        panic!(rt; "they break a rule")
    }
    let found = m.made(CallArgsUnpack::unpack(rt.alloc(), args, module.codemap()));
    count(&rt, found.pos.len(), 1);
    equal(&rt, found.pos[0].span, span(2, 3));
    count(&rt, found.named.len(), 1);
    equal(&rt, found.named[0].span, span(5, 8));
    holds(&rt, matches!(found.star, Some(x) if x.span == span(10, 12)));
    holds(
        &rt,
        matches!(found.star_star, Some(x) if x.span == span(14, 17)),
    );
}

#[test]
fn parameters(rt: HostRuntime) {
    let m = Maker::new(&rt, rt.alloc());
    let module = m.parsed("def f(a, /, b: int, *args, c = 1, **kw): pass");
    let StmtP::Def(def) = &module.statement().node else {
        panic!(rt; "it has another form")
    };
    if parameter_fault(&def.params).is_some() {
        panic!(rt; "they break a rule")
    }
    let found = m.made(DefParams::unpack(rt.alloc(), &def.params, module.codemap()));
    let params = &found.params;
    count(&rt, params.len(), 5);
    equal(&rt, params[1].span, span(12, 18));
    equal(&rt, params[1].node.ident.node.ident.as_str(), "b");
    holds(&rt, params[1].node.ty.is_some());
    holds(
        &rt,
        matches!(params[0].node.kind, Kind::Regular(Mode::PosOnly, None)),
    );
    holds(
        &rt,
        matches!(params[1].node.kind, Kind::Regular(Mode::PosOrName, None)),
    );
    holds(&rt, matches!(params[2].node.kind, Kind::Args));
    holds(
        &rt,
        matches!(params[3].node.kind, Kind::Regular(Mode::NameOnly, Some(_))),
    );
    holds(&rt, matches!(params[4].node.kind, Kind::Kwargs));
    let indices = found.indices;
    equal(&rt, indices.pos_only(), 0..1);
    equal(&rt, indices.pos_or_named(), 1..2);
    equal(&rt, indices.named_only(params.len()), 3..4);
}

/// Without `*args` what stands behind a lone `*` follows at once.
#[test]
fn stretches(rt: HostRuntime) {
    let m = Maker::new(&rt, rt.alloc());
    let module = m.parsed("def f(a, /, b, *, c=1, **d): pass");
    let StmtP::Def(def) = &module.statement().node else {
        panic!(rt; "it has another form")
    };
    if parameter_fault(&def.params).is_some() {
        panic!(rt; "they break a rule")
    }
    let found = m.made(DefParams::unpack(rt.alloc(), &def.params, module.codemap()));
    let indices = DefParamIndices {
        num_positional: 2,
        num_positional_only: 1,
        args: None,
        kwargs: Some(3),
    };
    equal(&rt, found.indices, indices);
    equal(&rt, found.indices.pos_only(), 0..1);
    equal(&rt, found.indices.pos_or_named(), 1..2);
    equal(&rt, found.indices.named_only(found.params.len()), 2..3);
}

/// Parameters, and how many of them have a name.
static PARAMETERS: [(&str, usize); 3] = [
    ("def f(): pass", 0),
    ("def f(a): pass", 1),
    ("def f(*, a): pass", 1),
];

#[test]
fn few_parameters(rt: HostRuntime) {
    let m = Maker::new(&rt, rt.alloc());
    for (text, named) in &PARAMETERS {
        let module = m.parsed(text);
        let StmtP::Def(def) = &module.statement().node else {
            panic!(rt; "it has another form")
        };
        if parameter_fault(&def.params).is_some() {
            panic!(rt; "they break a rule")
        }
        let found = m.made(DefParams::unpack(rt.alloc(), &def.params, module.codemap()));
        count(&rt, found.params.len(), *named);
    }
}

/// Types, and how many types each is made of. One that is none of several has 0.
static TYPES: [(&str, usize); 8] = [
    ("int", 0),
    ("a.b", 0),
    ("...", 0),
    ("()", 0),
    ("(a, b)", 2),
    ("[a, b, c]", 3),
    ("a | b", 2),
    ("a_name_that_is_as_long_as_names_of_types_are_at_most", 0),
];

/// How many types stand right in it.
fn members<P: AstPayload>(ty: &TypeExprUnpackP<'_, P>) -> usize {
    match ty {
        TypeExprUnpackP::Union(members) => members.len(),
        TypeExprUnpackP::Tuple(members) => members.len(),
        _ => 0,
    }
}

#[test]
fn types_of_each_form(rt: HostRuntime) {
    let m = Maker::new(&rt, rt.alloc());
    for (text, wanted) in &TYPES {
        let module = m.parsed(text);
        let StmtP::Expression(ty) = &module.statement().node else {
            panic!(rt; "it has another form")
        };
        if m.made(type_fault(rt.alloc(), ty)).is_some() {
            panic!(rt; "it breaks a rule")
        }
        let found = m.made(TypeExprUnpackP::unpack(rt.alloc(), ty, module.codemap()));
        count(&rt, members(&found.node), *wanted);
    }
}

/// The type `list[str]`.
#[test]
fn type_of_one(rt: HostRuntime) {
    let m = Maker::new(&rt, rt.alloc());
    let module = m.parsed("list[str]");
    let StmtP::Expression(ty) = &module.statement().node else {
        panic!(rt; "it has another form")
    };
    if m.made(type_fault(rt.alloc(), ty)).is_some() {
        panic!(rt; "it breaks a rule")
    }
    let found = m.made(TypeExprUnpackP::unpack(rt.alloc(), ty, module.codemap()));
    let TypeExprUnpackP::Index(list, of) = &found.node else {
        panic!(rt; "it has another form")
    };
    equal(&rt, list.node.ident.as_str(), "list");
    let TypeExprUnpackP::Path(path) = &of.node else {
        panic!(rt; "it has another form")
    };
    equal(&rt, path.first.node.ident.as_str(), "str");
}

/// The type `dict[str, list[int] | None]`.
#[test]
fn types(rt: HostRuntime) {
    let m = Maker::new(&rt, rt.alloc());
    let module = m.parsed("x: dict[str, list[int] | None] = 1");
    let StmtP::Assign(assign) = &module.statement().node else {
        panic!(rt; "it has another form")
    };
    let Some(ty) = &assign.ty else {
        panic!(rt; "it has another form")
    };
    let fault = m.made(type_fault(rt.alloc(), &ty.node.expr));
    if fault.is_some() {
        panic!(rt; "it breaks a rule")
    }
    let found = TypeExprUnpackP::unpack(rt.alloc(), &ty.node.expr, module.codemap());
    let found = m.made(found);
    equal(&rt, found.span, span(3, 30));
    let TypeExprUnpackP::Index2(path, first, second) = &found.node else {
        panic!(rt; "it has another form")
    };
    equal(&rt, path.span, span(3, 7));
    equal(&rt, path.node.first.node.ident.as_str(), "dict");
    holds(&rt, path.node.rem.is_empty());
    holds(&rt, matches!(first.node, TypeExprUnpackP::Path(_)));
    equal(&rt, first.span, span(8, 11));
    holds(
        &rt,
        matches!(&second.node, TypeExprUnpackP::Union(members) if members.len() == 2),
    );
    equal(&rt, second.span, span(13, 29));
}

/// The refusal of an expression as a type prints that: why, and where.
fn refused_type(rt: &impl Abort, alloc: Global, text: &str, want: &str) {
    let m = Maker::new(rt, alloc);
    let module = m.parsed(text);
    let StmtP::Expression(x) = &module.statement().node else {
        panic!(rt; "it has another form")
    };
    let Some(found) = m.made(type_fault(alloc, x)) else {
        panic!(rt; "it breaks no rule")
    };
    holds(rt, module.codemap().holds(found.span));
    let Err(Refusal::Fault(fault)) = TypeExprUnpackP::unpack(alloc, x, module.codemap()) else {
        panic!(rt; "it is taken, or memory ran out")
    };
    m.prints(&fault, want);
}

/// Expressions that are no types, and what their refusals print.
static NO_TYPES: [(&str, &str); 5] = [
    ("\"a\"", "a type may not be this: string literal: t:1:1-4"),
    ("[]", "a type may not be an empty list: t:1:1-3"),
    ("a | []", "a type may not be an empty list: t:1:5-7"),
    (
        "a[\"b\"]",
        "a type may not be this: string literal: t:1:3-6",
    ),
    (
        "a.b.type",
        "a type may not end in `.type`: write `a.b`: t:1:1-2",
    ),
];

#[test]
fn no_types(rt: HostRuntime) {
    for (text, want) in &NO_TYPES {
        refused_type(&rt, rt.alloc(), text, want);
    }
}

#[test]
fn wildcards(rt: HostRuntime) {
    holds(&rt, type_str_literal_is_wildcard(""));
    holds(&rt, type_str_literal_is_wildcard("_"));
    holds(&rt, type_str_literal_is_wildcard("_a"));
    holds(&rt, !type_str_literal_is_wildcard("a_"));
}
