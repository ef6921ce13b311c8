//! Payload maps that number their calls.

ghost use Rattle.std.specs.Prelude.{◌≡◌, ◌≤◌};
ghost use Rattle.starlark_place.specs.Place.{extent};

use crate::check::{equal, holds};
use crate::common::{Counter, Numbered, assigned, read};
use crate::maker::Maker;
use starlark_ast::ast::{
    AssignIdentP, AstAssignIdentP, AstIdent, AstIdentP, Comma, IdentP, Load, LoadArgP, LoadP,
};
use starlark_ast::making::ToAst;
use starlark_payload::payload_map::{AssignIdentPExt, IdentPExt, IntoMapPayload};
use starlark_place::pos::{Pos, Span};

fn span(begin: u32, end: u32) -> Span
    requires { begin ≤ end }
    ensures { result ≡ extent begin end }
{
    Span::new(Pos::new(begin), Pos::new(end))
}

#[test]
fn names(rt: HostRuntime) {
    let alloc = rt.alloc();
    let m = &Maker::new(&rt, alloc);
    let mut counter = Counter::new();
    let x: IdentP<Numbered> = m.made(read(m, "x").into_map_payload(alloc, &mut counter));
    equal(&rt, x.ident.as_str(), "x");
    equal(&rt, x.payload, 0);
    let y: AssignIdentP<Numbered> = m.made(assigned(m, "y").into_map_payload(alloc, &mut counter));
    equal(&rt, y.ident.as_str(), "y");
    equal(&rt, y.payload, 1);
    let z: AstIdentP<Numbered> = m.made(
        read(m, "z").ast(2, 3).into_map_payload(alloc, &mut counter),
    );
    equal(&rt, z.span, span(2, 3));
    equal(&rt, z.node.payload, 2);
    let w = assigned(m, "w").ast(4, 5);
    let w: AstAssignIdentP<Numbered> = m.made(AssignIdentPExt::into_map_payload(
        w,
        alloc,
        &mut counter,
    ));
    equal(&rt, w.span, span(4, 5));
    equal(&rt, w.node.payload, 3);
}

#[test]
fn loads(rt: HostRuntime) {
    let alloc = rt.alloc();
    let m = &Maker::new(&rt, alloc);
    let arg = LoadArgP {
        local: assigned(m, "a").ast(10, 13),
        their: m.text("a").ast(10, 13),
        comma: Some(Comma.ast(13, 14)),
    };
    let load = Load {
        module: m.text("m").ast(5, 8),
        args: m.one(arg),
        payload: (),
    };
    let mut counter = Counter::new();
    let load: LoadP<Numbered> = m.made(load.into_map_payload(alloc, &mut counter));
    holds(&rt, counter.is_of_m);
    equal(&rt, counter.next, 2);
    equal(&rt, load.payload, 0);
    for arg in &load.args {
        equal(&rt, arg.local.node.payload, 1);
        equal(&rt, arg.local.span, span(10, 13));
        holds(&rt, arg.comma.is_some());
    }
    let arg = LoadArgP {
        local: assigned(m, "b").ast(0, 1),
        their: m.text("c").ast(2, 3),
        comma: None,
    };
    let arg: LoadArgP<Numbered> = m.made(arg.into_map_payload(alloc, &mut counter));
    equal(&rt, arg.local.node.payload, 2);
    equal(&rt, arg.their.node.as_str(), "c");
}
