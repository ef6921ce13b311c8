//! Payload maps of what stands in expressions, by themselves and at a place.

use crate::check::equal;
use crate::common::{Counter, Numbered, assigned, read};
use crate::maker::{Maker, leave};
use starlark_ast::ast::{
    Argument, ArgumentP, AssignTarget, AssignTargetP, AstArgumentP, AstAssignTargetP, AstExpr,
    AstFStringP, AstNoPayload, AstParameterP, AstTypeExprP, Clause, ClauseP, Expr, ExprP, FStringP,
    ForClause, ForClauseP, Parameter, ParameterP, TypeExpr, TypeExprP,
};
use starlark_ast::making::ToAst;
use starlark_payload::payload_map::IntoMapPayload;
use starlark_payload::placed_maps::{
    ArgumentPExt, AssignTargetPExt, FStringPExt, ParameterPExt, TypeExprPExt,
};
use std::alloc::Global;
use std::process::Abort;

// `a`
fn name(m: &Maker<'_, impl Abort>) -> AstExpr {
    let node: Expr = ExprP::Identifier(read(m, "a").ast(0, 1));
    node.ast(0, 1)
}

// `a` as a type
fn a_type(m: &Maker<'_, impl Abort>) -> TypeExpr {
    let expr = name(m);
    TypeExprP { expr, payload: () }
}

// `b`
fn target(m: &Maker<'_, impl Abort>) -> AssignTarget {
    AssignTargetP::Identifier(assigned(m, "b").ast(2, 3))
}

// `*b`
fn parameter(m: &Maker<'_, impl Abort>) -> Parameter {
    ParameterP::Args(assigned(m, "b").ast(1, 2), None)
}

// `f"{a}"`
fn f_string(m: &Maker<'_, impl Abort>) -> FStringP<AstNoPayload> {
    let format = m.text("{}").ast(2, 5);
    let expressions = m.one(name(m));
    FStringP {
        format,
        expressions,
    }
}

// `for b in a`
fn for_clause(m: &Maker<'_, impl Abort>) -> ForClause {
    let var = target(m).ast(2, 3);
    let over = name(m);
    ForClauseP { var, over }
}

#[test]
fn an_expression(rt: HostRuntime) {
    let alloc = rt.alloc();
    let m = &Maker::new(&rt, alloc);
    let mut counter = Counter::new();
    let x: ExprP<Numbered> = m.made(name(m).node.into_map_payload(alloc, &mut counter));
    equal(&rt, counter.next, 1);
    leave(x);
}

#[test]
fn types(rt: HostRuntime) {
    let alloc = rt.alloc();
    let m = &Maker::new(&rt, alloc);
    let mut counter = Counter::new();
    let x: TypeExprP<Numbered> = m.made(a_type(m).into_map_payload(alloc, &mut counter));
    equal(&rt, x.payload, 1);
    leave(x);
    let x = a_type(m).ast(0, 1);
    let x: AstTypeExprP<Numbered> = m.made(TypeExprPExt::into_map_payload(x, alloc, &mut counter));
    equal(&rt, x.node.payload, 3);
    leave(x);
}

#[test]
fn targets(rt: HostRuntime) {
    let alloc = rt.alloc();
    let m = &Maker::new(&rt, alloc);
    let mut counter = Counter::new();
    let x: AssignTargetP<Numbered> = m.made(target(m).into_map_payload(alloc, &mut counter));
    leave(x);
    let x = target(m).ast(2, 3);
    let x: AstAssignTargetP<Numbered> = m.made(AssignTargetPExt::into_map_payload(
        x,
        alloc,
        &mut counter,
    ));
    equal(&rt, counter.next, 2);
    leave(x);
}

#[test]
fn parameters(rt: HostRuntime) {
    let alloc = rt.alloc();
    let m = &Maker::new(&rt, alloc);
    let mut counter = Counter::new();
    let x: ParameterP<Numbered> = m.made(parameter(m).into_map_payload(alloc, &mut counter));
    leave(x);
    let x = parameter(m).ast(0, 2);
    let x: AstParameterP<Numbered> = m.made(ParameterPExt::into_map_payload(
        x,
        alloc,
        &mut counter,
    ));
    equal(&rt, counter.next, 2);
    leave(x);
}

// an argument by itself
fn argument(m: &Maker<'_, impl Abort>, alloc: Global, counter: &mut Counter, x: Argument) {
    let x: ArgumentP<Numbered> = m.made(x.into_map_payload(alloc, counter));
    leave(x);
}

#[test]
fn arguments(rt: HostRuntime) {
    let alloc = rt.alloc();
    let m = &Maker::new(&rt, alloc);
    let mut counter = Counter::new();
    argument(m, alloc, &mut counter, ArgumentP::Positional(name(m)));
    argument(
        m,
        alloc,
        &mut counter,
        ArgumentP::Named(m.text("n").ast(0, 1), name(m)),
    );
    argument(m, alloc, &mut counter, ArgumentP::Args(name(m)));
    argument(m, alloc, &mut counter, ArgumentP::KwArgs(name(m)));
    let x: Argument = ArgumentP::Args(name(m));
    let x: AstArgumentP<Numbered> = m.made(ArgumentPExt::into_map_payload(
        x.ast(0, 2),
        alloc,
        &mut counter,
    ));
    equal(&rt, counter.next, 5);
    leave(x);
}

#[test]
fn f_strings(rt: HostRuntime) {
    let alloc = rt.alloc();
    let m = &Maker::new(&rt, alloc);
    let mut counter = Counter::new();
    let x: FStringP<Numbered> = m.made(f_string(m).into_map_payload(alloc, &mut counter));
    leave(x);
    let x = f_string(m).ast(0, 6);
    let x: AstFStringP<Numbered> = m.made(FStringPExt::into_map_payload(x, alloc, &mut counter));
    equal(&rt, counter.next, 2);
    leave(x);
}

#[test]
fn clauses(rt: HostRuntime) {
    let alloc = rt.alloc();
    let m = &Maker::new(&rt, alloc);
    let mut counter = Counter::new();
    let x: ForClauseP<Numbered> = m.made(for_clause(m).into_map_payload(alloc, &mut counter));
    equal(&rt, counter.next, 2);
    leave(x);
    let x: Clause = ClauseP::If(name(m));
    let x: ClauseP<Numbered> = m.made(x.into_map_payload(alloc, &mut counter));
    equal(&rt, counter.next, 3);
    leave(x);
}
