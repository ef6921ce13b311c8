//! Rules on parts of trees, and what the calls that refuse by a rule say: the rule, and its place.

use crate::check::{count, equal, holds};
use crate::common::span;
use crate::maker::{Maker, leave};
use crate::parsed::{argument, expression, parameter, type_in};
use starlark_ast::ast::{
    AssignOp, AssignTargetP, AstAssignTarget, AstExpr, AstTypeExpr, CallArgsP, ExprP, Stmt, StmtP,
};
use starlark_lexer::dialect::Dialect;
use starlark_parser::fields::AstModuleFields;
use starlark_place::codemap::CodeMap;
use starlark_place::diagnostic::Refusal;
use starlark_place::pos::Span;
use starlark_rules::arguments::CallArgsUnpack;
use starlark_rules::assign::{assignment_fault, check_assign, check_assignment, target_fault};
use starlark_rules::call::call_fault;
use starlark_rules::def::DefParams;
use starlark_rules::parameters::parameter_fault;
use starlark_rules::rule::{Rule, RuleException};
use starlark_rules::tree::rules_of;
use std::process::Abort;

fn is_name(x: &AstAssignTarget, text: &str, at: Span) -> bool {
    match &x.node {
        AssignTargetP::Identifier(x) => x.span == at && x.node.ident.as_str() == text,
        _ => false,
    }
}

#[test]
fn late(rt: HostRuntime) {
    let m = Maker::new(&rt, rt.alloc());
    let module = m.parsed("if x: pass\n");
    let found = m.made(rules_of(rt.alloc(), module.statement(), &Dialect::Standard));
    count(&rt, found.len(), 1);
    equal(&rt, found[0].span, span(0, 11));
    holds(&rt, matches!(found[0].node, Rule::IfOutsideDef));
    let found = m.made(rules_of(rt.alloc(), module.statement(), &Dialect::Extended));
    holds(&rt, found.is_empty());
}

/// A load, a `def` and a lambda, in a dialect that has none of them.
#[test]
fn late_without(rt: HostRuntime) {
    let m = Maker::new(&rt, rt.alloc());
    let module = m.parsed("load(\"m\", \"a\")\ndef f(): return lambda: a\n");
    let dialect = Dialect {
        enable_def: false,
        enable_lambda: false,
        enable_load: false,
        ..Dialect::Standard
    };
    let found = m.made(rules_of(rt.alloc(), module.statement(), &dialect));
    count(&rt, found.len(), 3);
    holds(&rt, matches!(found[0].node, Rule::LoadDisabled));
    holds(&rt, matches!(found[1].node, Rule::DefDisabled));
    holds(&rt, matches!(found[2].node, Rule::LambdaDisabled));
}

#[test]
fn targets(rt: HostRuntime) {
    let m = &Maker::new(&rt, rt.alloc());
    let map = m.map_of(0, "t", "(a, [b])");
    let left = expression(m, "(a, [b])");
    holds(&rt, target_fault(&left).is_none());
    let target = m.made(check_assign(rt.alloc(), &map, left));
    let AssignTargetP::Tuple(outer) = &target.node else {
        panic!(rt; "it is no tuple")
    };
    count(&rt, outer.len(), 2);
    holds(&rt, is_name(&outer[0], "a", span(1, 2)));
    let AssignTargetP::Tuple(inner) = &outer[1].node else {
        panic!(rt; "there is no tuple in it")
    };
    equal(&rt, outer[1].span, span(4, 7));
    count(&rt, inner.len(), 1);
    holds(&rt, is_name(&inner[0], "b", span(5, 6)));
    leave(target);
}

/// An assignment of 1 that breaks no rule.
fn taken(
    rt: &impl Abort,
    m: &Maker<'_, impl Abort>,
    map: &CodeMap,
    left: &str,
    ty: Option<Box<AstTypeExpr>>,
    op: Option<AssignOp>,
) -> Stmt {
    let left = expression(m, left);
    let right = expression(m, "1");
    holds(rt, assignment_fault(&left, &ty, op).is_none());
    m.made(check_assignment(m.alloc(), map, left, ty, op, right))
}

#[test]
fn assignments(rt: HostRuntime) {
    let m = &Maker::new(&rt, rt.alloc());
    let map = m.map_of(0, "t", "x = 1");
    let tree = taken(&rt, m, &map, "x", None, None);
    let StmtP::Assign(made) = &tree else {
        panic!(rt; "it is no assignment")
    };
    holds(&rt, is_name(&made.lhs, "x", span(0, 1)));
    holds(&rt, made.ty.is_none());
    holds(&rt, matches!(made.rhs.node, ExprP::Literal(_)));
    leave(tree);
}

#[test]
fn change(rt: HostRuntime) {
    let m = &Maker::new(&rt, rt.alloc());
    let map = m.map_of(0, "t", "x += 1");
    let op = Some(AssignOp::Add);
    m.printed(taken(&rt, m, &map, "x", None, op), "x += 1\n");
}

/// Targets of each form, and what they and an assignment to them print.
static TARGETS: [(&str, &str, &str); 4] = [
    ("a.b", "a.b", "a.b = 1\n"),
    ("a[b]", "a[b]", "a[b] = 1\n"),
    ("(a, b)", "(a, b)", "(a, b) = 1\n"),
    (
        "a_name_that_is_as_long_as_names_of_targets_of_build_rules_are_at_most",
        "a_name_that_is_as_long_as_names_of_targets_of_build_rules_are_at_most",
        "a_name_that_is_as_long_as_names_of_targets_of_build_rules_are_at_most = 1\n",
    ),
];

#[test]
fn targets_of_each_form(rt: HostRuntime) {
    let m = &Maker::new(&rt, rt.alloc());
    let map = m.map_of(0, "t", "");
    for (text, target, assignment) in &TARGETS {
        let left = expression(m, text);
        holds(&rt, target_fault(&left).is_none());
        let made = m.made(check_assign(rt.alloc(), &map, left));
        m.printed(made.node, target);
        m.printed(taken(&rt, m, &map, text, None, None), assignment);
    }
}

/// The type `int`, which stands there in `x: int = 1`.
fn int(m: &Maker<'_, impl Abort>) -> Option<Box<AstTypeExpr>> {
    match type_in(m, "x: int = 1") {
        Some(ty) => Some(m.boxed(ty)),
        None => None,
    }
}

#[test]
fn assignment_with_type(rt: HostRuntime) {
    let m = &Maker::new(&rt, rt.alloc());
    let map = m.map_of(0, "t", "x: int = 1");
    let ty = int(m);
    m.printed(taken(&rt, m, &map, "x", ty, None), "x : int = 1\n");
}

/// The rule of a refusal, which stands there.
fn rule_at<'a>(rt: &impl Abort, refusal: &'a RuleException, at: Span) -> &'a Rule {
    let Refusal::Fault(fault) = refusal else {
        panic!(rt; "memory ran out")
    };
    let Some(place) = fault.span() else {
        panic!(rt; "it has no place")
    };
    equal(rt, place.span, at);
    fault.inner()
}

#[test]
fn refused_target(rt: HostRuntime) {
    let m = &Maker::new(&rt, rt.alloc());
    let map = m.map_of(0, "t", "1 = a");
    let left = expression(m, "1");
    let Some(found) = target_fault(&left) else {
        panic!(rt; "it breaks no rule")
    };
    holds(&rt, map.holds(found.span));
    let Err(refusal) = check_assign(rt.alloc(), &map, left) else {
        panic!(rt; "it is taken")
    };
    let rule = rule_at(&rt, &refusal, span(0, 1));
    holds(&rt, matches!(rule, Rule::InvalidLhs));
}

/// The refusal of an assignment by `+=` that breaks a rule.
fn refused(
    rt: &impl Abort,
    m: &Maker<'_, impl Abort>,
    map: &CodeMap,
    left: AstExpr,
    ty: Option<Box<AstTypeExpr>>,
) -> RuleException {
    let op = Some(AssignOp::Add);
    let Some(found) = assignment_fault(&left, &ty, op) else {
        panic!(rt; "it breaks no rule")
    };
    holds(rt, map.holds(found.span));
    let right = expression(m, "1");
    let Err(refusal) = check_assignment(m.alloc(), map, left, ty, op, right) else {
        panic!(rt; "it is taken")
    };
    refusal
}

#[test]
fn refused_change_of_several(rt: HostRuntime) {
    let m = &Maker::new(&rt, rt.alloc());
    let map = m.map_of(0, "t", "(a, b) += 1");
    let refusal = refused(&rt, m, &map, expression(m, "(a, b)"), None);
    let rule = rule_at(&rt, &refusal, span(1, 5));
    holds(&rt, matches!(rule, Rule::InvalidModifyLhs));
}

#[test]
fn refused_change_with_type(rt: HostRuntime) {
    let m = &Maker::new(&rt, rt.alloc());
    let map = m.map_of(0, "t", "x: int += 1");
    let refusal = refused(&rt, m, &map, expression(m, "x"), int(m));
    let rule = rule_at(&rt, &refusal, span(3, 6));
    holds(&rt, matches!(rule, Rule::TypeAnnotationOnAssignOp));
}

/// `a=1, 2`, as in `f(a=1, 2)`.
#[test]
fn refused_arguments(rt: HostRuntime) {
    let m = &Maker::new(&rt, rt.alloc());
    let map = m.map_of(0, "t", "f(a=1, 2)");
    let args = CallArgsP {
        args: m.both(argument(m, "f(a=1)"), argument(m, "f(     2)")),
    };
    let Some(found) = call_fault(&args.args) else {
        panic!(rt; "they break no rule")
    };
    holds(&rt, map.holds(found.span));
    let Err(refusal) = CallArgsUnpack::unpack(rt.alloc(), &args, &map) else {
        panic!(rt; "they are taken")
    };
    let rule = rule_at(&rt, &refusal, span(7, 8));
    holds(&rt, matches!(rule, Rule::PositionalAfterNonPositional));
    leave(args);
}

/// `a, a`, as in `def f(a, a): pass`.
#[test]
fn refused_parameters(rt: HostRuntime) {
    let m = &Maker::new(&rt, rt.alloc());
    let map = m.map_of(0, "t", "def f(a, a): pass");
    let params = m.both(
        parameter(m, "def f(a): pass"),
        parameter(m, "def f(   a): pass"),
    );
    let Some(found) = parameter_fault(&params) else {
        panic!(rt; "they break no rule")
    };
    holds(&rt, map.holds(found.span));
    let Err(refusal) = DefParams::unpack(rt.alloc(), &params, &map) else {
        panic!(rt; "they are taken")
    };
    let rule = rule_at(&rt, &refusal, span(9, 10));
    holds(&rt, matches!(rule, Rule::DuplicatedName));
    leave(params);
}
