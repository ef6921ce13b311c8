//! Payload maps of expressions. Trees are left in the end: how they are let go is proved anew in each
//! crate that does so.

use crate::check::equal;
use crate::common::{Counter, Numbered, assigned, read};
use crate::maker::{Maker, leave};
use starlark_ast::ast::{AstExpr, AstExprP, Expr, ExprP, LambdaP, ParameterP};
use starlark_ast::making::ToAst;
use starlark_payload::placed_maps::ExprPExt;
use std::process::Abort;

// `lambda x: y`
fn lambda(m: &Maker<'_, impl Abort>) -> AstExpr {
    let param = ParameterP::Normal(assigned(m, "x").ast(11, 12), None, None).ast(11, 12);
    let body = ExprP::Identifier(read(m, "y").ast(14, 15)).ast(14, 15);
    let body = m.boxed(body);
    let params = m.one(param);
    let node: Expr = ExprP::Lambda(LambdaP {
        params,
        body,
        payload: (),
    });
    node.ast(4, 15)
}

// what the lambda's parameter, its body and itself were given
fn numbers_of_lambda(x: &AstExprP<Numbered>) -> u32 {
    let ExprP::Lambda(x) = &x.node else {
        return 999;
    };
    let mut number = 0u32;
    for param in &x.params {
        if let ParameterP::Normal(name, _, _) = &param.node {
            number = u32::from(name.node.payload);
        }
    }
    if let ExprP::Identifier(name) = &x.body.node {
        number = number
            .wrapping_mul(10)
            .wrapping_add(u32::from(name.node.payload));
    }
    number.wrapping_mul(10).wrapping_add(u32::from(x.payload))
}

#[test]
fn a_lambda(rt: HostRuntime) {
    let alloc = rt.alloc();
    let m = &Maker::new(&rt, alloc);
    let mut counter = Counter::new();
    let tree = lambda(m);
    let tree: AstExprP<Numbered> = m.made(ExprPExt::into_map_payload(tree, alloc, &mut counter));
    // the parameter 0, the body 1, the lambda 2
    equal(&rt, numbers_of_lambda(&tree), 12);
    equal(&rt, counter.next, 3);
    leave(tree);
}
