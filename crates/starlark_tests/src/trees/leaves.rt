//! What leaves of trees print, and clones of literals, names and loads.

use crate::check::{equal, holds};
use crate::common::span;
use crate::maker::{Maker, leave};
use starlark_ast::ast::{
    AssignIdent, AssignIdentP, AssignOp, AstLiteral, BinOp, Comma, Expr, ExprP, Ident, Load,
    LoadArgP,
};
use starlark_ast::making::ToAst;
use starlark_lexer::token::{FStringConv, TokenInt};
use starlark_parser::element::FStringElement;
use std::process::Abort;

fn name(m: &Maker<'_, impl Abort>, text: &str) -> AssignIdent {
    let ident = m.text(text);
    AssignIdentP { ident, payload: () }
}

#[test]
fn leaves(rt: HostRuntime) {
    let alloc = rt.alloc();
    let m = &Maker::new(&rt, alloc);
    let big = TokenInt::BigInt {
        digits: m.text("80000000"),
        negative: true,
        radix: 16,
    };
    let line = m.text("a\n\"é");
    for (literal, text) in [
        (AstLiteral::Int(big.ast(0, 9)), "-0x80000000"),
        (AstLiteral::Float(m.text("1e9").ast(1, 4)), "1e9"),
        (AstLiteral::String(line.ast(2, 9)), "\"a\\n\\\"é\""),
        (
            AstLiteral::Bytes(m.both(b'a', 255).ast(3, 9)),
            "b\"a\\xff\"",
        ),
        (AstLiteral::Ellipsis, "..."),
    ] {
        m.prints(&literal, text);
        m.same(&m.made(literal.clone(alloc)), &literal);
    }
    m.prints(&BinOp::NotIn, " not in ");
    m.prints(&AssignOp::FloorDivide, " //= ");
}

/// A part of an f-string is a text, or a field with its conversion.
#[test]
fn elements(rt: HostRuntime) {
    let m = &Maker::new(&rt, rt.alloc());
    let text = FStringElement::Text(m.text("a").ast(0, 1));
    holds(&rt, matches!(&text, FStringElement::Text(_)));
    leave(text);
    let node: Expr = ExprP::Literal(AstLiteral::Ellipsis);
    let field = FStringElement::Expr(node.ast(2, 5), FStringConv::Repr);
    holds(
        &rt,
        matches!(&field, FStringElement::Expr(_, FStringConv::Repr)),
    );
    leave(field);
}

#[test]
fn names(rt: HostRuntime) {
    let alloc = rt.alloc();
    let m = &Maker::new(&rt, alloc);
    let read = Ident {
        ident: m.text("x"),
        payload: (),
    };
    m.prints(&m.made(read.clone(alloc)), "x");
    m.prints(&m.made(name(m, "y").clone(alloc)), "y");
}

#[test]
fn loads(rt: HostRuntime) {
    let alloc = rt.alloc();
    let m = &Maker::new(&rt, alloc);
    let arg = LoadArgP {
        local: name(m, "x").ast(12, 13),
        their: m.text("y").ast(14, 17),
        comma: Some(Comma.ast(17, 18)),
    };
    equal(&rt, arg.span(), span(12, 17));
    equal(&rt, arg.span_with_trailing_comma(), span(12, 18));
    let load = Load {
        module: m.text("m").ast(5, 8),
        args: m.one(arg),
        payload: (),
    };
    m.same(&m.made(load.clone(alloc)), &load);
}
