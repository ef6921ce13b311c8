//! A text with its tree, and what a refusal prints.

use crate::check::{count, equal, holds};
use crate::common::span;
use crate::maker::{Maker, leave};
use starlark_ast::ast::StmtP;
use starlark_lexer::dialect::Dialect;
use starlark_lexer::lexer::Lexer;
use starlark_parser::fault::{EvalException, ParserErrorKind};
use starlark_parser::fields::AstModuleFields;
use starlark_parser::module::AstModule;
use starlark_place::codemap::CodeMapId;
use std::alloc::Global;
use std::process::Abort;

fn parse(m: &Maker<'_, impl Abort>, alloc: Global, text: &str) -> Result<AstModule, EvalException> {
    let dialect = &Dialect::Standard;
    AstModule::parse(alloc, CodeMapId(1), "t", m.text(text), dialect)
}

#[test]
fn modules(rt: HostRuntime) {
    let m = &Maker::new(&rt, rt.alloc());
    let module = m.made(parse(m, rt.alloc(), "foo\ndef x():\n   pass"));
    equal(&rt, module.statement().span, span(0, 20));
    holds(&rt, matches!(module.statement().node, StmtP::Statements(_)));
}

/// What is answered in the place of a module prints the fault and its place, or that there is none.
#[test]
fn exceptions(rt: HostRuntime) {
    let m = &Maker::new(&rt, rt.alloc());
    let Err(refused) = parse(m, rt.alloc(), "x = )") else {
        panic!(rt; "it is taken")
    };
    m.prints(&refused, "unexpected token: t:1:5-6");
    m.prints(&EvalException::TooLong, "the text is too long");
    m.prints(&EvalException::Memory, "out of memory");
}

/// Texts that are refused, what the refusal prints, and its kind.
static REFUSED: [(&str, &str, ParserErrorKind); 4] = [
    (
        "1 + 2 )",
        "unexpected token: t:1:7-8",
        ParserErrorKind::Syntax,
    ),
    (
        "if x:\n",
        "unexpected end of the text: t:2:1",
        ParserErrorKind::Syntax,
    ),
    ("x = $", "invalid input: t:1:5-6", ParserErrorKind::Lexer),
    (
        "1 = 2 )",
        "this may not be assigned to: t:1:1-2",
        ParserErrorKind::Rule,
    ),
];

#[test]
fn refusals(rt: HostRuntime) {
    let m = &Maker::new(&rt, rt.alloc());
    for (text, shown, kind) in &REFUSED {
        let Err(EvalException::Fault(fault)) = parse(m, rt.alloc(), text) else {
            panic!(rt; "it is taken, or memory ran out")
        };
        m.prints(&fault, shown);
        equal(&rt, fault.inner().kind(), *kind);
    }
}

/// How often the lexer is asked of a text, up to its end or what stands ahead where it is refused.
static COSTS: [(&str, u64); 6] = [
    ("foo\ndef x():\n   pass", 13),
    // a rule, a token, the lexer's fault, and the end
    ("1 = 2 )", 4),
    ("1 = 2 ) # a\n# b", 4),
    ("# a\nx = # b\n1", 5),
    ("x = $ # a", 3),
    ("if x: # a\n# b", 8),
];

/// What is told of a reading is what the lexer counts where it is asked so often.
#[test]
fn costs(rt: HostRuntime) {
    let m = &Maker::new(&rt, rt.alloc());
    for (text, asks) in &COSTS {
        let (module, cost) = AstModule::parse_counted(
            rt.alloc(),
            CodeMapId(1),
            "t",
            m.text(text),
            &Dialect::Standard,
        );
        holds(&rt, !matches!(&module, Err(EvalException::Memory)));
        leave(module);
        let map = m.map_of(1, "t", text);
        let mut lexer = Lexer::new(rt.alloc(), text, &Dialect::Standard, map);
        for _ in 0..*asks {
            leave(lexer.next());
        }
        equal(&rt, (cost.asks, cost.reads), (*asks, lexer.reads()));
    }
}

/// Whether types are checked is what the text says.
#[test]
fn typechecks(rt: HostRuntime) {
    let m = Maker::new(&rt, rt.alloc());
    let (_codemap, tree, _, is_checked) = m.parsed("# @starlark-rust: typecheck\n").into_parts();
    leave(tree);
    holds(&rt, is_checked);
    let (_codemap, tree, _, is_checked) = m.parsed("").into_parts();
    leave(tree);
    holds(&rt, !is_checked);
}

#[test]
fn comments(rt: HostRuntime) {
    let module = Maker::new(&rt, rt.alloc()).parsed("# a\n# b\nx = 1\n# c");
    let comments = module.comments();
    count(&rt, comments.len(), 3);
    equal(&rt, comments[0], span(0, 3));
    equal(&rt, comments[1], span(4, 7));
    equal(&rt, comments[2], span(14, 17));
}

/// A stretch in one line, and one over two.
#[test]
fn file_spans(rt: HostRuntime) {
    let m = Maker::new(&rt, rt.alloc());
    let module = m.parsed("x = 1\nf(x)\n");
    let within = span(6, 10);
    holds(&rt, module.codemap().holds(within));
    m.prints(&m.made(module.file_span(within)), "t:2:1-5");
    let over = span(4, 7);
    holds(&rt, module.codemap().holds(over));
    m.prints(&m.made(module.file_span(over)), "t:1:5-2:2");
}
