//! Findings that the comments of a text suppress.

use crate::check::{count, holds};
use crate::common::span;
use crate::maker::Maker;

#[test]
fn alone_on_its_line(rt: HostRuntime) {
    let m = Maker::new(&rt, rt.alloc());
    let module = m.parsed("# starlark-lint-disable foo\nx = 1\n");
    holds(&rt, module.is_suppressed("foo", span(28, 33)));
    holds(&rt, !module.is_suppressed("bar", span(28, 33)));
    holds(&rt, !module.is_suppressed("fo", span(28, 33)));
    holds(&rt, !module.is_suppressed("foo", span(0, 28)));
    holds(&rt, module.is_suppressed("foo", span(0, 0)));
    holds(&rt, module.is_suppressed("foo", span(0, 4294967295)));
}

#[test]
fn behind_a_statement(rt: HostRuntime) {
    let m = Maker::new(&rt, rt.alloc());
    let module = m.parsed("x = 1 # starlark-lint-disable foo\ny\n");
    holds(&rt, module.is_suppressed("foo", span(0, 5)));
    holds(&rt, !module.is_suppressed("foo", span(34, 35)));
}

#[test]
fn in_the_last_line(rt: HostRuntime) {
    let m = Maker::new(&rt, rt.alloc());
    let module = m.parsed("# starlark-lint-disable foo");
    holds(&rt, module.is_suppressed("foo", span(0, 27)));
    holds(&rt, !module.is_suppressed("foo", span(0, 28)));
}

// Comments at 0..3, 4..32, 33..60, 61..64 and, behind a blank line, 66..69.
#[test]
fn several(rt: HostRuntime) {
    let m = Maker::new(&rt, rt.alloc());
    let text = "# a\n# starlark-lint-disable b, c\n#  starlark-lint-disable  d\n# e\n\n# f\nx\n";
    let module = m.parsed(text);
    count(&rt, module.comments().len(), 5);
    holds(&rt, module.is_suppressed("b", span(4, 4)));
    holds(&rt, module.is_suppressed("c", span(66, 66)));
    holds(&rt, module.is_suppressed("d", span(4, 5)));
    holds(&rt, !module.is_suppressed("d", span(67, 67)));
    holds(&rt, !module.is_suppressed("d", span(65, 65)));
    holds(&rt, !module.is_suppressed("d", span(0, 3)));
    holds(&rt, !module.is_suppressed("e", span(4, 4)));
}

// The line of the comment begins with four blanks, and ends in a CR and an LF.
#[test]
fn behind_blanks(rt: HostRuntime) {
    let m = Maker::new(&rt, rt.alloc());
    let module = m.parsed("if x:\n    # starlark-lint-disable a\r\n    y\n    z\n");
    holds(&rt, module.is_suppressed("a", span(6, 6)));
    holds(&rt, module.is_suppressed("a", span(41, 42)));
    holds(&rt, !module.is_suppressed("a", span(5, 5)));
    holds(&rt, !module.is_suppressed("a", span(47, 48)));
}
