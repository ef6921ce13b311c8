//! Errors with their places.

use crate::check::{count, equal, holds};
use crate::common::span;
use crate::maker::Maker;
use starlark_place::codemap::CodeMapError;
use starlark_place::diagnostic::{_testing_loc, CallStack, Frame, Refusal, WithDiagnostic};

#[test]
fn diagnostics(rt: HostRuntime) {
    let m = Maker::new(&rt, rt.alloc());
    let map = m.map_of(0, "f", "x");
    count(&rt, map.source().len(), 1);
    holds(&rt, map.holds(span(0, 1)) && map.holds(span(0, 0)));
    let mut three = m.made(WithDiagnostic::new_spanned(rt.alloc(), 3u8, span(0, 1), &map));
    m.prints(&three, "3: f:1:1-2");
    m.made(three.set_span(span(0, 0), &map));
    m.prints(&three, "3: f:1:1-2");
    holds(&rt, three.call_stack().frames.is_empty());
    let frames = m.one(Frame {
        name: m.text("g"),
        location: None,
    });
    three.set_call_stack(|| CallStack { frames });
    count(&rt, three.call_stack().frames.len(), 1);
    let four = m.made(three.map(rt.alloc(), |n| n.wrapping_add(1)));
    equal(&rt, *four.inner(), 4);
    count(&rt, four.call_stack().frames.len(), 1);
    let Some(place) = four.span() else {
        panic!(rt; "it has no place")
    };
    m.prints(place, "f:1:1-2");
    equal(&rt, four.into_inner(), 4);
}

#[test]
fn refusals(rt: HostRuntime) {
    let m = Maker::new(&rt, rt.alloc());
    let map = m.map_of(0, "f", "x");
    holds(&rt, map.holds(span(0, 1)));
    let refusal = Refusal::new(rt.alloc(), 3u8, span(0, 1), &map);
    holds(&rt, matches!(refusal, Refusal::Fault(_)));
    let Some(place) = m.made(_testing_loc(rt.alloc(), &refusal)) else {
        panic!(rt; "it has no place")
    };
    m.prints(&place, "f:1:1-2");
    let memory: Refusal<u8> = Refusal::Memory;
    holds(&rt, m.made(_testing_loc(rt.alloc(), &memory)).is_none());
    m.prints(&CodeMapError::TooLong, "the source is too long");
    m.prints(&CodeMapError::Memory, "out of memory");
}
