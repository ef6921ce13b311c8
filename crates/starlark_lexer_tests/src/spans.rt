//! Spans, and what places print.

use crate::check::{equal, holds};
use crate::common::span;
use crate::maker::Maker;
use starlark_place::pos::{Pos, Span, Spanned};
use starlark_place::resolved::{ResolvedPos, ResolvedSpan};

/// Lines and columns of a span's begin and end, all from 0, and what it prints.
static PRINTED: [(usize, usize, usize, usize, &str); 7] = [
    (0, 4, 0, 4, "1:5"),
    (0, 8, 0, 9, "1:9-10"),
    (1, 0, 2, 7, "2:1-3:8"),
    (0, 9, 0, 8, "1:10-9"),
    (2, 7, 1, 0, "3:8-2:1"),
    (usize::MAX, 0, usize::MAX, 0, "18446744073709551616:1"),
    (
        usize::MAX,
        usize::MAX,
        usize::MAX,
        usize::MAX,
        "18446744073709551616:18446744073709551616",
    ),
];

#[test]
fn printed_spans(rt: HostRuntime) {
    let m = Maker::new(&rt, rt.alloc());
    for (line, column, end_line, end_column, want) in &PRINTED {
        let begin = ResolvedPos {
            line: *line,
            column: *column,
        };
        let end = ResolvedPos {
            line: *end_line,
            column: *end_column,
        };
        m.prints(&ResolvedSpan { begin, end }, want);
    }
    m.prints(&ResolvedPos { line: 0, column: 4 }, "1:5");
}

#[test]
fn spans(rt: HostRuntime) {
    equal(&rt, Span::merge_all([].iter().copied()), span(0, 0));
    let three = [span(3, 4), span(1, 2), span(2, 6)];
    equal(&rt, Span::merge_all(three.iter().copied()), span(1, 6));
    let mut place = Spanned {
        span: span(1, 2),
        node: 3u8,
    };
    *place = 4;
    equal(&rt, *place.as_ref().node, 4);
    equal(&rt, place.map(|n| n / 2).node, 2);
}

/// Both ends of a span are in it.
#[test]
fn ends(rt: HostRuntime) {
    let place = span(2, 4);
    equal(&rt, place.end_span(), span(4, 4));
    holds(
        &rt,
        place.contains(Pos::new(2)) && place.contains(Pos::new(4)),
    );
    holds(&rt, !place.contains(Pos::new(5)));
    let last = span(u32::MAX, u32::MAX);
    holds(
        &rt,
        last.contains(Pos::new(u32::MAX)) && !last.intersects(span(0, 0)),
    );
    let resolved = ResolvedSpan {
        begin: ResolvedPos { line: 0, column: 3 },
        end: ResolvedPos { line: 2, column: 1 },
    };
    holds(
        &rt,
        resolved.contains(resolved.begin) && resolved.contains(resolved.end),
    );
    holds(&rt, !resolved.contains(ResolvedPos { line: 2, column: 2 }));
    let mut pos = Pos::new(1) + 4;
    pos += 2;
    equal(&rt, pos - 3, Pos::new(4));
}
