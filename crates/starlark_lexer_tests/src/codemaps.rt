//! Code maps, places in files, and many maps.

use crate::check::{count, equal, holds};
use crate::common::span;
use crate::maker::Maker;
use starlark_place::codemap::CodeMapId;
use starlark_place::codemaps::CodeMaps;
use starlark_place::file_span::FileSpan;
use starlark_place::pos::Pos;
use starlark_place::resolved::ResolvedPos;
use std::hash::{DefaultHasher, Hash, Hasher};

/// Places in the text of `places`, with their line and column.
static PLACES: [(u32, usize, usize); 4] = [(0, 0, 0), (4, 0, 4), (5, 1, 0), (16, 2, 4)];

#[test]
fn places(rt: HostRuntime) {
    let m = Maker::new(&rt, rt.alloc());
    let map = m.map_of(3, "f", "abcd\nefghij\nqwerty");
    for (pos, line, column) in &PLACES {
        let at = span(*pos, *pos);
        holds(&rt, map.holds(at));
        let found = map.resolve_span(at);
        let want = ResolvedPos {
            line: *line,
            column: *column,
        };
        equal(&rt, found.begin, want);
        equal(&rt, found.end, want);
    }
}

#[test]
fn maps(rt: HostRuntime) {
    let m = Maker::new(&rt, rt.alloc());
    let map = m.map_of(3, "f", "abcd\nefghij\nqwerty");
    count(&rt, map.source().len(), 18);
    equal(&rt, map.byte_at(Pos::new(6)), b'f');
    equal(&rt, map.full_span(), span(0, 18));
    equal(&rt, map.id(), CodeMapId(3));
    equal(&rt, map.filename(), "f");
    let other = m.made(map.dupe());
    holds(&rt, other == map);
    holds(&rt, map.holds(span(5, 11)));
    m.prints(&m.made(map.file_span(span(5, 11))), "f:2:1-7");
}

#[test]
fn lines(rt: HostRuntime) {
    let m = Maker::new(&rt, rt.alloc());
    let map = m.map_of(0, "f", "abcd\nefghij\nqwerty");
    equal(&rt, map.line_span_opt(1), Some(span(5, 12)));
    equal(&rt, map.line_span_opt(4), None);
    if map.line_span_opt(1).is_some() {
        equal(&rt, map.source_line(1), "efghij");
        equal(&rt, map.line_span(1), span(5, 12));
    }
    let map = m.map_of(0, "f", "a\n");
    equal(&rt, map.line_span_opt(0), Some(span(0, 2)));
    equal(&rt, map.line_span_opt(1), Some(span(2, 2)));
    equal(&rt, map.line_span_opt(2), None);
}

#[test]
fn trimmed_lines(rt: HostRuntime) {
    let m = Maker::new(&rt, rt.alloc());
    let map = m.map_of(0, "f", "a\r\n");
    if map.line_span_opt(0).is_some() {
        equal(&rt, map.line_span_trim_newline(0), span(0, 1));
    }
    let map = m.map_of(0, "f", "a\r\r\n\rb");
    if map.line_span_opt(0).is_some() {
        equal(&rt, map.line_span_trim_newline(0), span(0, 2));
        equal(&rt, map.source_line(0), "a");
    }
    count(&rt, map.source().len(), 6);
    equal(&rt, map.source_line_at_pos(Pos::new(5)), "\rb");
}

#[test]
fn file_spans(rt: HostRuntime) {
    let m = Maker::new(&rt, rt.alloc());
    let (name, source) = (m.text("a"), m.text("xyz"));
    let place = m.made(FileSpan::new(rt.alloc(), CodeMapId(1), name, source));
    m.prints(&place, "a:1:1-4");
    m.prints(&place.as_ref(), "a:1:1-4");
    let again = m.made(place.as_ref().to_file_span());
    holds(&rt, again == place);
    equal(&rt, place.source_span(), "xyz");
}

#[test]
fn resolved_files(rt: HostRuntime) {
    let m = Maker::new(&rt, rt.alloc());
    let map = m.map_of(1, "a", "xyz");
    let place = m.made(map.file_span(map.full_span()));
    let resolved = m.made(place.resolve(rt.alloc()));
    m.prints(&resolved, "a:1:1-4");
    equal(&rt, resolved.file.as_str(), "a");
    let line = m.made(resolved.begin_file_line(rt.alloc()));
    m.prints(&line, "a:1");
    equal(&rt, line.line, 0);
}

#[test]
fn files_without_a_name(rt: HostRuntime) {
    let m = Maker::new(&rt, rt.alloc());
    let map = m.map_of(u64::MAX, "", "ab\ncd\n");
    holds(&rt, map.holds(span(3, 5)));
    let place = m.made(map.file_span(span(3, 5)));
    m.prints(&place, ":2:1-3");
    let again = m.made(place.as_ref().to_file_span());
    holds(&rt, again == place);
    let resolved = m.made(place.resolve(rt.alloc()));
    m.prints(&resolved, ":2:1-3");
    m.prints(&m.made(resolved.begin_file_line(rt.alloc())), ":2");
}

// the order and the hash of two file spans, and whether they are equal
fn compared(a: &FileSpan, b: &FileSpan) -> (bool, bool, bool) {
    let mut first = DefaultHasher::new();
    a.hash(&mut first);
    let mut second = DefaultHasher::new();
    b.hash(&mut second);
    (a == b, a < b, first.finish() == second.finish())
}

/// Two files by their names, numbers and texts; whether they are equal, whether the first comes before the second, and
/// whether their hashes are the same.
static ORDERED: [(&str, u64, &str, &str, u64, &str, (bool, bool, bool)); 4] = [
    ("a", 1, "xyz", "a", 1, "xyz", (true, false, true)),
    ("a", 1, "xyz", "a", 2, "xyz", (false, true, false)),
    ("a", 2, "xy", "a", 1, "xyz", (false, true, false)),
    ("b", 1, "xyz", "a", 2, "xyz", (false, false, false)),
];

#[test]
fn orders(rt: HostRuntime) {
    let m = Maker::new(&rt, rt.alloc());
    for (name, id, source, other_name, other_id, other_source, want) in &ORDERED {
        let a = m.map_of(*id, name, source);
        let a = m.made(a.file_span(a.full_span()));
        let b = m.map_of(*other_id, other_name, other_source);
        let b = m.made(b.file_span(b.full_span()));
        equal(&rt, compared(&a, &b), *want);
    }
}

#[test]
fn maps_by_id(rt: HostRuntime) {
    let m = Maker::new(&rt, rt.alloc());
    let mut maps = CodeMaps::new(rt.alloc());
    m.made(maps.add(&m.map_of(7, "f", "")));
    m.made(maps.add(&m.map_of(7, "g", "")));
    m.made(maps.add(&m.map_of(9, "i", "")));
    let mut all = CodeMaps::new(rt.alloc());
    m.made(all.add(&m.map_of(8, "h", "")));
    m.made(all.add_all(&maps));
    for maps in [&maps, &all] {
        let name = match maps.get(CodeMapId(7)) {
            Some(map) => map.filename(),
            None => "none",
        };
        equal(&rt, name, "f");
    }
    holds(&rt, all.get(CodeMapId(8)).is_some());
    holds(&rt, all.get(CodeMapId(9)).is_some());
    holds(&rt, maps.get(CodeMapId(8)).is_none());
}
