//! Calls on strings, and cursors.

use crate::check::{equal, holds};
use starlark_place::cursor::{CursorBytes, CursorChars};
use starlark_place::fast_string;
use starlark_place::fast_string::CharIndex;

#[test]
fn indices(rt: HostRuntime) {
    equal(
        &rt,
        fast_string::convert_indices(10, Some(-3), None),
        (7, 10),
    );
    equal(
        &rt,
        fast_string::convert_indices(5, Some(3), Some(1)),
        (3, 1),
    );
    equal(
        &rt,
        fast_string::convert_indices(2147483647, Some(i32::MIN), Some(i32::MAX)),
        (0, 2147483647),
    );
    equal(&rt, fast_string::convert_index(10, -20), 0);
    let cut = fast_string::convert_str_indices("héllo", Some(1), Some(-1));
    holds(&rt, cut.is_some());
    if let Some(cut) = cut {
        equal(&rt, cut.start, CharIndex(1));
        equal(&rt, cut.haystack, "éll");
    }
    holds(
        &rt,
        fast_string::convert_str_indices("abc", Some(4), None).is_none()
            && fast_string::convert_str_indices("abc", Some(2), Some(1)).is_none(),
    );
    holds(
        &rt,
        matches!(
            fast_string::convert_str_indices("", None, None),
            Some(cut) if cut.start == CharIndex(0) && cut.haystack.is_empty()
        ),
    );
}

/// Texts and needles, how often one stands in the other, and whether it does.
static NEEDLES: [(&str, &str, usize, bool); 5] = [
    ("aaaa", "aa", 2, true),
    ("", "", 1, true),
    ("é", "", 2, true),
    ("né", "é", 1, true),
    ("abc", "d", 0, false),
];

#[test]
fn needles(rt: HostRuntime) {
    for (text, needle, count, within) in &NEEDLES {
        equal(&rt, fast_string::count_matches(text, needle), *count);
        equal(&rt, fast_string::contains(text, needle), *within);
    }
}

#[test]
fn strings(rt: HostRuntime) {
    equal(
        &rt,
        fast_string::split_at("né", CharIndex(2)),
        Some(("né", "")),
    );
    equal(&rt, fast_string::split_at("né", CharIndex(3)), None);
    equal(&rt, fast_string::at("né", CharIndex(1)), Some('é'));
    equal(&rt, fast_string::at("né", CharIndex(2)), None);
    let long = "né, né, né, né, né, né, né, né, né, né, né, né";
    equal(&rt, fast_string::len(long), CharIndex(46));
    equal(&rt, fast_string::count_matches_byte(long, b'n'), 12);
}

#[test]
fn cursors(rt: HostRuntime) {
    let mut bytes = CursorBytes::new("aé");
    equal(&rt, bytes.next_char(), Some('a'));
    equal(&rt, bytes.next(), Some(195));
    equal(&rt, bytes.pos(), 2);
    let mut chars = CursorChars::new_offset("aé", 0);
    equal(&rt, chars.peek(), Some('a'));
    equal(&rt, chars.next(), Some('a'));
    equal(&rt, chars.next(), Some('é'));
    equal(&rt, chars.next(), None);
    equal(&rt, chars.pos(), 3);
    chars.unnext('é');
    equal(&rt, chars.pos(), 1);
    equal(
        &rt,
        CharIndex(2) + CharIndex(3) - CharIndex(1),
        CharIndex(4),
    );
}
