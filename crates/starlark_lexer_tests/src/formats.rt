//! Format strings.

use crate::check::{equal, equal_in, holds_in};
use starlark_lexer::format::{EscapeCurlyBrace, FormatError, FormatErrorKind, FormatParser};
use std::alloc::Global;
use std::fmt::Write;
use std::test::Fail;

/// The tokens of a format string, a line each, and then one for its end, which is asked for twice, or its error.
fn cut(alloc: Global, text: &str) -> Result<String, Fail> {
    let mut shown = String::new(alloc);
    let mut parser = FormatParser::new(text);
    for _ in 0..=text.len() {
        let Ok(Some(token)) = parser.next() else {
            break;
        };
        write!(shown, "{token:?}\n")?;
    }
    if parser.next() == Ok(None) {
        shown.push_str("end\n")?;
    } else {
        shown.push_str("error\n")?;
    }
    Ok(shown)
}

/// Format strings and their tokens.
static TOKENS: [(&str, &str); 5] = [
    (
        "a{b!r}}}",
        "Text(\"a\")\nCapture { capture: \"b\", pos: 2, conv: Repr }\nEscape(Close)\nend\n",
    ),
    (
        "{{}}é{{",
        "Escape(Open)\nEscape(Close)\nText(\"é\")\nEscape(Open)\nend\n",
    ),
    (
        "{}{a b}{n!s}é{!r}",
        "Capture { capture: \"\", pos: 1, conv: Str }\nCapture { capture: \"a b\", pos: 3, conv: Str }\nCapture { capture: \"n\", pos: 8, conv: Str }\nText(\"é\")\nCapture { capture: \"\", pos: 15, conv: Repr }\nend\n",
    ),
    ("plain!r", "Text(\"plain!r\")\nend\n"),
    ("", "end\n"),
];

#[test]
fn tokens(rt: HostRuntime) -> Result<(), Fail> {
    for (text, want) in &TOKENS {
        equal_in(&rt, text, cut(rt.alloc(), text)?.as_str(), *want);
    }
    Ok(())
}

/// Format strings, how many tokens come before the error, its kind, and what it prints.
static ERRORS: [(&str, usize, FormatErrorKind, &str); 9] = [
    (
        "}foo",
        0,
        FormatErrorKind::Standalone,
        "Standalone '}' in format string `}foo`",
    ),
    (
        "a{b",
        1,
        FormatErrorKind::Unmatched,
        "Unmatched '{' in format string `a{b`",
    ),
    (
        "{a{b}",
        0,
        FormatErrorKind::Unmatched,
        "Unmatched '{' in format string `{a{b}`",
    ),
    (
        "{a!x",
        0,
        FormatErrorKind::Unmatched,
        "Unmatched '{' in format string `{a!x`",
    ),
    (
        "{a!x}",
        0,
        FormatErrorKind::Conversion,
        "Unknown conversion in format string `{a!x}`",
    ),
    (
        "{a!}",
        0,
        FormatErrorKind::Conversion,
        "Unknown conversion in format string `{a!}`",
    ),
    (
        "{a!s!r}",
        0,
        FormatErrorKind::Conversion,
        "Unknown conversion in format string `{a!s!r}`",
    ),
    (
        "{}}",
        1,
        FormatErrorKind::Standalone,
        "Standalone '}' in format string `{}}`",
    ),
    (
        "é{{}",
        2,
        FormatErrorKind::Standalone,
        "Standalone '}' in format string `é{{}`",
    ),
];

#[test]
fn errors(rt: HostRuntime) -> Result<(), Fail> {
    for (text, before, kind, shown) in &ERRORS {
        let mut parser = FormatParser::new(text);
        for _ in 0..*before {
            holds_in(&rt, text, matches!(parser.next(), Ok(Some(_))));
        }
        for _ in 0..2 {
            let error = FormatError { kind: *kind, text };
            equal_in(&rt, text, parser.next(), Err(error));
            equal(&rt, error.to_string(rt.alloc())?.as_str(), *shown);
        }
    }
    Ok(())
}

#[test]
fn braces(rt: HostRuntime) {
    for (brace, one, two) in [
        (EscapeCurlyBrace::Open, "{", "{{"),
        (EscapeCurlyBrace::Close, "}", "}}"),
    ] {
        equal(&rt, brace.as_str(), one);
        equal(&rt, brace.back_to_escape(), two);
    }
}
