//! Texts that are one identifier.

use crate::check::equal_in;
use starlark_lexer::identifier::lex_exactly_one_identifier;
use std::test::Fail;

/// Texts, and the identifier that each is, with blanks around it or none; or that it is none.
static TEXTS: [(&str, Option<&str>); 19] = [
    ("foo", Some("foo")),
    (" foo ", Some("foo")),
    ("\t\rfoo\r \t", Some("foo")),
    ("_", Some("_")),
    ("a1_B", Some("a1_B")),
    ("True", Some("True")),
    ("iffy", Some("iffy")),
    ("x", Some("x")),
    ("foo bar", None),
    ("not", None),
    ("123", None),
    ("", None),
    (" ", None),
    ("1a", None),
    ("class", None),
    ("a\n", None),
    ("é", None),
    ("a.b", None),
    ("if", None),
];

#[test]
fn identifiers(rt: HostRuntime) -> Result<(), Fail> {
    for (text, wanted) in &TEXTS {
        let found = lex_exactly_one_identifier(rt.alloc(), text)?;
        let word = match &found {
            Some(word) => Some(word.as_str()),
            None => None,
        };
        equal_in(&rt, text, word, *wanted);
    }
    Ok(())
}
