//! A text that is one identifier.

ghost use Rattle.std.specs.Prelude.{◌≡◌, ◌≤◌, IfOk, IsOk, length, true, false};
ghost use Rattle.std.specs.List.{list_all, prefix_len};
ghost use Rattle.starlark_lexer.specs.Classes as classes;
ghost use Rattle.starlark_lexer.specs.Identifier as spec;
ghost use Rattle.starlark_lexer.specs.Identifier.{Answers};

use crate::blocks::word_len;
use crate::scan::{Class, is_reserved, keyword_of, run_len};
use std::alloc::{AllocError, Global};

/// How many blanks stand at the front.
fn blanks(bytes: &[u8]) -> usize
    ensures value { result ≡ prefix_len classes.is_blank bytes.now }
    ensures within { result ≤ length bytes.now }
{
    run_len(Class::Blank, bytes)
}

fn are_blanks(bytes: &[u8]) -> bool
    ensures { result ≡ list_all classes.is_blank bytes.now }
{
    blanks(bytes) == bytes.len()
}

/// A run of letters, digits and underscores is an identifier.
fn is_identifier(word: &[u8]) -> bool
    requires { list_all classes.is_word_byte word.now ≡ true }
    ensures { result ≡ spec.is_identifier word.now }
{
    if word.is_empty() || !(word[0].is_ascii_alphabetic() || word[0] == b'_') {
        return false;
    }
    keyword_of(word).is_none() && !is_reserved(word)
}

/// The identifier, where the text is one that is no keyword and not reserved, with spaces, tabs
/// and CRs around it.
///
/// `Err` comes only where there is no memory for it.
pub fn lex_exactly_one_identifier(alloc: Global, s: &str) -> Result<Option<String>, AllocError>
    ensures answer { IfOk result (λ o. Answers s.now o) }
    ensures sure { spec.is_one s.now ≡ false → IsOk result }
{
    let rest = &s[blanks(s.as_bytes())..];
    let len = word_len(rest.as_bytes());
    let word = &rest[..len];
    if !are_blanks(&rest.as_bytes()[len..]) {
        return Ok(None);
    }
    if !is_identifier(word.as_bytes()) {
        return Ok(None);
    }
    Ok(Some(String::from_str(alloc, word)?))
}
