//! Texts and bytes in quotes, as trees print them.

use std::alloc::AllocError;
use std::fmt::Write;

/// What stands in quotes for a character that does not stand for itself.
fn escaped(c: char) -> Option<&'static str> {
    match c {
        '\n' => Some("\\n"),
        '\t' => Some("\\t"),
        '\r' => Some("\\r"),
        '\0' => Some("\\0"),
        '"' => Some("\\\""),
        '\\' => Some("\\\\"),
        _ => None,
    }
}

/// Puts a text in quotes behind `out`.
pub(crate) fn push_text(out: &mut String, text: &str) -> Result<(), AllocError> {
    out.push('"')?;
    for c in text.chars() {
        match escaped(c) {
            Some(letters) => out.push_str(letters)?,
            None => out.push(c)?,
        }
    }
    out.push('"')
}

/// Puts bytes in quotes behind `out`: a byte that is no printing ASCII character by its value.
pub(crate) fn push_bytes(out: &mut String, bytes: &[u8]) -> Result<(), AllocError> {
    out.push_str("b\"")?;
    for b in bytes {
        match b {
            b'\n' => out.push_str("\\n")?,
            b'\r' => out.push_str("\\r")?,
            b'\t' => out.push_str("\\t")?,
            b'"' => out.push_str("\\\"")?,
            b'\\' => out.push_str("\\\\")?,
            0x20..=0x7e => out.push(char::from(*b))?,
            _ => write!(out, "\\x{b:02x}")?,
        }
    }
    out.push('"')
}
