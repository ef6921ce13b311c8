//! The word `tokens`: what the lexer cuts a text into.

ghost use Rattle.std.specs.Prelude.{◌≡◌};

use crate::answer::Refused;
use crate::quote::{push_bytes, push_text};
use starlark_lexer::dialect::Dialect;
use starlark_lexer::lexer::{EvalException, Lexer};
use starlark_lexer::place::codemap::CodeMap;
use starlark_lexer::place::diagnostic::Refusal;
use starlark_lexer::token::{FStringQuote, Token};
use std::alloc::{AllocError, Global};
use std::fmt::Write;

/// A line for each token, and a last one for the end or the fault.
pub(crate) fn answer(
    alloc: Global,
    text: &str,
    dialect: &Dialect,
    codemap: CodeMap,
) -> Result<String, Refused>
    requires { codemap.source ≡ text.now }
{
    let mut out = String::new(alloc);
    let mut lexer = Lexer::new(alloc, text, dialect, codemap);
    while let Some(item) = lexer.next() {
        match item {
            Ok((begin, token, end)) => push_token(&mut out, begin, &token, end)?,
            Err(error) => {
                push_fault(&mut out, &error)?;
                return Ok(out);
            }
        }
    }
    out.push_str("end\n")?;
    Ok(out)
}

/// Puts the line of a token behind `out`.
fn push_token(out: &mut String, begin: usize, token: &Token, end: usize) -> Result<(), AllocError> {
    write!(out, "{begin}..{end} {token}")?;
    match token {
        Token::Comment(text) | Token::String(text) | Token::FStringText(text) => {
            out.push(' ')?;
            push_text(out, text.as_str())?;
        }
        Token::Bytes(bytes) => {
            out.push(' ')?;
            push_bytes(out, bytes.as_slice())?;
        }
        Token::FStringStart(quote) => {
            out.push(' ')?;
            out.push_str(quotes(*quote))?;
        }
        _ => {}
    }
    out.push('\n')
}

/// The quotes themselves.
fn quotes(quote: FStringQuote) -> &'static str {
    match quote {
        FStringQuote::Single => "'",
        FStringQuote::Double => "\"",
        FStringQuote::TripleSingle => "'''",
        FStringQuote::TripleDouble => "\"\"\"",
    }
}

/// Puts the line of a fault behind `out`.
fn push_fault(out: &mut String, error: &EvalException) -> Result<(), Refused> {
    let Refusal::Fault(fault) = error else {
        return Err(Refused::Memory);
    };
    if let Some(place) = fault.span() {
        let (begin, end) = (place.span.begin().get(), place.span.end().get());
        write!(out, "{begin}..{end} ")?;
    }
    write!(out, "fault {:?}\n", *fault.inner())?;
    Ok(())
}
