//! Cuts a format string into texts, captures and escaped braces.

ghost use Rattle.std.specs.Prelude.{◌≡◌, ◌≤◌, ◌<◌, ◌^◌, ◌+◌, ◌++◌, Some, length};
ghost use Rattle.starlark_lexer.specs.Format as spec;
ghost use Rattle.starlark_lexer.specs.FormatScan as code;
ghost use Rattle.starlark_lexer.specs.Format.{Gives, Pieces, error_text};

use std::error::Error;
use std::fmt;
use std::marker::Model;

/// How the value of a capture is printed.
#[derive(Clone, Copy, Debug, PartialEq, Eq)]
pub enum FormatConv {
    Str,
    Repr,
}

/// An escaped brace.
#[derive(Clone, Copy, Debug, PartialEq, Eq)]
pub enum EscapeCurlyBrace {
    Open,
    Close,
}

impl EscapeCurlyBrace {
    /// The one brace that it stands for.
    pub fn as_str(self) -> &'static str
        ensures { result.now ≡ spec.one_brace self }
    {
        match self {
            EscapeCurlyBrace::Open => "{",
            EscapeCurlyBrace::Close => "}",
        }
    }

    /// The two braces that it is written as.
    pub fn back_to_escape(self) -> &'static str
        ensures { result.now ≡ spec.one_brace self ++ spec.one_brace self }
    {
        match self {
            EscapeCurlyBrace::Open => "{{",
            EscapeCurlyBrace::Close => "}}",
        }
    }
}

/// A piece of a format string.
#[derive(Clone, Copy, Debug, PartialEq, Eq)]
pub enum FormatToken<'a> {
    /// The longest run of text without braces.
    Text(&'a str),
    /// What stands between two braces.
    Capture {
        /// All before the first `!`.
        capture: &'a str,
        /// Where the name begins, in bytes from the beginning of the format string.
        pos: usize,
        /// `Repr` behind `!r`, else `Str`.
        conv: FormatConv,
    },
    /// Two braces of one kind.
    Escape(EscapeCurlyBrace),
}

/// What is wrong with a format string.
#[derive(Clone, Copy, Debug, PartialEq, Eq)]
pub enum FormatErrorKind {
    /// A closing brace by itself.
    Standalone,
    /// A capture that meets an opening brace or the end.
    Unmatched,
    /// Something other than `s` or `r` behind a `!`, or nothing.
    Conversion,
}

/// Why a format string is refused.
#[derive(Clone, Copy, Debug, PartialEq, Eq)]
pub struct FormatError<'a> {
    pub kind: FormatErrorKind,
    /// The whole format string.
    pub text: &'a str,
}

fn kind_text(kind: FormatErrorKind) -> &'static str
    ensures { result.now ≡ spec.kind_text kind }
{
    match kind {
        FormatErrorKind::Standalone => "Standalone '}'",
        FormatErrorKind::Unmatched => "Unmatched '{'",
        FormatErrorKind::Conversion => "Unknown conversion",
    }
}

impl<'a> fmt::Display for FormatError<'a> {
    ghost output = { λ e. Some (error_text e) };

    fn fmt<W: fmt::Write>(&self, f: &mut fmt::Formatter<W>) -> fmt::Result {
        let kind = kind_text(self.kind);
        let text = self.text;
        write!(f, "{kind} in format string `{text}`")
    }
}

impl<'a> Error for FormatError<'a> {}

/// What stands at a place of a format string.
#[derive(Clone, Copy, Debug)]
pub(crate) enum Turn {
    Over,
    /// So many bytes.
    Text(usize),
    Escape(EscapeCurlyBrace),
    /// The length of the name, the conversion, and the length with both braces.
    Capture(usize, FormatConv, usize),
    Fault(FormatErrorKind),
}

/// How many bytes stand before the first brace.
fn plain(bytes: &[u8]) -> usize
    ensures value { result ≡ spec.plain bytes.now }
    ensures within { result ≤ length bytes.now }
{
    let mut end = 0;
    while end < bytes.len() && !(bytes[end] == b'{' || bytes[end] == b'}') {
        end += 1;
    }
    end
}

fn name_len(bytes: &[u8]) -> usize
    ensures value { result ≡ spec.name_len bytes.now }
    ensures within { result ≤ length bytes.now }
{
    let mut end = 0;
    while end < bytes.len() && bytes[end] != b'!' {
        end += 1;
    }
    end
}

fn conversion(bytes: &[u8]) -> Option<FormatConv>
    ensures { result ≡ spec.conversion bytes.now }
{
    match bytes {
        [] => Some(FormatConv::Str),
        [_, b's'] => Some(FormatConv::Str),
        [_, b'r'] => Some(FormatConv::Repr),
        _ => None,
    }
}

/// A capture with that between its braces.
fn named(inside: &[u8]) -> Turn
    requires { length inside.now + 2 < 2 ^ 64 }
    ensures { result ≡ code.named inside.now }
{
    let len = name_len(inside);
    match conversion(&inside[len..]) {
        Some(conv) => Turn::Capture(len, conv, inside.len() + 2),
        None => Turn::Fault(FormatErrorKind::Conversion),
    }
}

/// What an opening brace begins, by what stands behind it.
fn opens(rest: &[u8]) -> Turn
    requires { length rest.now + 2 < 2 ^ 64 }
    ensures { result ≡ code.opens rest.now }
{
    let len = plain(rest);
    if len < rest.len() && rest[len] == b'}' {
        named(&rest[..len])
    } else {
        Turn::Fault(FormatErrorKind::Unmatched)
    }
}

#[tactic(auto, unfolding(crate::specs::FormatScan::turn))]
fn next_turn(bytes: &[u8]) -> Turn
    ensures { result ≡ code.turn bytes.now }
{
    if bytes.is_empty() {
        return Turn::Over;
    }
    let doubled = bytes.len() > 1 && bytes[1] == bytes[0];
    match bytes[0] {
        b'{' if doubled => Turn::Escape(EscapeCurlyBrace::Open),
        b'{' => opens(&bytes[1..]),
        b'}' if doubled => Turn::Escape(EscapeCurlyBrace::Close),
        b'}' => Turn::Fault(FormatErrorKind::Standalone),
        _ => Turn::Text(plain(bytes)),
    }
}

/// Hands out the pieces of a format string. A clause sees those that are left, and the string.
#[derive(Drop)]
pub struct FormatParser<'a> {
    text: &'a str,
    rest: &'a str,
}

impl<'a> Model for FormatParser<'a> {
    ghost use Rattle.starlark_lexer.specs.Format.{Format};
    ghost use Rattle.starlark_lexer.specs.FormatModel.{view_of, IsParser};

    ghost Value = { Format };

    ghost view = { view_of };

    ghost invariant = { IsParser };
}

impl<'a> FormatParser<'a> {
    /// A parser of a format string, at its beginning (docs/LANGUAGE.md, Format strings). It takes no memory.
    pub fn new(s: &'a str) -> FormatParser<'a>
        ensures left { Pieces 0 s.now result.left }
        ensures text { result.text ≡ s.now }
    {
        FormatParser { text: s, rest: s }
    }

    /// The next piece, or `None` at the end. After an error it gives the same error again.
    ///
    /// It takes no memory.
    pub fn next(&mut self) -> Result<Option<FormatToken<'a>>, FormatError<'a>>
        ensures { Gives self.old result self.new }
    {
        let rest = self.rest;
        match next_turn(rest.as_bytes()) {
            Turn::Over => Ok(None),
            Turn::Text(len) => {
                self.rest = &rest[len..];
                Ok(Some(FormatToken::Text(&rest[..len])))
            }
            Turn::Escape(brace) => {
                self.rest = &rest[2..];
                Ok(Some(FormatToken::Escape(brace)))
            }
            Turn::Capture(name, conv, len) => {
                let pos = self.text.len() - rest.len() + 1;
                self.rest = &rest[len..];
                Ok(Some(FormatToken::Capture {
                    capture: &rest[1..1 + name],
                    pos,
                    conv,
                }))
            }
            Turn::Fault(kind) => Err(FormatError {
                kind,
                text: self.text,
            }),
        }
    }
}
