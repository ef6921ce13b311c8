//! What names, literals and operators print.

ghost use Rattle.std.specs.Fmt.{digit_glyph, WritesOnOk};
ghost use Rattle.std.specs.Prelude.{◌≡◌, ◌<◌, false, Some, string_bytes};
ghost use Rattle.starlark_ast.specs.Printing as spec;
ghost use Rattle.starlark_ast.specs.Printing.{assigning_text, operator_text};
ghost use Rattle.starlark_ast.specs.Shown.{literal_shown};

use crate::ast::{AssignIdentP, AssignOp, AstLiteral, AstPayload, BinOp, IdentP};
use std::fmt;

// a character between quotes
fn write_escaped<W: fmt::Write>(c: char, f: &mut fmt::Formatter<W>) -> fmt::Result
    ensures { WritesOnOk W.write_str_gives f.old result (spec.escaped c) f.new }
{
    match c {
        '\n' => f.write_str("\\n"),
        '\t' => f.write_str("\\t"),
        '\r' => f.write_str("\\r"),
        '\0' => f.write_str("\\0"),
        '"' => f.write_str("\\\""),
        '\\' => f.write_str("\\\\"),
        c => f.write_char(c),
    }
}

// a text between quotes
pub(crate) fn write_quoted<W: fmt::Write>(text: &str, f: &mut fmt::Formatter<W>) -> fmt::Result
    ensures { WritesOnOk W.write_str_gives f.old result (spec.quoted text.now) f.new }
{
    f.write_str("\"")?;
    for c in text.chars() {
        write_escaped(c, f)?;
    }
    f.write_str("\"")
}

// a lower-case hexadecimal digit
fn hex_digit(n: u8) -> char
    requires { n < 16 }
    ensures { result ≡ digit_glyph false n }
{
    if n < 10 {
        char::from(b'0' + n)
    } else {
        char::from(b'a' + (n - 10))
    }
}

// a byte between quotes
fn write_escaped_byte<W: fmt::Write>(byte: u8, f: &mut fmt::Formatter<W>) -> fmt::Result
    ensures { WritesOnOk W.write_str_gives f.old result (spec.escaped_byte byte) f.new }
{
    match byte {
        b'"' => f.write_str("\\\""),
        b'\\' => f.write_str("\\\\"),
        b'\n' => f.write_str("\\n"),
        b'\r' => f.write_str("\\r"),
        b'\t' => f.write_str("\\t"),
        32..=126 => f.write_char(char::from(byte)),
        _ => {
            f.write_str("\\x")?;
            f.write_char(hex_digit(byte / 16))?;
            f.write_char(hex_digit(byte % 16))
        }
    }
}

// bytes between quotes behind a `b`
fn write_quoted_bytes<W: fmt::Write>(bytes: &[u8], f: &mut fmt::Formatter<W>) -> fmt::Result
    ensures { WritesOnOk W.write_str_gives f.old result (spec.quoted_bytes bytes.now) f.new }
{
    f.write_str("b\"")?;
    for byte in bytes {
        write_escaped_byte(*byte, f)?;
    }
    f.write_str("\"")
}

/// A literal, with escapes in quotes. What is printed need not read as the same literal (docs/LANGUAGE.md, What trees
/// print).
impl fmt::Display for AstLiteral {
    ghost output = { λ x. Some (literal_shown x) };

    fn fmt<W: fmt::Write>(&self, f: &mut fmt::Formatter<W>) -> fmt::Result {
        match self {
            AstLiteral::Int(n) => fmt::Display::fmt(&n.node, f),
            AstLiteral::Float(x) => f.write_str(&x.node),
            AstLiteral::String(x) => write_quoted(&x.node, f),
            AstLiteral::Bytes(x) => write_quoted_bytes(&x.node, f),
            AstLiteral::Ellipsis => f.write_str("..."),
        }
    }
}

/// Its name.
impl<P: AstPayload> fmt::Display for IdentP<P> {
    ghost output = { λ x. Some (string_bytes x.ident) };

    fn fmt<W: fmt::Write>(&self, f: &mut fmt::Formatter<W>) -> fmt::Result {
        f.write_str(&self.ident)
    }
}

/// Its name.
impl<P: AstPayload> fmt::Display for AssignIdentP<P> {
    ghost output = { λ x. Some (string_bytes x.ident) };

    fn fmt<W: fmt::Write>(&self, f: &mut fmt::Formatter<W>) -> fmt::Result {
        f.write_str(&self.ident)
    }
}

impl BinOp {
    // the operator with a space on each side
    pub(crate) fn text(self) -> &'static str
        ensures { result.now ≡ operator_text self }
    {
        match self {
            BinOp::Or => " or ",
            BinOp::And => " and ",
            BinOp::Equal => " == ",
            BinOp::NotEqual => " != ",
            BinOp::Less => " < ",
            BinOp::Greater => " > ",
            BinOp::LessOrEqual => " <= ",
            BinOp::GreaterOrEqual => " >= ",
            BinOp::In => " in ",
            BinOp::NotIn => " not in ",
            BinOp::Subtract => " - ",
            BinOp::Add => " + ",
            BinOp::Multiply => " * ",
            BinOp::Percent => " % ",
            BinOp::Divide => " / ",
            BinOp::FloorDivide => " // ",
            BinOp::BitAnd => " & ",
            BinOp::BitOr => " | ",
            BinOp::BitXor => " ^ ",
            BinOp::LeftShift => " << ",
            BinOp::RightShift => " >> ",
        }
    }
}

/// With a space on each side.
impl fmt::Display for BinOp {
    ghost output = { λ op. Some (operator_text op) };

    fn fmt<W: fmt::Write>(&self, f: &mut fmt::Formatter<W>) -> fmt::Result {
        f.write_str(self.text())
    }
}

impl AssignOp {
    // the operator with a space on each side
    pub(crate) fn text(self) -> &'static str
        ensures { result.now ≡ assigning_text self }
    {
        match self {
            AssignOp::Add => " += ",
            AssignOp::Subtract => " -= ",
            AssignOp::Multiply => " *= ",
            AssignOp::Divide => " /= ",
            AssignOp::FloorDivide => " //= ",
            AssignOp::Percent => " %= ",
            AssignOp::BitAnd => " &= ",
            AssignOp::BitOr => " |= ",
            AssignOp::BitXor => " ^= ",
            AssignOp::LeftShift => " <<= ",
            AssignOp::RightShift => " >>= ",
        }
    }
}

/// With a space on each side.
impl fmt::Display for AssignOp {
    ghost output = { λ op. Some (assigning_text op) };

    fn fmt<W: fmt::Write>(&self, f: &mut fmt::Formatter<W>) -> fmt::Result {
        f.write_str(self.text())
    }
}
