//! The lines that answer commands, put together before they are written.

ghost use Rattle.std.specs.Prelude.{◌≡◌, ◌≤◌, ◌+◌, ◌↔◌, [], ◌++◌, codes, decimal, false, length};
ghost use Rattle.starlark_place.specs.Shown.{shown_pos, shown_end, shown_span};
ghost use Rattle.starlark_script.specs.Printed.{kind_text, refusal_line, item_line, count_line};

use itoa::Buffer;
use starlark_parser::fault::ParserErrorKind;
use starlark_parts::fault::PartFault;
use starlark_parts::word::OutlineItem;
use starlark_place::resolved::{ResolvedPos, ResolvedSpan};
use std::marker::Model;

/// How many bytes a reply has room for.
const ROOM: usize = 4096;

/// Lines that are put together before they are written. A clause sees their bytes.
#[derive(Drop)]
pub struct Reply {
    bytes: [u8; ROOM],
    len: usize,
}

impl Model for Reply {
    ghost use Rattle.std.specs.Prelude.{List, ℕ, ◌≤◌, take};

    ghost Value = { List ℕ };

    ghost view = { λ a. take a.len a.bytes };

    ghost invariant = { λ a. a.len ≤ 4096 };
}

impl Reply {
    /// No lines.
    fn new() -> Reply
        ensures { result ≡ [] }
    {
        Reply {
            bytes: [0; ROOM],
            len: 0,
        }
    }

    /// A line of these bytes.
    fn of(text: &[u8]) -> Reply
        requires { length text.now ≤ 4096 }
        ensures { result ≡ text.now }
    {
        let mut line = Reply::new();
        line.push(text);
        line
    }

    /// The bytes so far.
    pub fn as_slice(&self) -> &[u8]
        ensures { result.now ≡ self.now }
    {
        &self.bytes[..self.len]
    }

    /// Puts bytes at the end.
    fn push(&mut self, text: &[u8])
        requires { length self.old + length text.now ≤ 4096 }
        ensures { self.new ≡ self.old ++ text.now }
    {
        for b in text {
            self.bytes[self.len] = *b;
            self.len += 1;
        }
    }

    /// Puts a number at the end. It has at most 40 digits.
    fn push_number(&mut self, n: u128)
        requires { length self.old + 40 ≤ 4096 }
        ensures text { self.new ≡ self.old ++ decimal n }
        ensures short { length self.new ≤ length self.old + 40 }
    {
        let mut buffer = Buffer::new();
        self.push(buffer.format(n).as_bytes());
    }

    /// Puts a line and a column at the end, both given from 0 and printed from 1.
    fn push_position(&mut self, position: ResolvedPos)
        requires { length self.old + 81 ≤ 4096 }
        ensures text { self.new ≡ self.old ++ shown_pos position }
        ensures short { length self.new ≤ length self.old + 81 }
    {
        self.push_number(position.line as u128 + 1);
        self.push(b":");
        self.push_number(position.column as u128 + 1);
    }

    /// Puts behind the begin of a span how it goes on to its end.
    fn push_end(&mut self, span: ResolvedSpan)
        requires { length self.old + 82 ≤ 4096 }
        ensures text { self.new ≡ self.old ++ shown_end span }
        ensures short { length self.new ≤ length self.old + 82 }
    {
        if span.begin.line != span.end.line {
            self.push(b"-");
            self.push_position(span.end);
            return;
        }
        if span.begin.column != span.end.column {
            self.push(b"-");
            self.push_number(span.end.column as u128 + 1);
        }
    }

    /// The line of a refused reading: its place, and who refused it.
    fn unread(kind: ParserErrorKind, span: ResolvedSpan) -> Reply
        ensures { result ≡ codes "refused part:" ++ shown_span span ++ kind_text kind }
    {
        let mut line = Reply::of(b"refused part:");
        line.push_position(span.begin);
        line.push_end(span);
        line.push(kind_bytes(kind));
        line
    }

    /// The line of a refused edit.
    pub fn refusal(fault: &PartFault) -> Reply
        ensures { result ≡ refusal_line fault.now }
    {
        match fault {
            PartFault::Index => Reply::of(b"refused index\n"),
            PartFault::Utf8 => Reply::of(b"refused utf8\n"),
            PartFault::Long => Reply::of(b"refused long\n"),
            PartFault::Parse(error, place) => Reply::unread(error.kind(), place.span),
            PartFault::Open => Reply::of(b"refused open\n"),
            PartFault::Memory => Reply::of(b"refused memory\n"),
        }
    }

    /// The first line of an outline: how many statements there are.
    pub fn count(n: u128) -> Reply
        ensures { result ≡ count_line n }
    {
        let mut line = Reply::of(b"statements ");
        line.push_number(n);
        line.push(b"\n");
        line
    }

    /// Whether there is no room for the line of a statement.
    pub fn is_full(&self) -> bool
        ensures { (result ≡ false) ↔ (length self.now + 256 ≤ 4096) }
    {
        self.len > ROOM - 256
    }

    /// Puts the line of a statement in an outline at the end.
    pub fn push_statement(&mut self, item: OutlineItem)
        requires { length self.old + 256 ≤ 4096 }
        ensures { self.new ≡ self.old ++ item_line item }
    {
        self.push_position(item.begin);
        self.push(b" ");
        self.push(item.word.text().as_bytes());
        self.push(b"\n");
    }

    /// Takes all bytes out.
    pub fn clear(&mut self)
        ensures { self.new ≡ [] }
    {
        self.len = 0;
    }
}

/// Who refused a text, and the end of the line.
fn kind_bytes(kind: ParserErrorKind) -> &'static [u8]
    ensures text { result.now ≡ kind_text kind }
    ensures short { length result.now ≤ 8 }
{
    match kind {
        ParserErrorKind::Lexer => b" lexer\n",
        ParserErrorKind::Syntax => b" syntax\n",
        ParserErrorKind::Rule => b" rule\n",
    }
}
