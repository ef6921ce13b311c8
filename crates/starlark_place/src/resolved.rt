//! Lines and columns.

ghost use Rattle.std.specs.Prelude.{◌≡◌, ◌+◌, ◌↔◌, ◌∷◌, ◌++◌, IsTrue, IfOk, Some, string_bytes, decimal};
ghost use Rattle.starlark_place.specs.Resolved.{IsAtMost};
ghost use Rattle.starlark_place.specs.Shown.{shown_pos, shown_span, shown_in};

use std::alloc::{AllocError, Global};
use std::fmt;

/// A line and a column, both from 0. A column counts characters. It prints as `2:1`, where both count from 1.
#[derive(Clone, Copy, Debug, PartialEq, Eq, PartialOrd, Ord, Hash)]
pub struct ResolvedPos {
    /// The number of line feeds before.
    pub line: usize,
    /// The number of characters since the last of them.
    pub column: usize,
}

impl fmt::Display for ResolvedPos {
    ghost output = { λ p. Some (shown_pos p) };

    fn fmt<W: fmt::Write>(&self, f: &mut fmt::Formatter<W>) -> fmt::Result {
        let line = from_one(self.line);
        let column = from_one(self.column);
        write!(f, "{line}:{column}")
    }
}

/// From one line and column to another. It prints as `1:5` where it is empty, `1:9-10` on one line, else as `2:1-3:8`.
#[derive(Clone, Copy, Debug, PartialEq, Eq, Hash)]
pub struct ResolvedSpan {
    /// Where it begins.
    pub begin: ResolvedPos,
    /// Where it ends.
    pub end: ResolvedPos,
}

impl ResolvedSpan {
    /// Whether the place is within, both ends included.
    pub fn contains(&self, pos: ResolvedPos) -> bool
        ensures { IsTrue result ↔ IsAtMost self.now.begin pos × IsAtMost pos self.now.end }
    {
        self.begin <= pos && pos <= self.end
    }
}

impl fmt::Display for ResolvedSpan {
    ghost output = { λ s. Some (shown_span s) };

    fn fmt<W: fmt::Write>(&self, f: &mut fmt::Formatter<W>) -> fmt::Result {
        let begin = self.begin;
        let end = self.end;
        write!(f, "{begin}")?;
        if begin.line != end.line {
            write!(f, "-{end}")
        } else if begin.column != end.column {
            let column = from_one(end.column);
            write!(f, "-{column}")
        } else {
            Ok(())
        }
    }
}

/// A line of a named text. It prints as `file:1`, where the line counts from 1.
#[derive(Debug, PartialEq, Eq, Drop)]
pub struct ResolvedFileLine {
    /// The text's name.
    pub file: String,
    /// The line, from 0.
    pub line: usize,
}

impl fmt::Display for ResolvedFileLine {
    ghost output = { λ l. Some (string_bytes l.file ++ 58 ∷ decimal (l.line + 1)) };

    fn fmt<W: fmt::Write>(&self, f: &mut fmt::Formatter<W>) -> fmt::Result {
        let file = self.file.as_str();
        let line = from_one(self.line);
        write!(f, "{file}:{line}")
    }
}

/// A stretch of a named text. It prints as `file:` and the stretch.
#[derive(Debug, PartialEq, Eq, Drop)]
pub struct ResolvedFileSpan {
    /// The text's name.
    pub file: String,
    /// The stretch.
    pub span: ResolvedSpan,
}

impl ResolvedFileSpan {
    /// The line where it begins. Its name is a copy, refused where memory runs out.
    pub fn begin_file_line(&self, alloc: Global) -> Result<ResolvedFileLine, AllocError>
        ensures file { IfOk result (λ l. string_bytes l.file ≡ string_bytes self.now.file) }
        ensures line { IfOk result (λ l. l.line ≡ self.now.span.begin.line) }
    {
        Ok(ResolvedFileLine {
            file: String::from_str(alloc, self.file.as_str())?,
            line: self.span.begin.line,
        })
    }
}

impl fmt::Display for ResolvedFileSpan {
    ghost output = { λ s. Some (shown_in (string_bytes s.file) s.span) };

    fn fmt<W: fmt::Write>(&self, f: &mut fmt::Formatter<W>) -> fmt::Result {
        let file = self.file.as_str();
        let span = self.span;
        write!(f, "{file}:{span}")
    }
}

// counted from 1, in 128 bits, where the sum fits
fn from_one(n: usize) -> u128
    ensures { result ≡ n + 1 }
{
    n as u128 + 1
}
