//! Named sources, shared by those who hold them.

ghost use Rattle.std.specs.Prelude.{◌≡◌, ◌≤◌, ◌<◌, ◌↔◌, ◌+◌, ◌-◌, IsTrue, IfOk, IfSome, MatchOption, IsErrOf, string_bytes, length, slice_index, slice_range, nat_eq};
ghost use Rattle.starlark_place.specs.Place.{File, Holds, file_place, extent, line_at, column_at, line_feeds, line_extent, line_begin, line_text, trimmed_extent, bare_line, newline_len, ends_line};
ghost use Rattle.starlark_place.specs.Resolved.{resolved, resolved_span};
ghost use Rattle.starlark_place.specs.Lines.{line_begins};
ghost use Rattle.std.specs.Str.{IsCharBoundary};
ghost use Rattle.std.proofs.Common.{rules};
ghost use Rattle.std.specs.Cmp.Rules.{comparing, hashing};
ghost use Rattle.std.specs.Hash as fed;
ghost use Rattle.std.specs.List.{suffix_len};

use crate::count::{char_count, line_len};
use crate::file_span::FileSpan;
use crate::pos::{Pos, Span};
use crate::resolved::{ResolvedPos, ResolvedSpan};
use std::alloc::{AllocError, AllocFailed, Global};
use std::hash::{Hash, Hasher};
use std::marker::Model;
use std::rc::Rc;
use thiserror::Error;

/// What tells one map from another: `==` and the hash of maps go by it alone. So the caller gives different ids to texts that
/// are to be told apart.
#[derive(Clone, Copy, Debug, PartialEq, Eq, PartialOrd, Ord, Hash)]
pub struct CodeMapId(pub u64);

impl CodeMapId {
    /// The id 0. It does where a map need not be told from others by its id: for a text by itself.
    pub const EMPTY: CodeMapId = CodeMapId(0);
}

/// Why a source gets no map.
#[derive(Clone, Copy, Debug, PartialEq, Eq, Error)]
pub enum CodeMapError {
    /// It has more than `u32::MAX` bytes.
    #[error("the source is too long")]
    TooLong,
    /// Memory ran out.
    #[error("out of memory")]
    Memory,
}

impl<T: Drop> From<AllocFailed<T>> for CodeMapError {
    ghost use Rattle.starlark_place.specs.declared.codemap.CodeMapError.TheVariants.{Memory};

    ghost from_gives = { λ _ e. e ≡ Memory };

    fn from(_e: AllocFailed<T>) -> CodeMapError {
        CodeMapError::Memory
    }
}

impl From<AllocError> for CodeMapError {
    ghost use Rattle.starlark_place.specs.declared.codemap.CodeMapError.TheVariants.{Memory};

    ghost from_gives = { λ _ e. e ≡ Memory };

    fn from(_e: AllocError) -> CodeMapError {
        CodeMapError::Memory
    }
}

#[derive(Debug, Drop)]
struct Data {
    id: CodeMapId,
    filename: String,
    source: String,
    // where each line begins
    lines: Vec<u32>,
}

/// A named source, whose data is shared.
#[derive(Debug, Drop)]
pub struct CodeMap {
    data: Rc<Data>,
}

impl Model for CodeMap {
    ghost use Rattle.std.specs.Prelude.{string_bytes};
    ghost use Rattle.starlark_place.specs.Place.{File};
    ghost use Rattle.starlark_place.specs.Lines.{IsIndexed};

    ghost Value = { File };

    ghost view = { λ m. record { id = m.data.value.id.0; name = string_bytes m.data.value.filename; source = string_bytes m.data.value.source } };

    ghost invariant = { λ m. IsIndexed (string_bytes m.data.value.source) m.data.value.lines.items };
}

impl CodeMap {
    /// The map of `source` under a name. It is refused as `TooLong` where the source has more than `u32::MAX` bytes,
    /// without reading it, and as `Memory` where memory runs out.
    pub fn new(
        alloc: Global,
        id: CodeMapId,
        filename: String,
        source: String,
    ) -> Result<CodeMap, CodeMapError>
        ensures made { IfOk result (λ m. m ≡ record { id = id.0; name = string_bytes filename; source = string_bytes source }) }
        ensures fits { IfOk result (λ _. length (string_bytes source) ≤ 4294967295) }
        ensures too_long { IsErrOf result CodeMapError.TooLong ↔ (4294967295 < length (string_bytes source)) }
    {
        if source.len() > u32::MAX as usize {
            return Err(CodeMapError::TooLong);
        }
        let lines = line_begins(alloc, source.as_bytes())?;
        Ok(CodeMap {
            data: Rc::new(
                alloc,
                Data {
                    id,
                    filename,
                    source,
                    lines,
                },
            )?,
        })
    }

    /// One more owner of the same data. It is refused where std refuses shared data one more owner.
    pub fn dupe(&self) -> Result<CodeMap, AllocError>
        ensures { IfOk result (λ m. m ≡ self.now) }
    {
        Ok(CodeMap {
            data: self.data.clone()?,
        })
    }

    /// The id that it was made with.
    pub fn id(&self) -> CodeMapId
        ensures { result.0 ≡ self.now.id }
    {
        self.data.id
    }

    /// The name that it was made with.
    pub fn filename(&self) -> &str
        ensures { result.now ≡ self.now.name }
    {
        self.data.filename.as_str()
    }

    /// The source that it was made with.
    pub fn source(&self) -> &str
        ensures is { result.now ≡ self.now.source }
        ensures fits { length self.now.source ≤ 4294967295 }
    {
        self.data.source.as_str()
    }

    /// The whole source.
    pub fn full_span(&self) -> Span
        ensures is { result ≡ extent 0 (length self.now.source) }
        ensures holds { Holds self.now.source result }
    {
        Span::new(Pos::new(0), Pos::new(self.source().len() as u32))
    }

    /// Whether both ends lie in the source, each between two characters or at one of its ends.
    pub fn holds(&self, span: Span) -> bool
        ensures { IsTrue result ↔ Holds self.now.source span }
    {
        let source = self.data.source.as_str();
        source.is_char_boundary(span.begin().get() as usize)
            && source.is_char_boundary(span.end().get() as usize)
    }

    /// The byte at a place below the length, which `source` tells.
    pub fn byte_at(&self, pos: Pos) -> u8
        requires { pos < length self.now.source }
        ensures { result ≡ slice_index self.now.source pos }
    {
        self.data.source.as_bytes()[pos.get() as usize]
    }

    /// The line of a place, from 0. The place is at most the length, which `source` tells.
    pub fn find_line(&self, pos: Pos) -> usize
        requires { pos ≤ length self.now.source }
        ensures { result ≡ line_at self.now.source pos }
    {
        let at = pos.get();
        self.data.lines.partition_point(|begin| *begin <= at) - 1
    }

    // one more than the number of line feeds
    fn line_count(&self) -> usize
        ensures { result ≡ line_feeds self.now.source + 1 }
    {
        self.data.lines.as_slice().len()
    }

    /// A line, from 0, with its line feed. It is at most the number of line feeds: `line_span_opt` tells that.
    pub fn line_span(&self, line: usize) -> Span
        requires { line ≤ line_feeds self.now.source }
        ensures is { result ≡ line_extent self.now.source line }
        ensures holds { Holds self.now.source result }
    {
        let (begin, end) = line_ends(self.source(), self.data.lines.as_slice(), line);
        Span::new(Pos::new(begin), Pos::new(end))
    }

    /// A line, from 0, with its line feed, or none past the last.
    pub fn line_span_opt(&self, line: usize) -> Option<Span>
        ensures is { MatchOption result (line_feeds self.now.source < line) (λ s. s ≡ line_extent self.now.source line) }
        ensures holds { IfSome result (λ s. Holds self.now.source s) }
        ensures within { IfSome result (λ _. line ≤ line_feeds self.now.source) }
    {
        if line < self.line_count() {
            Some(self.line_span(line))
        } else {
            None
        }
    }

    /// A line, from 0, without its line feed and one carriage return right before it. It is at most the number of line
    /// feeds: `line_span_opt` tells that.
    pub fn line_span_trim_newline(&self, line: usize) -> Span
        requires { line ≤ line_feeds self.now.source }
        ensures is { result ≡ trimmed_extent self.now.source line }
        ensures holds { Holds self.now.source result }
    {
        let span = self.line_span(line);
        let cut = newline_len(self.source_span(span).as_bytes());
        Span::new(span.begin(), span.end() - cut)
    }

    /// A line, from 0, without all carriage returns and line feeds at its end. It is at most the number of line feeds:
    /// `line_span_opt` tells that.
    pub fn source_line(&self, line: usize) -> &str
        requires { line ≤ line_feeds self.now.source }
        ensures { result.now ≡ bare_line (line_text self.now.source line) }
    {
        let text = self.source_span(self.line_span(line));
        &text[..bare_len(text)]
    }

    /// The line of a place, without all carriage returns and line feeds at its end. The place is at most the length, which
    /// `source` tells.
    pub fn source_line_at_pos(&self, pos: Pos) -> &str
        requires { pos ≤ length self.now.source }
        ensures { result.now ≡ bare_line (line_text self.now.source (line_at self.now.source pos)) }
    {
        self.source_line(self.find_line(pos))
    }

    /// The text of a stretch that lies in the source and cuts no character: `holds` tells that.
    pub fn source_span(&self, span: Span) -> &str
        requires { Holds self.now.source span }
        ensures { result.now ≡ slice_range self.now.source span.begin span.end }
    {
        &self.data.source.as_str()[span.begin().get() as usize..span.end().get() as usize]
    }

    /// The stretch of this source, where it lies in it and cuts no character: `holds` tells that. It is refused where std
    /// refuses shared data one more owner.
    pub fn file_span(&self, span: Span) -> Result<FileSpan, AllocError>
        requires { Holds self.now.source span }
        ensures { IfOk result (λ s. s ≡ file_place self.now span) }
    {
        Ok(FileSpan {
            file: self.dupe()?,
            span,
        })
    }

    /// The lines and columns of both ends of a stretch that lies in the source and cuts no character: `holds` tells that.
    pub fn resolve_span(&self, span: Span) -> ResolvedSpan
        requires { Holds self.now.source span }
        ensures { result ≡ resolved_span self.now.source span }
    {
        ResolvedSpan {
            begin: self.resolve(span.begin()),
            end: self.resolve(span.end()),
        }
    }

    // the line and column of a place
    fn resolve(&self, pos: Pos) -> ResolvedPos
        requires { pos ≤ length self.now.source }
        ensures { result ≡ resolved self.now.source pos }
    {
        let line = self.find_line(pos);
        ResolvedPos {
            line,
            column: column(
                self.data.source.as_bytes(),
                self.data.lines.as_slice(),
                line,
                pos.get() as usize,
            ),
        }
    }
}

impl PartialEq for CodeMap {
    ghost eq = { λ a b. nat_eq a.id b.id };

    ghost laws = { Prim.search (comparing, rules) };

    /// Whether the ids are equal.
    fn eq(&self, other: &CodeMap) -> bool {
        self.id() == other.id()
    }
}

impl Eq for CodeMap {
    ghost laws = { Prim.search (comparing, rules) };
}

impl Hash for CodeMap {
    ghost hash_input = { λ m. fed.u64 m.id };

    ghost respects_eq = { Prim.search (hashing, rules) };

    /// Feeds the id.
    fn hash<H: Hasher>(&self, state: &mut H) {
        self.id().hash(state);
    }
}

// where each line of a text begins
fn line_begins(alloc: Global, text: &[u8]) -> Result<Vec<u32>, AllocError>
    requires { length text.now ≤ 4294967295 }
    ensures { IfOk result (λ v. v.items ≡ line_begins text.now) }
{
    let mut begins = Vec::new(alloc);
    begins.push(0)?;
    let mut at = 0;
    loop {
        at += line_len(&text[at..]);
        if at == text.len() {
            return Ok(begins);
        }
        at += 1;
        begins.push(at as u32)?;
    }
}

// where a line begins, and where it ends behind its line feed
fn line_ends(source: &str, begins: &[u32], line: usize) -> (u32, u32)
    requires begins { begins.now ≡ line_begins source.now }
    requires line { line ≤ line_feeds source.now }
    requires fits { length source.now ≤ 4294967295 }
    ensures begin { result.0 ≡ line_begin line source.now }
    ensures end { result.1 ≡ line_begin (line + 1) source.now }
    ensures order { result.0 ≤ result.1 }
    ensures holds { Holds source.now (extent result.0 result.1) }
{
    let end = if line + 1 < begins.len() {
        begins[line + 1]
    } else {
        source.len() as u32
    };
    (begins[line], end)
}

// the bytes of a line feed at the end, and of one carriage return right before it
fn newline_len(line: &[u8]) -> u32
    ensures is { result ≡ newline_len line.now }
    ensures within { result ≤ length line.now }
{
    let len = line.len();
    if len == 0 || line[len - 1] != b'\n' {
        return 0;
    }
    if len > 1 && line[len - 2] == b'\r' {
        2
    } else {
        1
    }
}

// the bytes before the carriage returns and line feeds at the end
fn bare_len(line: &str) -> usize
    ensures is { result ≡ length line.now - suffix_len ends_line line.now }
    ensures boundary { IsCharBoundary line.now result }
{
    let bytes = line.as_bytes();
    let mut end = bytes.len();
    while end > 0 && (bytes[end - 1] == b'\r' || bytes[end - 1] == b'\n') {
        end -= 1;
    }
    end
}

// the column of a place in its line
fn column(source: &[u8], begins: &[u32], line: usize, pos: usize) -> usize
    requires begins { begins.now ≡ line_begins source.now }
    requires line { line ≡ line_at source.now pos }
    requires within { pos ≤ length source.now }
    ensures { result ≡ column_at source.now pos }
{
    let begin = begins[line] as usize;
    char_count(&source[begin..pos])
}
