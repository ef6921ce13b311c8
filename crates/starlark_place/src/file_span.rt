//! Stretches of named sources.

ghost use Rattle.std.specs.Prelude.{◌≡◌, ◌≤◌, ◌<◌, ◌↔◌, IfOk, IsErrOf, string_bytes, length, slice_range};
ghost use Rattle.starlark_place.specs.Place.{FilePlace, file_place, extent};
ghost use Rattle.std.specs.Prelude.{Some, ◌==◌};
ghost use Rattle.std.proofs.Common.{rules};
ghost use Rattle.std.specs.Cmp.{partial_order_from_own_ties};
ghost use Rattle.std.specs.Cmp.Rules.{comparing, hashing};
ghost use Rattle.std.specs.Ordering.{as_partial_cmp};
ghost use Rattle.starlark_place.specs.Laws.{compares, equals, hashes};
ghost use Rattle.starlark_place.specs.Resolved.{resolved_span};
ghost use Rattle.starlark_place.specs.Shown.{shown_place};

use crate::codemap::{CodeMap, CodeMapError, CodeMapId};
use crate::pos::Span;
use crate::resolved::{ResolvedFileSpan, ResolvedSpan};
use std::alloc::{AllocError, Global};
use std::cmp::Ordering;
use std::fmt;
use std::hash::{Hash, Hasher};
use std::marker::Model;

/// A stretch of a named source that cuts no character.
#[derive(Debug, Drop)]
pub struct FileSpan {
    /// The source.
    pub file: CodeMap,
    /// The stretch.
    pub span: Span,
}

impl Model for FileSpan {
    ghost use Rattle.starlark_place.specs.Place.{FilePlace, file_place, Holds};

    ghost Value = { FilePlace };

    ghost view = { λ s. file_place s.file s.span };

    ghost invariant = { λ s. Holds s.file.source s.span };
}

impl FileSpan {
    /// The whole of a new map. It is refused as `CodeMap::new`.
    pub fn new(
        alloc: Global,
        id: CodeMapId,
        filename: String,
        source: String,
    ) -> Result<FileSpan, CodeMapError>
        ensures made { IfOk result (λ s. s ≡ file_place (record { id = id.0; name = string_bytes filename; source = string_bytes source }) (extent 0 (length (string_bytes source)))) }
        ensures fits { IfOk result (λ _. length (string_bytes source) ≤ 4294967295) }
        ensures too_long { IsErrOf result CodeMapError.TooLong ↔ (4294967295 < length (string_bytes source)) }
    {
        let file = CodeMap::new(alloc, id, filename, source)?;
        let span = file.full_span();
        Ok(FileSpan { file, span })
    }

    /// The name of its source.
    pub fn filename(&self) -> &str
        ensures { result.now ≡ self.now.file.name }
    {
        self.as_ref().filename()
    }

    /// The text of the stretch.
    pub fn source_span(&self) -> &str
        ensures { result.now ≡ slice_range self.now.file.source self.now.extent.begin self.now.extent.end }
    {
        self.as_ref().source_span()
    }

    /// The same with the source lent.
    pub fn as_ref(&self) -> FileSpanRef<'_>
        ensures { result ≡ self.now }
    {
        FileSpanRef {
            file: &self.file,
            span: self.span,
        }
    }

    /// The lines and columns of both ends.
    pub fn resolve_span(&self) -> ResolvedSpan
        ensures { result ≡ resolved_span self.now.file.source self.now.extent }
    {
        self.as_ref().resolve_span()
    }

    /// The lines and columns, with the source's name. The name is a copy, refused where memory runs out.
    pub fn resolve(&self, alloc: Global) -> Result<ResolvedFileSpan, AllocError>
        ensures file { IfOk result (λ r. string_bytes r.file ≡ self.now.file.name) }
        ensures span { IfOk result (λ r. r.span ≡ resolved_span self.now.file.source self.now.extent) }
    {
        Ok(ResolvedFileSpan {
            file: String::from_str(alloc, self.filename())?,
            span: self.resolve_span(),
        })
    }
}

impl fmt::Display for FileSpan {
    ghost output = { λ s. Some (shown_place s) };

    fn fmt<W: fmt::Write>(&self, f: &mut fmt::Formatter<W>) -> fmt::Result {
        self.as_ref().fmt(f)
    }
}

// By name, begin, end and id, in this order.

impl PartialEq for FileSpan {
    ghost eq = { equals };

    ghost laws = { Prim.search (comparing, rules) depth 9 };

    fn eq(&self, other: &FileSpan) -> bool {
        self.filename() == other.filename()
            && self.span.begin() == other.span.begin()
            && self.span.end() == other.span.end()
            && self.file == other.file
    }
}

impl Eq for FileSpan {
    ghost laws = { Prim.search (comparing, rules) depth 9 };
}

impl Ord for FileSpan {
    ghost cmp = { compares };

    ghost total = { Prim.search (comparing, rules) depth 9 };

    ghost matches_partial_cmp = { Prim.search (comparing, rules) depth 9 };

    ghost matches_eq = { Prim.search (comparing, rules) depth 9 };

    fn cmp(&self, other: &FileSpan) -> Ordering {
        self.filename()
            .cmp(&other.filename())
            .then(self.span.begin().cmp(&other.span.begin()))
            .then(self.span.end().cmp(&other.span.end()))
            .then(self.file.id().cmp(&other.file.id()))
    }
}

impl PartialOrd for FileSpan {
    ghost partial_cmp = { as_partial_cmp compares };

    ghost laws = { partial_order_from_own_ties (Prim.search (comparing, rules) depth 9) (Prim.search (comparing, rules) depth 9) };

    fn partial_cmp(&self, other: &FileSpan) -> Option<Ordering> {
        Some(self.cmp(other))
    }
}

impl Hash for FileSpan {
    ghost hash_input = { hashes };

    ghost respects_eq = { Prim.search (hashing, rules) depth 9 };

    fn hash<H: Hasher>(&self, state: &mut H) {
        self.filename().hash(state);
        self.span.begin().hash(state);
        self.span.end().hash(state);
        self.file.id().hash(state);
    }
}

/// A stretch of a named source that is lent. It cuts no character.
#[derive(Debug, Drop)]
pub struct FileSpanRef<'a> {
    /// The source.
    pub file: &'a CodeMap,
    /// The stretch.
    pub span: Span,
}

impl<'a> Model for FileSpanRef<'a> {
    ghost use Rattle.starlark_place.specs.Place.{FilePlace, file_place, Holds};

    ghost Value = { FilePlace };

    ghost view = { λ s. file_place s.file.now s.span };

    ghost invariant = { λ s. Holds s.file.now.source s.span };
}

impl<'a> FileSpanRef<'a> {
    /// The name of its source.
    pub fn filename(&self) -> &'a str
        ensures { result.now ≡ self.now.file.name }
    {
        self.file.filename()
    }

    /// One more owner of the source. It is refused where std refuses shared data one more owner.
    pub fn to_file_span(&self) -> Result<FileSpan, AllocError>
        ensures { IfOk result (λ s. s ≡ self.now) }
    {
        self.file.file_span(self.span)
    }

    /// The text of the stretch.
    pub fn source_span(&self) -> &'a str
        ensures { result.now ≡ slice_range self.now.file.source self.now.extent.begin self.now.extent.end }
    {
        self.file.source_span(self.span)
    }

    /// The lines and columns of both ends.
    pub fn resolve_span(&self) -> ResolvedSpan
        ensures { result ≡ resolved_span self.now.file.source self.now.extent }
    {
        self.file.resolve_span(self.span)
    }
}

impl<'a> fmt::Display for FileSpanRef<'a> {
    ghost output = { λ s. Some (shown_place s) };

    fn fmt<W: fmt::Write>(&self, f: &mut fmt::Formatter<W>) -> fmt::Result {
        let file = self.filename();
        let span = self.resolve_span();
        write!(f, "{file}:{span}")
    }
}
