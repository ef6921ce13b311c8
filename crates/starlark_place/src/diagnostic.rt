//! Errors with their places.

ghost use Rattle.std.specs.Prelude.{◌≡◌, ◌<◌, ◌++◌, ◌||◌, if◌then◌else◌, IfOk, IfErr, IsOk, IsSome, is_some, is_err, Some, None, [], length};
ghost use Rattle.std.specs.Option.{option_map};
ghost use Rattle.starlark_place.specs.Place.{Holds, file_place};
ghost use Rattle.starlark_place.specs.Diagnostic.{inner_of, span_of, frames_of, place_of, shown_behind, IsResolved, Refuses};

use crate::codemap::CodeMap;
use crate::file_span::FileSpan;
use crate::pos::Span;
use crate::resolved::ResolvedFileSpan;
use std::alloc::{AllocError, AllocFailed, Global};
use std::fmt;

/// A call that was going on.
#[derive(Debug, Drop)]
pub struct Frame {
    /// What was called.
    pub name: String,
    /// Where, if that is known.
    pub location: Option<FileSpan>,
}

/// The calls that were going on, the outermost first.
#[derive(Debug, Drop)]
pub struct CallStack {
    /// The calls.
    pub frames: Vec<Frame>,
}

#[derive(Debug, Drop)]
struct Diagnostic {
    span: Option<FileSpan>,
    call_stack: CallStack,
}

// a box with no place and no calls
fn empty(alloc: Global) -> Result<Box<Diagnostic>, AllocError>
    ensures span { IfOk result (λ b. b.value.span ≡ None) }
    ensures calls { IfOk result (λ b. b.value.call_stack.frames.items ≡ []) }
{
    let call_stack = CallStack {
        frames: Vec::new(alloc),
    };
    Ok(Box::new(
        alloc,
        Diagnostic {
            span: None,
            call_stack,
        },
    )?)
}

/// A value with the place that it speaks of and the calls that led there.
#[derive(Debug, Drop)]
pub struct WithDiagnostic<T> {
    inner: T,
    diagnostic: Box<Diagnostic>,
}

impl<T> WithDiagnostic<T> {
    /// The value at a stretch of the source, with no calls. The stretch lies in the source and cuts no character:
    /// `CodeMap::holds` tells that. It is refused where memory or one more owner of the map cannot be had.
    pub fn new_spanned(
        alloc: Global,
        inner: T,
        span: Span,
        codemap: &CodeMap,
    ) -> Result<WithDiagnostic<T>, AllocError>
    where
        T: Drop,
        requires { Holds codemap.now.source span }
        ensures inner { IfOk result (λ w. inner_of w ≡ inner) }
        ensures span { IfOk result (λ w. span_of w ≡ Some (file_place codemap.now span)) }
        ensures calls { IfOk result (λ w. frames_of w ≡ []) }
    {
        let mut diagnostic = empty(alloc)?;
        diagnostic.span = Some(codemap.file_span(span)?);
        Ok(WithDiagnostic { inner, diagnostic })
    }

    /// The value.
    pub fn inner(&self) -> &T
        ensures { result.now ≡ inner_of self.now }
    {
        &self.inner
    }

    /// The value, without its place and calls.
    pub fn into_inner(self) -> T
        ensures { result ≡ inner_of self }
    {
        let WithDiagnostic {
            inner,
            diagnostic: _,
        } = self;
        inner
    }

    /// What `f` makes of the value, with the same place and calls. The answer's box is made first: where memory runs out
    /// the value comes back, and `f` is not called.
    pub fn map<U, F: FnOnce(T) -> U>(
        self,
        alloc: Global,
        f: F,
    ) -> Result<WithDiagnostic<U>, AllocFailed<WithDiagnostic<T>>>
    where
        F: Drop,
        requires { F.pre f (inner_of self) }
        ensures inner { IfOk result (λ w. F.post f (inner_of self) (inner_of w)) }
        ensures span { IfOk result (λ w. span_of w ≡ span_of self) }
        ensures calls { IfOk result (λ w. frames_of w ≡ frames_of self) }
        ensures back { IfErr result (λ e. e.value ≡ self) }
    {
        let Ok(mut made) = empty(alloc) else {
            return Err(AllocFailed { value: self });
        };
        let WithDiagnostic { inner, diagnostic } = self;
        *made = Box::into_inner(diagnostic);
        Ok(WithDiagnostic {
            inner: f(inner),
            diagnostic: made,
        })
    }

    /// The place, if one is set.
    pub fn span(&self) -> Option<&FileSpan>
        ensures { option_map (λ s. s.now) result ≡ span_of self.now }
    {
        self.diagnostic.span.as_ref()
    }

    /// Sets the place where none is set. Else nothing changes. The stretch lies in the source and cuts no character:
    /// `CodeMap::holds` tells that. It is refused where one more owner of the map cannot be had.
    pub fn set_span(&mut self, span: Span, codemap: &CodeMap) -> Result<(), AllocError>
        requires { Holds codemap.now.source span }
        ensures inner { inner_of self.new ≡ inner_of self.old }
        ensures calls { frames_of self.new ≡ frames_of self.old }
        ensures span { span_of self.new ≡ (if is_some (span_of self.old) || is_err result then span_of self.old else Some (file_place codemap.now span)) }
        ensures stays { IsSome (span_of self.old) → IsOk result }
    {
        if self.diagnostic.span.is_none() {
            self.diagnostic.span = Some(codemap.file_span(span)?);
        }
        Ok(())
    }

    /// Sets the calls to those that `calls` gives where there are none. Else `calls` is not called.
    pub fn set_call_stack<F: FnOnce() -> CallStack>(&mut self, calls: F)
    where
        F: Drop,
        requires { frames_of self.old ≡ [] → F.pre calls }
        ensures inner { inner_of self.new ≡ inner_of self.old }
        ensures span { span_of self.new ≡ span_of self.old }
        ensures called { frames_of self.old ≡ [] → (s : _) × F.post calls s × (frames_of self.new ≡ s.frames.items) }
        ensures stays { 0 < length (frames_of self.old) → frames_of self.new ≡ frames_of self.old }
    {
        if self.diagnostic.call_stack.frames.is_empty() {
            self.diagnostic.call_stack = calls();
        }
    }

    /// The calls.
    pub fn call_stack(&self) -> &CallStack
        ensures { result.now.frames.items ≡ frames_of self.now }
    {
        &self.diagnostic.call_stack
    }
}

/// Why a call is refused.
#[derive(Debug, Drop)]
pub enum Refusal<T> {
    /// An error, with its place.
    Fault(WithDiagnostic<T>),
    /// Memory ran out.
    Memory,
}

impl<T: Drop> Refusal<T> {
    /// The error at a stretch of the source, or `Memory` where memory or one more owner of the map cannot be had. The
    /// stretch lies in the source and cuts no character: `CodeMap::holds` tells that.
    pub fn new(alloc: Global, error: T, span: Span, codemap: &CodeMap) -> Refusal<T>
        requires { Holds codemap.now.source span }
        ensures { Refuses error (file_place codemap.now span) result }
    {
        match WithDiagnostic::new_spanned(alloc, error, span, codemap) {
            Ok(fault) => Refusal::Fault(fault),
            Err(_) => Refusal::Memory,
        }
    }
}

impl<T: fmt::Display> fmt::Display for WithDiagnostic<T> {
    ghost output = { λ w. option_map (λ m. m ++ shown_behind (span_of w)) (T.output (inner_of w)) };

    fn fmt<W: fmt::Write>(&self, f: &mut fmt::Formatter<W>) -> fmt::Result {
        self.inner.fmt(f)?;
        match &self.diagnostic.span {
            None => Ok(()),
            Some(span) => write!(f, ": {span}"),
        }
    }
}

/// The lines and columns of an error's place, if it has one. It is refused where memory runs out, which it never does
/// where there is no place: want of memory has none.
pub fn _testing_loc<T>(
    alloc: Global,
    refusal: &Refusal<T>,
) -> Result<Option<ResolvedFileSpan>, AllocError>
    ensures found { IfOk result (λ found. IsResolved (place_of refusal.now) found) }
    ensures sure { place_of refusal.now ≡ None → IsOk result }
{
    let Refusal::Fault(fault) = refusal else {
        return Ok(None);
    };
    match fault.span() {
        None => Ok(None),
        Some(span) => Ok(Some(span.resolve(alloc)?)),
    }
}
