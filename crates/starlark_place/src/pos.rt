//! Places and stretches of a text, in bytes.

ghost use Rattle.std.specs.Prelude.{◌≡◌, ◌+◌, ◌-◌, ◌^◌, ◌<◌, ◌≤◌, IsTrue, ◌↔◌, ◌&&◌};
ghost use Rattle.std.specs.Iterator.{IsFinite};
ghost use Rattle.std.specs.Option.{unwrap_or};
ghost use Rattle.std.specs.Iterator.Runs.{WholeRun};
ghost use Rattle.starlark_place.specs.Laws.{Intersects};
ghost use Rattle.starlark_place.specs.Place.{merged_all, merged_into, Extent, extent, merged};

use std::marker::Model;
use std::ops::{Add, AddAssign, Deref, DerefMut, Sub};

/// A place in a text: the number of bytes before it.
#[derive(Clone, Copy, Debug, PartialEq, Eq, PartialOrd, Ord, Hash)]
pub struct Pos(u32);

impl Model for Pos {
    ghost use Rattle.std.specs.Prelude.{ℕ};

    ghost Value = { ℕ };

    ghost view = { λ p. p.0 };

    ghost inverse = { λ n. record { 0 = n } };
}

impl Pos {
    /// The place behind `offset` bytes.
    pub const fn new(offset: u32) -> Pos
        ensures { result ≡ offset }
    {
        Pos(offset)
    }

    /// The number of bytes before the place.
    pub const fn get(self) -> u32
        ensures { result ≡ self }
    {
        self.0
    }
}

impl Add<u32> for Pos {
    type Output = Pos;

    ghost can_add = { λ p n. p + n < 2 ^ 32 };

    ghost add_gives = { λ p n q. q ≡ p + n };

    /// The place `bytes` bytes further on, which fits.
    fn add(self, bytes: u32) -> Pos {
        Pos(self.0 + bytes)
    }
}

impl Sub<u32> for Pos {
    type Output = Pos;

    ghost can_sub = { λ p n. n ≤ p };

    ghost sub_gives = { λ p n q. q ≡ p - n };

    /// The place `bytes` bytes further back, at most to the text's beginning.
    fn sub(self, bytes: u32) -> Pos {
        Pos(self.0 - bytes)
    }
}

impl AddAssign<u32> for Pos {
    ghost can_add_assign = { λ p n. p + n < 2 ^ 32 };

    ghost add_assign_gives = { λ p n q. q ≡ p + n };

    /// Moves on by `bytes` bytes, which fits.
    fn add_assign(&mut self, bytes: u32) {
        *self = *self + bytes;
    }
}

/// From one place of a text to another that is not before it.
#[derive(Clone, Copy, Debug, PartialEq, Eq, Hash)]
pub struct Span {
    begin: Pos,
    end: Pos,
}

impl Model for Span {
    ghost use Rattle.std.specs.Prelude.{◌≤◌};
    ghost use Rattle.starlark_place.specs.Place.{Extent};

    ghost Value = { Extent };

    ghost view = { λ s. record { begin = s.begin; end = s.end } };

    ghost invariant = { λ s. s.begin ≤ s.end };

    ghost inverse = { λ e. record { begin = e.begin; end = e.end } };
}

impl Span {
    /// The stretch from `begin` to `end`, which is not before it.
    pub fn new(begin: Pos, end: Pos) -> Span
        requires { begin ≤ end }
        ensures { result ≡ extent begin end }
    {
        Span { begin, end }
    }

    /// Where it begins.
    pub fn begin(self) -> Pos
        ensures is { result ≡ self.begin }
        ensures before { self.begin ≤ self.end }
    {
        self.begin
    }

    /// Where it ends.
    pub fn end(self) -> Pos
        ensures is { result ≡ self.end }
        ensures behind { self.begin ≤ self.end }
    {
        self.end
    }

    /// From the least beginning to the greatest end.
    pub fn merge(self, other: Span) -> Span
        ensures { result ≡ merged self other }
    {
        Span {
            begin: self.begin.min(other.begin),
            end: self.end.max(other.end),
        }
    }

    /// From the least beginning to the greatest end of all, or from 0 to 0 where there are none.
    pub fn merge_all<I: Iterator<Item = Span>>(spans: I) -> Span
        requires can { I.can_next spans }
        requires ends { IsFinite (I.remaining spans) }
        ensures { WholeRun I.next_gives spans (λ p. result ≡ merged_all p.items) }
    {
        let all = spans.fold(None, |all, span| merged_into(all, span));
        or_empty(all)
    }

    /// The empty stretch at the end.
    pub fn end_span(self) -> Span
        ensures { result ≡ extent self.end self.end }
    {
        Span {
            begin: self.end,
            end: self.end,
        }
    }

    /// Whether the place is within, both ends included.
    pub fn contains(self, pos: Pos) -> bool
        ensures { IsTrue result ↔ (self.begin ≤ pos) × (pos ≤ self.end) }
    {
        pos >= self.begin && pos <= self.end
    }

    /// Whether each begins at or before the other's end.
    pub fn intersects(self, span: Span) -> bool
        ensures { IsTrue result ↔ Intersects self span }
    {
        span.begin <= self.end && self.begin <= span.end
    }
}

// one more stretch
fn merged_into(all: Option<Span>, span: Span) -> Option<Span>
    ensures { result ≡ merged_into all span }
{
    match all {
        None => Some(span),
        Some(other) => Some(other.merge(span)),
    }
}

// from 0 to 0 where there is none
fn or_empty(all: Option<Span>) -> Span
    ensures { result ≡ unwrap_or all (extent 0 0) }
{
    match all {
        None => Span::new(Pos::new(0), Pos::new(0)),
        Some(span) => span,
    }
}

/// A value and where it stands.
#[derive(Debug, PartialEq, Eq, Hash, Drop)]
pub struct Spanned<T> {
    /// Where it stands.
    pub span: Span,
    /// The value.
    pub node: T,
}

impl<T> Spanned<T> {
    /// The same place with what `f` makes of the value.
    pub fn map<U, F: FnOnce(T) -> U>(self, f: F) -> Spanned<U>
        requires { F.pre f self.node }
        ensures span { result.span ≡ self.span }
        ensures node { F.post f self.node result.node }
    {
        let Spanned { span, node } = self;
        Spanned {
            span,
            node: f(node),
        }
    }

    /// The same place with the value lent.
    pub fn as_ref(&self) -> Spanned<&T>
        ensures span { result.span ≡ self.now.span }
        ensures node { result.node.now ≡ self.now.node }
    {
        Spanned {
            span: self.span,
            node: &self.node,
        }
    }
}

impl<T> Deref for Spanned<T> {
    type Target = T;

    ghost deref_gives = { λ s x. x ≡ s.node };

    /// The value.
    fn deref(&self) -> &T
        ensures { result.now ≡ self.now.node }
    {
        &self.node
    }
}

impl<T> DerefMut for Spanned<T> {
    ghost use Rattle.std.specs.Borrow.{Lends, sem};
    ghost use Rattle.starlark_place.specs.contracts.pos.Spanned.{the_row};

    ghost deref_mut_gives = { λ s x. x ≡ s.node };

    /// The value, for writing.
    fn deref_mut(&mut self) -> &mut T
        ensures* writes_back { sem 𝓛 (Lends (the_row T.row) T.row self.entry result (λ w. record self.old { node = w })) }
        ensures value { result.now ≡ self.old.node }
    {
        &mut self.node
    }
}
