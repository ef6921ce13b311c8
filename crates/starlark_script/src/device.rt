//! Readers and writers that tell whether a call of theirs failed.

ghost use Rattle.std.specs.Prelude.{◌≡◌, ◌<◌, ℕ, Bool, true, false, length};
ghost use Rattle.std.specs.Io.{ReadsAtMost, WritesAtMost};
ghost use Rattle.std.specs.Io.KnownBytes.{ReadConsumes, WriteAppends, Keeps};
ghost use Rattle.starlark_script.specs.Device.{FailsWith, CountsOn, StallsWith};

use std::io;
use std::io::{Read, Write};
use std::marker::Model;

/// A reader that tells whether one of its calls answered an `Err`. `Watched` makes one of any reader.
pub trait Source: Read {
    ghost has_failed: { Self → Bool };

    // how many calls of `pull` were made
    ghost reads: { Self → ℕ };

    // how many of them gave no byte
    ghost ends: { Self → ℕ };

    /// Whether a call has answered an `Err`.
    fn failed(&self) -> bool
        ensures { result ≡ has_failed self.now };

    /// One call of `read`, with room for a byte at least. It is a method of its own, since the clauses of `read` say
    /// nothing of `failed`.
    fn pull(&mut self, buf: &mut [u8]) -> io::Result<usize>
        requires room { 0 < length buf.old }
        ensures bound { ReadsAtMost result buf.new }
        ensures bytes { ReadConsumes (Self.remaining self.old) (Self.remaining self.new) result buf.new }
        ensures fails { FailsWith (has_failed self.old) (has_failed self.new) result }
        ensures reads { CountsOn 1 (reads self.old) (reads self.new) }
        ensures ends { StallsWith (ends self.old) (ends self.new) result (length buf.new) };
}

/// A writer that tells whether one of its calls answered an `Err`. `Watched` makes one of any writer.
pub trait Sink: Write {
    ghost has_failed: { Self → Bool };

    // how many calls of `put` were made
    ghost writes: { Self → ℕ };

    // how many of them took no byte
    ghost stalls: { Self → ℕ };

    /// Whether a call has answered an `Err`.
    fn failed(&self) -> bool
        ensures { result ≡ has_failed self.now };

    /// One call of `write`, of a byte at least. It is a method of its own, since the clauses of `write` say nothing of
    /// `failed`.
    fn put(&mut self, buf: &[u8]) -> io::Result<usize>
        requires some { 0 < length buf.now }
        ensures bound { WritesAtMost result buf.now }
        ensures bytes { WriteAppends (Self.contents self.old) (Self.contents self.new) result buf.now }
        ensures fails { FailsWith (has_failed self.old) (has_failed self.new) result }
        ensures writes { CountsOn 1 (writes self.old) (writes self.new) }
        ensures stalls { StallsWith (stalls self.old) (stalls self.new) result (length buf.now) };
}

/// A reader or a writer that is watched: each call of `read`, `write`, `flush`, `pull` and `put` is passed on once, and
/// answers what it answers. The first `Err` of one is kept in mind for good, and nothing else sets it; all but `flush` are
/// counted. The other calls of std's traits are made of these, so an `Err` of their own making is not kept in mind: that of
/// `read_exact` at the reader's end, that of `write_all` where a write takes no byte.
#[derive(Drop)]
pub struct Watched<T> {
    inner: T,
    failed: bool,
    // calls of `read` or `write`
    calls: u64,
    // those of them that moved no byte of some
    stalls: u64,
}

impl<T> Model for Watched<T> {
    ghost use Rattle.starlark_script.specs.Device.{Seen};

    ghost Value = { Seen T };

    ghost view = { λ w. record { inner = w.inner; failed = w.failed; calls = w.calls; stalls = w.stalls } };
}

impl<T> Watched<T> {
    /// Watches a reader or a writer from here on. It has not failed yet.
    pub fn new(inner: T) -> Watched<T>
        ensures inner { result.inner ≡ inner }
        ensures failed { result.failed ≡ false }
        ensures calls { result.calls ≡ 0 }
        ensures stalls { result.stalls ≡ 0 }
    {
        Watched {
            inner,
            failed: false,
            calls: 0,
            stalls: 0,
        }
    }

    /// Gives the reader or writer back.
    pub fn into_inner(self) -> T
        ensures { result ≡ self.inner }
    {
        let Watched {
            inner,
            failed: _,
            calls: _,
            stalls: _,
        } = self;
        inner
    }

    // keeps in mind what a call answered that moves bytes, and hands its answer on
    fn noted(&mut self, room: usize, answer: io::Result<usize>) -> io::Result<usize>
        ensures answer { result ≡ answer }
        ensures inner { self.new.inner ≡ self.old.inner }
        ensures fails { FailsWith self.old.failed self.new.failed answer }
        ensures calls { CountsOn 1 self.old.calls self.new.calls }
        ensures stalls { StallsWith self.old.stalls self.new.stalls answer room }
    {
        self.calls = self.calls.saturating_add(1);
        match &answer {
            Ok(n) => {
                if *n == 0 && room > 0 {
                    self.stalls = self.stalls.saturating_add(1);
                }
            }
            Err(_) => self.failed = true,
        }
        answer
    }
}

impl<R: Read> Read for Watched<R> {
    ghost remaining = { λ w. R.remaining w.inner };

    fn read(&mut self, buf: &mut [u8]) -> io::Result<usize>
        ensures bound { ReadsAtMost result buf.new }
        ensures bytes { ReadConsumes (R.remaining self.old.inner) (R.remaining self.new.inner) result buf.new }
        ensures fails { FailsWith self.old.failed self.new.failed result }
        ensures calls { CountsOn 1 self.old.calls self.new.calls }
        ensures stalls { StallsWith self.old.stalls self.new.stalls result (length buf.new) }
    {
        let answer = self.inner.read(buf);
        self.noted(buf.len(), answer)
    }
}

impl<R: Read> Source for Watched<R> {
    ghost has_failed = { λ w. w.failed };

    ghost reads = { λ w. w.calls };

    ghost ends = { λ w. w.stalls };

    fn failed(&self) -> bool {
        self.failed
    }

    fn pull(&mut self, buf: &mut [u8]) -> io::Result<usize> {
        self.read(buf)
    }
}

impl<W: Write> Write for Watched<W> {
    ghost contents = { λ w. W.contents w.inner };

    fn write(&mut self, buf: &[u8]) -> io::Result<usize>
        ensures bound { WritesAtMost result buf.now }
        ensures bytes { WriteAppends (W.contents self.old.inner) (W.contents self.new.inner) result buf.now }
        ensures fails { FailsWith self.old.failed self.new.failed result }
        ensures calls { CountsOn 1 self.old.calls self.new.calls }
        ensures stalls { StallsWith self.old.stalls self.new.stalls result (length buf.now) }
    {
        let answer = self.inner.write(buf);
        self.noted(buf.len(), answer)
    }

    fn flush(&mut self) -> io::Result<()>
        ensures bytes { Keeps (W.contents self.old.inner) (W.contents self.new.inner) }
        ensures fails { FailsWith self.old.failed self.new.failed result }
        ensures calls { self.new.calls ≡ self.old.calls }
        ensures stalls { self.new.stalls ≡ self.old.stalls }
    {
        let answer = self.inner.flush();
        if answer.is_err() {
            self.failed = true;
        }
        answer
    }
}

impl<W: Write> Sink for Watched<W> {
    ghost has_failed = { λ w. w.failed };

    ghost writes = { λ w. w.calls };

    ghost stalls = { λ w. w.stalls };

    fn failed(&self) -> bool {
        self.failed
    }

    fn put(&mut self, buf: &[u8]) -> io::Result<usize> {
        self.write(buf)
    }
}
