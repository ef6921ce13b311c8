//! Buffered reading. No more is read ahead than the buffer holds.

ghost use Rattle.std.specs.Prelude.{◌≡◌, ◌-◌, ◌<◌, ◌≤◌, ◌⊎◌, [], ◌∷◌, true, false, length, take, drop, IfOk, IfErr, OnErr, OnOk, IfSome, MatchOption, vec_len};
ghost use Rattle.std.specs.Io.KnownBytes.{Consumes, IsAtEnd};
ghost use Rattle.starlark_script.specs.Coming.{Pays, coming, weight};
ghost use Rattle.starlark_script.specs.Device.{CountsOn};

use crate::device::Source;
use crate::fault::RunFault;
use std::alloc::{AllocError, Global};
use std::marker::Model;

/// How many bytes are read at once at most.
const ROOM: usize = 4096;

/// How many reads are made at most in a run, which bounds it: 2 to the 40th.
const READS: u64 = 0x100_0000_0000;

/// A buffer of fixed size before a reader. A clause sees the bytes that were read and not yet taken, and how many reads
/// may still be made.
#[derive(Drop)]
pub struct Ahead {
    buffer: Vec<u8>,
    begin: usize,
    end: usize,
    reads: u64,
}

impl Model for Ahead {
    ghost use Rattle.std.specs.Prelude.{◌≡◌, ◌<◌, ◌≤◌, take, drop, vec_len};
    ghost use Rattle.starlark_script.specs.Coming.{Held};

    ghost Value = { Held };

    ghost view = { λ a. record { bytes = drop a.begin (take a.end a.buffer.items); reads = a.reads } };

    ghost invariant = { λ a. (a.begin ≤ a.end) × (a.end ≤ vec_len a.buffer) × (vec_len a.buffer ≡ 4096) };
}

impl Ahead {
    /// An empty buffer with all reads left. It takes its memory here and none later.
    pub fn new(alloc: Global) -> Result<Ahead, AllocError>
        ensures { IfOk result (λ a. (a.bytes ≡ []) × (a.reads ≡ READS)) }
    {
        let mut buffer = Vec::new(alloc);
        buffer.resize(ROOM, 0)?;
        Ok(Ahead {
            buffer,
            begin: 0,
            end: 0,
            reads: READS,
        })
    }

    /// Whether a byte waits, after one read where none does. At the end alone there is none: a read of 0 bytes.
    fn fill<R: Source>(&mut self, reader: &mut R) -> Result<bool, RunFault>
        requires { R.has_failed reader.old ≡ false }
        ensures kept { Consumes (coming self.old (R.remaining reader.old)) (coming self.new (R.remaining reader.new)) [] }
        ensures sound { OnOk result (R.has_failed reader.new ≡ false) }
        ensures waits { IfOk result (λ more. more ≡ true → 0 < length self.new.bytes) }
        ensures end { IfOk result (λ more. more ≡ false → IsAtEnd (coming self.new (R.remaining reader.new))) }
        ensures err { IfErr result (λ e. (e ≡ RunFault.Read) × ((R.has_failed reader.new ≡ true) ⊎ (self.new.reads ≡ 0))) }
        ensures lost { OnErr result (Consumes (coming self.old (R.remaining reader.old)) (R.remaining reader.new) []) }
        ensures goes { IfOk result (λ more. more ≡ true → R.ends reader.new ≡ R.ends reader.old) }
        ensures stops { IfOk result (λ more. more ≡ false → CountsOn 1 (R.ends reader.old) (R.ends reader.new)) }
        ensures still { OnErr result (R.ends reader.new ≡ R.ends reader.old) }
        ensures weight { weight self.new ≤ weight self.old }
        ensures count { CountsOn (self.old.reads - self.new.reads) (R.reads reader.old) (R.reads reader.new) }
        ensures fewer { self.new.reads ≤ self.old.reads }
        ensures paid { Pays self.old.reads self.new.reads 1 (R.remaining reader.old) (R.remaining reader.new) }
        ensures even { IfOk result (λ more. more ≡ true → Pays self.old.reads self.new.reads 0 (R.remaining reader.old) (R.remaining reader.new)) }
    {
        if self.begin < self.end {
            return Ok(true);
        }
        if self.reads == 0 {
            return Err(RunFault::Read);
        }
        self.reads -= 1;
        match reader.pull(&mut self.buffer[..]) {
            Ok(n) => {
                self.begin = 0;
                self.end = n;
                Ok(n > 0)
            }
            Err(_) => Err(RunFault::Read),
        }
    }

    /// Takes the next byte, or None at the end. `Err` is `RunFault::Read`: the reader failed, or no read is left.
    pub fn next<R: Source>(&mut self, reader: &mut R) -> Result<Option<u8>, RunFault>
        requires { R.has_failed reader.old ≡ false }
        ensures sound { OnOk result (R.has_failed reader.new ≡ false) }
        ensures ok { IfOk result (λ b. MatchOption b
            (Consumes (coming self.old (R.remaining reader.old)) (coming self.new (R.remaining reader.new)) []
            × IsAtEnd (coming self.new (R.remaining reader.new)))
            (λ x. Consumes (coming self.old (R.remaining reader.old)) (coming self.new (R.remaining reader.new)) (x ∷ [])
            × (weight self.new < weight self.old))) }
        ensures err { IfErr result (λ e. (e ≡ RunFault.Read) × ((R.has_failed reader.new ≡ true) ⊎ (self.new.reads ≡ 0))) }
        ensures ends { IfOk result (λ b. MatchOption b (CountsOn 1 (R.ends reader.old) (R.ends reader.new)) (λ x. R.ends reader.new ≡ R.ends reader.old)) }
        // what the reader gave was all taken before it failed
        ensures lost { OnErr result (Consumes (coming self.old (R.remaining reader.old)) (R.remaining reader.new) []) }
        ensures still { OnErr result (R.ends reader.new ≡ R.ends reader.old) }
        ensures weight { weight self.new ≤ weight self.old }
        ensures count { CountsOn (self.old.reads - self.new.reads) (R.reads reader.old) (R.reads reader.new) }
        ensures fewer { self.new.reads ≤ self.old.reads }
        ensures paid { Pays self.old.reads self.new.reads 1 (R.remaining reader.old) (R.remaining reader.new) }
        ensures even { IfOk result (λ b. IfSome b (λ _. Pays self.old.reads self.new.reads 0 (R.remaining reader.old) (R.remaining reader.new))) }
    {
        if !self.fill(reader)? {
            return Ok(None);
        }
        let x = self.buffer[self.begin];
        self.begin += 1;
        Ok(Some(x))
    }
}
