//! The run of a script.

ghost use Rattle.std.specs.Prelude.{◌≡◌, ◌≤◌, ◌^◌, ◌⊎◌, ℕ, ◌+◌, List, [], true, false, IfOk, IfErr, OnOk, OnErr};
ghost use Rattle.std.specs.Io.KnownBytes.{Appends};
ghost use Rattle.starlark_script.specs.Device.{AppendsFront, Breaks, CountsOn};
ghost use Rattle.starlark_script.specs.Printed.{edit_line, outline_lines};
ghost use Rattle.starlark_script.specs.Coming.{ReadsFew};
ghost use Rattle.starlark_script.specs.Engine.{Answers, HaveOutlines, Wrote, WroteFront, WroteSoFar};

use crate::ahead::Ahead;
use crate::device::{Sink, Source};
use crate::fault::{End, RunFault};
use crate::reading::{Asked, LINE_BYTES, Request, next_request};
use crate::reply::Reply;
use crate::write::write_all;
use starlark_lexer::dialect::Dialect;
use starlark_parts::fault::PartFault;
use starlark_parts::items::Items;
use starlark_parts::laws::{good_trees, joined_outline};
use starlark_parts::parts::Parts;
use std::alloc::Global;

/// Writes the outline, block by block: a line for the number of statements, and one for each of them.
fn write_outline<W: Sink>(writer: &mut W, items: Items) -> Result<(), RunFault>
    requires { W.has_failed writer.old ≡ false }
    ensures ok { OnOk result (Appends (W.contents writer.old) (W.contents writer.new) (outline_lines items.entry)) }
    ensures sound { OnOk result ((W.has_failed writer.new ≡ false) × (W.stalls writer.new ≡ W.stalls writer.old)) }
    ensures front { OnErr result (AppendsFront (W.contents writer.old) (W.contents writer.new) (outline_lines items.entry)) }
    ensures err { IfErr result (λ e. (e ≡ RunFault.Write) × Breaks (W.has_failed writer.new) (W.stalls writer.old) (W.stalls writer.new)) }
{
    let mut block = Reply::count(items.len());
    for item in items {
        if block.is_full() {
            write_all(writer, block.as_slice())?;
            block.clear();
        }
        block.push_statement(item);
    }
    write_all(writer, block.as_slice())
}

/// Writes the line that answers an edit.
fn write_done<W: Sink>(writer: &mut W, done: Result<(), PartFault>) -> Result<(), RunFault>
    requires { W.has_failed writer.old ≡ false }
    ensures ok { OnOk result (Appends (W.contents writer.old) (W.contents writer.new) (edit_line done)) }
    ensures sound { OnOk result ((W.has_failed writer.new ≡ false) × (W.stalls writer.new ≡ W.stalls writer.old)) }
    ensures front { OnErr result (AppendsFront (W.contents writer.old) (W.contents writer.new) (edit_line done)) }
    ensures err { IfErr result (λ e. (e ≡ RunFault.Write) × Breaks (W.has_failed writer.new) (W.stalls writer.old) (W.stalls writer.new)) }
{
    match done {
        Ok(()) => write_all(writer, b"ok\n"),
        Err(fault) => write_all(writer, Reply::refusal(&fault).as_slice()),
    }
}

/// Does what is asked, and writes the whole reply. An edit that is refused leaves the parts as they were.
fn answer<W: Sink>(writer: &mut W, parts: &mut Parts, asked: Asked) -> Result<(), RunFault>
    requires sound { W.has_failed writer.old ≡ false }
    requires outlined { HaveOutlines parts.old.dialect parts.old.texts }
    ensures ok { OnOk result ((reply : List ℕ) × Answers parts.old.limit parts.old.dialect parts.old.texts asked reply parts.new.texts
        × Appends (W.contents writer.old) (W.contents writer.new) reply) }
    ensures sound { OnOk result ((W.has_failed writer.new ≡ false) × (W.stalls writer.new ≡ W.stalls writer.old)) }
    ensures front { OnErr result ((reply : List ℕ) × Answers parts.old.limit parts.old.dialect parts.old.texts asked reply parts.new.texts
        × AppendsFront (W.contents writer.old) (W.contents writer.new) reply) }
    ensures err { IfErr result (λ e. (e ≡ RunFault.Write) × Breaks (W.has_failed writer.new) (W.stalls writer.old) (W.stalls writer.new)) }
    ensures limit { parts.new.limit ≡ parts.old.limit }
    ensures dialect { parts.new.dialect ≡ parts.old.dialect }
    ensures outlined { HaveOutlines parts.new.dialect parts.new.texts }
{
    good_trees();
    match asked {
        Asked::Insert(index, text) => {
            let done = parts.insert(index, text.as_slice());
            write_done(writer, done)
        }
        Asked::Replace(index, text) => {
            let done = parts.replace(index, text.as_slice());
            write_done(writer, done)
        }
        Asked::Remove(index) => {
            let done = parts.remove(index);
            write_done(writer, done)
        }
        Asked::Move(from, to) => {
            let done = parts.move_part(from, to);
            write_done(writer, done)
        }
        Asked::Wanting => write_all(writer, b"refused memory\n"),
        Asked::Outline => write_outline(writer, parts.items()),
    }
}

// runs a script over these parts, which are none yet
fn answer_all<R: Source, W: Sink>(
    alloc: Global,
    ahead: &mut Ahead,
    reader: &mut R,
    writer: &mut W,
    parts: &mut Parts,
) -> Result<End, RunFault>
    requires reader { R.has_failed reader.old ≡ false }
    requires writer { W.has_failed writer.old ≡ false }
    requires bytes { ahead.old.bytes ≡ [] }
    requires reads { ahead.old.reads ≡ 2 ^ 40 }
    requires parts { parts.old.texts ≡ [] }
    ensures ok { IfOk result (Wrote parts.old.limit parts.old.dialect (R.remaining reader.old) (W.contents writer.old) (W.contents writer.new)) }
    ensures sound { OnOk result ((R.has_failed reader.new ≡ false) × (W.has_failed writer.new ≡ false) × (W.stalls writer.new ≡ W.stalls writer.old)) }
    ensures front { OnErr result (WroteFront parts.old.limit parts.old.dialect (R.remaining reader.old) (W.contents writer.old) (W.contents writer.new)) }
    ensures ended { IfOk result (λ e. e ≡ End.Whole → CountsOn 1 (R.ends reader.old) (R.ends reader.new)) }
    ensures budget { R.reads reader.new ≤ R.reads reader.old + 2 ^ 40 }
    ensures few { ReadsFew (R.remaining reader.old) (R.remaining reader.new) (R.reads reader.old) (R.reads reader.new) }
    ensures read { IfErr result (λ f. f ≡ RunFault.Read → (R.has_failed reader.new ≡ true) ⊎ CountsOn (2 ^ 40) (R.reads reader.old) (R.reads reader.new)) }
    ensures last { IfErr result (λ f. f ≡ RunFault.Read → (R.ends reader.new ≡ R.ends reader.old) × (W.has_failed writer.new ≡ false) × (W.stalls writer.new ≡ W.stalls writer.old)) }
    ensures whole { IfErr result (λ f. f ≡ RunFault.Read → WroteSoFar parts.old.limit parts.old.dialect (R.remaining reader.old) (W.contents writer.old) (W.contents writer.new) (R.remaining reader.new)) }
    ensures write { IfErr result (λ f. f ≡ RunFault.Write → Breaks (W.has_failed writer.new) (W.stalls writer.old) (W.stalls writer.new)) }
    ensures prompt { IfErr result (λ f. f ≡ RunFault.Write → R.has_failed reader.new ≡ false) }
    ensures memory { IfErr result (λ f. f ≡ RunFault.Memory → ⊥) }
{
    joined_outline();
    let mut line = [0u8; LINE_BYTES];
    'commands: loop {
        match next_request(alloc, ahead, reader, &mut line)? {
            Request::Whole => return Ok(End::Whole),
            Request::Bad => {
                write_all(writer, b"bad\n")?;
                return Ok(End::Bad);
            }
            Request::Does(asked) => answer(writer, parts, asked)?,
        }
    }
}

/// Runs a script: takes one command after the other off the reader, and writes the whole reply to each before it reads
/// on. A read of 0 bytes is the end, and the last. The parts, none at first, may have `limit` bytes together.
///
/// - `Ok(End::Whole)`: the script is at its end after a command.
/// - `Ok(End::Bad)`: it goes on with a line that is no command, or ends before all bytes of a command. The last reply is
///   `bad`.
/// - `Err(RunFault::Read)`: a read failed, or 2 to the 40th reads were made. The whole replies to all that is whole in
///   what was read were written, and nothing else.
/// - `Err(RunFault::Write)`: a write failed, or took 0 bytes of some, and it was the last. A front of the replies was
///   written.
/// - `Err(RunFault::Memory)`: there was no memory for the buffer. Nothing was read or written.
///
/// Want of memory for a text or its reading ends nothing: the reply is `refused memory`.
pub fn run_with<R: Source, W: Sink>(
    alloc: Global,
    reader: &mut R,
    writer: &mut W,
    dialect: &Dialect,
    limit: u32,
) -> Result<End, RunFault>
    requires reader { R.has_failed reader.old ≡ false }
    requires writer { W.has_failed writer.old ≡ false }
    // where the script and the writer's bytes are known, replies to the whole script were written, and it ends so
    ensures ok { IfOk result (Wrote limit dialect.now (R.remaining reader.old) (W.contents writer.old) (W.contents writer.new)) }
    ensures sound { OnOk result ((R.has_failed reader.new ≡ false) × (W.has_failed writer.new ≡ false) × (W.stalls writer.new ≡ W.stalls writer.old)) }
    // after a fault a front of such replies was written
    ensures front { OnErr result (WroteFront limit dialect.now (R.remaining reader.old) (W.contents writer.old) (W.contents writer.new)) }
    // the script is whole only where a read gave no byte
    ensures ended { IfOk result (λ e. e ≡ End.Whole → CountsOn 1 (R.ends reader.old) (R.ends reader.new)) }
    ensures budget { R.reads reader.new ≤ R.reads reader.old + 2 ^ 40 }
    // each read but the last took a byte: so the run gives up by itself in no script of fewer than 2^40 - 1 bytes
    ensures few { ReadsFew (R.remaining reader.old) (R.remaining reader.new) (R.reads reader.old) (R.reads reader.new) }
    ensures read { IfErr result (λ f. f ≡ RunFault.Read → (R.has_failed reader.new ≡ true) ⊎ CountsOn (2 ^ 40) (R.reads reader.old) (R.reads reader.new)) }
    // nothing is read behind the end, and nothing is written behind a fault of the reader: each such call could fail
    ensures last { IfErr result (λ f. f ≡ RunFault.Read → (R.ends reader.new ≡ R.ends reader.old) × (W.has_failed writer.new ≡ false) × (W.stalls writer.new ≡ W.stalls writer.old)) }
    // a fault of the reader cuts no reply, and each request that it gave whole was answered
    ensures whole { IfErr result (λ f. f ≡ RunFault.Read → WroteSoFar limit dialect.now (R.remaining reader.old) (W.contents writer.old) (W.contents writer.new) (R.remaining reader.new)) }
    ensures write { IfErr result (λ f. f ≡ RunFault.Write → Breaks (W.has_failed writer.new) (W.stalls writer.old) (W.stalls writer.new)) }
    // nothing is read while a reply is owed: that read could fail before the write does
    ensures prompt { IfErr result (λ f. f ≡ RunFault.Write → R.has_failed reader.new ≡ false) }
    ensures memory { IfErr result (λ f. f ≡ RunFault.Memory → (reader.new ≡ reader.old) × (writer.new ≡ writer.old)) }
{
    joined_outline();
    let mut ahead = match Ahead::new(alloc) {
        Ok(ahead) => ahead,
        Err(_) => return Err(RunFault::Memory),
    };
    let mut parts = Parts::with_limit(alloc, dialect, limit);
    let end = answer_all(alloc, &mut ahead, reader, writer, &mut parts);
    parts.release();
    end
}

/// Runs a script whose parts may have 4294967295 bytes together. All else is as in `run_with`.
pub fn run<R: Source, W: Sink>(
    alloc: Global,
    reader: &mut R,
    writer: &mut W,
    dialect: &Dialect,
) -> Result<End, RunFault>
    requires reader { R.has_failed reader.old ≡ false }
    requires writer { W.has_failed writer.old ≡ false }
    ensures ok { IfOk result (Wrote 4294967295 dialect.now (R.remaining reader.old) (W.contents writer.old) (W.contents writer.new)) }
    ensures sound { OnOk result ((R.has_failed reader.new ≡ false) × (W.has_failed writer.new ≡ false) × (W.stalls writer.new ≡ W.stalls writer.old)) }
    ensures front { OnErr result (WroteFront 4294967295 dialect.now (R.remaining reader.old) (W.contents writer.old) (W.contents writer.new)) }
    // the script is whole only where a read gave no byte
    ensures ended { IfOk result (λ e. e ≡ End.Whole → CountsOn 1 (R.ends reader.old) (R.ends reader.new)) }
    ensures budget { R.reads reader.new ≤ R.reads reader.old + 2 ^ 40 }
    // each read but the last took a byte: so the run gives up by itself in no script of fewer than 2^40 - 1 bytes
    ensures few { ReadsFew (R.remaining reader.old) (R.remaining reader.new) (R.reads reader.old) (R.reads reader.new) }
    ensures read { IfErr result (λ f. f ≡ RunFault.Read → (R.has_failed reader.new ≡ true) ⊎ CountsOn (2 ^ 40) (R.reads reader.old) (R.reads reader.new)) }
    // nothing is read behind the end, and nothing is written behind a fault of the reader: each such call could fail
    ensures last { IfErr result (λ f. f ≡ RunFault.Read → (R.ends reader.new ≡ R.ends reader.old) × (W.has_failed writer.new ≡ false) × (W.stalls writer.new ≡ W.stalls writer.old)) }
    ensures whole { IfErr result (λ f. f ≡ RunFault.Read → WroteSoFar 4294967295 dialect.now (R.remaining reader.old) (W.contents writer.old) (W.contents writer.new) (R.remaining reader.new)) }
    ensures write { IfErr result (λ f. f ≡ RunFault.Write → Breaks (W.has_failed writer.new) (W.stalls writer.old) (W.stalls writer.new)) }
    // nothing is read while a reply is owed: that read could fail before the write does
    ensures prompt { IfErr result (λ f. f ≡ RunFault.Write → R.has_failed reader.new ≡ false) }
    ensures memory { IfErr result (λ f. f ≡ RunFault.Memory → (reader.new ≡ reader.old) × (writer.new ≡ writer.old)) }
{
    run_with(alloc, reader, writer, dialect, u32::MAX)
}
