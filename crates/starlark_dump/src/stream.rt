//! Runs: a stream of queries, or one text.

ghost use Rattle.std.specs.Io.KnownBytes.{Appends};
ghost use Rattle.std.specs.Prelude.{◌≡◌, IfOk, OnOk, codes};

use crate::answer::{Refused, answer};
use crate::fault::{End, RunFault};
use crate::query::{Query, Question, query_of};
use std::alloc::Global;
use std::io;
use std::io::{BufRead, BufReader, Read, Write};

/// How many bytes a query's line has at most, its line feed included.
const LINE: u64 = 65;

/// What stands at the front of a stream.
enum Line {
    /// Nothing: the stream is at its end.
    End,
    /// No query.
    Bad,
    /// A query, with its text right behind.
    Of(Query),
}

/// Reads the next line.
fn next_line<R: BufRead>(alloc: Global, reader: &mut R) -> Result<Line, RunFault> {
    let mut line = Vec::new(alloc);
    let mut front = reader.by_ref().take(LINE);
    let count = front
        .read_until(b'\n', &mut line)
        .map_err(RunFault::of_read)?;
    if count == 0 {
        return Ok(Line::End);
    }
    let Some(b'\n') = line.pop() else {
        return Ok(Line::Bad);
    };
    match query_of(line.as_slice()) {
        Some(query) => Ok(Line::Of(query)),
        None => Ok(Line::Bad),
    }
}

/// Reads to the reader's end, or answers `Refused::Memory` where there is no memory for so much. All is read then too,
/// so that what stands behind it is found.
fn read_all<R: Read>(alloc: Global, reader: &mut R) -> Result<Result<Vec<u8>, Refused>, RunFault> {
    let mut text = Vec::new(alloc);
    match reader.read_to_end(&mut text) {
        Ok(_) => Ok(Ok(text)),
        Err(error) => {
            let RunFault::Memory = RunFault::of_read(error) else {
                return Err(RunFault::Read);
            };
            drop(text);
            io::copy(reader, &mut io::sink()).map_err(RunFault::of_read)?;
            Ok(Err(Refused::Memory))
        }
    }
}

/// Writes the answer to a question of a text, which memory may have lacked for.
fn write_answer<W: Write>(
    alloc: Global,
    writer: &mut W,
    question: Question,
    text: Result<Vec<u8>, Refused>,
) -> Result<(), RunFault> {
    let lines = match text {
        Ok(bytes) => answer(alloc, question, bytes.as_slice()),
        Err(refused) => Err(refused),
    };
    match lines {
        Ok(lines) => writer.write_all(lines.as_str().as_bytes()),
        Err(refused) => writer.write_all(refused.line().as_bytes()),
    }
    .map_err(RunFault::of_write)
}

/// Answers `bad`, behind which nothing is read.
pub(crate) fn run_bad<W: Write>(writer: &mut W) -> Result<End, RunFault>
    ensures end { IfOk result (λ e. e ≡ End.Bad) }
    ensures told { OnOk result (Appends (W.contents writer.old) (W.contents writer.new) (codes "bad\n")) }
{
    writer.write_all(b"bad\n").map_err(RunFault::of_write)?;
    Ok(End::Bad)
}

/// Takes one query after the other off the reader, and writes each answer and a line `--` before it takes the next.
///
/// - `Ok(End::Whole)`: the stream is at its end before a query.
/// - `Ok(End::Bad)`: it goes on with what is no query, or ends before all bytes of a text. The last answer is `bad`.
/// - `Err(RunFault::Read)`: a read failed, or as many queries were answered as a `u64` counts.
/// - `Err(RunFault::Write)`: a write failed, or took 0 bytes of some.
/// - `Err(RunFault::Memory)`: there was no memory for the buffer or a line.
///
/// It holds one text, in a few copies, and its answer at a time. Want of memory for them ends nothing: the answer is
/// `refused memory`.
pub(crate) fn run<R: Read + Drop, W: Write>(
    alloc: Global,
    reader: R,
    writer: &mut W,
) -> Result<End, RunFault> {
    let mut reader = BufReader::new(alloc, reader).map_err(RunFault::of_read)?;
    for _ in 0..u64::MAX {
        let query = match next_line(alloc, &mut reader)? {
            Line::End => return Ok(End::Whole),
            Line::Bad => return run_bad(writer),
            Line::Of(query) => query,
        };
        let mut front = reader.by_ref().take(query.count);
        let text = read_all(alloc, &mut front)?;
        if front.limit() > 0 {
            return run_bad(writer);
        }
        write_answer(alloc, writer, query.question, text)?;
        writer.write_all(b"--\n").map_err(RunFault::of_write)?;
    }
    Err(RunFault::Read)
}

/// Answers one question of all that the reader has.
pub(crate) fn run_text<R: Read + Drop, W: Write>(
    alloc: Global,
    mut reader: R,
    writer: &mut W,
    question: Question,
) -> Result<End, RunFault>
    ensures { IfOk result (λ e. e ≡ End.Whole) }
{
    let text = read_all(alloc, &mut reader)?;
    write_answer(alloc, writer, question, text)?;
    Ok(End::Whole)
}
