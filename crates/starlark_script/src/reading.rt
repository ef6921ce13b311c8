//! Commands with their bytes, read off a script.

ghost use Rattle.std.specs.Prelude.{◌≡◌, ◌-◌, ◌<◌, ◌≤◌, ◌⊎◌, true, false, length, IfOk, IfErr, OnErr, OnOk};
ghost use Rattle.starlark_script.specs.Coming.{Pays, coming, weight};
ghost use Rattle.starlark_script.specs.Device.{CountsOn};
ghost use Rattle.starlark_script.specs.Reading.{IsLine, LineFits, LineEnds, StopsInLine, line_goes, IsTaken, TextEnds, text_goes, StopsBefore, IsSkipped, IsRequest, RequestEnds, StopsCut, asked_of, goes_on};

use crate::ahead::Ahead;
use crate::command::{Head, command};
use crate::device::Source;
use crate::fault::RunFault;
use std::alloc::Global;

/// How many bytes the line of a command has at most, its line feed aside.
pub(crate) const LINE_BYTES: usize = 64;

/// What stands in the script up to the next line feed. The line of a command has at most 64 bytes before it.
pub enum Line {
    /// Nothing: the script is at its end.
    End,
    /// More than 64 bytes, or the script ends before a line feed.
    Bad,
    /// So many bytes, which stand at the front of the buffer, and a line feed.
    Of(usize),
}

/// What became of the bytes behind a command.
#[derive(Drop)]
pub enum Taken {
    /// They are all here.
    Text(Vec<u8>),
    /// They were all read, and dropped for want of memory.
    Wanting,
    /// The script ends before the last of them, whether memory was wanting or not.
    Short,
}

/// A command with its bytes. Parts count from 0.
#[derive(Drop)]
pub enum Asked {
    /// Put these bytes before the part of that number, or behind the last.
    Insert(usize, Vec<u8>),
    /// Put these bytes in the place of the part of that number.
    Replace(usize, Vec<u8>),
    /// Leave the part of that number out.
    Remove(usize),
    /// Take the part of the first number out, and put it at the second one of what is left.
    Move(usize, usize),
    /// Put in bytes that found no memory.
    Wanting,
    /// Tell the outline.
    Outline,
}

/// What stands at the front of the script.
#[derive(Drop)]
pub enum Request {
    /// Nothing: the script is at its end.
    Whole,
    /// A line that is no command, or a command whose bytes are not all there.
    Bad,
    /// A command with its bytes.
    Does(Asked),
}

/// Reads a line into the buffer, without its line feed. `Err` is `RunFault::Read`: the reader failed, or no read is
/// left.
fn next_line<R: Source>(
    ahead: &mut Ahead,
    reader: &mut R,
    line: &mut [u8],
) -> Result<Line, RunFault>
    requires sound { R.has_failed reader.old ≡ false }
    requires room { length line.old ≡ 64 }
    ensures sound { OnOk result (R.has_failed reader.new ≡ false) }
    ensures ok { IfOk result (IsLine (coming ahead.old (R.remaining reader.old)) (coming ahead.new (R.remaining reader.new)) line.new) }
    ensures fits { IfOk result LineFits }
    ensures ends { IfOk result (LineEnds (R.ends reader.old) (R.ends reader.new)) }
    ensures cut { OnErr result (StopsInLine (coming ahead.old (R.remaining reader.old)) (R.remaining reader.new)) }
    ensures still { OnErr result (R.ends reader.new ≡ R.ends reader.old) }
    ensures err { IfErr result (λ e. (e ≡ RunFault.Read) × ((R.has_failed reader.new ≡ true) ⊎ (ahead.new.reads ≡ 0))) }
    ensures lighter { IfOk result (λ l. line_goes l ≡ true → weight ahead.new < weight ahead.old) }
    ensures count { CountsOn (ahead.old.reads - ahead.new.reads) (R.reads reader.old) (R.reads reader.new) }
    ensures fewer { ahead.new.reads ≤ ahead.old.reads }
    ensures paid { Pays ahead.old.reads ahead.new.reads 1 (R.remaining reader.old) (R.remaining reader.new) }
    ensures even { IfOk result (λ l. line_goes l ≡ true → Pays ahead.old.reads ahead.new.reads 0 (R.remaining reader.old) (R.remaining reader.new)) }
{
    for i in 0..LINE_BYTES {
        match ahead.next(reader)? {
            None => {
                if i == 0 {
                    return Ok(Line::End);
                }
                return Ok(Line::Bad);
            }
            Some(b) => {
                if b == b'\n' {
                    return Ok(Line::Of(i));
                }
                line[i] = b;
            }
        }
    }
    match ahead.next(reader)? {
        None => Ok(Line::Bad),
        Some(b) => {
            if b == b'\n' {
                return Ok(Line::Of(LINE_BYTES));
            }
            Ok(Line::Bad)
        }
    }
}

/// Reads so many bytes and drops them, and tells whether there were so many.
fn skip<R: Source>(ahead: &mut Ahead, reader: &mut R, count: usize) -> Result<bool, RunFault>
    requires { R.has_failed reader.old ≡ false }
    ensures sound { OnOk result (R.has_failed reader.new ≡ false) }
    ensures ends { IfOk result (λ b. b ≡ true → R.ends reader.new ≡ R.ends reader.old) }
    ensures ok { IfOk result (IsSkipped (coming ahead.old (R.remaining reader.old)) (coming ahead.new (R.remaining reader.new)) count) }
    ensures cut { OnErr result (StopsBefore count (coming ahead.old (R.remaining reader.old)) (R.remaining reader.new)) }
    ensures still { OnErr result (R.ends reader.new ≡ R.ends reader.old) }
    ensures err { IfErr result (λ e. (e ≡ RunFault.Read) × ((R.has_failed reader.new ≡ true) ⊎ (ahead.new.reads ≡ 0))) }
    ensures lighter { weight ahead.new ≤ weight ahead.old }
    ensures count { CountsOn (ahead.old.reads - ahead.new.reads) (R.reads reader.old) (R.reads reader.new) }
    ensures fewer { ahead.new.reads ≤ ahead.old.reads }
    ensures paid { Pays ahead.old.reads ahead.new.reads 1 (R.remaining reader.old) (R.remaining reader.new) }
    ensures even { IfOk result (λ b. b ≡ true → Pays ahead.old.reads ahead.new.reads 0 (R.remaining reader.old) (R.remaining reader.new)) }
{
    for _i in 0..count {
        match ahead.next(reader)? {
            None => return Ok(false),
            Some(_) => {}
        }
    }
    Ok(true)
}

/// Reads so many bytes, and keeps them where there is memory. Where there is none it reads the rest of them all the
/// same, so that the next line is found.
fn take_text<R: Source>(
    alloc: Global,
    ahead: &mut Ahead,
    reader: &mut R,
    count: usize,
) -> Result<Taken, RunFault>
    requires { R.has_failed reader.old ≡ false }
    ensures sound { OnOk result (R.has_failed reader.new ≡ false) }
    ensures ends { IfOk result (TextEnds (R.ends reader.old) (R.ends reader.new)) }
    ensures ok { IfOk result (IsTaken (coming ahead.old (R.remaining reader.old)) (coming ahead.new (R.remaining reader.new)) count) }
    ensures cut { OnErr result (StopsBefore count (coming ahead.old (R.remaining reader.old)) (R.remaining reader.new)) }
    ensures still { OnErr result (R.ends reader.new ≡ R.ends reader.old) }
    ensures err { IfErr result (λ e. (e ≡ RunFault.Read) × ((R.has_failed reader.new ≡ true) ⊎ (ahead.new.reads ≡ 0))) }
    ensures lighter { weight ahead.new ≤ weight ahead.old }
    ensures count { CountsOn (ahead.old.reads - ahead.new.reads) (R.reads reader.old) (R.reads reader.new) }
    ensures fewer { ahead.new.reads ≤ ahead.old.reads }
    ensures paid { Pays ahead.old.reads ahead.new.reads 1 (R.remaining reader.old) (R.remaining reader.new) }
    ensures even { IfOk result (λ t. text_goes t ≡ true → Pays ahead.old.reads ahead.new.reads 0 (R.remaining reader.old) (R.remaining reader.new)) }
{
    let mut text = Vec::new(alloc);
    for i in 0..count {
        let Some(b) = ahead.next(reader)? else {
            return Ok(Taken::Short);
        };
        if text.push(b).is_err() {
            let whole = skip(ahead, reader, count - i - 1)?;
            if whole {
                return Ok(Taken::Wanting);
            }
            return Ok(Taken::Short);
        }
    }
    Ok(Taken::Text(text))
}

// what a line asks, with what became of the bytes behind it
fn with_bytes(head: Head, taken: Taken) -> Request
    ensures { result ≡ asked_of head taken }
{
    let text = match taken {
        Taken::Text(text) => Some(text),
        Taken::Wanting => None,
        Taken::Short => return Request::Bad,
    };
    Request::Does(match head {
        Head::Insert(index, _) => match text {
            Some(text) => Asked::Insert(index, text),
            None => Asked::Wanting,
        },
        Head::Replace(index, _) => match text {
            Some(text) => Asked::Replace(index, text),
            None => Asked::Wanting,
        },
        Head::Remove(index) => Asked::Remove(index),
        Head::Move(from, to) => Asked::Move(from, to),
        Head::Outline => Asked::Outline,
    })
}

/// Reads the next command with its bytes. The bytes that a command names are read whatever they are. `Err` is
/// `RunFault::Read`: the reader failed, or no read is left.
pub fn next_request<R: Source>(
    alloc: Global,
    ahead: &mut Ahead,
    reader: &mut R,
    line: &mut [u8],
) -> Result<Request, RunFault>
    requires sound { R.has_failed reader.old ≡ false }
    requires room { length line.old ≡ 64 }
    ensures sound { OnOk result (R.has_failed reader.new ≡ false) }
    ensures ok { IfOk result (IsRequest (coming ahead.old (R.remaining reader.old)) (coming ahead.new (R.remaining reader.new))) }
    ensures err { IfErr result (λ e. (e ≡ RunFault.Read) × ((R.has_failed reader.new ≡ true) ⊎ (ahead.new.reads ≡ 0))) }
    ensures ends { IfOk result (RequestEnds (R.ends reader.old) (R.ends reader.new)) }
    // it fails only where no request was whole: none is kept back
    ensures cut { OnErr result (StopsCut (coming ahead.old (R.remaining reader.old)) (R.remaining reader.new)) }
    ensures still { OnErr result (R.ends reader.new ≡ R.ends reader.old) }
    ensures lighter { IfOk result (λ q. goes_on q ≡ true → weight ahead.new < weight ahead.old) }
    ensures count { CountsOn (ahead.old.reads - ahead.new.reads) (R.reads reader.old) (R.reads reader.new) }
    ensures fewer { ahead.new.reads ≤ ahead.old.reads }
    ensures paid { Pays ahead.old.reads ahead.new.reads 1 (R.remaining reader.old) (R.remaining reader.new) }
    ensures even { IfOk result (λ q. goes_on q ≡ true → Pays ahead.old.reads ahead.new.reads 0 (R.remaining reader.old) (R.remaining reader.new)) }
{
    match next_line(ahead, reader, line)? {
        Line::End => Ok(Request::Whole),
        Line::Bad => Ok(Request::Bad),
        Line::Of(n) => match command(&line[..n]) {
            None => Ok(Request::Bad),
            Some(head) => {
                let taken = take_text(alloc, ahead, reader, head.bytes())?;
                Ok(with_bytes(head, taken))
            }
        },
    }
}
