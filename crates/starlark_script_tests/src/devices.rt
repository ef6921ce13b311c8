//! Readers and writers that tell their bytes, count their calls and fail, and what a run makes of them.

ghost use Rattle.std.specs.Prelude.{◌≡◌, [], Some, IfOk, IfErr, OnErr};
ghost use Rattle.starlark_script.specs.Engine.{IsAnswered, IsAnsweredInPart, IsAnsweredSoFar};

use crate::check::{count, equal, holds};
use starlark_lexer::dialect::Dialect;
use starlark_script::{End, RunFault, Sink, Source, Watched, run, run_with, tell};
use std::io;
use std::io::{Read, Write};

/// The number of no call.
pub(crate) const NEVER: usize = usize::MAX;

/// How the call of that number fails: each other one with the kind behind which std tries again.
fn failure(call: usize) -> io::Error {
    if call % 2 == 0 {
        io::Error::from(io::ErrorKind::BrokenPipe)
    } else {
        io::Error::from(io::ErrorKind::Interrupted)
    }
}

/// The call fails as the device does at the call of that number.
fn fails<T: Drop>(answer: io::Result<T>, call: usize) -> bool {
    match answer {
        Ok(_) => false,
        Err(error) => error.kind() == failure(call).kind(),
    }
}

/// Hands out one byte a read. The call of one number, counted from 0, fails, and those behind it go on.
#[derive(Drop)]
pub(crate) struct Single<'a> {
    rest: &'a [u8],
    fails_at: usize,
    calls: usize,
}

impl<'a> Read for Single<'a> {
    ghost remaining = { λ s. Some s.rest.now };

    fn read(&mut self, buf: &mut [u8]) -> io::Result<usize> {
        let call = self.calls;
        self.calls = call.saturating_add(1);
        if call == self.fails_at {
            return Err(failure(call));
        }
        if buf.is_empty() || self.rest.is_empty() {
            return Ok(0);
        }
        buf[0] = self.rest[0];
        self.rest = &self.rest[1..];
        Ok(1)
    }
}

/// Takes one byte a write. The call of one number, counted from 0, fails, that of another takes no byte, and those behind
/// them go on.
#[derive(Drop)]
pub(crate) struct Tight {
    pub(crate) taken: Vec<u8>,
    fails_at: usize,
    stalls_at: usize,
    calls: usize,
}

impl Tight {
    pub(crate) fn new(rt: &HostRuntime, fails_at: usize, stalls_at: usize) -> Tight
        ensures { result.taken.items ≡ [] }
    {
        Tight {
            taken: Vec::new(rt.alloc()),
            fails_at,
            stalls_at,
            calls: 0,
        }
    }

    // counts a call, and tells its number
    fn call(&mut self) -> usize
        ensures { self.new.taken ≡ self.old.taken }
    {
        let call = self.calls;
        self.calls = call.saturating_add(1);
        call
    }
}

impl Write for Tight {
    ghost contents = { λ w. Some w.taken.items };

    fn write(&mut self, buf: &[u8]) -> io::Result<usize> {
        let call = self.call();
        if call == self.fails_at {
            return Err(failure(call));
        }
        if call == self.stalls_at || buf.is_empty() {
            return Ok(0);
        }
        match self.taken.push(buf[0]) {
            Ok(()) => Ok(1),
            Err(_) => Err(failure(call)),
        }
    }

    fn flush(&mut self) -> io::Result<()> {
        let call = self.call();
        if call == self.fails_at {
            return Err(failure(call));
        }
        Ok(())
    }
}

/// Gives a command, no byte, and then a command again, whose bytes no one knows.
#[derive(Drop)]
struct Pausing {
    calls: usize,
}

impl Read for Pausing {
    fn read(&mut self, buf: &mut [u8]) -> io::Result<usize> {
        self.calls = self.calls.saturating_add(1);
        if self.calls == 2 {
            return Ok(0);
        }
        let mut rest: &[u8] = b"outline\n";
        rest.read(buf)
    }
}

/// How a run ended, and what it left.
#[derive(Drop)]
pub(crate) struct Short<'a> {
    pub(crate) end: Result<End, RunFault>,
    pub(crate) read_failed: bool,
    pub(crate) write_failed: bool,
    reader: Single<'a>,
    pub(crate) writer: Tight,
}

/// Runs a script by reads and writes of one byte each.
pub(crate) fn run_short<'a>(
    rt: &HostRuntime,
    script: &'a [u8],
    limit: u32,
    fails_at: usize,
    writer: Tight,
) -> Short<'a>
    requires { writer.taken.items ≡ [] }
    ensures ok { IfOk result.end (IsAnswered limit Dialect.Standard script.now [] (Some result.writer.taken.items)) }
    ensures front { OnErr result.end (IsAnsweredInPart limit Dialect.Standard script.now [] (Some result.writer.taken.items)) }
    ensures whole { IfErr result.end (λ f. f ≡ RunFault.Read → IsAnsweredSoFar limit Dialect.Standard script.now [] (Some result.writer.taken.items) (Some result.reader.rest.now)) }
{
    let mut reader = Watched::new(Single {
        rest: script,
        fails_at,
        calls: 0,
    });
    let mut writer = Watched::new(writer);
    let end = run_with(
        rt.alloc(),
        &mut reader,
        &mut writer,
        &Dialect::Standard,
        limit,
    );
    Short {
        end,
        read_failed: Source::failed(&reader),
        write_failed: Sink::failed(&writer),
        reader: reader.into_inner(),
        writer: writer.into_inner(),
    }
}

/// A script of two commands, of 17 and 8 bytes, and its replies, of 3 and 24 bytes.
const SCRIPT: &[u8] = b"insert 0 6\nx = 1\noutline\n";

const REPLIES: &[u8] = b"ok\nstatements 1\n1:1 assign\n";

/// The reader fails at each byte in turn, and at the end: what was whole before is answered, and no read follows.
#[test]
fn each_read_fails(rt: HostRuntime) {
    for at in 0..26 {
        let writer = Tight::new(&rt, NEVER, NEVER);
        let short = run_short(&rt, SCRIPT, 100, at, writer);
        holds(
            &rt,
            short.end == Err(RunFault::Read) && short.read_failed && !short.write_failed,
        );
        let answered = if at < 17 {
            0
        } else if at < 25 {
            3
        } else {
            27
        };
        equal(&rt, short.writer.taken.as_slice(), &REPLIES[..answered]);
        equal(&rt, short.reader.calls, at + 1);
    }
}

/// The writer fails, or takes none, at each byte in turn: no write follows, and nothing was read behind that request.
#[test]
fn each_write_fails(rt: HostRuntime) {
    for at in 0..27 {
        let reads = if at < 3 { 17 } else { 25 };
        let failing = run_short(&rt, SCRIPT, 100, NEVER, Tight::new(&rt, at, NEVER));
        let stalling = run_short(&rt, SCRIPT, 100, NEVER, Tight::new(&rt, NEVER, at));
        holds(&rt, failing.write_failed && !stalling.write_failed);
        for short in [failing, stalling] {
            holds(&rt, short.end == Err(RunFault::Write) && !short.read_failed);
            equal(&rt, short.writer.taken.as_slice(), &REPLIES[..at]);
            equal(&rt, short.writer.calls, at + 1);
            equal(&rt, short.reader.calls, reads);
        }
    }
}

/// How many reads of one byte a run makes: none behind a bad line, and one at the end.
#[test]
fn no_read_too_many(rt: HostRuntime) {
    let scripts: [(&[u8], usize, End); 5] = [
        (b"", 1, End::Whole),
        (b"outline\n", 9, End::Whole),
        (b"outlin", 7, End::Bad),
        (b"insert 0 2\nx", 13, End::Bad),
        (b"outlin\noutline\n", 7, End::Bad),
    ];
    for (script, reads, end) in scripts {
        let short = run_short(&rt, script, 100, NEVER, Tight::new(&rt, NEVER, NEVER));
        holds(&rt, short.end == Ok(end));
        equal(&rt, short.reader.calls, reads);
    }
    let long = [b'o'; 80];
    let short = run_short(&rt, &long, 100, NEVER, Tight::new(&rt, NEVER, NEVER));
    holds(&rt, short.end == Ok(End::Bad));
    equal(&rt, short.reader.calls, 65);
}

/// Each fault is told by its line, and the end of a script by nothing.
#[test]
fn faults_are_told(rt: HostRuntime) {
    let mut writer = Tight::new(&rt, NEVER, NEVER);
    for end in [Ok(End::Whole), Ok(End::Bad)] {
        holds(&rt, tell(&mut writer, &end).is_ok());
    }
    for fault in [RunFault::Read, RunFault::Write, RunFault::Memory] {
        holds(&rt, tell(&mut writer, &Err(fault)).is_ok());
    }
    let lines: &[u8] = b"fault: read\nfault: write\nfault: memory\n";
    equal(&rt, writer.taken.as_slice(), lines);
}

/// A read of no byte is the end, whatever the reader would give behind it.
#[test]
fn nothing_behind_the_end(rt: HostRuntime) {
    let mut reader = Watched::new(Pausing { calls: 0 });
    let mut writer = Watched::new(Tight::new(&rt, NEVER, NEVER));
    let end = run(rt.alloc(), &mut reader, &mut writer, &Dialect::Standard);
    let replies: &[u8] = b"statements 0\n";
    holds(&rt, end == Ok(End::Whole));
    equal(&rt, writer.into_inner().taken.as_slice(), replies);
    equal(&rt, reader.into_inner().calls, 2);
}

/// Each read is passed on once, also behind one that failed and behind the end, and answers what it answers.
#[test]
fn watched_reader(rt: HostRuntime) {
    let mut buffer = [0u8; 4];
    let script: &[u8] = b"ab";
    let mut reader = Watched::new(Single {
        rest: script,
        fails_at: 3,
        calls: 0,
    });
    holds(
        &rt,
        matches!(reader.read(&mut buffer), Ok(1)) && buffer[0] == b'a',
    );
    holds(
        &rt,
        matches!(reader.pull(&mut buffer), Ok(1)) && buffer[0] == b'b',
    );
    holds(
        &rt,
        matches!(reader.read(&mut buffer), Ok(0)) && !Source::failed(&reader),
    );
    holds(
        &rt,
        fails(reader.pull(&mut buffer), 3) && Source::failed(&reader),
    );
    holds(
        &rt,
        matches!(reader.pull(&mut buffer), Ok(0)) && Source::failed(&reader),
    );
    equal(&rt, reader.into_inner().calls, 5);
}

/// Each write is passed on once, also behind one that failed and one that took none, and answers what it answers.
#[test]
fn watched_writer(rt: HostRuntime) {
    let mut writer = Watched::new(Tight::new(&rt, 3, 1));
    holds(&rt, matches!(writer.write(b"ab"), Ok(1)));
    holds(
        &rt,
        matches!(writer.put(b"b"), Ok(0)) && writer.flush().is_ok(),
    );
    holds(
        &rt,
        !Sink::failed(&writer) && fails(writer.put(b"b"), 3) && Sink::failed(&writer),
    );
    holds(
        &rt,
        matches!(writer.put(b"bc"), Ok(1)) && Sink::failed(&writer),
    );
    let inner = writer.into_inner();
    let taken: &[u8] = b"ab";
    equal(&rt, inner.taken.as_slice(), taken);
    equal(&rt, inner.calls, 5);
}

/// A flush that fails is kept in mind too.
#[test]
fn watched_flush(rt: HostRuntime) {
    let mut writer = Watched::new(Tight::new(&rt, 0, NEVER));
    holds(&rt, fails(writer.flush(), 0) && Sink::failed(&writer));
    equal(&rt, writer.into_inner().calls, 1);
}

/// As many bytes as a run reads and writes at once.
static BLOCK: [u8; 4096] = [b'a'; 4096];

/// All the room and all the bytes are passed on, by the calls of std and by those of our own.
#[test]
fn watched_whole(rt: HostRuntime) {
    let mut room = [0u8; 4096];
    let block: &[u8] = &BLOCK;
    let mut reader = Watched::new(block);
    holds(&rt, matches!(reader.pull(&mut room), Ok(4096)));
    let mut reader = Watched::new(block);
    holds(&rt, matches!(reader.read(&mut room), Ok(4096)));
    let mut writer = Watched::new(Vec::new(rt.alloc()));
    holds(&rt, matches!(writer.put(block), Ok(4096)));
    holds(&rt, matches!(writer.write(block), Ok(4096)));
    count(&rt, writer.into_inner().len(), 8192);
}

/// A read and a write of std that fail are passed on once, and their answer is kept in mind.
#[test]
fn watched_failures(rt: HostRuntime) {
    let script: &[u8] = b"ab";
    let mut reader = Watched::new(Single {
        rest: script,
        fails_at: 0,
        calls: 0,
    });
    holds(
        &rt,
        fails(reader.read(&mut [0u8; 2]), 0) && Source::failed(&reader),
    );
    equal(&rt, reader.into_inner().calls, 1);
    let mut writer = Watched::new(Tight::new(&rt, 1, 0));
    holds(
        &rt,
        matches!(writer.write(b"ab"), Ok(0)) && !Sink::failed(&writer),
    );
    holds(&rt, fails(writer.write(b"ab"), 1) && Sink::failed(&writer));
    equal(&rt, writer.into_inner().calls, 2);
}

/// Where a call of std is made of several, a failure of one of them is kept in mind, and it is the last.
#[test]
fn watched_several(rt: HostRuntime) {
    let script: &[u8] = b"abc";
    let mut reader = Watched::new(Single {
        rest: script,
        fails_at: 2,
        calls: 0,
    });
    holds(
        &rt,
        reader.read_exact(&mut [0u8; 3]).is_err() && Source::failed(&reader),
    );
    equal(&rt, reader.into_inner().calls, 3);
    let mut writer = Watched::new(Tight::new(&rt, 2, NEVER));
    holds(
        &rt,
        writer.write_all(b"abc").is_err() && Sink::failed(&writer),
    );
    equal(&rt, writer.into_inner().calls, 3);
}

/// Fails at each call, and counts them.
#[derive(Drop)]
struct Broken {
    calls: usize,
}

impl Broken {
    fn call(&mut self) -> io::Error {
        let call = self.calls;
        self.calls = call.saturating_add(1);
        failure(call)
    }
}

impl Read for Broken {
    fn read(&mut self, _buf: &mut [u8]) -> io::Result<usize> {
        Err(self.call())
    }
}

impl Write for Broken {
    fn write(&mut self, _buf: &[u8]) -> io::Result<usize> {
        Err(self.call())
    }

    fn flush(&mut self) -> io::Result<()> {
        Err(self.call())
    }
}

/// A call that fails behind one that failed is passed on once, too, and answers what it answers.
#[test]
fn watched_again(rt: HostRuntime) {
    let mut reader = Watched::new(Broken { calls: 0 });
    holds(&rt, fails(reader.read(&mut [0u8; 2]), 0));
    holds(&rt, fails(reader.read(&mut [0u8; 2]), 1));
    holds(&rt, fails(reader.pull(&mut [0u8; 2]), 2));
    equal(&rt, reader.into_inner().calls, 3);
    let mut writer = Watched::new(Broken { calls: 0 });
    holds(&rt, fails(writer.write(b"a"), 0));
    holds(&rt, fails(writer.write(b"a"), 1));
    holds(&rt, fails(writer.put(b"a"), 2));
    holds(&rt, fails(writer.flush(), 3));
    equal(&rt, writer.into_inner().calls, 4);
}
