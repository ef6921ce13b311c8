//! How a run ends, and how the program tells it.

ghost use Rattle.std.specs.Prelude.{◌≡◌, ◌≢◌, codes, IfOk, IfErr};

use std::io;

/// How a run ended.
#[derive(Clone, Copy)]
pub(crate) enum End {
    /// After the last answer, which may be none.
    Whole,
    /// After `bad`.
    Bad,
}

/// Why a run was given up.
#[derive(Clone, Copy)]
pub(crate) enum RunFault {
    /// A read failed.
    Read,
    /// A write failed.
    Write,
    /// There was no memory for the arguments, the buffer or a line. Want of memory for a text or its answer is no fault
    /// of the run.
    Memory,
}

impl RunFault {
    /// The fault of a read that failed.
    pub(crate) fn of_read(error: io::Error) -> RunFault
        ensures { result ≢ RunFault.Write }
    {
        if error.kind() == io::ErrorKind::OutOfMemory {
            RunFault::Memory
        } else {
            RunFault::Read
        }
    }

    /// The fault of a write that failed.
    pub(crate) fn of_write(_error: io::Error) -> RunFault
        ensures { result ≡ RunFault.Write }
    {
        RunFault::Write
    }
}

/// The status that the program ends with: 0 after the last answer, 2 after `bad`, 1 after a fault.
pub(crate) fn status(end: &Result<End, RunFault>) -> u8
    ensures whole { IfOk end.now (λ e. e ≡ End.Whole → result ≡ 0) }
    ensures bad { IfOk end.now (λ e. e ≡ End.Bad → result ≡ 2) }
    ensures fault { IfErr end.now (λ _. result ≡ 1) }
{
    match end {
        Ok(End::Whole) => 0,
        Ok(End::Bad) => 2,
        Err(_) => 1,
    }
}

/// What the program says of a fault, without a line feed.
pub(crate) fn fault_line(fault: &RunFault) -> &'static str
    ensures read { fault.now ≡ RunFault.Read → result.now ≡ codes "fault: read" }
    ensures write { fault.now ≡ RunFault.Write → result.now ≡ codes "fault: write" }
    ensures memory { fault.now ≡ RunFault.Memory → result.now ≡ codes "fault: memory" }
{
    match fault {
        RunFault::Read => "fault: read",
        RunFault::Write => "fault: write",
        RunFault::Memory => "fault: memory",
    }
}
