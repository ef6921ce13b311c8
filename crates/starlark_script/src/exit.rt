//! How the program tells the way a run ended.

ghost use Rattle.std.specs.Prelude.{◌≡◌, IfOk, IsOk, OnOk};
ghost use Rattle.std.specs.Io.KnownBytes.{Appends};
ghost use Rattle.std.specs.Process.{exit_status};
ghost use Rattle.starlark_script.specs.Engine.{fault_text, status_of, told};

use crate::fault::{End, RunFault};
use std::io::{self, Write};
use std::process::ExitCode;

/// The status that the program ends with: 0 after a whole script, 2 after one with a bad line or a cut text, 1 after a
/// fault.
pub fn status(end: &Result<End, RunFault>) -> u8
    ensures { result ≡ status_of end.now }
{
    match end {
        Ok(End::Whole) => 0,
        Ok(End::Bad) => 2,
        Err(_) => 1,
    }
}

/// The same as `main` may return it.
pub fn exit_code(end: &Result<End, RunFault>) -> ExitCode
    ensures { exit_status result ≡ status_of end.now }
{
    ExitCode::from(status(end))
}

/// What the program says of a fault, without a line feed.
pub fn fault_line(fault: &RunFault) -> &'static str
    ensures { result.now ≡ fault_text fault.now }
{
    match fault {
        RunFault::Read => "fault: read",
        RunFault::Write => "fault: write",
        RunFault::Memory => "fault: memory",
    }
}

/// Writes the line of a fault, and nothing where there was none. Where it answers an `Err` some of it may have been
/// written.
pub fn tell<W: Write>(writer: &mut W, end: &Result<End, RunFault>) -> io::Result<()>
    ensures fault { OnOk result (Appends (W.contents writer.old) (W.contents writer.new) (told end.now)) }
    ensures ended { IfOk end.now (λ _. IsOk result × (writer.new ≡ writer.old)) }
{
    match end {
        Ok(_) => Ok(()),
        Err(fault) => {
            writer.write_all(fault_line(fault).as_bytes())?;
            writer.write_all(b"\n")
        }
    }
}
