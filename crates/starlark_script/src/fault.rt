//! How a run ends.

use thiserror::Error;

/// How a script that was run ended.
#[derive(Clone, Copy, Debug, PartialEq, Eq)]
pub enum End {
    /// After its last command, which may be none.
    Whole,
    /// At a line that is no command, or before all bytes of a command.
    Bad,
}

/// Why a run was given up.
#[derive(Clone, Copy, Debug, PartialEq, Eq, Error)]
pub enum RunFault {
    /// A read failed, or 2 to the 40th reads were made.
    #[error("a read failed")]
    Read,
    /// A write failed, or took 0 bytes of some.
    #[error("a write failed")]
    Write,
    /// The memory for the run's own buffer could not be had. Nothing was read or written.
    #[error("out of memory")]
    Memory,
}
