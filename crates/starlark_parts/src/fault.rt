//! Why an edit is refused.

use starlark_parser::fault::ParserError;
use starlark_place::resolved::ResolvedFileSpan;
use std::alloc::{AllocError, AllocFailed};
use thiserror::Error;

/// Why an edit is refused: the first reason in this order, but that want of memory may stand in the place of `Parse` and
/// `Open`. The parts are then as they were.
#[derive(Debug, Drop, Error)]
pub enum PartFault {
    /// There is no such index.
    #[error("there is no part at that index")]
    Index,
    /// The bytes are not UTF-8.
    #[error("the bytes are not UTF-8")]
    Utf8,
    /// The joined text would have more bytes than the limit.
    #[error("the joined text would be too long")]
    Long,
    /// The text alone is not in the language: why, and where, by its own lines and columns, in a file named `part`.
    #[error("{0}: {1}")]
    Parse(ParserError, ResolvedFileSpan),
    /// The text is empty, does not end in a line feed, or has a backslash right before its last line end.
    #[error("the text is open")]
    Open,
    /// Memory ran out.
    #[error("out of memory")]
    Memory,
}

impl From<AllocError> for PartFault {
    ghost use Rattle.std.specs.Prelude.{◌≡◌};
    ghost use Rattle.starlark_parts.specs.declared.fault.PartFault.TheVariants.{Memory};

    ghost from_gives = { λ _ e. e ≡ Memory };

    fn from(_: AllocError) -> PartFault {
        PartFault::Memory
    }
}
