//! Why reading stops.

use std::alloc::{AllocError, AllocFailed};

/// Why a function of the parser stops.
#[derive(Clone, Copy)]
pub(crate) enum Error {
    /// What stands ahead cannot stand there.
    Unexpected,
    /// A construct breaks a rule: the tokens keep which one, and where.
    Broken,
    /// Memory ran out.
    Memory,
}

impl From<AllocError> for Error {
    ghost use Rattle.std.specs.Prelude.{◌≡◌};
    ghost use Rattle.starlark_read.specs.declared.error.Error.TheVariants.{Memory};

    ghost from_gives = { λ _ e. e ≡ Memory };

    fn from(_: AllocError) -> Error {
        Error::Memory
    }
}

impl<T: Drop> From<AllocFailed<T>> for Error {
    ghost use Rattle.std.specs.Prelude.{◌≡◌};
    ghost use Rattle.starlark_read.specs.declared.error.Error.TheVariants.{Memory};

    ghost from_gives = { λ _ e. e ≡ Memory };

    fn from(_: AllocFailed<T>) -> Error {
        Error::Memory
    }
}
