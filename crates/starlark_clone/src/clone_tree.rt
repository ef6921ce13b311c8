//! Trees that can be made again.

ghost use Rattle.std.specs.Prelude.{IfOk};

use std::alloc::{AllocError, Global};

/// A tree without payload, or a part of one, that can be made again.
pub trait CloneTree: Sized {
    /// What both have in common: all texts and places.
    ghost same: { Self → Self → Type 0 };

    /// The same once more, with lists and texts of its own. It is refused where memory runs out.
    fn clone(&self, alloc: Global) -> Result<Self, AllocError>
        ensures { IfOk result (λ x. same x self.now) };
}
