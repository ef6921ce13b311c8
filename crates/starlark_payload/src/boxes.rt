//! Values in boxes. What is not used where memory runs out is dropped here, so that no function over trees has to.

ghost use Rattle.std.specs.Prelude.{◌≡◌, IfOk};

use std::alloc::{AllocError, Global};

/// What a box holds.
pub(crate) fn opened<T>(x: Box<T>) -> T
    ensures { result ≡ x.value }
{
    Box::into_inner(x)
}

/// The value in a box.
pub(crate) fn boxed<T: Drop>(alloc: Global, x: T) -> Result<Box<T>, AllocError>
    ensures { IfOk result (λ b. b.value ≡ x) }
{
    Ok(Box::new(alloc, x)?)
}
