//! Lists that grow.

ghost use Rattle.std.specs.Prelude.{◌≡◌, ◌+◌, ◌++◌, ◌∷◌, [], IfOk, OnOk, vec_len};

use std::alloc::{AllocError, Global};

/// The list of one value, which is let go here where memory runs out.
pub(crate) fn single<T: Drop>(alloc: Global, x: T) -> Result<Vec<T>, AllocError>
    ensures { IfOk result (λ list. list.items ≡ x ∷ []) }
{
    let mut list = Vec::new(alloc);
    list.push(x)?;
    Ok(list)
}

/// Puts a value behind the others. Where memory runs out it is let go here, so that who calls this does not hold it.
pub(crate) fn push<T: Drop>(list: &mut Vec<T>, x: T) -> Result<(), AllocError>
    ensures items { OnOk result (list.new.items ≡ list.old.items ++ x ∷ []) }
    ensures len { OnOk result (vec_len list.new ≡ vec_len list.old + 1) }
{
    list.push(x)?;
    Ok(())
}
