//! Values in boxes. What is not used where memory runs out is dropped here, so that no function over trees has to.

ghost use Rattle.std.specs.Prelude.{◌≡◌, IfOk, Ok};
ghost use Rattle.starlark_ast.specs.Access.{unboxed};

use std::alloc::{AllocError, Global};

/// The value in a box.
pub(crate) fn boxed<T: Drop>(alloc: Global, x: T) -> Result<Box<T>, AllocError>
    ensures { IfOk result (λ b. b.value ≡ x) }
{
    Ok(Box::new(alloc, x)?)
}

/// The value in a box, if there is one.
pub(crate) fn maybe_boxed<T: Drop>(
    alloc: Global,
    x: Option<T>,
) -> Result<Option<Box<T>>, AllocError>
    ensures { IfOk result (λ b. unboxed b ≡ x) }
{
    match x {
        None => Ok(None),
        Some(x) => Ok(Some(boxed(alloc, x)?)),
    }
}

/// The first of two values in a box.
pub(crate) fn boxed_first<T: Drop, R: Drop>(
    alloc: Global,
    x: T,
    rest: R,
) -> Result<(Box<T>, R), AllocError>
    ensures { IfOk result (λ b. (b.0.value ≡ x) × (b.1 ≡ rest)) }
{
    let x = boxed(alloc, x)?;
    Ok((x, rest))
}

/// The first of two values in a box, if there is one.
pub(crate) fn maybe_boxed_first<T: Drop, R: Drop>(
    alloc: Global,
    x: Option<T>,
    rest: R,
) -> Result<(Option<Box<T>>, R), AllocError>
    ensures { IfOk result (λ b. (unboxed b.0 ≡ x) × (b.1 ≡ rest)) }
{
    let x = maybe_boxed(alloc, x)?;
    Ok((x, rest))
}

/// The first two of three values, each in a box.
pub(crate) fn boxed_both<T: Drop, U: Drop, R: Drop>(
    alloc: Global,
    x: T,
    y: U,
    rest: R,
) -> Result<(Box<T>, Box<U>, R), AllocError>
    ensures { IfOk result (λ b. (b.0.value ≡ x) × (b.1.value ≡ y) × (b.2 ≡ rest)) }
{
    let x = boxed(alloc, x)?;
    let y = boxed(alloc, y)?;
    Ok((x, y, rest))
}

/// A value in a box, with three that may be there.
pub(crate) fn boxed_with_three<T: Drop>(
    alloc: Global,
    x: T,
    a: Option<T>,
    b: Option<T>,
    c: Option<T>,
) -> Result<(Box<T>, Option<Box<T>>, Option<Box<T>>, Option<Box<T>>), AllocError>
    ensures { IfOk result (λ r. (r.0.value ≡ x) × (unboxed r.1 ≡ a) × (unboxed r.2 ≡ b) × (unboxed r.3 ≡ c)) }
{
    let x = boxed(alloc, x)?;
    let a = maybe_boxed(alloc, a)?;
    let b = maybe_boxed(alloc, b)?;
    let c = maybe_boxed(alloc, c)?;
    Ok((x, a, b, c))
}

/// What was made, with what waited for it.
pub(crate) fn or_dropped<T: Drop, R: Drop>(
    made: Result<T, AllocError>,
    rest: R,
) -> Result<(T, R), AllocError>
    ensures { IfOk result (λ b. (made ≡ Ok b.0) × (b.1 ≡ rest)) }
{
    let made = made?;
    Ok((made, rest))
}
