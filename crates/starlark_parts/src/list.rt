//! Lists whose entries are moved.

ghost use Rattle.std.specs.Prelude.{◌≡◌, ◌<◌, ◌≤◌, get_or, if◌then◌else◌, is_ok, length, set};
ghost use Rattle.std.specs.List.{insert, remove};

use std::alloc::AllocError;

/// Puts a value before the one at that index, or behind the last. Where memory runs out nothing changes.
pub(crate) fn put<T: Drop>(xs: &mut Vec<T>, index: usize, x: T) -> Result<(), AllocError>
    requires { index ≤ length xs.old.items }
    ensures { xs.new.items ≡ (if is_ok result then insert xs.old.items index x else xs.old.items) }
{
    match xs.insert(index, x) {
        Ok(()) => Ok(()),
        Err(_) => Err(AllocError),
    }
}

/// Puts a value in the place of the one at that index.
pub(crate) fn exchange<T: Drop>(xs: &mut Vec<T>, index: usize, x: T)
    requires { index < length xs.old.items }
    ensures { xs.new.items ≡ set xs.old.items index x }
{
    xs[index] = x;
}

/// Leaves the value at that index out.
pub(crate) fn leave_out<T: Drop>(xs: &mut Vec<T>, index: usize)
    requires { index < length xs.old.items }
    ensures { xs.new.items ≡ remove xs.old.items index }
{
    let _ = xs.remove(index);
}

/// Takes the value at one index out and puts it at another one of what is left.
pub(crate) fn move_entry<T: Drop>(xs: &mut Vec<T>, from: usize, to: usize)
    requires from { from < length xs.old.items }
    requires to { to < length xs.old.items }
    ensures { (d : T) → xs.new.items ≡ insert (remove xs.old.items from) to (get_or xs.old.items from d) }
{
    let x = xs.remove(from);
    let _ = xs.insert(to, x);
}
