//! What tests see. An assertion is proved where it stands, and a call of one that stands here costs a tenth of it
//! (docs/DECISIONS.md, 'The gate').

ghost use Rattle.std.specs.Prelude.{◌≡◌, true};

use std::fmt::Debug;
use std::process::Abort;

/// It holds.
pub(crate) fn holds(rt: &impl Abort, found: bool)
    ensures { found ≡ true }
{
    assert!(rt; found);
}

/// There are so many.
pub(crate) fn count(rt: &impl Abort, found: usize, wanted: usize)
    ensures { found ≡ wanted }
{
    assert_eq!(rt; found, wanted);
}

/// Both are equal.
pub(crate) fn equal<T: PartialEq + Debug + Drop>(rt: &impl Abort, found: T, wanted: T)
    ensures { T.PartialEq.eq found wanted ≡ true }
{
    assert_eq!(rt; found, wanted);
}
