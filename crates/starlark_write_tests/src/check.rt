//! What tests see. An assertion is proved where it stands, and a call of one that stands here costs a tenth of it
//! (docs/DECISIONS.md, 'The gate').

ghost use Rattle.std.specs.Prelude.{◌≡◌, true};

use std::fmt::Debug;
use std::process::Abort;

/// Both are equal.
pub(crate) fn equal<T: PartialEq + Debug + Drop>(rt: &impl Abort, found: T, wanted: T)
    ensures { T.PartialEq.eq found wanted ≡ true }
{
    assert_eq!(rt; found, wanted);
}
