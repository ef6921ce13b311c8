//! What several files of tests use.

ghost use Rattle.std.specs.Prelude.{◌≡◌, ◌≤◌};
ghost use Rattle.starlark_place.specs.Place.{extent};

use starlark_place::pos::{Pos, Span};

pub(crate) fn span(begin: u32, end: u32) -> Span
    requires { begin ≤ end }
    ensures { result ≡ extent begin end }
{
    Span::new(Pos::new(begin), Pos::new(end))
}
