//! Trees that are kept until they are let go.

ghost use Rattle.std.specs.Prelude.{◌≡◌, ◌<◌, None, false, length};
ghost use Rattle.std.specs.Bool.{MatchBool};
ghost use Rattle.std.specs.Str.{IsUtf8};
ghost use Rattle.starlark_c_parser.specs.Taken.{IsRead, dialect_of};

use crate::kept::Kept;
use crate::parsing::read;
use crate::switches::Switches;
use std::alloc::Global;
use std::mem::replace;
use std::str::from_utf8_unchecked;

/// Keeps the tree of a text in `kept`, until another one is kept there or it is let go. Where the text is not in the
/// language of the dialect none is kept there. The tree that was kept there before goes. Where the text has more than
/// `u32::MAX` bytes or memory runs out it answers `false`, and `kept` stays. The text is UTF-8.
#[unsafe(no_mangle)]
pub extern "C" fn starlark_c_parser_keep(
    alloc: Global,
    text: &[u8],
    switches: &Switches,
    kept: &mut Kept,
) -> bool
    requires { IsUtf8 text.now }
    ensures answer { MatchBool result (IsRead (dialect_of switches.now) text.now kept.new.tree) (kept.new ≡ kept.old) }
    ensures too_long { 4294967295 < length text.now → result ≡ false }
{
    let Some(answer) = read(
        alloc,
        unsafe { from_utf8_unchecked(text) },
        &switches.dialect(),
    ) else {
        return false;
    };
    let Some(next) = Kept::of(alloc, answer) else {
        return false;
    };
    replace(kept, next).release(alloc);
    true
}

/// Lets the tree that is kept go, if there is one. None is kept there from then on.
#[unsafe(no_mangle)]
pub extern "C" fn starlark_c_parser_release(alloc: Global, kept: &mut Kept)
    ensures { kept.new.tree ≡ None }
{
    replace(kept, Kept::none()).release(alloc);
}
