//! Whether a text is in the language.

ghost use Rattle.std.specs.Prelude.{◌≡◌, ◌<◌, IfSome, None, false, length};
ghost use Rattle.std.specs.Bool.{MatchBool};
ghost use Rattle.std.specs.Str.{IsUtf8};
ghost use Rattle.starlark_c_parser.specs.Taken.{IsRead, IsTaken, dialect_of};

use crate::switches::Switches;
use starlark_lexer::dialect::Dialect;
use starlark_parser::fault::EvalException;
use starlark_parser::module::AstModule;
use starlark_place::codemap::CodeMapId;
use std::alloc::Global;
use std::str::from_utf8_unchecked;

/// Puts into `taken` whether a text is in the language of a dialect. The tree that it has goes at once. Where the text
/// has more than `u32::MAX` bytes or memory runs out it answers `false`, and `taken` stays. `taken` holds a 0 or a 1
/// before the call, too, and the text is UTF-8.
#[unsafe(no_mangle)]
pub extern "C" fn starlark_c_parser_parse(
    alloc: Global,
    text: &[u8],
    switches: &Switches,
    taken: &mut bool,
) -> bool
    requires { IsUtf8 text.now }
    ensures answer { MatchBool result (IsTaken (dialect_of switches.now) text.now taken.new) (taken.new ≡ taken.old) }
    ensures too_long { 4294967295 < length text.now → result ≡ false }
{
    match read(
        alloc,
        unsafe { from_utf8_unchecked(text) },
        &switches.dialect(),
    ) {
        Some(Some(_module)) => {
            *taken = true;
            true
        }
        Some(None) => {
            *taken = false;
            true
        }
        None => false,
    }
}

/// The module of a text, none where it is not taken, or no answer where it is too long or memory runs out.
pub(crate) fn read(alloc: Global, text: &str, dialect: &Dialect) -> Option<Option<AstModule>>
    ensures read { IfSome result (IsRead dialect.now text.now) }
    ensures too_long { 4294967295 < length text.now → result ≡ None }
{
    let Ok(content) = String::from_str(alloc, text) else {
        return None;
    };
    match AstModule::parse(alloc, CodeMapId::EMPTY, "", content, dialect) {
        Ok(module) => Some(Some(module)),
        Err(EvalException::Fault(_fault)) => Some(None),
        Err(EvalException::TooLong) => None,
        Err(EvalException::Memory) => None,
    }
}
