//! How a text is cut into tokens.

ghost use Rattle.std.specs.Prelude.{◌≡◌, ◌<◌, ◌^◌, IfSome, None, false, length};
ghost use Rattle.std.specs.Bool.{MatchBool};
ghost use Rattle.std.specs.Str.{IsUtf8};
ghost use Rattle.starlark_c.specs.Counts.{HasBytes, HasTokens, IsTally, widths};

use crate::source::code_map;
use starlark_lexer::dialect::Dialect;
use starlark_lexer::laws::in_order;
use starlark_lexer::lexer::Lexer;
use starlark_place::diagnostic::Refusal;
use std::alloc::Global;
use std::str::from_utf8_unchecked;

/// Puts into `count` how many tokens a text is cut into before its end or its first fault. Where the text has more than
/// `u32::MAX` bytes or memory runs out it answers `false`, and `count` stays.
#[unsafe(no_mangle)]
pub extern "C" fn starlark_c_token_count(alloc: Global, text: &[u8], count: &mut u64) -> bool
    requires { IsUtf8 text.now }
    ensures answer { MatchBool result (HasTokens text.now count.new) (count.new ≡ count.old) }
    ensures too_long { 4294967295 < length text.now → result ≡ false }
{
    match cut(alloc, unsafe { from_utf8_unchecked(text) }) {
        Some(tally) => {
            *count = tally.tokens;
            true
        }
        None => false,
    }
}

/// Puts into `bytes` how many bytes those tokens span. Where the text has more than `u32::MAX` bytes or memory runs out
/// it answers `false`, and `bytes` stays.
#[unsafe(no_mangle)]
pub extern "C" fn starlark_c_token_bytes(alloc: Global, text: &[u8], bytes: &mut u64) -> bool
    requires { IsUtf8 text.now }
    ensures answer { MatchBool result (HasBytes text.now bytes.new) (bytes.new ≡ bytes.old) }
    ensures too_long { 4294967295 < length text.now → result ≡ false }
{
    match cut(alloc, unsafe { from_utf8_unchecked(text) }) {
        Some(tally) => {
            *bytes = tally.bytes;
            true
        }
        None => false,
    }
}

/// How many tokens there are, and how many bytes they span.
#[derive(Clone, Copy)]
struct Tally {
    tokens: u64,
    bytes: u64,
}

/// The tally of a text, or none where it is too long or memory runs out.
fn cut(alloc: Global, text: &str) -> Option<Tally>
    ensures tally { IfSome result (λ t. IsTally text.now t) }
    ensures too_long { 4294967295 < length text.now → result ≡ None }
{
    in_order();
    let codemap = code_map(alloc, text)?;
    let mut lexer = Lexer::new(alloc, text, &Dialect::Extended, codemap);
    cut_left(&mut lexer)
}

/// The tally of what is left, or none where memory runs out.
fn cut_left(lexer: &mut Lexer) -> Option<Tally>
    requires tokens { length lexer.old.left.items < 2 ^ 64 }
    requires bytes { widths lexer.old.left.items < 2 ^ 64 }
    ensures tokens { IfSome result (λ t. t.tokens ≡ length lexer.old.left.items) }
    ensures bytes { IfSome result (λ t. t.bytes ≡ widths lexer.old.left.items) }
{
    let mut tally = Tally {
        tokens: 0,
        bytes: 0,
    };
    while let Some(answer) = lexer.next() {
        match answer {
            Ok((begin, _token, end)) => {
                tally.tokens += 1;
                tally.bytes += (end - begin) as u64;
            }
            Err(Refusal::Fault(_fault)) => return Some(tally),
            Err(Refusal::Memory) => return None,
        }
    }
    Some(tally)
}
