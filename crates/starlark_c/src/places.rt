//! Counts over a text, and lines and columns.

ghost use Rattle.std.specs.Prelude.{◌≡◌, ◌<◌, ◌==◌, ◌%◌, ◌^◌, false, length, count_by, sum_by};
ghost use Rattle.std.specs.Bool.{MatchBool};
ghost use Rattle.std.specs.Str.{chars, IsUtf8};
ghost use Rattle.starlark_c.specs.Sums.{place_sum};

use crate::source::code_map;
use starlark_place::codemap::CodeMap;
use starlark_place::fast_string::{count_matches_byte, len};
use starlark_place::pos::{Pos, Span};
use std::alloc::Global;
use std::str::from_utf8_unchecked;

/// How many bytes of a text are `byte`.
#[unsafe(no_mangle)]
pub extern "C" fn starlark_c_count_matches_byte(text: &[u8], byte: u8) -> usize
    requires { IsUtf8 text.now }
    ensures { result ≡ count_by (λ b. b == byte) text.now }
{
    count_matches_byte(unsafe { from_utf8_unchecked(text) }, byte)
}

/// The number of characters of a text.
#[unsafe(no_mangle)]
pub extern "C" fn starlark_c_len(text: &[u8]) -> usize
    requires { IsUtf8 text.now }
    ensures { result ≡ length (chars text.now) }
{
    len(unsafe { from_utf8_unchecked(text) }).0
}

/// Resolves places of a text, and puts the sum of their lines and columns into `total`, of which the lowest 64 bits
/// stay. A place within a character or past the end adds nothing. Where the text has more than `u32::MAX` bytes or
/// memory runs out it answers `false`, and `total` stays.
#[unsafe(no_mangle)]
pub extern "C" fn starlark_c_resolve(
    alloc: Global,
    text: &[u8],
    places: &[u32],
    total: &mut u64,
) -> bool
    requires { IsUtf8 text.now }
    ensures answer { MatchBool result (total.new ≡ sum_by (place_sum text.now) places.now % 2 ^ 64) (total.new ≡ total.old) }
    ensures too_long { 4294967295 < length text.now → result ≡ false }
{
    match code_map(alloc, unsafe { from_utf8_unchecked(text) }) {
        Some(codemap) => {
            *total = places_sum(&codemap, places);
            true
        }
        None => false,
    }
}

fn places_sum(codemap: &CodeMap, places: &[u32]) -> u64
    ensures { result ≡ sum_by (place_sum codemap.now.source) places.now % 2 ^ 64 }
{
    let mut total = 0u64;
    for place in places {
        total = total.wrapping_add(place_sum(codemap, *place));
    }
    total
}

fn place_sum(codemap: &CodeMap, place: u32) -> u64
    ensures { result ≡ place_sum codemap.now.source place % 2 ^ 64 }
{
    let span = Span::new(Pos::new(place), Pos::new(place));
    if !codemap.holds(span) {
        return 0;
    }
    let place = codemap.resolve_span(span).begin;
    (place.line as u64).wrapping_add(place.column as u64)
}
