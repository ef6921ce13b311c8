//! Texts as lists of characters.

ghost use Rattle.std.specs.Prelude.{◌≡◌, ◌≤◌, ◌<◌, ◌+◌, ◌-◌, ◌^◌, ◌++◌, ◌==◌, ◌∷◌, ◌≤ℤ◌, ℕ, min, pos, nat_abs, length, take, drop, slice_get, count_by, IfSome, MatchOption, true, false, []};
ghost use Rattle.std.specs.Str.{chars, IsCharBoundary};
ghost use Rattle.starlark_place.specs.Place.{characters};
ghost use Rattle.starlark_place.specs.Strings.{matches_in, stands_in, begins_with, from_end, index_in, index_or, piece_begin, piece_end, IsCut};

use crate::count::{byte_count, char_count};
use std::ops::{Add, Sub};

/// A number of characters.
#[derive(Clone, Copy, Debug, PartialEq, Eq, PartialOrd, Ord, Hash)]
pub struct CharIndex(pub usize);

impl Add for CharIndex {
    type Output = CharIndex;

    ghost can_add = { λ a b. a.0 + b.0 < 2 ^ 64 };

    ghost add_gives = { λ a b c. c.0 ≡ a.0 + b.0 };

    /// The sum, which fits.
    fn add(self, other: CharIndex) -> CharIndex {
        CharIndex(self.0 + other.0)
    }
}

impl Sub for CharIndex {
    type Output = CharIndex;

    ghost can_sub = { λ a b. b.0 ≤ a.0 };

    ghost sub_gives = { λ a b c. c.0 ≡ a.0 - b.0 };

    /// The difference, which is not below 0.
    fn sub(self, other: CharIndex) -> CharIndex {
        CharIndex(self.0 - other.0)
    }
}

/// The number of characters of a text.
pub fn len(text: &str) -> CharIndex
    ensures { result.0 ≡ length (chars text.now) }
{
    CharIndex(char_count(text.as_bytes()))
}

/// The character behind so many others, or none past the last.
pub fn at(text: &str, i: CharIndex) -> Option<char>
    ensures { result ≡ slice_get (chars text.now) i.0 }
{
    match offset_of(text, i.0) {
        None => None,
        Some(offset) => text[offset..].chars().next(),
    }
}

/// The first `i` characters and the others, or none where there are fewer.
pub fn split_at(text: &str, i: CharIndex) -> Option<(&str, &str)>
    ensures is { MatchOption result (length (chars text.now) < i.0) (λ r. (chars r.0.now ≡ take i.0 (chars text.now)) × (chars r.1.now ≡ drop i.0 (chars text.now)) × (r.0.now ++ r.1.now ≡ text.now)) }
    ensures within { IfSome result (λ _. i.0 ≤ length (chars text.now)) }
{
    let offset = offset_of(text, i.0)?;
    Some((&text[..offset], &text[offset..]))
}

/// How many bytes of a text are `byte`.
pub fn count_matches_byte(text: &str, byte: u8) -> usize
    ensures { result ≡ count_by (λ b. b == byte) text.now }
{
    byte_count(text.as_bytes(), byte)
}

/// How often `needle` stands in a text, from the left and without overlaps. An empty one stands before each character
/// and at the end.
pub fn count_matches(text: &str, needle: &str) -> usize
    ensures { result ≡ matches_in (chars needle.now) (chars text.now) }
{
    if needle.is_empty() {
        return char_count(text.as_bytes()) + 1;
    }
    let mut count = 0;
    let mut rest = text;
    loop {
        match without_prefix(rest, needle) {
            Some(behind) => {
                count += 1;
                rest = behind;
            }
            None => match without_first(rest) {
                None => return count,
                Some(behind) => rest = behind,
            },
        }
    }
}

/// Whether `needle` stands in a text.
pub fn contains(text: &str, needle: &str) -> bool
    ensures { result ≡ stands_in (chars needle.now) (chars text.now) }
{
    let mut rest = text;
    loop {
        match without_prefix(rest, needle) {
            Some(_behind) => return true,
            None => match without_first(rest) {
                None => return false,
                Some(behind) => rest = behind,
            },
        }
    }
}

/// Where a piece of `len` items begins and ends. A negative number has `len` added, then all is brought into 0 to `len`.
/// Without `start` it begins at 0, without `end` it ends at `len`. The length is not negative.
pub fn convert_indices(len: i32, start: Option<i32>, end: Option<i32>) -> (usize, usize)
    requires { pos 0 ≤ℤ len }
    ensures start { result.0 ≡ index_or (index_in (nat_abs len)) start 0 }
    ensures end { result.1 ≡ index_or (index_in (nat_abs len)) end (nat_abs len) }
{
    let start = match start {
        None => 0,
        Some(i) => convert_index(len, i),
    };
    let end = match end {
        None => len as usize,
        Some(i) => convert_index(len, i),
    };
    (start, end)
}

/// An index into `len` items. A negative number has `len` added, then it is brought into 0 to `len`. The length is not
/// negative.
pub fn convert_index(len: i32, i: i32) -> usize
    requires { pos 0 ≤ℤ len }
    ensures { result ≡ index_in (nat_abs len) i }
{
    let len = len as usize;
    from_end(len, i).min(len)
}

/// The piece of a text from one character to another, or none where it would begin behind its end. A negative number has
/// the text's number of characters added, then both are at least 0 and the end at most that number. Without `start` it
/// begins at 0, without `end` it ends at the text's end.
pub fn convert_str_indices(
    text: &str,
    start: Option<i32>,
    end: Option<i32>,
) -> Option<StrIndices<'_>>
    ensures is { MatchOption result (piece_end (length (chars text.now)) end < piece_begin (length (chars text.now)) start) (IsCut text.now (piece_begin (length (chars text.now)) start) (piece_end (length (chars text.now)) end)) }
    ensures ordered { IfSome result (λ _. piece_begin (length (chars text.now)) start ≤ piece_end (length (chars text.now)) end) }
{
    let len = len(text).0;
    let start = piece_begin(len, start);
    let end = piece_end(len, end);
    if end < start {
        return None;
    }
    piece(text, start, end)
}

// where a piece of `len` characters begins and ends

fn piece_begin(len: usize, start: Option<i32>) -> usize
    ensures { result ≡ piece_begin len start }
{
    match start {
        None => 0,
        Some(i) => from_end(len, i),
    }
}

fn piece_end(len: usize, end: Option<i32>) -> usize
    ensures is { result ≡ piece_end len end }
    ensures within { result ≤ len }
{
    match end {
        None => len,
        Some(i) => from_end(len, i).min(len),
    }
}

// the characters from one place to another that is not before it nor past the end
fn piece(text: &str, start: usize, end: usize) -> Option<StrIndices<'_>>
    requires order { start ≤ end }
    requires within { end ≤ length (chars text.now) }
    ensures { MatchOption result ⊥ (IsCut text.now start end) }
{
    let (_, rest) = split_at(text, CharIndex(start))?;
    let (haystack, _) = split_at(rest, CharIndex(end - start))?;
    Some(StrIndices {
        start: CharIndex(start),
        haystack,
    })
}

// a negative index counts from the end, and is at least 0
fn from_end(len: usize, i: i32) -> usize
    ensures { result ≡ from_end len i }
{
    if i >= 0 {
        i as usize
    } else {
        len.saturating_sub(i.unsigned_abs() as usize)
    }
}

// the bytes of the first `i` characters, or none where there are fewer
fn offset_of(text: &str, i: usize) -> Option<usize>
    ensures { MatchOption result (characters text.now < i) (λ k. IsCharBoundary text.now k × (characters (take k text.now) ≡ i)) }
{
    let bytes = text.as_bytes();
    let mut left = i;
    for (k, b) in bytes.iter().enumerate() {
        if *b < 128 || 192 <= *b {
            if left == 0 {
                return Some(k);
            }
            left -= 1;
        }
    }
    if left == 0 { Some(bytes.len()) } else { None }
}

// what stands behind the needle
fn without_prefix<'a>(text: &'a str, needle: &str) -> Option<&'a str>
    ensures { MatchOption result (begins_with (chars needle.now) (chars text.now) ≡ false) (λ r. (begins_with (chars needle.now) (chars text.now) ≡ true) × (chars text.now ≡ chars needle.now ++ chars r.now) × (length text.now ≡ length needle.now + length r.now)) }
{
    text.strip_prefix(needle)
}

// what stands behind the first character
fn without_first(text: &str) -> Option<&str>
    ensures shorter { MatchOption result (text.now ≡ []) (λ r. length r.now < length text.now) }
    ensures rest { MatchOption result (chars text.now ≡ []) (λ r. (c : ℕ) × (chars text.now ≡ c ∷ chars r.now)) }
{
    let mut chars = text.chars();
    match chars.next() {
        None => None,
        Some(_first) => Some(chars.as_str()),
    }
}

/// A piece of a text.
#[derive(Clone, Copy, Debug, PartialEq, Eq)]
pub struct StrIndices<'a> {
    /// The number of characters before the piece.
    pub start: CharIndex,
    /// The piece.
    pub haystack: &'a str,
}
