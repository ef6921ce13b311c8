//! Escapes of literals, and what they are read with.

ghost use Rattle.std.specs.Prelude.{◌≡◌, ◌≤◌, ◌<◌, ◌+◌, ◌-◌, ◌*◌, if◌then◌else◌, length, take, true};
ghost use Rattle.std.specs.Char.{is_digit};
ghost use Rattle.std.specs.List.{prefix_len};
ghost use Rattle.std.specs.Str.Parse.{digits_value};
ghost use Rattle.starlark_lexer.specs.Fronts as fronts;
ghost use Rattle.starlark_lexer.specs.Literals as spec;
ghost use Rattle.starlark_lexer.specs.Reads.{Grows};

use crate::literal::{Piece, Sort, is_format};

/// Counts one byte as looked at.
pub(crate) fn look(reads: &mut u64)
    ensures paid { reads.new ≤ reads.old + 1 }
    ensures looked { Grows reads.old 1 reads.new }
{
    *reads = reads.saturating_add(1);
}

pub(crate) fn begins(b: u8, bytes: &[u8], reads: &mut u64) -> bool
    ensures value { result ≡ spec.begins b bytes.now }
    ensures paid { reads.new ≤ reads.old + 1 }
    ensures looked { Grows reads.old (if result then 1 else 0) reads.new }
{
    if bytes.is_empty() {
        return false;
    }
    look(reads);
    bytes[0] == b
}

/// How many bytes at the front go on with a character before them.
fn continuations(bytes: &[u8], reads: &mut u64) -> usize
    ensures value { result ≡ prefix_len spec.continues bytes.now }
    ensures within { result ≤ length bytes.now }
    ensures paid { reads.new ≤ reads.old + result + 1 }
    ensures looked { Grows reads.old result reads.new }
{
    let mut end = 0;
    while end < bytes.len() {
        look(reads);
        if bytes[end] < 128 || bytes[end] >= 192 {
            return end;
        }
        end += 1;
    }
    end
}

/// How many bytes the first character has.
fn character(bytes: &[u8], reads: &mut u64) -> usize
    ensures value { result ≡ spec.character bytes.now }
    ensures within { result ≤ length bytes.now }
    ensures paid { reads.new ≤ reads.old + result + 1 }
    ensures looked { Grows reads.old result reads.new }
{
    if bytes.is_empty() {
        return 0;
    }
    look(reads);
    if bytes[0] < 128 {
        1
    } else {
        1 + continuations(&bytes[1..], reads)
    }
}

/// The value and the number of the digits at the front.
fn digits(base: u32, bytes: &[u8], reads: &mut u64) -> (u32, usize)
    requires lower_bound { 2 ≤ base }
    requires upper_bound { base ≤ 16 }
    requires short { length bytes.now ≤ 8 }
    ensures len { result.1 ≡ prefix_len (λ d. is_digit d base) bytes.now }
    ensures value { result.0 ≡ digits_value base (take result.1 bytes.now) }
    ensures within { result.1 ≤ length bytes.now }
    ensures paid { reads.new ≤ reads.old + result.1 + 1 }
    ensures looked { Grows reads.old result.1 reads.new }
{
    let mut value = 0;
    let mut end = 0;
    while end < bytes.len() {
        look(reads);
        match (bytes[end] as char).to_digit(base) {
            Some(digit) => value = value * base + digit,
            None => return (value, end),
        }
        end += 1;
    }
    (value, end)
}

/// At most so many bytes of the front.
pub(crate) fn front(bytes: &[u8], most: usize) -> &[u8]
    ensures value { result.now ≡ take most bytes.now }
    ensures short { length result.now ≤ most }
{
    if most < bytes.len() {
        &bytes[..most]
    } else {
        bytes
    }
}

/// A backslash with what stands behind it, which is no escape.
fn no_escape(rest: &[u8], reads: &mut u64) -> Piece
    ensures value { result ≡ spec.no_escape rest.now }
    ensures paid { reads.new ≤ reads.old + fronts.wrong_len result }
    ensures looked { Grows reads.old 0 reads.new }
    ensures item { fronts.is_item result ≡ true }
{
    Piece::Wrong(1 + character(rest, reads))
}

/// An escape of so many bytes with that value.
fn escaped(sort: Sort, value: u32, len: usize, rest: &[u8], reads: &mut u64) -> Piece
    ensures value { result ≡ spec.escaped sort value len rest.now }
    ensures short { fronts.width result ≤ len }
    ensures paid { reads.new ≤ reads.old + fronts.wrong_len result }
    ensures looked { Grows reads.old 0 reads.new }
    ensures item { fronts.is_item result ≡ true }
{
    match sort {
        Sort::Bytes => match u8::try_from(value) {
            Ok(byte) => Piece::Byte(byte, len),
            Err(_) => no_escape(rest, reads),
        },
        Sort::Text | Sort::Format => match char::from_u32(value) {
            Some(c) => Piece::Char(c, len),
            None => no_escape(rest, reads),
        },
    }
}

fn simple(letter: u8) -> Option<u8>
    ensures { result ≡ spec.simple letter }
{
    match letter {
        b'a' => Some(7),
        b'b' => Some(8),
        b'f' => Some(12),
        b'n' => Some(10),
        b'r' => Some(13),
        b't' => Some(9),
        b'v' => Some(11),
        b'\\' | b'\'' | b'"' => Some(letter),
        _ => None,
    }
}

fn hex_digits(letter: u8) -> usize
    ensures { result ≡ spec.hex_digits letter }
{
    match letter {
        b'x' => 2,
        b'u' => 4,
        b'U' => 8,
        _ => 0,
    }
}

fn hex_escape(sort: Sort, len: usize, rest: &[u8], reads: &mut u64) -> Piece
    requires some { 0 < length rest.now }
    requires short { len ≤ 8 }
    ensures value { result ≡ spec.hex_escape sort len rest.now }
    ensures paid { reads.new + 2 ≤ reads.old + fronts.due result }
    ensures looked { Grows reads.old (fronts.width result - 2) reads.new }
    ensures item { fronts.is_item result ≡ true }
{
    let (value, found) = digits(16, front(&rest[1..], len), reads);
    if found == len {
        escaped(sort, value, 2 + len, rest, reads)
    } else {
        no_escape(rest, reads)
    }
}

fn octal_escape(sort: Sort, rest: &[u8], reads: &mut u64) -> Piece
    ensures value { result ≡ spec.octal_escape sort rest.now }
    ensures paid { reads.new + 2 ≤ reads.old + fronts.due result }
    ensures looked { Grows reads.old (fronts.width result - 1) reads.new }
    ensures item { fronts.is_item result ≡ true }
{
    let (value, found) = digits(8, front(rest, 3), reads);
    escaped(sort, value, 1 + found, rest, reads)
}

/// What a backslash begins with a byte behind it that is no letter of an escape.
fn other_escape(sort: Sort, c: u8, rest: &[u8], reads: &mut u64) -> Piece
    requires some { 0 < length rest.now }
    ensures value { result ≡ spec.other_escape sort c rest.now }
    ensures paid { reads.new + 2 ≤ reads.old + fronts.due result }
    ensures looked { Grows reads.old (fronts.width result - 2) reads.new }
    ensures item { fronts.is_item result ≡ true }
{
    if (c as char).is_digit(8) {
        return octal_escape(sort, rest, reads);
    }
    let len = hex_digits(c);
    if len > 0 {
        return hex_escape(sort, len, rest, reads);
    }
    if c == b'\n' {
        return Piece::Nothing(2);
    }
    if c == b'\r' && begins(b'\n', &rest[1..], reads) {
        return Piece::Nothing(3);
    }
    no_escape(rest, reads)
}

/// What a backslash begins, by what stands behind it.
#[tactic(auto, unfolding(crate::specs::Literals::escape))]
pub(crate) fn escape(sort: Sort, rest: &[u8], reads: &mut u64) -> Piece
    ensures value { result ≡ spec.escape sort rest.now }
    ensures paid { reads.new + 1 ≤ reads.old + fronts.due result }
    ensures looked { Grows reads.old (fronts.width result - 1) reads.new }
    ensures item { fronts.is_item result ≡ true }
{
    if rest.is_empty() {
        return Piece::Nothing(1);
    }
    look(reads);
    match simple(rest[0]) {
        Some(value) => escaped(sort, u32::from(value), 2, rest, reads),
        None => other_escape(sort, rest[0], rest, reads),
    }
}

/// The same in a raw literal.
#[tactic(auto, unfolding(crate::specs::Literals::raw_escape))]
pub(crate) fn raw_escape(sort: Sort, rest: &[u8], reads: &mut u64) -> Piece
    ensures value { result ≡ spec.raw_escape sort rest.now }
    ensures paid { reads.new + 1 ≤ reads.old + fronts.due result }
    ensures looked { Grows reads.old (fronts.width result - 1) reads.new }
    ensures item { fronts.is_item result ≡ true }
{
    if rest.is_empty() {
        return Piece::Same(1);
    }
    look(reads);
    let c = rest[0];
    if c == b'\r' || (is_format(sort) && (c == b'{' || c == b'}')) {
        return Piece::Same(1);
    }
    Piece::Same(1 + character(rest, reads))
}
