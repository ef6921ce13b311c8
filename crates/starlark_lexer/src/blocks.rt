//! Runs of bytes, a block at a time.

ghost use Rattle.std.specs.Prelude.{◌≡◌, ◌≤◌, ◌==◌, if◌then◌else◌, length};
ghost use Rattle.std.specs.Int.{w64, trailing_zeros};
ghost use Rattle.std.specs.List.{prefix_len};
ghost use Rattle.starlark_lexer.specs.Classes as classes;
ghost use Rattle.starlark_lexer.specs.Fronts as fronts;

use std::simd::prelude::*;

// the bytes of a block
const LANES: usize = 16;

/// How many plain bytes stand at the front.
pub(crate) fn plain_len(bytes: &[u8]) -> usize
    ensures value { result ≡ prefix_len fronts.is_plain bytes.now }
    ensures within { result ≤ length bytes.now }
{
    let mut at = 0;
    while bytes.len() - at >= LANES {
        let len = block_plain_len(u8x16::from_slice(&bytes[at..]));
        at += len;
        if len < LANES {
            return at;
        }
    }
    at + rest_plain_len(&bytes[at..])
}

/// The same of a block.
fn block_plain_len(block: u8x16) -> usize
    requires { length block ≡ 16 }
    ensures value { result ≡ prefix_len fronts.is_plain block }
    ensures within { result ≤ 16 }
{
    let ends = block.simd_eq(u8x16::splat(b'\n')) | block.simd_eq(u8x16::splat(b'\r'));
    let marks = block.simd_eq(u8x16::splat(b'"')) | block.simd_eq(u8x16::splat(b'\''));
    let braces = block.simd_eq(u8x16::splat(b'{')) | block.simd_eq(u8x16::splat(b'}'));
    let stops = ends | marks | braces | block.simd_eq(u8x16::splat(b'\\'));
    first_set(stops.to_bitmask())
}

/// The same of what is left behind the last block.
fn rest_plain_len(rest: &[u8]) -> usize
    ensures value { result ≡ prefix_len fronts.is_plain rest.now }
    ensures within { result ≤ length rest.now }
{
    let mut end = 0;
    while end < rest.len() && is_plain(rest[end]) {
        end += 1;
    }
    end
}

fn is_plain(b: u8) -> bool
    ensures { result ≡ fronts.is_plain b }
{
    // most bytes of most bodies are such letters
    b.is_ascii_lowercase() || !matches!(b, b'\n' | b'\r' | b'"' | b'\'' | b'\\' | b'{' | b'}')
}

/// How many bytes of words stand at the front.
pub(crate) fn word_len(bytes: &[u8]) -> usize
    ensures value { result ≡ prefix_len classes.is_word_byte bytes.now }
    ensures within { result ≤ length bytes.now }
{
    let mut at = 0;
    while bytes.len() - at >= LANES {
        let len = block_word_len(u8x16::from_slice(&bytes[at..]));
        at += len;
        if len < LANES {
            return at;
        }
    }
    at + rest_word_len(&bytes[at..])
}

/// The same of a block.
fn block_word_len(block: u8x16) -> usize
    requires { length block ≡ 16 }
    ensures value { result ≡ prefix_len classes.is_word_byte block }
    ensures within { result ≤ 16 }
{
    let letters = (block | u8x16::splat(0x20)) - u8x16::splat(b'a');
    let digits = block - u8x16::splat(b'0');
    let stops = letters.simd_ge(u8x16::splat(26))
        & digits.simd_ge(u8x16::splat(10))
        & block.simd_ne(u8x16::splat(b'_'));
    first_set(stops.to_bitmask())
}

/// The same of what is left behind the last block.
fn rest_word_len(rest: &[u8]) -> usize
    ensures value { result ≡ prefix_len classes.is_word_byte rest.now }
    ensures within { result ≤ length rest.now }
{
    let mut end = 0;
    while end < rest.len() && is_word_byte(rest[end]) {
        end += 1;
    }
    end
}

pub(crate) fn is_word_byte(b: u8) -> bool
    ensures { result ≡ classes.is_word_byte b }
{
    b.is_ascii_alphabetic() || b == b'_' || b.is_ascii_digit()
}

/// How many lanes come before the first that is set.
fn first_set(lanes: u64) -> usize
    ensures { result ≡ if lanes == 0 then 16 else trailing_zeros w64 lanes }
{
    if lanes == 0 {
        LANES
    } else {
        lanes.trailing_zeros() as usize
    }
}
