//! Counts over bytes, a block at a time.

ghost use Rattle.std.specs.Prelude.{◌≡◌, ◌≤◌, ◌+◌, ◌==◌, not, length, count_by};
ghost use Rattle.std.specs.List.{prefix_len};
ghost use Rattle.starlark_place.specs.Place.{characters, is_feed};

use std::simd::prelude::*;

// the bytes of a block
const LANES: usize = 32;

/// The number of characters of a text that is given as bytes: of those that go on with no character before them.
pub(crate) fn char_count(text: &[u8]) -> usize
    ensures { result ≡ characters text.now }
{
    let mut count = 0;
    let mut at = 0;
    while text.len() - at >= LANES {
        count += block_chars(u8x32::from_slice(&text[at..])) as usize;
        at += LANES;
    }
    count + rest_chars(&text[at..])
}

/// How many bytes of a text are `byte`.
pub(crate) fn byte_count(text: &[u8], byte: u8) -> usize
    ensures { result ≡ count_by (λ b. b == byte) text.now }
{
    let mut count = 0;
    let mut at = 0;
    while text.len() - at >= LANES {
        count += block_bytes(u8x32::from_slice(&text[at..]), byte) as usize;
        at += LANES;
    }
    count + rest_bytes(&text[at..], byte)
}

/// How many bytes of a text stand before its first line feed: all where it has none.
pub(crate) fn line_len(text: &[u8]) -> usize
    ensures value { result ≡ prefix_len (λ b. not (is_feed b)) text.now }
    ensures within { result ≤ length text.now }
{
    let mut at = 0;
    while text.len() - at >= LANES {
        let len = block_line_len(u8x32::from_slice(&text[at..]));
        at += len;
        if len < LANES {
            return at;
        }
    }
    at + rest_line_len(&text[at..])
}

// the same of one block

fn block_chars(block: u8x32) -> u32
    requires { length block ≡ 32 }
    ensures { result ≡ characters block }
{
    // a byte from 128 to 191 is one from 192 to 255 after the sum, which wraps
    (block + u8x32::splat(64))
        .simd_lt(u8x32::splat(192))
        .to_bitmask()
        .count_ones()
}

fn block_bytes(block: u8x32, byte: u8) -> u32
    requires { length block ≡ 32 }
    ensures { result ≡ count_by (λ b. b == byte) block }
{
    block.simd_eq(u8x32::splat(byte)).to_bitmask().count_ones()
}

fn block_line_len(block: u8x32) -> usize
    requires { length block ≡ 32 }
    ensures value { result ≡ prefix_len (λ b. not (is_feed b)) block }
    ensures within { result ≤ 32 }
{
    let feeds = block.simd_eq(u8x32::splat(b'\n')).to_bitmask();
    if feeds == 0 {
        LANES
    } else {
        feeds.trailing_zeros() as usize
    }
}

// the same of what is left behind the last block

fn rest_chars(rest: &[u8]) -> usize
    ensures { result ≡ characters rest.now }
{
    rest.iter().filter(|b| **b < 128 || 192 <= **b).count()
}

fn rest_bytes(rest: &[u8], byte: u8) -> usize
    ensures { result ≡ count_by (λ b. b == byte) rest.now }
{
    rest.iter().filter(|b| **b == byte).count()
}

fn rest_line_len(rest: &[u8]) -> usize
    ensures value { result ≡ prefix_len (λ b. not (is_feed b)) rest.now }
    ensures within { result ≤ length rest.now }
{
    let mut end = 0;
    while end < rest.len() && rest[end] != b'\n' {
        end += 1;
    }
    end
}
