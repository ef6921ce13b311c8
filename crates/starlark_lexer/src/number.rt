//! Integers written in a base.

ghost use Rattle.std.specs.Prelude.{◌≡◌, ◌≤◌, ◌<◌, ◌^◌, IfOk, ◌==◌, MatchOption, MatchResult, true, false};
ghost use Rattle.std.specs.Char.{digit_value};
ghost use Rattle.std.specs.Str.Parse.{without_leading_sign, starts_with_minus, digits_value};
ghost use Rattle.std.specs.List.{prefix_len};
ghost use Rattle.std.specs.String.{string_bytes};
ghost use Rattle.starlark_lexer.specs.Number as spec;
ghost use Rattle.starlark_lexer.specs.Number.{Reads};
ghost use Rattle.starlark_lexer.specs.Items.{number_of};

use crate::token::TokenInt;
use std::alloc::{AllocError, Global};
use thiserror::Error;

/// Why a text gives no integer.
#[derive(Clone, Copy, Debug, PartialEq, Eq, Error)]
pub enum TokenIntError {
    /// It is not one digit or more of the base behind an optional sign.
    #[error("cannot parse integer")]
    CannotParse,
    /// There is no memory for the digits of a value that does not fit 32 bits.
    #[error("out of memory")]
    Memory,
}

fn is_negative(text: &str) -> bool
    ensures { result ≡ starts_with_minus text.now }
{
    let bytes = text.as_bytes();
    !bytes.is_empty() && bytes[0] == b'-'
}

/// What stands behind the sign.
fn unsigned(text: &str) -> &str
    ensures { result.now ≡ without_leading_sign text.now }
{
    let bytes = text.as_bytes();
    if !bytes.is_empty() && (bytes[0] == b'-' || bytes[0] == b'+') {
        &text[1..]
    } else {
        text
    }
}

fn is_digits(digits: &[u8], base: u32) -> bool
    requires lower_bound { 2 ≤ base }
    requires upper_bound { base ≤ 36 }
    ensures { result ≡ spec.is_digits base digits.now }
{
    for digit in digits {
        if !(*digit as char).is_digit(base) {
            return false;
        }
    }
    !digits.is_empty()
}

/// How many zeros stand at the front.
fn zeros(digits: &[u8]) -> usize
    ensures { result ≡ prefix_len (λ d. d == 48) digits.now }
{
    let mut end = 0;
    while end < digits.len() && digits[end] == b'0' {
        end += 1;
    }
    end
}

/// The digits in lower case without leading zeros.
fn shortest(alloc: Global, digits: &str) -> Result<String, AllocError>
    ensures { IfOk result (λ t. string_bytes t ≡ spec.shortest digits.now) }
{
    let mut text = String::from_str(alloc, &digits[zeros(digits.as_bytes())..])?;
    text.make_ascii_lowercase();
    Ok(text)
}

/// The value of a digit of any base, or 36.
fn digit_value(digit: u8) -> u32
    ensures value { result ≡ digit_value digit }
    ensures most { result ≤ 36 }
{
    (digit as char).to_digit(36).unwrap_or(36)
}

/// What the digits stand for where it is at most 2147483648, whatever they are.
fn magnitude(digits: &[u8], base: u32) -> Option<u32>
    requires lower_bound { 2 ≤ base }
    requires upper_bound { base ≤ 36 }
    ensures { MatchOption result (2 ^ 31 < digits_value base digits.now) (λ n. (n ≡ digits_value base digits.now) × (n ≤ 2 ^ 31)) }
{
    let mut value: u64 = 0;
    for digit in digits {
        value = value * u64::from(base) + u64::from(digit_value(*digit));
        if value > 0x8000_0000 {
            return None;
        }
    }
    Some(value as u32)
}

/// The value of the digits where it fits.
fn small(negative: bool, digits: &[u8], base: u32) -> Option<i32>
    requires lower_bound { 2 ≤ base }
    requires upper_bound { base ≤ 36 }
    ensures { MatchOption result (spec.is_small (spec.value negative base digits.now) ≡ false) (λ z. (z ≡ spec.value negative base digits.now) × (spec.is_small z ≡ true)) }
{
    let magnitude = i64::from(magnitude(digits, base)?);
    let value = if negative { -magnitude } else { magnitude };
    i32::try_from(value).ok()
}

impl TokenInt {
    /// What the digits stand for, which are of the base.
    ///
    /// It is `I32` exactly where the value fits 32 bits; else it has the digits in lower case
    /// without leading zeros, the sign and the base. `Err` comes only where there is no memory.
    pub(crate) fn of_digits(
        alloc: Global,
        negative: bool,
        digits: &str,
        base: u32,
    ) -> Result<TokenInt, AllocError>
        requires lower_bound { 2 ≤ base }
        requires upper_bound { base ≤ 36 }
        ensures { MatchResult result (λ n. number_of n ≡ spec.number negative base digits.now) (λ _. spec.is_small (spec.value negative base digits.now) ≡ false) }
    {
        if let Some(value) = small(negative, digits.as_bytes(), base) {
            return Ok(TokenInt::I32(value));
        }
        Ok(TokenInt::BigInt {
            digits: shortest(alloc, digits)?,
            negative,
            radix: base,
        })
    }

    /// Reads an optional `+` or `-` and one digit or more of the base, of either case. The base is 2 to 36.
    ///
    /// The answer is `I32` exactly where the value fits 32 bits; else it has the digits in lower
    /// case without leading zeros, the sign and the base. Any other text is `CannotParse`, and
    /// `Memory` comes only where the digits of a value that does not fit could not be kept.
    pub fn from_str_radix(alloc: Global, s: &str, base: u32) -> Result<TokenInt, TokenIntError>
        requires lower_bound { 2 ≤ base }
        requires upper_bound { base ≤ 36 }
        ensures { Reads base s.now result }
    {
        let digits = unsigned(s);
        if !is_digits(digits.as_bytes(), base) {
            return Err(TokenIntError::CannotParse);
        }
        match TokenInt::of_digits(alloc, is_negative(s), digits, base) {
            Ok(value) => Ok(value),
            Err(_) => Err(TokenIntError::Memory),
        }
    }
}
