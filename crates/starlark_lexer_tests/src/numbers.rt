//! Integers of a base, and what they print.

use crate::check::equal_in;
use crate::maker::Maker;
use starlark_lexer::number::TokenIntError;
use starlark_lexer::token::{Token, TokenInt};
use std::test::Fail;

/// Texts with their base and a value that fits 32 bits.
static SMALL: [(&str, u32, i32); 10] = [
    ("0", 10, 0),
    ("-0", 10, 0),
    ("+7", 10, 7),
    ("2147483647", 10, 2147483647),
    ("-2147483648", 10, -2147483648),
    ("00FF", 16, 255),
    ("ff", 16, 255),
    ("-101", 2, -5),
    ("777", 8, 511),
    ("Zz", 36, 1295),
];

#[test]
fn small_values(rt: HostRuntime) -> Result<(), Fail> {
    for (text, base, value) in &SMALL {
        let read = TokenInt::from_str_radix(rt.alloc(), text, *base)?;
        equal_in(&rt, text, read, TokenInt::I32(*value));
    }
    Ok(())
}

/// Texts with their base, and the digits and sign of a value that does not fit.
static OTHERS: [(&str, u32, &str, bool); 6] = [
    ("80000000", 16, "80000000", false),
    ("2147483648", 10, "2147483648", false),
    ("-2147483649", 10, "2147483649", true),
    ("+000FFFFFFFFF", 16, "fffffffff", false),
    (
        "-0100000000000000000000000000000000",
        2,
        "100000000000000000000000000000000",
        true,
    ),
    ("ZZZZZZZZ", 36, "zzzzzzzz", false),
];

#[test]
fn other_values(rt: HostRuntime) -> Result<(), Fail> {
    for (text, base, digits, negative) in &OTHERS {
        let read = TokenInt::from_str_radix(rt.alloc(), text, *base)?;
        let digits = String::from_str(rt.alloc(), digits)?;
        let wanted = TokenInt::BigInt {
            digits,
            negative: *negative,
            radix: *base,
        };
        equal_in(&rt, text, read, wanted);
    }
    Ok(())
}

/// Texts that are no integer of that base.
static NONE: [(&str, u32); 11] = [
    ("", 10),
    ("-", 10),
    ("+", 16),
    ("--1", 10),
    ("+-1", 10),
    ("12", 2),
    ("1g", 16),
    (" 1", 10),
    ("1_0", 10),
    ("é", 36),
    ("99999999999999999999x", 10),
];

#[test]
fn no_integers(rt: HostRuntime) -> Result<(), Fail> {
    for (text, base) in &NONE {
        let read = TokenInt::from_str_radix(rt.alloc(), text, *base);
        equal_in(&rt, text, read, Err(TokenIntError::CannotParse));
    }
    Ok(())
}

/// The errors, and what each prints.
static ERRORS: [(TokenIntError, &str); 2] = [
    (TokenIntError::CannotParse, "cannot parse integer"),
    (TokenIntError::Memory, "out of memory"),
];

#[test]
fn texts_of_errors(rt: HostRuntime) {
    Maker::new(&rt, rt.alloc()).each_prints(&ERRORS);
}

/// Bases and signs of numbers that no lexeme gives, and what those of the digits `ff` print.
static PRINTED: [(u32, bool, &str); 4] = [
    (16, false, "0xff"),
    (8, true, "-0off"),
    (2, false, "0bff"),
    (10, true, "-ff"),
];

#[test]
fn printed(rt: HostRuntime) {
    let m = Maker::new(&rt, rt.alloc());
    m.printed(Token::Int(TokenInt::I32(-1)), "integer literal '-1'");
    for (radix, negative, text) in &PRINTED {
        let number = TokenInt::BigInt {
            digits: m.text("ff"),
            negative: *negative,
            radix: *radix,
        };
        m.printed(number, text);
    }
}
