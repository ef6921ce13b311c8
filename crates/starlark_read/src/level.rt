//! The levels of expressions (docs/LANGUAGE.md, Grammar): the lower one binds more.

/// A name, a bracket, a suffix.
pub(crate) const PRIMARY: u8 = 0;

/// Behind a sign.
pub(crate) const UNARY: u8 = 1;

/// `*`, `/`, `//`, `%`.
pub(crate) const PRODUCT: u8 = 2;

/// `+`, `-`.
pub(crate) const SUM: u8 = 3;

/// `<<`, `>>`.
pub(crate) const SHIFT: u8 = 4;

/// `&`.
pub(crate) const BIT_AND: u8 = 5;

/// `^`.
pub(crate) const BIT_XOR: u8 = 6;

/// `|`.
pub(crate) const BIT_OR: u8 = 7;

/// A comparison.
pub(crate) const COMPARISON: u8 = 8;

/// `not`.
pub(crate) const NOT: u8 = 9;

/// `and`.
pub(crate) const AND: u8 = 10;

/// `or`.
pub(crate) const OR: u8 = 11;

/// Any expression: a lambda, a choice by `if`.
pub(crate) const TEST: u8 = 12;

/// Where no suffix and no operator goes on.
pub(crate) const NONE: u8 = 13;
