//! What a lexer hands out.

use thiserror::Error;

/// The value of an integer literal.
#[derive(Debug, Drop, PartialEq, Eq)]
pub enum TokenInt {
    /// One that fits 32 bits.
    I32(i32),
    /// Any other: its digits in lower case without leading zeros, whether it is negative, and the radix.
    BigInt {
        digits: String,
        negative: bool,
        radix: u32,
    },
}

/// The quotes of a literal.
#[derive(Clone, Copy, Debug, PartialEq, Eq)]
pub enum FStringQuote {
    Single,
    Double,
    TripleSingle,
    TripleDouble,
}

/// How a field of an f-string is printed: `!s` is `Str`, and `!r` is `Repr`.
#[derive(Clone, Copy, Debug, PartialEq, Eq)]
pub enum FStringConv {
    None,
    Str,
    Repr,
}

/// A lexeme.
#[derive(Debug, Drop, PartialEq, Eq)]
pub enum Token {
    /// A line end that ends a line of the program (docs/LANGUAGE.md, Layout), or the text's end.
    Newline,
    /// The blanks of a line whose width is greater than all that are open.
    Indent,
    /// The end of an open width, at a line of a smaller one or at the text's end.
    Dedent,
    /// All behind the `#`, up to the line's end.
    Comment(String),
    /// Its text, which is no keyword.
    Identifier(String),
    Int(TokenInt),
    /// The text of a float literal.
    Float(String),
    /// What a literal of text denotes.
    String(String),
    /// What a literal of bytes denotes.
    Bytes(Vec<u8>),
    /// The prefix and quotes that an f-string begins with.
    FStringStart(FStringQuote),
    /// What the text of an f-string before, between and behind its fields denotes.
    FStringText(String),
    /// The brace that opens a field.
    FStringExprStart,
    /// The exclamation mark between the expression of a field and its conversion.
    FStringBang,
    /// The brace that closes a field.
    FStringExprEnd,
    /// The quotes that an f-string ends with.
    FStringEnd,
    And,
    Break,
    Continue,
    Def,
    Elif,
    Else,
    For,
    If,
    In,
    Lambda,
    Load,
    Not,
    Or,
    Pass,
    Return,
    Comma,
    Semicolon,
    Colon,
    Equal,
    PlusEqual,
    MinusEqual,
    StarEqual,
    SlashEqual,
    SlashSlashEqual,
    PercentEqual,
    AmpersandEqual,
    PipeEqual,
    CaretEqual,
    LessLessEqual,
    GreaterGreaterEqual,
    EqualEqual,
    BangEqual,
    LessThan,
    GreaterThan,
    LessEqual,
    GreaterEqual,
    Plus,
    Minus,
    Star,
    StarStar,
    Slash,
    SlashSlash,
    Percent,
    Ampersand,
    Pipe,
    Caret,
    LessLess,
    GreaterGreater,
    Tilde,
    Dot,
    Ellipsis,
    MinusGreater,
    OpeningRound,
    ClosingRound,
    OpeningSquare,
    ClosingSquare,
    OpeningCurly,
    ClosingCurly,
}

/// Why a text is refused.
#[derive(Clone, Copy, Debug, PartialEq, Eq, Error)]
pub enum LexemeError {
    /// A line's width is not open, and not greater than all that are.
    #[error("incorrect indentation")]
    Indentation,
    /// A character that begins no lexeme.
    #[error("invalid input")]
    InvalidInput,
    /// A tab among the blanks that a line begins with.
    #[error("tabs are not allowed")]
    InvalidTab,
    /// A literal without its closing quote.
    #[error("unfinished string literal")]
    UnfinishedStringLiteral,
    /// A backslash and what stands behind it are no escape.
    #[error("invalid string escape sequence")]
    InvalidEscapeSequence,
    /// Given by no call.
    #[error("missing string escape sequence")]
    EmptyEscapeSequence,
    /// A word that is kept for later use.
    #[error("cannot use reserved keyword")]
    ReservedKeyword,
    /// An integer with a leading zero.
    #[error("integer cannot have leading 0")]
    StartsZero,
    /// Given by no call.
    #[error("cannot parse integer")]
    IntParse,
    /// Given by no call.
    #[error("cannot parse")]
    CannotParse,
    /// Given by no call.
    #[error("comment span is computed incorrectly")]
    CommentSpanComputedIncorrectly,
    /// Given by no call.
    #[error("unfinished f-string expression")]
    UnfinishedFStringExpression,
}
