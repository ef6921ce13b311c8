//! What tokens show of themselves to a reader of code, which of them are equal, and what the lexer's faults print. What tokens
//! print is in the answers of `starlark_dump`.

use crate::check::equal;
use crate::maker::{Maker, leave};
use starlark_lexer::dialect::Dialect;
use starlark_lexer::lexer::Lexer;
use starlark_lexer::token::{FStringQuote, LexemeError, Token, TokenInt};
use std::process::Abort;

fn shows(m: &Maker<'_, impl Abort>, token: Token, want: &str) {
    m.shows(&token, want);
    leave(token);
}

#[test]
fn shown(rt: HostRuntime) {
    let m = &Maker::new(&rt, rt.alloc());
    shows(m, Token::SlashSlashEqual, "SlashSlashEqual");
    shows(m, Token::Identifier(m.text("x")), "Identifier(\"x\")");
    shows(m, Token::Int(TokenInt::I32(31)), "Int(I32(31))");
    let big = TokenInt::BigInt {
        digits: m.text("80000000"),
        negative: false,
        radix: 16,
    };
    let want = "Int(BigInt { digits: \"80000000\", negative: false, radix: 16 })";
    shows(m, Token::Int(big), want);
    shows(m, Token::Bytes(m.none()), "Bytes([])");
    let quote = FStringQuote::TripleDouble;
    shows(m, Token::FStringStart(quote), "FStringStart(TripleDouble)");
}

/// Each kind of token, and those that hold something with several values of it: one that begins or ends as another does, one that
/// another kind holds too, and some once more.
static ALL: &str = "and break continue def elif else for if in lambda load not or pass return
, ; : = += -= *= /= //= %= &= |= ^= <<= >>= == != < > <= >= + - * ** / // % & | ^ << >> ~ . ... -> ( ) [ ] { }
a b ab 1 2 257 65537 0x80000000 0x80000001 0x800000010 0b10000000000000000000000000000000 20000000000 0x20000000000
1.0 2.0 1.05 11.0 \"\" \"a\" \"b\" \"ab\" \"1.0\" b\"\" b\"a\" b\"b\" b\"ab\"
f\"a{x!r}b\" f'c' f'''d''' f\"\"\"e\"\"\" f'cd' f'ab' f'1.0' # c
  x # d
ab 257 0x80000001 1.05 \"ab\" b\"ab\" f'cd' # cd
abcdefghij \"abcdefghij\" b\"abcdefghij\" f'abcdefghij' 1234567890 \"1234567890\" 12345678901 \"12345678901\"
#abcdefghij
#
#ab
#1.0
";

/// Two tokens are equal exactly where they show the same to a reader of code.
#[test]
fn equal_tokens(rt: HostRuntime) {
    let m = &Maker::new(&rt, rt.alloc());
    let mut lexer = Lexer::new(rt.alloc(), ALL, &Dialect::default(), m.map_of(1, "t", ALL));
    let mut all = m.none();
    for item in &mut lexer {
        let (_, token, _) = m.made(item);
        let shown = m.made(format!(in rt.alloc(); "{token:?}"));
        m.made(all.push((shown, token)));
    }
    for (shown, token) in &all {
        for (other, another) in &all {
            equal(&rt, token == another, shown == other);
        }
    }
    leave(all);
    leave(lexer);
}

/// The faults, and what each prints.
static FAULTS: [(LexemeError, &str); 12] = [
    (LexemeError::Indentation, "incorrect indentation"),
    (LexemeError::InvalidInput, "invalid input"),
    (LexemeError::InvalidTab, "tabs are not allowed"),
    (
        LexemeError::UnfinishedStringLiteral,
        "unfinished string literal",
    ),
    (
        LexemeError::InvalidEscapeSequence,
        "invalid string escape sequence",
    ),
    (
        LexemeError::EmptyEscapeSequence,
        "missing string escape sequence",
    ),
    (LexemeError::ReservedKeyword, "cannot use reserved keyword"),
    (LexemeError::StartsZero, "integer cannot have leading 0"),
    (LexemeError::IntParse, "cannot parse integer"),
    (LexemeError::CannotParse, "cannot parse"),
    (
        LexemeError::CommentSpanComputedIncorrectly,
        "comment span is computed incorrectly",
    ),
    (
        LexemeError::UnfinishedFStringExpression,
        "unfinished f-string expression",
    ),
];

#[test]
fn faults(rt: HostRuntime) {
    Maker::new(&rt, rt.alloc()).each_prints(&FAULTS);
}
