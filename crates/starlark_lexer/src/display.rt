//! What tokens print.

ghost use Rattle.std.specs.Prelude.{◌≡◌, Some, None, MatchOption};
ghost use Rattle.starlark_lexer.specs.Display as spec;
ghost use Rattle.starlark_lexer.specs.Display.{number_text, token_text};

use crate::token::{Token, TokenInt};
use std::fmt;

fn radix_text(radix: u32) -> &'static str
    ensures { result.now ≡ spec.radix_text radix }
{
    match radix {
        16 => "0x",
        8 => "0o",
        2 => "0b",
        _ => "",
    }
}

fn sign_text(negative: bool) -> &'static str
    ensures { result.now ≡ spec.sign_text negative }
{
    if negative { "-" } else { "" }
}

/// A small integer prints in decimal, another its sign, its radix and its digits.
impl fmt::Display for TokenInt {
    ghost output = { λ n. Some (number_text n) };

    fn fmt<W: fmt::Write>(&self, f: &mut fmt::Formatter<W>) -> fmt::Result {
        match self {
            TokenInt::I32(n) => write!(f, "{n}"),
            TokenInt::BigInt {
                digits,
                negative,
                radix,
            } => {
                let sign = sign_text(*negative);
                let prefix = radix_text(*radix);
                write!(f, "{sign}{prefix}{digits}")
            }
        }
    }
}

/// A keyword by its text.
fn keyword_text(token: &Token) -> Option<&'static str>
    ensures { MatchOption result (spec.keyword_text token.now ≡ None) (λ t. spec.keyword_text token.now ≡ Some t.now) }
{
    let text = match token {
        Token::And => "and",
        Token::Break => "break",
        Token::Continue => "continue",
        Token::Def => "def",
        Token::Elif => "elif",
        Token::Else => "else",
        Token::For => "for",
        Token::If => "if",
        Token::In => "in",
        Token::Lambda => "lambda",
        Token::Load => "load",
        Token::Not => "not",
        Token::Or => "or",
        Token::Pass => "pass",
        Token::Return => "return",
        _ => return None,
    };
    Some(text)
}

/// An operator or a bracket by its text.
fn symbol_text(token: &Token) -> Option<&'static str>
    ensures { MatchOption result (spec.symbol_text token.now ≡ None) (λ t. spec.symbol_text token.now ≡ Some t.now) }
{
    let text = match token {
        Token::Comma => ",",
        Token::Semicolon => ";",
        Token::Colon => ":",
        Token::EqualEqual => "==",
        Token::BangEqual => "!=",
        Token::LessThan => "<",
        Token::GreaterThan => ">",
        Token::LessEqual => "<=",
        Token::GreaterEqual => ">=",
        Token::Plus => "+",
        Token::Minus => "-",
        Token::Star => "*",
        Token::StarStar => "**",
        Token::Slash => "/",
        Token::SlashSlash => "//",
        Token::Percent => "%",
        Token::Ampersand => "&",
        Token::Pipe => "|",
        Token::Caret => "^",
        Token::LessLess => "<<",
        Token::GreaterGreater => ">>",
        Token::Tilde => "~",
        Token::Dot => ".",
        Token::Ellipsis => "...",
        Token::MinusGreater => "->",
        Token::OpeningRound => "(",
        Token::ClosingRound => ")",
        Token::OpeningSquare => "[",
        Token::ClosingSquare => "]",
        Token::OpeningCurly => "{",
        Token::ClosingCurly => "}",
        token => return assigning_text(token),
    };
    Some(text)
}

/// An operator that assigns by its text.
fn assigning_text(token: &Token) -> Option<&'static str>
    ensures { MatchOption result (spec.assigning_text token.now ≡ None) (λ t. spec.assigning_text token.now ≡ Some t.now) }
{
    let text = match token {
        Token::Equal => "=",
        Token::PlusEqual => "+=",
        Token::MinusEqual => "-=",
        Token::StarEqual => "*=",
        Token::SlashEqual => "/=",
        Token::SlashSlashEqual => "//=",
        Token::PercentEqual => "%=",
        Token::AmpersandEqual => "&=",
        Token::PipeEqual => "|=",
        Token::CaretEqual => "^=",
        Token::LessLessEqual => "<<=",
        Token::GreaterGreaterEqual => ">>=",
        _ => return None,
    };
    Some(text)
}

/// A token that shows no text of its own by its kind.
fn kind_text(token: &Token) -> &'static str
    ensures { result.now ≡ spec.kind_text token.now }
{
    match token {
        Token::Newline => "new line",
        Token::Indent => "new indentation block",
        Token::Dedent => "end of indentation block",
        Token::String(_) => "string literal",
        Token::Bytes(_) => "bytes literal",
        Token::Comment(_) => "comment",
        Token::FStringStart(_) => "f-string start",
        Token::FStringText(_) => "f-string text",
        Token::FStringExprStart => "f-string expression start",
        Token::FStringExprEnd => "f-string expression end",
        Token::FStringBang => "f-string conversion",
        Token::FStringEnd => "f-string end",
        _ => "",
    }
}

/// Keywords, symbols, identifiers and numbers print their texts, other tokens their kinds.
impl fmt::Display for Token {
    ghost output = { λ t. Some (token_text t) };

    fn fmt<W: fmt::Write>(&self, f: &mut fmt::Formatter<W>) -> fmt::Result {
        if let Some(text) = keyword_text(self) {
            return write!(f, "keyword '{text}'");
        }
        if let Some(text) = symbol_text(self) {
            return write!(f, "symbol '{text}'");
        }
        match self {
            Token::Identifier(text) => write!(f, "identifier '{text}'"),
            Token::Int(n) => write!(f, "integer literal '{n}'"),
            Token::Float(text) => write!(f, "float literal '{text}'"),
            token => f.write_str(kind_text(token)),
        }
    }
}
