//! Makes the tokens of lexemes.

ghost use Rattle.std.specs.Prelude.{◌≡◌, MatchResult, false, true};
ghost use Rattle.starlark_lexer.specs.Items.{is_assigning, lexeme_of, keyword_lexeme, operator_lexeme, takes_memory};
ghost use Rattle.starlark_lexer.specs.Lex.{literal_lexeme};
ghost use Rattle.starlark_lexer.specs.Literals.{value};
ghost use Rattle.starlark_lexer.specs.Scan.{lexeme_from};
ghost use Rattle.starlark_lexer.specs.Turns.{Slices};

use crate::literal::{Form, Sort, bytes_value, text_value};
use crate::scan::Kind;
use crate::token::{Token, TokenInt};
use crate::words::{Keyword, Operator};
use std::alloc::{AllocError, Global};

fn keyword_token(keyword: Keyword) -> Token
    ensures { lexeme_of result ≡ keyword_lexeme keyword }
{
    match keyword {
        Keyword::And => Token::And,
        Keyword::Break => Token::Break,
        Keyword::Continue => Token::Continue,
        Keyword::Def => Token::Def,
        Keyword::Elif => Token::Elif,
        Keyword::Else => Token::Else,
        Keyword::For => Token::For,
        Keyword::If => Token::If,
        Keyword::In => Token::In,
        Keyword::Lambda => Token::Lambda,
        Keyword::Load => Token::Load,
        Keyword::Not => Token::Not,
        Keyword::Or => Token::Or,
        Keyword::Pass => Token::Pass,
        Keyword::Return => Token::Return,
    }
}

fn operator_token(operator: Operator) -> Token
    ensures { lexeme_of result ≡ operator_lexeme operator }
{
    match operator {
        Operator::Comma => Token::Comma,
        Operator::Semicolon => Token::Semicolon,
        Operator::Colon => Token::Colon,
        Operator::EqualEqual => Token::EqualEqual,
        Operator::BangEqual => Token::BangEqual,
        Operator::LessThan => Token::LessThan,
        Operator::GreaterThan => Token::GreaterThan,
        Operator::LessEqual => Token::LessEqual,
        Operator::GreaterEqual => Token::GreaterEqual,
        Operator::Plus => Token::Plus,
        Operator::Minus => Token::Minus,
        Operator::Star => Token::Star,
        Operator::StarStar => Token::StarStar,
        Operator::Slash => Token::Slash,
        Operator::SlashSlash => Token::SlashSlash,
        Operator::Percent => Token::Percent,
        Operator::Ampersand => Token::Ampersand,
        Operator::Pipe => Token::Pipe,
        Operator::Caret => Token::Caret,
        Operator::LessLess => Token::LessLess,
        Operator::GreaterGreater => Token::GreaterGreater,
        Operator::Tilde => Token::Tilde,
        Operator::Dot => Token::Dot,
        Operator::Ellipsis => Token::Ellipsis,
        Operator::MinusGreater => Token::MinusGreater,
        Operator::OpeningRound => Token::OpeningRound,
        Operator::ClosingRound => Token::ClosingRound,
        Operator::OpeningSquare => Token::OpeningSquare,
        Operator::ClosingSquare => Token::ClosingSquare,
        Operator::OpeningCurly => Token::OpeningCurly,
        Operator::ClosingCurly => Token::ClosingCurly,
        operator => assigning_token(operator),
    }
}

/// The token of an operator that assigns.
fn assigning_token(operator: Operator) -> Token
    requires { is_assigning operator ≡ true }
    ensures { lexeme_of result ≡ operator_lexeme operator }
{
    match operator {
        Operator::Equal => Token::Equal,
        Operator::PlusEqual => Token::PlusEqual,
        Operator::MinusEqual => Token::MinusEqual,
        Operator::StarEqual => Token::StarEqual,
        Operator::SlashEqual => Token::SlashEqual,
        Operator::SlashSlashEqual => Token::SlashSlashEqual,
        Operator::PercentEqual => Token::PercentEqual,
        Operator::AmpersandEqual => Token::AmpersandEqual,
        Operator::PipeEqual => Token::PipeEqual,
        Operator::CaretEqual => Token::CaretEqual,
        Operator::LessLessEqual => Token::LessLessEqual,
        Operator::GreaterGreaterEqual => Token::GreaterGreaterEqual,
        _ => unreachable!(),
    }
}

/// The lexeme of a literal that has such a body. `Err` comes only where memory lacks for it.
fn literal(alloc: Global, form: Form, body: &str) -> Result<Token, AllocError>
    ensures { MatchResult result (λ t. lexeme_of t ≡ literal_lexeme form.sort (value form body.now)) (λ _. takes_memory (literal_lexeme form.sort (value form body.now)) ≡ true) }
{
    match form.sort {
        Sort::Text => Ok(Token::String(text_value(alloc, form, body)?)),
        Sort::Bytes => Ok(Token::Bytes(bytes_value(alloc, form, body)?)),
        Sort::Format => Ok(Token::FStringText(text_value(alloc, form, body)?)),
    }
}

/// The token of a lexeme with that text. `Err` comes only where the token holds memory.
#[tactic(auto, using(crate::proofs::Numbers::big_takes))]
#[inline(always)]
pub(crate) fn token(alloc: Global, kind: Kind, text: &str) -> Result<Token, AllocError>
    requires { Slices kind text.now }
    ensures { MatchResult result (λ t. lexeme_of t ≡ lexeme_from kind text.now) (λ _. takes_memory (lexeme_from kind text.now) ≡ true) }
{
    let token = match kind {
        Kind::Newline => Token::Newline,
        Kind::Comment => Token::Comment(String::from_str(alloc, &text[1..])?),
        Kind::Word => Token::Identifier(String::from_str(alloc, text)?),
        Kind::Keyword(keyword) => keyword_token(keyword),
        Kind::Int(from, radix) => Token::Int(TokenInt::of_digits(
            alloc,
            false,
            &text[from..],
            radix,
        )?),
        Kind::Float => Token::Float(String::from_str(alloc, text)?),
        Kind::Operator(operator) => operator_token(operator),
        Kind::Literal(form, from, len) => literal(alloc, form, &text[from..from + len])?,
        Kind::Text(form) => Token::FStringText(text_value(alloc, form, text)?),
        Kind::Bang => Token::FStringBang,
    };
    Ok(token)
}
