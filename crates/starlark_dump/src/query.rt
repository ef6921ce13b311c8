//! What a query asks: a word, a dialect, and how many bytes of text stand behind its line.

ghost use Rattle.std.specs.Prelude.{◌≤◌, IfSome, length};

use crate::module::Shown;
use starlark_lexer::dialect::Dialect;
use std::str::from_utf8;

/// The greatest number of bytes.
const MOST: u64 = 4294967295;

/// What is shown of a text.
#[derive(Clone, Copy)]
pub(crate) enum Word {
    /// What the lexer cuts it into.
    Tokens,
    /// Something of its tree.
    Module(Shown),
}

/// A word and a dialect.
#[derive(Clone, Copy)]
pub(crate) struct Question {
    pub(crate) word: Word,
    pub(crate) dialect: Dialect,
}

/// A question and the number of bytes behind its line.
#[derive(Clone, Copy)]
pub(crate) struct Query {
    pub(crate) question: Question,
    pub(crate) count: u64,
}

fn word_named(name: &str) -> Option<Word> {
    match name {
        "tokens" => Some(Word::Tokens),
        "comments" => Some(Word::Module(Shown::Comments)),
        "loads" => Some(Word::Module(Shown::Loads)),
        "outline" => Some(Word::Module(Shown::Outline)),
        "print" => Some(Word::Module(Shown::Print)),
        "statements" => Some(Word::Module(Shown::Statements)),
        "tree" => Some(Word::Module(Shown::Tree)),
        _ => None,
    }
}

fn dialect_named(name: &str) -> Option<Dialect> {
    match name {
        "standard" => Some(Dialect::Standard),
        "extended" => Some(Dialect::Extended),
        "all" => Some(Dialect::AllOptionsInternal),
        _ => None,
    }
}

/// The number that one to ten decimal digits spell. None where they are none, more or no digits, or spell more than
/// `MOST`.
fn number(digits: &str) -> Option<u64>
    ensures some { IfSome result (λ n. 1 ≤ length digits.now) }
    ensures few { IfSome result (λ n. length digits.now ≤ 10) }
    ensures most { IfSome result (λ n. n ≤ 4294967295) }
{
    if digits.is_empty() || digits.len() > 10 {
        return None;
    }
    if !digits.bytes().all(|b| b.is_ascii_digit()) {
        return None;
    }
    let value = digits.parse::<u64>().ok()?;
    if value > MOST { None } else { Some(value) }
}

/// The question of a word and a dialect. None where one of them is none.
pub(crate) fn question_named(name: &str, dialect_name: &str) -> Option<Question> {
    Some(Question {
        word: word_named(name)?,
        dialect: dialect_named(dialect_name)?,
    })
}

/// The query that a line says, given without its line feed. None where it says none.
pub(crate) fn query_of(line: &[u8]) -> Option<Query> {
    let (name, rest) = from_utf8(line).ok()?.split_once(' ')?;
    let (dialect_name, digits) = rest.split_once(' ')?;
    Some(Query {
        question: question_named(name, dialect_name)?,
        count: number(digits)?,
    })
}
