//! The words and operators whose texts are fixed.

ghost use Rattle.std.specs.Prelude.{[], ◌∷◌, ◌≡◌, IfSome, Some};
ghost use Rattle.starlark_lexer.specs.Classes as classes;
ghost use Rattle.starlark_lexer.specs.FirstBytes as spec;

/// Words with a meaning of their own.
#[derive(Clone, Copy, Debug)]
pub enum Keyword {
    And,
    Break,
    Continue,
    Def,
    Elif,
    Else,
    For,
    If,
    In,
    Lambda,
    Load,
    Not,
    Or,
    Pass,
    Return,
}

/// Operators and brackets.
#[derive(Clone, Copy, Debug)]
pub enum Operator {
    Comma,
    Semicolon,
    Colon,
    Equal,
    PlusEqual,
    MinusEqual,
    StarEqual,
    SlashEqual,
    SlashSlashEqual,
    PercentEqual,
    AmpersandEqual,
    PipeEqual,
    CaretEqual,
    LessLessEqual,
    GreaterGreaterEqual,
    EqualEqual,
    BangEqual,
    LessThan,
    GreaterThan,
    LessEqual,
    GreaterEqual,
    Plus,
    Minus,
    Star,
    StarStar,
    Slash,
    SlashSlash,
    Percent,
    Ampersand,
    Pipe,
    Caret,
    LessLess,
    GreaterGreater,
    Tilde,
    Dot,
    Ellipsis,
    MinusGreater,
    OpeningRound,
    ClosingRound,
    OpeningSquare,
    ClosingSquare,
    OpeningCurly,
    ClosingCurly,
}

pub(crate) const KEYWORDS: [(&[u8], Keyword); 15] = [
    (b"and", Keyword::And),
    (b"break", Keyword::Break),
    (b"continue", Keyword::Continue),
    (b"def", Keyword::Def),
    (b"elif", Keyword::Elif),
    (b"else", Keyword::Else),
    (b"for", Keyword::For),
    (b"if", Keyword::If),
    (b"in", Keyword::In),
    (b"lambda", Keyword::Lambda),
    (b"load", Keyword::Load),
    (b"not", Keyword::Not),
    (b"or", Keyword::Or),
    (b"pass", Keyword::Pass),
    (b"return", Keyword::Return),
];

/// Words that are kept for later use.
pub(crate) const RESERVED: [&[u8]; 15] = [
    b"as",
    b"class",
    b"del",
    b"except",
    b"finally",
    b"from",
    b"global",
    b"import",
    b"is",
    b"nonlocal",
    b"raise",
    b"try",
    b"while",
    b"with",
    b"yield",
];

/// No row is longer than one before it.
pub(crate) const OPERATORS: [(&[u8], Operator); 43] = [
    (b"//=", Operator::SlashSlashEqual),
    (b"<<=", Operator::LessLessEqual),
    (b">>=", Operator::GreaterGreaterEqual),
    (b"...", Operator::Ellipsis),
    (b"+=", Operator::PlusEqual),
    (b"-=", Operator::MinusEqual),
    (b"*=", Operator::StarEqual),
    (b"/=", Operator::SlashEqual),
    (b"%=", Operator::PercentEqual),
    (b"&=", Operator::AmpersandEqual),
    (b"|=", Operator::PipeEqual),
    (b"^=", Operator::CaretEqual),
    (b"==", Operator::EqualEqual),
    (b"!=", Operator::BangEqual),
    (b"<=", Operator::LessEqual),
    (b">=", Operator::GreaterEqual),
    (b"**", Operator::StarStar),
    (b"//", Operator::SlashSlash),
    (b"<<", Operator::LessLess),
    (b">>", Operator::GreaterGreater),
    (b"->", Operator::MinusGreater),
    (b",", Operator::Comma),
    (b";", Operator::Semicolon),
    (b":", Operator::Colon),
    (b"=", Operator::Equal),
    (b"<", Operator::LessThan),
    (b">", Operator::GreaterThan),
    (b"+", Operator::Plus),
    (b"-", Operator::Minus),
    (b"*", Operator::Star),
    (b"/", Operator::Slash),
    (b"%", Operator::Percent),
    (b"&", Operator::Ampersand),
    (b"|", Operator::Pipe),
    (b"^", Operator::Caret),
    (b"~", Operator::Tilde),
    (b".", Operator::Dot),
    (b"(", Operator::OpeningRound),
    (b")", Operator::ClosingRound),
    (b"[", Operator::OpeningSquare),
    (b"]", Operator::ClosingSquare),
    (b"{", Operator::OpeningCurly),
    (b"}", Operator::ClosingCurly),
];

/// The operator of one byte that a byte is.
#[tactic(auto, unfolding(crate::specs::Classes::operator_of))]
pub(crate) fn alone(b: u8) -> Option<Operator>
    ensures { IfSome result (λ o. classes.operator_of (b ∷ []) ≡ Some o) }
{
    match b {
        b',' => Some(Operator::Comma),
        b';' => Some(Operator::Semicolon),
        b':' => Some(Operator::Colon),
        b'=' => Some(Operator::Equal),
        b'<' => Some(Operator::LessThan),
        b'>' => Some(Operator::GreaterThan),
        b'+' => Some(Operator::Plus),
        b'-' => Some(Operator::Minus),
        b'*' => Some(Operator::Star),
        b'/' => Some(Operator::Slash),
        b'%' => Some(Operator::Percent),
        b'&' => Some(Operator::Ampersand),
        b'|' => Some(Operator::Pipe),
        b'^' => Some(Operator::Caret),
        b'~' => Some(Operator::Tilde),
        b'.' => Some(Operator::Dot),
        b'(' => Some(Operator::OpeningRound),
        b')' => Some(Operator::ClosingRound),
        b'[' => Some(Operator::OpeningSquare),
        b']' => Some(Operator::ClosingSquare),
        b'{' => Some(Operator::OpeningCurly),
        b'}' => Some(Operator::ClosingCurly),
        _ => None,
    }
}

/// Whether a byte stands second in an operator.
pub(crate) fn is_second(b: u8) -> bool
    ensures { result ≡ spec.is_second b }
{
    matches!(b, b'=' | b'*' | b'/' | b'<' | b'>' | b'.')
}

/// Whether a keyword or a reserved word may begin with a byte and have so many bytes.
fn may_stand(b: u8, len: usize) -> bool
    ensures { result ≡ spec.may_stand b len }
{
    match b {
        b'a' => len == 2 || len == 3,
        b'c' => len == 5 || len == 8,
        b'e' => len == 4 || len == 6,
        b'f' => len == 3 || len == 4 || len == 7,
        b'i' => len == 2 || len == 6,
        b'l' => len == 4 || len == 6,
        b'n' => len == 3 || len == 8,
        b'r' => len == 5 || len == 6,
        b'w' => len == 4 || len == 5,
        b'd' | b't' => len == 3,
        b'b' | b'y' => len == 5,
        b'g' => len == 6,
        b'o' => len == 2,
        b'p' => len == 4,
        _ => false,
    }
}

/// Whether a word may be a keyword or a reserved word, by its first byte and its length.
pub(crate) fn may_be_fixed(word: &[u8]) -> bool
    ensures { result ≡ spec.may_be_fixed word.now }
{
    !word.is_empty() && may_stand(word[0], word.len())
}
