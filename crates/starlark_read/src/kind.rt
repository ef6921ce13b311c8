//! Kinds of tokens.

ghost use Rattle.std.specs.Prelude.{◌≡◌};
ghost use Rattle.starlark_lexer.specs.Items.{lexeme_of};
ghost use Rattle.starlark_read.specs.Kinds.{kind_of};

use starlark_lexer::token::Token;

/// What stands ahead: a token's kind, or the end of the tokens.
#[derive(Clone, Copy, Debug, PartialEq, Eq, Drop)]
pub(crate) enum Kind {
    Newline,
    Indent,
    Dedent,
    Comment,
    Identifier,
    Int,
    Float,
    String,
    Bytes,
    FStringStart,
    FStringText,
    FStringExprStart,
    FStringBang,
    FStringExprEnd,
    FStringEnd,
    And,
    Break,
    Continue,
    Def,
    Elif,
    Else,
    For,
    If,
    In,
    Lambda,
    Load,
    Not,
    Or,
    Pass,
    Return,
    Comma,
    Semicolon,
    Colon,
    Equal,
    PlusEqual,
    MinusEqual,
    StarEqual,
    SlashEqual,
    SlashSlashEqual,
    PercentEqual,
    AmpersandEqual,
    PipeEqual,
    CaretEqual,
    LessLessEqual,
    GreaterGreaterEqual,
    EqualEqual,
    BangEqual,
    LessThan,
    GreaterThan,
    LessEqual,
    GreaterEqual,
    Plus,
    Minus,
    Star,
    StarStar,
    Slash,
    SlashSlash,
    Percent,
    Ampersand,
    Pipe,
    Caret,
    LessLess,
    GreaterGreater,
    Tilde,
    Dot,
    Ellipsis,
    MinusGreater,
    OpeningRound,
    ClosingRound,
    OpeningSquare,
    ClosingSquare,
    OpeningCurly,
    ClosingCurly,
    End,
}

// the kind that is named as the token is: of a token that holds nothing, and of one that does
macro_rules! kind_by_name {
    ($token:ident, plain: $($plain:ident)+, with: $($with:ident)+) => {
        match $token {
            $(Token::$plain => Kind::$plain,)+
            $(Token::$with(_) => Kind::$with,)+
        }
    };
}

/// The kind of a token.
pub(crate) fn kind_of(token: &Token) -> Kind
    ensures { result ≡ kind_of (lexeme_of token.now) }
{
    kind_by_name!(
        token,
        plain:
            Newline Indent Dedent
            FStringExprStart FStringBang FStringExprEnd FStringEnd
            And Break Continue Def Elif Else For If In Lambda Load Not Or Pass Return
            Comma Semicolon Colon Equal
            PlusEqual MinusEqual StarEqual SlashEqual SlashSlashEqual PercentEqual
            AmpersandEqual PipeEqual CaretEqual LessLessEqual GreaterGreaterEqual
            EqualEqual BangEqual LessThan GreaterThan LessEqual GreaterEqual
            Plus Minus Star StarStar Slash SlashSlash Percent
            Ampersand Pipe Caret LessLess GreaterGreater Tilde
            Dot Ellipsis MinusGreater
            OpeningRound ClosingRound OpeningSquare ClosingSquare OpeningCurly ClosingCurly,
        with: Comment Identifier Int Float String Bytes FStringStart FStringText
    )
}
