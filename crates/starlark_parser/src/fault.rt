//! Why a text is refused, with its place.

ghost use Rattle.std.specs.Prelude.{◌≡◌, IfSome};
ghost use Rattle.starlark_place.specs.Place.{Holds};
ghost use Rattle.starlark_parser.specs.Faults.{Tells, kind_of};
ghost use Rattle.starlark_grammar.specs.Language.{place_of};
ghost use Rattle.starlark_read.specs.Refused.{fault_of};

use starlark_lexer::token::LexemeError;
use starlark_place::codemap::CodeMap;
use starlark_place::diagnostic::WithDiagnostic;
use starlark_place::pos::Span;
use starlark_read::refused::Refused;
use starlark_rules::rule::Rule;
use std::alloc::{AllocError, AllocFailed, Global};
use thiserror::Error;

/// Why a text is not in the language. What each means stands in docs/LANGUAGE.md, Refusals.
#[derive(Debug, Drop, Error)]
pub enum ParserError {
    /// The lexer's first fault.
    #[error("{0}")]
    Lexer(LexemeError),
    /// The first token that cannot stand where it does. The text up to the end of the token before it goes on to a
    /// program of the grammar, rules aside.
    #[error("unexpected token")]
    Unexpected,
    /// The text ends where it cannot, though it goes on to a program of the grammar, rules aside.
    #[error("unexpected end of the text")]
    UnexpectedEnd,
    /// A rule that is broken.
    #[error("{0}")]
    Rule(Rule),
}

/// What kind of reason it is.
#[derive(Clone, Copy, Debug, PartialEq, Eq, Drop)]
pub enum ParserErrorKind {
    Lexer,
    Syntax,
    Rule,
}

impl ParserError {
    /// What kind of reason it is: both for syntax are one.
    pub fn kind(&self) -> ParserErrorKind
        ensures { result ≡ kind_of self.now }
    {
        match self {
            ParserError::Lexer(_) => ParserErrorKind::Lexer,
            ParserError::Unexpected => ParserErrorKind::Syntax,
            ParserError::UnexpectedEnd => ParserErrorKind::Syntax,
            ParserError::Rule(_) => ParserErrorKind::Rule,
        }
    }
}

/// Why no module is made of a text. A fault prints its reason and where it stands.
#[derive(Debug, Drop, Error)]
pub enum EvalException {
    /// It has more than `u32::MAX` bytes. This is looked at first.
    #[error("the text is too long")]
    TooLong,
    /// It is not in the language: why, and where.
    #[error("{0}")]
    Fault(WithDiagnostic<ParserError>),
    /// Memory ran out.
    #[error("out of memory")]
    Memory,
}

impl From<AllocError> for EvalException {
    ghost use Rattle.std.specs.Prelude.{◌≡◌};
    ghost use Rattle.starlark_parser.specs.declared.fault.EvalException.TheVariants.{Memory};

    ghost from_gives = { λ _ e. e ≡ Memory };

    fn from(_: AllocError) -> EvalException {
        EvalException::Memory
    }
}

impl<T: Drop> From<AllocFailed<T>> for EvalException {
    ghost use Rattle.std.specs.Prelude.{◌≡◌};
    ghost use Rattle.starlark_parser.specs.declared.fault.EvalException.TheVariants.{Memory};

    ghost from_gives = { λ _ e. e ≡ Memory };

    fn from(_: AllocFailed<T>) -> EvalException {
        EvalException::Memory
    }
}

/// The refusal with its place in the file.
pub(crate) fn refusal(alloc: Global, refused: Refused, codemap: &CodeMap) -> EvalException
    requires { IfSome (fault_of refused) (λ f. Holds codemap.now.source (place_of f)) }
    ensures { Tells (fault_of refused) codemap.now result }
{
    let (error, span) = match refused {
        Refused::Lexer(error, span) => (ParserError::Lexer(error), span),
        Refused::Unexpected(span) => (ParserError::Unexpected, span),
        Refused::UnexpectedEnd(end) => (ParserError::UnexpectedEnd, Span::new(end, end)),
        Refused::Rule(found) => (ParserError::Rule(found.node), found.span),
        Refused::Memory => return EvalException::Memory,
    };
    match WithDiagnostic::new_spanned(alloc, error, span, codemap) {
        Ok(fault) => EvalException::Fault(fault),
        Err(_) => EvalException::Memory,
    }
}
