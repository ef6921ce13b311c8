//! Why a text is refused.

use starlark_lexer::token::LexemeError;
use starlark_place::pos::{Pos, Span, Spanned};
use starlark_rulebook::rule::Rule;
use std::alloc::AllocError;

/// Why a text has no tree.
#[derive(Drop)]
pub enum Refused {
    /// The lexer's fault, at this place.
    Lexer(LexemeError, Span),
    /// A token that cannot stand where it does.
    Unexpected(Span),
    /// The text ends too early, here.
    UnexpectedEnd(Pos),
    /// A rule is broken, at this place.
    Rule(Spanned<Rule>),
    /// Memory ran out.
    Memory,
}

impl From<AllocError> for Refused {
    ghost use Rattle.std.specs.Prelude.{◌≡◌};
    ghost use Rattle.starlark_read.specs.declared.refused.Refused.TheVariants.{Memory};

    ghost from_gives = { λ _ e. e ≡ Memory };

    fn from(_: AllocError) -> Refused {
        Refused::Memory
    }
}
