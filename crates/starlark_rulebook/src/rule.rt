//! The rules, each with the text that it shows.

use starlark_place::diagnostic::Refusal;
use thiserror::Error;

/// Why a rule refuses: the rule with its place, or want of memory.
pub type RuleException = Refusal<Rule>;

/// Why an expression is no type. The rule of each stands in docs/LANGUAGE.md, Rules.
#[derive(Debug, Drop, Error)]
pub enum TypeExprUnpackError {
    /// What it is, in a word.
    #[error("a type may not be this: {0}")]
    InvalidType(&'static str),
    #[error("a type may not be an empty list")]
    EmptyListInType,
    #[error("in a type a dot may stand only on a name")]
    DotInType,
    #[error("a name is expected here, or names joined by dots")]
    ExpectingPath,
    /// The path before `.type`.
    #[error("a type may not end in `.type`: write `{0}`")]
    DotTypeBan(String),
}

/// A rule. Each stands in docs/LANGUAGE.md, Rules, with its place.
#[derive(Debug, Drop, Error)]
pub enum Rule {
    #[error("several targets may stand only before `=`")]
    InvalidModifyLhs,
    #[error("this may not be assigned to")]
    InvalidLhs,
    #[error("a type may stand only before `=`")]
    TypeAnnotationOnAssignOp,
    #[error("several targets may not have a type")]
    TypeAnnotationOnTupleAssign,
    #[error("the dialect has no types")]
    TypesDisabled,
    #[error(transparent)]
    TypeForm(TypeExprUnpackError),
    #[error("a list without brackets may not end in a comma")]
    TrailingComma,
    #[error("a name in a load wants `=` behind it")]
    LoadIdentifier,
    #[error("only `s` or `r` may stand behind `!` in an f-string")]
    FStringConversion,
    #[error("a load binds at least one name")]
    LoadRequiresTwo,
    #[error("the dialect has no f-strings")]
    FStringsDisabled,
    #[error("a positional argument may not stand behind others")]
    PositionalAfterNonPositional,
    #[error("a named argument may not stand behind `*` or `**`")]
    NamedAfterStar,
    #[error("a `*` argument may not stand behind `*` or `**`")]
    ArgsAfterStar,
    #[error("a call has at most one `**` argument")]
    MultipleKwargs,
    #[error("an argument of this name stands before")]
    RepeatedNamed,
    #[error("the dialect has no `def`")]
    DefDisabled,
    #[error("in the dialect a `for` may stand only in a `def`")]
    ForOutsideDef,
    #[error("in the dialect an `if` may stand only in a `def`")]
    IfOutsideDef,
    #[error("a `break` may stand only in a `for`")]
    BreakOutsideFor,
    #[error("a `continue` may stand only in a `for`")]
    ContinueOutsideFor,
    #[error("a `return` may stand only in a `def`")]
    ReturnOutsideDef,
    #[error("a `load` may stand only at top level")]
    LoadNotTop,
    #[error("the dialect has no `load`")]
    LoadDisabled,
    #[error("the dialect has no `...`")]
    EllipsisDisabled,
    #[error("the dialect has no `lambda`")]
    LambdaDisabled,
    #[error("the dialect has no lone `*` among parameters")]
    KeywordOnlyDisabled,
    #[error("the dialect has no `/` among parameters")]
    PositionalOnlyDisabled,
    #[error("more parameters than 32 bits count")]
    TooManyParameters,
    #[error("a `/` may not stand first")]
    SlashFirst,
    #[error("a parameter of this name stands before")]
    DuplicatedName,
    #[error("no parameter may stand behind `**`")]
    AfterKwargs,
    #[error("a parameter without a default may not stand behind one with a default")]
    RequiredAfterOptional,
    #[error("a `*` may not stand behind `*` or `**`")]
    ArgsAgain,
    #[error("a `/` may not stand behind `/`, `*` or `**`")]
    MultipleSlash,
    #[error("parameters have at most one `**`")]
    KwargsAgain,
    #[error("a lone `*` may not stand last")]
    StarLast,
    #[error("a plain parameter has to stand behind a lone `*`")]
    StarNotNamed,
}

impl From<TypeExprUnpackError> for Rule {
    ghost use Rattle.std.specs.Prelude.{◌≡◌};
    ghost use Rattle.starlark_rulebook.specs.declared.rule.Rule.TheVariants.{TypeForm};

    ghost from_gives = { λ error rule. rule ≡ TypeForm error };

    fn from(error: TypeExprUnpackError) -> Rule {
        Rule::TypeForm(error)
    }
}
