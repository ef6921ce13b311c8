//! What rules print, and the faults of types.

use crate::maker::Maker;
use starlark_rules::rule::{Rule, TypeExprUnpackError};

/// The rules, and what each prints. That of types prints its fault.
const RULES: [(Rule, &str); 38] = [
    (
        Rule::InvalidModifyLhs,
        "several targets may stand only before `=`",
    ),
    (Rule::InvalidLhs, "this may not be assigned to"),
    (
        Rule::TypeAnnotationOnAssignOp,
        "a type may stand only before `=`",
    ),
    (
        Rule::TypeAnnotationOnTupleAssign,
        "several targets may not have a type",
    ),
    (Rule::TypesDisabled, "the dialect has no types"),
    (
        Rule::TypeForm(TypeExprUnpackError::InvalidType("call")),
        "a type may not be this: call",
    ),
    (
        Rule::TrailingComma,
        "a list without brackets may not end in a comma",
    ),
    (Rule::LoadIdentifier, "a name in a load wants `=` behind it"),
    (
        Rule::FStringConversion,
        "only `s` or `r` may stand behind `!` in an f-string",
    ),
    (Rule::LoadRequiresTwo, "a load binds at least one name"),
    (Rule::FStringsDisabled, "the dialect has no f-strings"),
    (
        Rule::PositionalAfterNonPositional,
        "a positional argument may not stand behind others",
    ),
    (
        Rule::NamedAfterStar,
        "a named argument may not stand behind `*` or `**`",
    ),
    (
        Rule::ArgsAfterStar,
        "a `*` argument may not stand behind `*` or `**`",
    ),
    (Rule::MultipleKwargs, "a call has at most one `**` argument"),
    (
        Rule::RepeatedNamed,
        "an argument of this name stands before",
    ),
    (Rule::DefDisabled, "the dialect has no `def`"),
    (
        Rule::ForOutsideDef,
        "in the dialect a `for` may stand only in a `def`",
    ),
    (
        Rule::IfOutsideDef,
        "in the dialect an `if` may stand only in a `def`",
    ),
    (Rule::BreakOutsideFor, "a `break` may stand only in a `for`"),
    (
        Rule::ContinueOutsideFor,
        "a `continue` may stand only in a `for`",
    ),
    (
        Rule::ReturnOutsideDef,
        "a `return` may stand only in a `def`",
    ),
    (Rule::LoadNotTop, "a `load` may stand only at top level"),
    (Rule::LoadDisabled, "the dialect has no `load`"),
    (Rule::EllipsisDisabled, "the dialect has no `...`"),
    (Rule::LambdaDisabled, "the dialect has no `lambda`"),
    (
        Rule::KeywordOnlyDisabled,
        "the dialect has no lone `*` among parameters",
    ),
    (
        Rule::PositionalOnlyDisabled,
        "the dialect has no `/` among parameters",
    ),
    (
        Rule::TooManyParameters,
        "more parameters than 32 bits count",
    ),
    (Rule::SlashFirst, "a `/` may not stand first"),
    (
        Rule::DuplicatedName,
        "a parameter of this name stands before",
    ),
    (Rule::AfterKwargs, "no parameter may stand behind `**`"),
    (
        Rule::RequiredAfterOptional,
        "a parameter without a default may not stand behind one with a default",
    ),
    (Rule::ArgsAgain, "a `*` may not stand behind `*` or `**`"),
    (
        Rule::MultipleSlash,
        "a `/` may not stand behind `/`, `*` or `**`",
    ),
    (Rule::KwargsAgain, "parameters have at most one `**`"),
    (Rule::StarLast, "a lone `*` may not stand last"),
    (
        Rule::StarNotNamed,
        "a plain parameter has to stand behind a lone `*`",
    ),
];

#[test]
fn rules(rt: HostRuntime) {
    Maker::new(&rt, rt.alloc()).each_prints(&RULES);
}

/// The faults of types, and what each prints. The one that is not here says a path.
const FAULTS: [(TypeExprUnpackError, &str); 4] = [
    (
        TypeExprUnpackError::InvalidType("call"),
        "a type may not be this: call",
    ),
    (
        TypeExprUnpackError::EmptyListInType,
        "a type may not be an empty list",
    ),
    (
        TypeExprUnpackError::DotInType,
        "in a type a dot may stand only on a name",
    ),
    (
        TypeExprUnpackError::ExpectingPath,
        "a name is expected here, or names joined by dots",
    ),
];

#[test]
fn faults_of_types(rt: HostRuntime) {
    let m = &Maker::new(&rt, rt.alloc());
    m.each_prints(&FAULTS);
    let ban = TypeExprUnpackError::DotTypeBan(m.text("a.b"));
    let want = "a type may not end in `.type`: write `a.b`";
    m.prints(&ban, want);
    m.prints(&Rule::from(ban), want);
}
