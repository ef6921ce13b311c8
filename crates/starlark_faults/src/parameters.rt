//! The first rule that parameters break.

ghost use Rattle.std.specs.Prelude.{◌≡◌, ◌&&◌, nat_lt, not, true, if◌then◌else◌, string_bytes};
ghost use Rattle.starlark_place.specs.Place.{merged_all, merged_into};
ghost use Rattle.starlark_ast.specs.View.{boxed_expr, members, parameter_at};
ghost use Rattle.starlark_rulebook.specs.Rules.{breaks, first_of as first, TooManyParameters};
ghost use Rattle.starlark_rulebook.specs.Calls.{any};
ghost use Rattle.starlark_rulebook.specs.Parameters as parameters;
ghost use Rattle.starlark_rulebook.specs.View.{maybe_finding};

use crate::finding::{broken, broken_if, first_of};
use starlark_ast::ast::{AstAssignIdentP, AstExprP, AstParameterP, AstPayload, ParameterP};
use starlark_place::pos::{Pos, Span, Spanned};
use starlark_rulebook::rule::Rule;

/// The first rule that the parameters of a `def` or a lambda break, at its place. The rules stand in docs/LANGUAGE.md,
/// Rules.
pub fn parameter_fault<P: AstPayload>(params: &[AstParameterP<P>]) -> Option<Spanned<Rule>>
    ensures { maybe_finding result ≡ parameters.first_parameter_fault (members parameter_at params.now) }
{
    let many = too_many(params);
    let slash = first_slash(params);
    let each = each_fault(params);
    let star = star_fault(params);
    let marked = first_of(each, star);
    let behind = first_of(slash, marked);
    first_of(many, behind)
}

/// More parameters than 32 bits count, at all of them.
fn too_many<P: AstPayload>(params: &[AstParameterP<P>]) -> Option<Spanned<Rule>>
    ensures { maybe_finding result ≡ parameters.fault_if (nat_lt 4294967295 (parameters.member_count (members parameter_at params.now))) (breaks TooManyParameters (merged_all (parameters.parameter_places (members parameter_at params.now)))) }
{
    if params.len() > 4294967295 {
        return broken(Rule::TooManyParameters, whole_span(params));
    }
    None
}

/// From the least beginning to the greatest end of all.
fn whole_span<P: AstPayload>(params: &[AstParameterP<P>]) -> Span
    ensures { result ≡ merged_all (parameters.parameter_places (members parameter_at params.now)) }
{
    let mut whole = None;
    for x in params {
        whole = merged_with(whole, x);
    }
    match whole {
        Some(span) => span,
        None => Span::new(Pos::new(0), Pos::new(0)),
    }
}

/// The stretch so far and that of one more.
fn merged_with<P: AstPayload>(whole: Option<Span>, x: &AstParameterP<P>) -> Option<Span>
    ensures { result ≡ merged_into whole (parameters.parameter_place (parameter_at x.now)) }
{
    let span = place_of(x);
    match whole {
        Some(before) => Some(before.merge(span)),
        None => Some(span),
    }
}

/// Its place.
fn place_of<P: AstPayload>(x: &AstParameterP<P>) -> Span
    ensures { result ≡ parameters.parameter_place (parameter_at x.now) }
{
    match &x.node {
        ParameterP::Slash => x.span,
        ParameterP::Normal(_, _, _) => x.span,
        ParameterP::NoArgs => x.span,
        ParameterP::Args(_, _) => x.span,
        ParameterP::KwArgs(_, _) => x.span,
    }
}

/// A `/` in first place.
fn first_slash<P: AstPayload>(params: &[AstParameterP<P>]) -> Option<Spanned<Rule>>
    ensures { maybe_finding result ≡ parameters.first_slash (members parameter_at params.now) }
{
    match params {
        [] => None,
        [x, ..] => slash_fault(x),
    }
}

/// A `/`, which may not stand first.
fn slash_fault<P: AstPayload>(x: &AstParameterP<P>) -> Option<Spanned<Rule>>
    ensures { maybe_finding result ≡ parameters.slash_fault (parameter_at x.now) }
{
    match &x.node {
        ParameterP::Slash => broken(Rule::SlashFirst, x.span),
        ParameterP::Normal(_, _, _) => None,
        ParameterP::NoArgs => None,
        ParameterP::Args(_, _) => None,
        ParameterP::KwArgs(_, _) => None,
    }
}

/// The first parameter that breaks a rule behind those before it.
fn each_fault<P: AstPayload>(params: &[AstParameterP<P>]) -> Option<Spanned<Rule>>
    ensures { maybe_finding result ≡ parameters.parameters_fault (members parameter_at params.now) }
{
    let mut kinds = Kinds {
        mark: false,
        starred: false,
        double_starred: false,
        optional: false,
    };
    for i in 0..params.len() {
        let x = &params[i];
        if let Some(found) = one_fault(&params[..i], kinds, x) {
            return Some(found);
        }
        kinds = kinds.with(x);
    }
    None
}

/// The kinds of parameters among some.
#[derive(Clone, Copy)]
struct Kinds {
    /// `/`, `*`, `*a` or `**a`.
    mark: bool,
    /// `*`, `*a` or `**a`.
    starred: bool,
    /// `**a`.
    double_starred: bool,
    /// A plain one with a default.
    optional: bool,
}

impl Kinds {
    /// Those of the same parameters and one more.
    fn with<P: AstPayload>(self, x: &AstParameterP<P>) -> Kinds
        ensures marks { result.mark ≡ (if parameters.is_mark (parameter_at x.now) then true else self.mark) }
        ensures stars { result.starred ≡ (if parameters.is_starred (parameter_at x.now) then true else self.starred) }
        ensures doubles { result.double_starred ≡ (if parameters.is_double_starred (parameter_at x.now) then true else self.double_starred) }
        ensures optionals { result.optional ≡ (if parameters.is_optional (parameter_at x.now) then true else self.optional) }
    {
        match &x.node {
            ParameterP::Slash => Kinds { mark: true, ..self },
            ParameterP::Normal(_, _, None) => self,
            ParameterP::Normal(_, _, Some(_)) => Kinds {
                optional: true,
                ..self
            },
            ParameterP::NoArgs => Kinds {
                mark: true,
                starred: true,
                ..self
            },
            ParameterP::Args(_, _) => Kinds {
                mark: true,
                starred: true,
                ..self
            },
            ParameterP::KwArgs(_, _) => Kinds {
                mark: true,
                starred: true,
                double_starred: true,
                ..self
            },
        }
    }
}

/// What a parameter breaks behind others of these kinds.
fn one_fault<P: AstPayload>(
    before: &[AstParameterP<P>],
    kinds: Kinds,
    x: &AstParameterP<P>,
) -> Option<Spanned<Rule>>
    requires marks { kinds.mark ≡ any parameters.is_mark (members parameter_at before.now) }
    requires stars { kinds.starred ≡ any parameters.is_starred (members parameter_at before.now) }
    requires doubles { kinds.double_starred ≡ any parameters.is_double_starred (members parameter_at before.now) }
    requires optionals { kinds.optional ≡ any parameters.is_optional (members parameter_at before.now) }
    ensures { maybe_finding result ≡ parameters.parameter_fault (members parameter_at before.now) (parameter_at x.now) }
{
    match &x.node {
        ParameterP::Slash => broken_if(kinds.mark, Rule::MultipleSlash, x.span),
        ParameterP::NoArgs => broken_if(kinds.starred, Rule::ArgsAgain, x.span),
        ParameterP::Normal(name, _, default) => {
            let taken = broken_if(is_taken(before, name), Rule::DuplicatedName, x.span);
            let after = broken_if(kinds.double_starred, Rule::AfterKwargs, x.span);
            let required = required_fault(kinds, default, x.span);
            first_of(taken, first_of(after, required))
        }
        ParameterP::Args(name, _) => {
            let taken = broken_if(is_taken(before, name), Rule::DuplicatedName, x.span);
            let again = broken_if(kinds.starred, Rule::ArgsAgain, x.span);
            first_of(taken, again)
        }
        ParameterP::KwArgs(name, _) => {
            let taken = broken_if(is_taken(before, name), Rule::DuplicatedName, x.span);
            let again = broken_if(kinds.double_starred, Rule::KwargsAgain, x.span);
            first_of(taken, again)
        }
    }
}

/// A plain one without a default, behind one with a default and no star.
fn required_fault<P: AstPayload>(
    kinds: Kinds,
    default: &Option<Box<AstExprP<P>>>,
    span: Span,
) -> Option<Spanned<Rule>>
    ensures { maybe_finding result ≡ parameters.required_if (kinds.optional && not kinds.starred) (boxed_expr default.now) span }
{
    match default {
        Some(_) => None,
        None => broken_if(
            kinds.optional && !kinds.starred,
            Rule::RequiredAfterOptional,
            span,
        ),
    }
}

/// Whether one of the parameters has this name.
fn is_taken<P: AstPayload>(params: &[AstParameterP<P>], name: &AstAssignIdentP<P>) -> bool
    ensures { result ≡ any (parameters.is_parameter (string_bytes name.now.node.ident)) (members parameter_at params.now) }
{
    let mut taken = false;
    for x in params {
        taken = has_name_or(x, &name.node.ident, taken);
    }
    taken
}

/// Whether it has this name, or the flag is set.
fn has_name_or<P: AstPayload>(x: &AstParameterP<P>, name: &str, taken: bool) -> bool
    ensures { result ≡ (if parameters.is_parameter name.now (parameter_at x.now) then true else taken) }
{
    match &x.node {
        ParameterP::Slash => taken,
        ParameterP::NoArgs => taken,
        ParameterP::Normal(other, _, _) => name == other.node.ident.as_str() || taken,
        ParameterP::Args(other, _) => name == other.node.ident.as_str() || taken,
        ParameterP::KwArgs(other, _) => name == other.node.ident.as_str() || taken,
    }
}

/// A `*` at the end, or with no plain parameter right behind it.
fn star_fault<P: AstPayload>(params: &[AstParameterP<P>]) -> Option<Spanned<Rule>>
    ensures { maybe_finding result ≡ first (parameters.unnamed_star (members parameter_at params.now)) (parameters.last_star (parameters.ending_star (members parameter_at params.now))) }
{
    let mut star = None;
    for x in params {
        if let Some(found) = behind_star(star, x) {
            return Some(found);
        }
        star = star_place(x);
    }
    match star {
        Some(span) => broken(Rule::StarLast, span),
        None => None,
    }
}

/// The place of a `*` alone.
fn star_place<P: AstPayload>(x: &AstParameterP<P>) -> Option<Span>
    ensures { result ≡ parameters.star_place (parameter_at x.now) }
{
    match &x.node {
        ParameterP::NoArgs => Some(x.span),
        ParameterP::Slash => None,
        ParameterP::Normal(_, _, _) => None,
        ParameterP::Args(_, _) => None,
        ParameterP::KwArgs(_, _) => None,
    }
}

/// What it breaks right behind a `*`.
fn behind_star<P: AstPayload>(star: Option<Span>, x: &AstParameterP<P>) -> Option<Spanned<Rule>>
    ensures { maybe_finding result ≡ parameters.behind_star star (parameter_at x.now) }
{
    match star {
        Some(_) => unnamed_fault(x),
        None => None,
    }
}

/// Any but a plain one, which may not stand behind a `*`.
fn unnamed_fault<P: AstPayload>(x: &AstParameterP<P>) -> Option<Spanned<Rule>>
    ensures { maybe_finding result ≡ parameters.unnamed_fault (parameter_at x.now) }
{
    match &x.node {
        ParameterP::Normal(_, _, _) => None,
        ParameterP::Slash => broken(Rule::StarNotNamed, x.span),
        ParameterP::NoArgs => broken(Rule::StarNotNamed, x.span),
        ParameterP::Args(_, _) => broken(Rule::StarNotNamed, x.span),
        ParameterP::KwArgs(_, _) => broken(Rule::StarNotNamed, x.span),
    }
}
