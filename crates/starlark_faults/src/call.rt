//! The first rule that the arguments of a call break.

ghost use Rattle.std.specs.Prelude.{◌≡◌, true, if◌then◌else◌};
ghost use Rattle.starlark_ast.specs.View.{argument_at, members};
ghost use Rattle.starlark_rulebook.specs.Calls as calls;
ghost use Rattle.starlark_rulebook.specs.View.{maybe_finding};

use crate::finding::{broken, broken_if};
use starlark_ast::ast::{ArgumentP, AstArgumentP, AstPayload};
use starlark_place::pos::Spanned;
use starlark_rulebook::rule::Rule;

/// The first rule that the arguments of a call break, at its place. The rules stand in docs/LANGUAGE.md, Rules.
pub fn call_fault<P: AstPayload>(args: &[AstArgumentP<P>]) -> Option<Spanned<Rule>>
    ensures { maybe_finding result ≡ calls.first_call_fault (members argument_at args.now) }
{
    let mut kinds = Kinds {
        other: false,
        star: false,
        kwargs: false,
    };
    for i in 0..args.len() {
        let x = &args[i];
        if let Some(found) = argument_fault(&args[..i], kinds, x) {
            return Some(found);
        }
        kinds = kinds.with(x);
    }
    None
}

/// The kinds of arguments among some.
#[derive(Clone, Copy)]
struct Kinds {
    /// Any but positional ones.
    other: bool,
    /// `*a` or `**a`.
    star: bool,
    /// `**a`.
    kwargs: bool,
}

impl Kinds {
    /// Those of the same arguments and one more.
    fn with<P: AstPayload>(self, x: &AstArgumentP<P>) -> Kinds
        ensures others { result.other ≡ (if calls.is_other (argument_at x.now) then true else self.other) }
        ensures stars { result.star ≡ (if calls.is_star (argument_at x.now) then true else self.star) }
        ensures kwargs { result.kwargs ≡ (if calls.is_kwargs (argument_at x.now) then true else self.kwargs) }
    {
        match &x.node {
            ArgumentP::Positional(_) => self,
            ArgumentP::Named(_, _) => Kinds {
                other: true,
                star: self.star,
                kwargs: self.kwargs,
            },
            ArgumentP::Args(_) => Kinds {
                other: true,
                star: true,
                kwargs: self.kwargs,
            },
            ArgumentP::KwArgs(_) => Kinds {
                other: true,
                star: true,
                kwargs: true,
            },
        }
    }
}

/// What an argument breaks behind others of these kinds.
fn argument_fault<P: AstPayload>(
    before: &[AstArgumentP<P>],
    kinds: Kinds,
    x: &AstArgumentP<P>,
) -> Option<Spanned<Rule>>
    requires others { kinds.other ≡ calls.any calls.is_other (members argument_at before.now) }
    requires stars { kinds.star ≡ calls.any calls.is_star (members argument_at before.now) }
    requires kwargs { kinds.kwargs ≡ calls.any calls.is_kwargs (members argument_at before.now) }
    ensures { maybe_finding result ≡ calls.argument_fault (members argument_at before.now) (argument_at x.now) }
{
    match &x.node {
        ArgumentP::Positional(_) => {
            broken_if(kinds.other, Rule::PositionalAfterNonPositional, x.span)
        }
        ArgumentP::Named(name, _) => {
            if kinds.star {
                return broken(Rule::NamedAfterStar, x.span);
            }
            let again = is_named(before, &name.node);
            broken_if(again, Rule::RepeatedNamed, name.span)
        }
        ArgumentP::Args(_) => broken_if(kinds.star, Rule::ArgsAfterStar, x.span),
        ArgumentP::KwArgs(_) => broken_if(kinds.kwargs, Rule::MultipleKwargs, x.span),
    }
}

/// Whether one of the arguments has this name.
fn is_named<P: AstPayload>(args: &[AstArgumentP<P>], name: &str) -> bool
    ensures { result ≡ calls.any (calls.has_name name.now) (members argument_at args.now) }
{
    let mut found = false;
    for x in args {
        found = has_name_or(x, name, found);
    }
    found
}

/// Whether it has this name, or the flag is set.
fn has_name_or<P: AstPayload>(x: &AstArgumentP<P>, name: &str, found: bool) -> bool
    ensures { result ≡ (if calls.has_name name.now (argument_at x.now) then true else found) }
{
    match &x.node {
        ArgumentP::Named(other, _) => name == other.node.as_str() || found,
        ArgumentP::Positional(_) => found,
        ArgumentP::Args(_) => found,
        ArgumentP::KwArgs(_) => found,
    }
}
