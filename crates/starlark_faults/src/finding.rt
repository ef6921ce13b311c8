//! What is found, and the refusal for it.

ghost use Rattle.std.specs.Prelude.{◌≡◌, if◌then◌else◌, Some, None};
ghost use Rattle.starlark_place.specs.Place.{Holds};
ghost use Rattle.starlark_rulebook.specs.Rules.{breaks, first_of as first};
ghost use Rattle.starlark_rulebook.specs.View.{RefusesFor, finding_of, maybe_finding, rule_view};

use starlark_place::codemap::CodeMap;
use starlark_place::diagnostic::Refusal;
use starlark_place::pos::{Span, Spanned};
use starlark_rulebook::rule::{Rule, RuleException};
use std::alloc::Global;

/// The rule at its place, as what breaks: never `None`.
pub fn broken(rule: Rule, span: Span) -> Option<Spanned<Rule>>
    ensures { maybe_finding result ≡ Some (breaks (rule_view rule) span) }
{
    Some(Spanned { span, node: rule })
}

/// The rule at its place, where it is broken.
pub(crate) fn broken_if(is_broken: bool, rule: Rule, span: Span) -> Option<Spanned<Rule>>
    ensures { maybe_finding result ≡ (if is_broken then Some (breaks (rule_view rule) span) else None) }
{
    if is_broken { broken(rule, span) } else { None }
}

/// The first of two.
pub(crate) fn first_of(a: Option<Spanned<Rule>>, b: Option<Spanned<Rule>>) -> Option<Spanned<Rule>>
    ensures { maybe_finding result ≡ first (maybe_finding a) (maybe_finding b) }
{
    a.or(b)
}

/// The refusal for what was found, at its place, which is to lie in the source: `CodeMap::holds` tells. It is `Memory`
/// where memory, or one more owner of the code map, cannot be had.
pub fn refused(alloc: Global, found: Spanned<Rule>, codemap: &CodeMap) -> RuleException
    requires { Holds codemap.now.source found.span }
    ensures { RefusesFor (Some (finding_of found)) codemap.now result }
{
    Refusal::new(alloc, found.node, found.span, codemap)
}
