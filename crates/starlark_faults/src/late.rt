//! The rules that count last: what parameters break, and what is found so far.

ghost use Rattle.std.specs.Prelude.{◌≡◌, ◌∷◌, [], OnOk, if◌then◌else◌};
ghost use Rattle.starlark_ast.specs.View.{members, parameter_at};
ghost use Rattle.starlark_rulebook.specs.Found.{Adds};
ghost use Rattle.starlark_rulebook.specs.Late as late;
ghost use Rattle.starlark_rulebook.specs.Rules.{breaks, listed};
ghost use Rattle.starlark_rulebook.specs.View.{maybe_finding, rule_view};

use crate::parameters::parameter_fault;
use starlark_ast::ast::{AstParameterP, AstPayload, ParameterP};
use starlark_lexer::dialect::Dialect;
use starlark_place::pos::{Span, Spanned};
use starlark_rulebook::rule::Rule;
use std::alloc::AllocError;

/// What is found so far, in a dialect.
#[derive(Drop)]
pub(crate) struct Finder<'a> {
    pub(crate) out: &'a mut Vec<Spanned<Rule>>,
    pub(crate) dialect: &'a Dialect,
}

/// Adds what parameters break: each `*` and then each `/` where they are off, then the first fault.
pub(crate) fn parameter_rules<P: AstPayload>(
    out: &mut Vec<Spanned<Rule>>,
    dialect: &Dialect,
    params: &[AstParameterP<P>],
) -> Result<(), AllocError>
    ensures { OnOk result (Adds out.old.items (late.parameter_rules dialect.now (members parameter_at params.now)) out.new.items) }
{
    star_rules(out, dialect.enable_keyword_only_arguments, params)?;
    slash_rules(out, dialect.enable_positional_only_arguments, params)?;
    add_found(out, parameter_fault(params))
}

/// Adds each `*`, unless it is allowed.
fn star_rules<P: AstPayload>(
    out: &mut Vec<Spanned<Rule>>,
    allowed: bool,
    params: &[AstParameterP<P>],
) -> Result<(), AllocError>
    ensures { OnOk result (Adds out.old.items (if allowed then [] else late.star_rules (members parameter_at params.now)) out.new.items) }
{
    if allowed {
        return Ok(());
    }
    for x in params {
        add_star(out, x)?;
    }
    Ok(())
}

/// Adds it where it is a `*`.
fn add_star<P: AstPayload>(
    out: &mut Vec<Spanned<Rule>>,
    x: &AstParameterP<P>,
) -> Result<(), AllocError>
    ensures { OnOk result (Adds out.old.items (late.one_star (parameter_at x.now)) out.new.items) }
{
    match &x.node {
        ParameterP::NoArgs => add(out, Rule::KeywordOnlyDisabled, x.span),
        ParameterP::Slash => Ok(()),
        ParameterP::Normal(_, _, _) => Ok(()),
        ParameterP::Args(_, _) => Ok(()),
        ParameterP::KwArgs(_, _) => Ok(()),
    }
}

/// Adds each `/`, unless it is allowed.
fn slash_rules<P: AstPayload>(
    out: &mut Vec<Spanned<Rule>>,
    allowed: bool,
    params: &[AstParameterP<P>],
) -> Result<(), AllocError>
    ensures { OnOk result (Adds out.old.items (if allowed then [] else late.slash_rules (members parameter_at params.now)) out.new.items) }
{
    if allowed {
        return Ok(());
    }
    for x in params {
        add_slash(out, x)?;
    }
    Ok(())
}

/// Adds it where it is a `/`.
fn add_slash<P: AstPayload>(
    out: &mut Vec<Spanned<Rule>>,
    x: &AstParameterP<P>,
) -> Result<(), AllocError>
    ensures { OnOk result (Adds out.old.items (late.one_slash (parameter_at x.now)) out.new.items) }
{
    match &x.node {
        ParameterP::Slash => add(out, Rule::PositionalOnlyDisabled, x.span),
        ParameterP::NoArgs => Ok(()),
        ParameterP::Normal(_, _, _) => Ok(()),
        ParameterP::Args(_, _) => Ok(()),
        ParameterP::KwArgs(_, _) => Ok(()),
    }
}

/// Adds a rule at its place.
pub(crate) fn add(out: &mut Vec<Spanned<Rule>>, rule: Rule, span: Span) -> Result<(), AllocError>
    ensures { OnOk result (Adds out.old.items (breaks (rule_view rule) span ∷ []) out.new.items) }
{
    out.push(Spanned { span, node: rule })?;
    Ok(())
}

/// Adds a rule at its place, unless it is allowed there.
pub(crate) fn add_unless(
    out: &mut Vec<Spanned<Rule>>,
    allowed: bool,
    rule: Rule,
    span: Span,
) -> Result<(), AllocError>
    ensures { OnOk result (Adds out.old.items (late.unless allowed (rule_view rule) span) out.new.items) }
{
    if allowed {
        return Ok(());
    }
    add(out, rule, span)
}

/// Adds what was found, if anything was.
fn add_found(out: &mut Vec<Spanned<Rule>>, found: Option<Spanned<Rule>>) -> Result<(), AllocError>
    ensures { OnOk result (Adds out.old.items (listed (maybe_finding found)) out.new.items) }
{
    match found {
        Some(x) => add(out, x.node, x.span),
        None => Ok(()),
    }
}
