//! The arguments of a call, by their kinds.

ghost use Rattle.std.specs.Prelude.{◌≡◌, ◌<◌, ◌-◌, None, IfOk, IfErr, IsOk, count_by, if◌then◌else◌};
ghost use Rattle.starlark_ast.specs.View.{argument_at, call_args_view, members};
ghost use Rattle.starlark_rulebook.specs.Calls as calls;
ghost use Rattle.starlark_rules.specs.ArgumentKinds.{is_of};
ghost use Rattle.starlark_rules.specs.Unpacked.{AreByKind, Unpacks, first_that, lent_argument};
ghost use Rattle.starlark_rulebook.specs.View.{IsPlaced, RefusesFor};

use starlark_ast::ast::{ArgumentP, AstArgumentP, AstPayload, CallArgsP};
use starlark_faults::call::call_fault;
use starlark_faults::finding::refused;
use starlark_place::codemap::CodeMap;
use starlark_rulebook::rule::RuleException;
use std::alloc::Global;

/// The arguments of a call, by their kinds.
#[derive(Debug, Drop)]
pub struct CallArgsUnpack<'a, P: AstPayload> {
    /// The positional ones.
    pub pos: &'a [AstArgumentP<P>],
    /// The named ones.
    pub named: &'a [AstArgumentP<P>],
    /// The one with `*`.
    pub star: Option<&'a AstArgumentP<P>>,
    /// The one with `**`.
    pub star_star: Option<&'a AstArgumentP<P>>,
}

impl<'a, P: AstPayload> CallArgsUnpack<'a, P> {
    /// The arguments by their kinds, lent from the call. They are refused with the first rule that they break, and with
    /// `Memory` where the refusal cannot be made. The place of what breaks the rule is to lie in the source:
    /// `CodeMap::holds` tells. The rules stand in docs/LANGUAGE.md, Rules.
    pub fn unpack(
        alloc: Global,
        args: &'a CallArgsP<P>,
        codemap: &CodeMap,
    ) -> Result<CallArgsUnpack<'a, P>, RuleException>
        requires { IsPlaced codemap.now.source (calls.first_call_fault (call_args_view args.now)) }
        ensures clean { IfOk result (λ u. calls.first_call_fault (call_args_view args.now) ≡ None) }
        ensures taken { IfOk result (λ u. Unpacks args.now u) }
        ensures sure { calls.first_call_fault (call_args_view args.now) ≡ None → IsOk result }
        ensures refused { IfErr result (RefusesFor (calls.first_call_fault (call_args_view args.now)) codemap.now) }
    {
        if let Some(found) = call_fault(&args.args) {
            return Err(refused(alloc, found, codemap));
        }
        Ok(by_kind(&args.args))
    }
}

/// The arguments, which break no rule, by their kinds.
fn by_kind<'a, P: AstPayload>(args: &'a [AstArgumentP<P>]) -> CallArgsUnpack<'a, P>
    requires { calls.first_call_fault (members argument_at args.now) ≡ None }
    ensures { AreByKind args.now result }
{
    let (pos, others) = args.split_at(count_of(args, ArgumentKind::Positional));
    let (named, _) = others.split_at(count_of(args, ArgumentKind::Named));
    CallArgsUnpack {
        pos,
        named,
        star: first_with(args, ArgumentKind::Args),
        star_star: first_with(args, ArgumentKind::KwArgs),
    }
}

/// How many are of a kind: all but the others.
fn count_of<P: AstPayload>(args: &[AstArgumentP<P>], kind: ArgumentKind) -> usize
    ensures { result ≡ count_by (λ x. is_of kind (argument_at x)) args.now }
{
    let mut count = args.len();
    for x in args {
        count = less_if(count, !is_of(x, kind));
    }
    count
}

/// One less, where it is to be.
pub(crate) fn less_if(count: usize, less: bool) -> usize
    requires { 0 < count }
    ensures { result ≡ count - (if less then 1 else 0) }
{
    if less { count - 1 } else { count }
}

/// The first of a kind.
fn first_with<P: AstPayload>(
    args: &[AstArgumentP<P>],
    kind: ArgumentKind,
) -> Option<&AstArgumentP<P>>
    ensures { lent_argument result ≡ first_that (λ x. is_of kind (argument_at x)) args.now }
{
    for x in args {
        if is_of(x, kind) {
            return Some(x);
        }
    }
    None
}

/// What an argument is.
#[derive(Clone, Copy)]
pub(crate) enum ArgumentKind {
    Positional,
    Named,
    /// With `*`.
    Args,
    /// With `**`.
    KwArgs,
}

/// Whether an argument is of a kind.
fn is_of<P: AstPayload>(x: &AstArgumentP<P>, kind: ArgumentKind) -> bool
    ensures { result ≡ is_of kind (argument_at x.now) }
{
    match &x.node {
        ArgumentP::Positional(_) => matches!(kind, ArgumentKind::Positional),
        ArgumentP::Named(_, _) => matches!(kind, ArgumentKind::Named),
        ArgumentP::Args(_) => matches!(kind, ArgumentKind::Args),
        ArgumentP::KwArgs(_) => matches!(kind, ArgumentKind::KwArgs),
    }
}
