//! The parameters of a `def` or a lambda.

ghost use Rattle.std.specs.Prelude.{◌≡◌, ◌∷◌, [], ◌++◌, ◌<◌, ◌≤◌, ◌-◌, None, IfOk, IfErr, OnOk, count_by, length, map, nat_lt, true, if◌then◌else◌};
ghost use Rattle.std.specs.Option.{unwrap_or};
ghost use Rattle.starlark_ast.specs.View.{boxed_expr, boxed_type, members, parameter_at};
ghost use Rattle.starlark_rulebook.specs.Parameters as parameters;
ghost use Rattle.starlark_rules.specs.ParameterKinds as kinds;
ghost use Rattle.starlark_rules.specs.Tallies.{param_of, with_member};
ghost use Rattle.starlark_rules.specs.Named.{AreWithin, behind_args, lent_bound, lent_param, lent_params, lent_type};
ghost use Rattle.starlark_rulebook.specs.View.{IsPlaced, RefusesFor};

use crate::arguments::less_if;
use starlark_ast::ast::{
    AstAssignIdentP, AstExprP, AstParameterP, AstPayload, AstTypeExprP, ParameterP,
};
use starlark_faults::finding::refused;
use starlark_faults::parameters::parameter_fault;
use starlark_place::codemap::CodeMap;
use starlark_place::diagnostic::Refusal;
use starlark_place::pos::{Span, Spanned};
use starlark_rulebook::rule::RuleException;
use std::alloc::{AllocError, Global};
use std::ops::Range;

/// How an argument may be given for a parameter without stars.
#[derive(Debug, Clone, Copy, PartialEq, Eq)]
pub enum DefRegularParamMode {
    /// By its place alone: before a `/`.
    PosOnly,
    /// By its place or its name.
    PosOrName,
    /// By its name alone: behind `*` or `*args`.
    NameOnly,
}

/// What a parameter with a name is.
#[derive(Debug, Drop)]
pub enum DefParamKind<'a, P: AstPayload> {
    /// One without stars, with its default.
    Regular(DefRegularParamMode, Option<&'a AstExprP<P>>),
    Args,
    Kwargs,
}

/// A parameter with a name.
#[derive(Debug, Drop)]
pub struct DefParam<'a, P: AstPayload> {
    pub ident: &'a AstAssignIdentP<P>,
    pub kind: DefParamKind<'a, P>,
    pub ty: Option<&'a AstTypeExprP<P>>,
}

/// The parameters with a name: all but `/` and `*`.
#[derive(Debug, Drop)]
pub struct DefParams<'a, P: AstPayload> {
    pub params: Vec<Spanned<DefParam<'a, P>>>,
    pub indices: DefParamIndices,
}

impl<'a, P: AstPayload> DefParams<'a, P> {
    /// The parameters with a name, lent, and their stretches. They are refused with the first rule that they break, and
    /// with `Memory` where memory runs out. The place of what breaks the rule is to lie in the source: `CodeMap::holds`
    /// tells. The rules stand in docs/LANGUAGE.md, Rules.
    pub fn unpack(
        alloc: Global,
        params: &'a [AstParameterP<P>],
        codemap: &CodeMap,
    ) -> Result<DefParams<'a, P>, RuleException>
        requires { IsPlaced codemap.now.source (parameters.first_parameter_fault (members parameter_at params.now)) }
        ensures clean { IfOk result (λ u. parameters.first_parameter_fault (members parameter_at params.now) ≡ None) }
        ensures params { IfOk result (λ u. map lent_param u.params.items ≡ kinds.params_of (members parameter_at params.now)) }
        ensures indices { IfOk result (λ u. u.indices ≡ kinds.indices_of (members parameter_at params.now)) }
        ensures ordered { IfOk result (λ u. u.indices.num_positional_only ≤ u.indices.num_positional) }
        ensures within { IfOk result (λ u. AreWithin u.indices (length u.params.items)) }
        ensures refused { IfErr result (RefusesFor (parameters.first_parameter_fault (members parameter_at params.now)) codemap.now) }
    {
        if let Some(found) = parameter_fault(params) {
            return Err(refused(alloc, found, codemap));
        }
        let Ok(named) = named_params(alloc, params) else {
            return Err(Refusal::Memory);
        };
        Ok(DefParams {
            params: named,
            indices: indices(params),
        })
    }
}

/// The stretches of a list of parameters, from which `/` and `*` are left out.
#[derive(Debug, Clone, Copy, PartialEq, Eq, PartialOrd, Ord, Hash)]
pub struct DefParamIndices {
    /// How many stand before `*`, `*args` and `**kwargs`.
    pub num_positional: u32,
    /// How many stand before `/`; 0 without one.
    pub num_positional_only: u32,
    /// Where `*args` stands.
    pub args: Option<u32>,
    /// Where `**kwargs` stands.
    pub kwargs: Option<u32>,
}

impl DefParamIndices {
    /// Those before the `/`.
    pub fn pos_only(&self) -> Range<usize>
        ensures from { result.start ≡ 0 }
        ensures to { result.end ≡ self.now.num_positional_only }
    {
        0..self.num_positional_only as usize
    }

    /// Those behind the `/` and before `*`, `*args` and `**kwargs`. No more may stand before the `/` than before these,
    /// as in what `DefParams::unpack` gives.
    pub fn pos_or_named(&self) -> Range<usize>
        requires { self.now.num_positional_only ≤ self.now.num_positional }
        ensures from { result.start ≡ self.now.num_positional_only }
        ensures to { result.end ≡ self.now.num_positional }
    {
        self.num_positional_only as usize..self.num_positional as usize
    }

    /// Those behind `*` or `*args` and before `**kwargs`, of `count` in all. These are to be at most 4294967295, the
    /// positional ones no more than these, and `*args` and `**kwargs` among them, as in what `DefParams::unpack` gives,
    /// with the number of its parameters.
    pub fn named_only(&self, count: usize) -> Range<usize>
        requires { AreWithin self.now count }
        ensures from { result.start ≡ behind_args self.now }
        ensures to { result.end ≡ unwrap_or self.now.kwargs count }
    {
        let start = match self.args {
            Some(args) => args as usize + 1,
            None => self.num_positional as usize,
        };
        let end = match self.kwargs {
            Some(kwargs) => kwargs as usize,
            None => count,
        };
        start..end
    }
}

/// The parameters with a name, each with its mode.
fn named_params<'a, P: AstPayload>(
    alloc: Global,
    params: &'a [AstParameterP<P>],
) -> Result<Vec<Spanned<DefParam<'a, P>>>, AllocError>
    ensures { IfOk result (λ out. map lent_param out.items ≡ kinds.params_of (members parameter_at params.now)) }
{
    let mut out = Vec::new(alloc);
    let mut slashes = slash_count(params);
    let mut behind_args = false;
    for x in params {
        add_param(&mut out, x, mode(slashes, behind_args))?;
        slashes = slashes_behind(slashes, x);
        behind_args = is_args_or(x, behind_args);
    }
    Ok(out)
}

/// How many are `/`: all but the others.
fn slash_count<P: AstPayload>(params: &[AstParameterP<P>]) -> usize
    ensures { result ≡ count_by (λ x. parameters.is_slash (parameter_at x)) params.now }
{
    let mut count = params.len();
    for x in params {
        count = less_if(count, !is_slash(x));
    }
    count
}

/// Whether it is `/`.
fn is_slash<P: AstPayload>(x: &AstParameterP<P>) -> bool
    ensures { result ≡ parameters.is_slash (parameter_at x.now) }
{
    match &x.node {
        ParameterP::Slash => true,
        ParameterP::Normal(_, _, _) => false,
        ParameterP::NoArgs => false,
        ParameterP::Args(_, _) => false,
        ParameterP::KwArgs(_, _) => false,
    }
}

/// Whether it is `*` or `*args`, or the flag is set.
fn is_args_or<P: AstPayload>(x: &AstParameterP<P>, found: bool) -> bool
    ensures { result ≡ (if kinds.is_args (parameter_at x.now) then true else found) }
{
    match &x.node {
        ParameterP::Slash => found,
        ParameterP::Normal(_, _, _) => found,
        ParameterP::NoArgs => true,
        ParameterP::Args(_, _) => true,
        ParameterP::KwArgs(_, _) => found,
    }
}

/// The mode of a parameter without stars, before so many `/`.
fn mode(slashes: usize, behind_args: bool) -> DefRegularParamMode
    ensures { result ≡ (if nat_lt 0 slashes then DefRegularParamMode.PosOnly else if behind_args then DefRegularParamMode.NameOnly else DefRegularParamMode.PosOrName) }
{
    if slashes > 0 {
        return DefRegularParamMode::PosOnly;
    }
    if behind_args {
        DefRegularParamMode::NameOnly
    } else {
        DefRegularParamMode::PosOrName
    }
}

/// Adds a parameter in its mode, if it has a name.
fn add_param<'a, P: AstPayload>(
    out: &mut Vec<Spanned<DefParam<'a, P>>>,
    x: &'a AstParameterP<P>,
    mode: DefRegularParamMode,
) -> Result<(), AllocError>
    ensures { OnOk result (map lent_param out.new.items ≡ map lent_param out.old.items ++ param_of mode (parameter_at x.now)) }
{
    match with_name(x, mode) {
        Some(param) => {
            push_at(out, x.span, param)?;
            Ok(())
        }
        None => Ok(()),
    }
}

/// A parameter in its mode, if it has a name.
fn with_name<'a, P: AstPayload>(
    x: &'a AstParameterP<P>,
    mode: DefRegularParamMode,
) -> Option<DefParam<'a, P>>
    ensures { lent_params x.now.span result ≡ param_of mode (parameter_at x.now) }
{
    match &x.node {
        ParameterP::Slash => None,
        ParameterP::NoArgs => None,
        ParameterP::Normal(ident, ty, default) => {
            let kind = DefParamKind::Regular(mode, default_of(default));
            let ty = type_of(ty);
            Some(DefParam { ident, kind, ty })
        }
        ParameterP::Args(ident, ty) => {
            let kind = DefParamKind::Args;
            let ty = type_of(ty);
            Some(DefParam { ident, kind, ty })
        }
        ParameterP::KwArgs(ident, ty) => {
            let kind = DefParamKind::Kwargs;
            let ty = type_of(ty);
            Some(DefParam { ident, kind, ty })
        }
    }
}

/// Adds a value and its place.
pub(crate) fn push_at<T: Drop>(
    out: &mut Vec<Spanned<T>>,
    span: Span,
    node: T,
) -> Result<(), AllocError>
    ensures { OnOk result (out.new.items ≡ out.old.items ++ (record { span = span; node = node } ∷ [])) }
{
    out.push(Spanned { span, node })?;
    Ok(())
}

/// The default, lent.
fn default_of<P: AstPayload>(default: &Option<Box<AstExprP<P>>>) -> Option<&AstExprP<P>>
    ensures { lent_bound result ≡ boxed_expr default.now }
{
    match default {
        None => None,
        Some(x) => Some(x),
    }
}

/// The type, lent.
fn type_of<P: AstPayload>(ty: &Option<Box<AstTypeExprP<P>>>) -> Option<&AstTypeExprP<P>>
    ensures { lent_type result ≡ boxed_type ty.now }
{
    match ty {
        None => None,
        Some(x) => Some(x),
    }
}

/// How many `/` are left behind one more parameter.
fn slashes_behind<P: AstPayload>(slashes: usize, x: &AstParameterP<P>) -> usize
    requires { (if parameters.is_slash (parameter_at x.now) then 1 else 0) ≤ slashes }
    ensures { result ≡ slashes - (if parameters.is_slash (parameter_at x.now) then 1 else 0) }
{
    match &x.node {
        ParameterP::Slash => slashes - 1,
        ParameterP::Normal(_, _, _) => slashes,
        ParameterP::NoArgs => slashes,
        ParameterP::Args(_, _) => slashes,
        ParameterP::KwArgs(_, _) => slashes,
    }
}

/// The stretches of parameters.
fn indices<P: AstPayload>(params: &[AstParameterP<P>]) -> DefParamIndices
    requires { length params.now ≤ 4294967295 }
    ensures { result ≡ kinds.indices_of (members parameter_at params.now) }
{
    let mut tally = Tally {
        indices: DefParamIndices {
            num_positional: 0,
            num_positional_only: 0,
            args: None,
            kwargs: None,
        },
        count: 0,
        starred: false,
    };
    for x in params {
        tally = tally.with(x);
    }
    tally.indices
}

/// What is known of some parameters.
#[derive(Clone, Copy)]
pub(crate) struct Tally {
    indices: DefParamIndices,
    /// How many have a name.
    count: u32,
    /// Whether `*`, `*args` or `**kwargs` is among them.
    starred: bool,
}

impl Tally {
    /// The same of them and one more.
    fn with<P: AstPayload>(self, x: &AstParameterP<P>) -> Tally
        requires counted { self.count < 4294967295 }
        requires positional { self.indices.num_positional ≤ self.count }
        ensures { result ≡ with_member self (parameter_at x.now) }
    {
        let indices = self.indices;
        match &x.node {
            ParameterP::Slash => Tally {
                indices: DefParamIndices {
                    num_positional_only: self.count,
                    ..indices
                },
                ..self
            },
            ParameterP::NoArgs => Tally {
                starred: true,
                ..self
            },
            ParameterP::Normal(_, _, _) => Tally {
                indices: DefParamIndices {
                    num_positional: indices.num_positional + u32::from(!self.starred),
                    ..indices
                },
                count: self.count + 1,
                ..self
            },
            ParameterP::Args(_, _) => Tally {
                indices: DefParamIndices {
                    args: Some(self.count),
                    ..indices
                },
                count: self.count + 1,
                starred: true,
            },
            ParameterP::KwArgs(_, _) => Tally {
                indices: DefParamIndices {
                    kwargs: Some(self.count),
                    ..indices
                },
                count: self.count + 1,
                starred: true,
            },
        }
    }
}
