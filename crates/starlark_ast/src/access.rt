//! Parts of arguments and parameters, and what signatures span.

ghost use Rattle.std.specs.Prelude.{◌≡◌};
ghost use Rattle.std.specs.Borrow.{sem};
ghost use Rattle.std.specs.Option.{option_copied, option_copied_mut};
ghost use Rattle.starlark_ast.specs.Access.{argument_expr, argument_name, def_signature, lambda_signature, load_arg_span, load_arg_whole_span, merged_with, parameter_default, parameter_ident, parameter_type, unboxed};
ghost use Rattle.starlark_ast.specs.Lending.{LendsDefault, LendsExpr, LendsHeld, LendsIdent, LendsType};

use crate::ast::{
    ArgumentP, AstAssignIdentP, AstExprP, AstPayload, AstTypeExprP, DefP, LambdaP, LoadArgP,
    ParameterP,
};
use starlark_place::pos::{Span, Spanned};

impl<P: AstPayload> ArgumentP<P> {
    /// The expression of the argument.
    pub fn expr(&self) -> &AstExprP<P>
        ensures { result.now ≡ argument_expr self.now }
    {
        match self {
            ArgumentP::Positional(x) => x,
            ArgumentP::Named(_, x) => x,
            ArgumentP::Args(x) => x,
            ArgumentP::KwArgs(x) => x,
        }
    }

    /// The expression of the argument, for writing.
    pub fn expr_mut(&mut self) -> &mut AstExprP<P>
        ensures* writes_back { sem 𝓛 (LendsExpr P.row P.LoadPayload.row P.IdentPayload.row P.IdentAssignPayload.row P.DefPayload.row P.TypeExprPayload.row self.entry result) }
        ensures value { result.now ≡ argument_expr self.old }
    {
        match self {
            ArgumentP::Positional(x) => x,
            ArgumentP::Named(_, x) => x,
            ArgumentP::Args(x) => x,
            ArgumentP::KwArgs(x) => x,
        }
    }

    /// The name of an argument that has one.
    pub fn name(&self) -> Option<&str>
        ensures { option_copied result ≡ argument_name self.now }
    {
        match self {
            ArgumentP::Positional(_) => None,
            ArgumentP::Named(name, _) => Some(name.node.as_str()),
            ArgumentP::Args(_) => None,
            ArgumentP::KwArgs(_) => None,
        }
    }
}

impl<P: AstPayload> ParameterP<P> {
    /// The name, the type and the default, each where there is one.
    pub fn split(
        &self,
    ) -> (
        Option<&AstAssignIdentP<P>>,
        Option<&AstTypeExprP<P>>,
        Option<&AstExprP<P>>,
    )
        ensures name { option_copied result.0 ≡ parameter_ident self.now }
        ensures type_expr { option_copied result.1 ≡ parameter_type self.now }
        ensures default { option_copied result.2 ≡ parameter_default self.now }
    {
        match self {
            ParameterP::Slash => (None, None, None),
            ParameterP::Normal(name, ty, default) => (Some(name), lent(ty), lent(default)),
            ParameterP::NoArgs => (None, None, None),
            ParameterP::Args(name, ty) => (Some(name), lent(ty), None),
            ParameterP::KwArgs(name, ty) => (Some(name), lent(ty), None),
        }
    }

    /// The name of a parameter that has one.
    pub fn ident(&self) -> Option<&AstAssignIdentP<P>>
        ensures { option_copied result ≡ parameter_ident self.now }
    {
        match self {
            ParameterP::Slash => None,
            ParameterP::Normal(name, _, _) => Some(name),
            ParameterP::NoArgs => None,
            ParameterP::Args(name, _) => Some(name),
            ParameterP::KwArgs(name, _) => Some(name),
        }
    }

    /// The name of a parameter that has one, for writing.
    pub fn ident_mut(&mut self) -> Option<&mut AstAssignIdentP<P>>
        ensures* writes_back { sem 𝓛 (LendsIdent P.row P.LoadPayload.row P.IdentPayload.row P.IdentAssignPayload.row P.DefPayload.row P.TypeExprPayload.row self.entry result) }
        ensures value { option_copied_mut result ≡ parameter_ident self.old }
    {
        match self {
            ParameterP::Slash => None,
            ParameterP::Normal(name, _, _) => Some(name),
            ParameterP::NoArgs => None,
            ParameterP::Args(name, _) => Some(name),
            ParameterP::KwArgs(name, _) => Some(name),
        }
    }

    /// The type of a parameter that has one, for writing.
    pub fn type_mut(&mut self) -> Option<&mut AstTypeExprP<P>>
        ensures* writes_back { sem 𝓛 (LendsType P.row P.LoadPayload.row P.IdentPayload.row P.IdentAssignPayload.row P.DefPayload.row P.TypeExprPayload.row self.entry result) }
        ensures value { option_copied_mut result ≡ parameter_type self.old }
    {
        match self {
            ParameterP::Slash => None,
            ParameterP::Normal(_, ty, _) => lent_mut(ty),
            ParameterP::NoArgs => None,
            ParameterP::Args(_, ty) => lent_mut(ty),
            ParameterP::KwArgs(_, ty) => lent_mut(ty),
        }
    }

    /// The default of a parameter that has one, for writing.
    pub fn default_mut(&mut self) -> Option<&mut AstExprP<P>>
        ensures* writes_back { sem 𝓛 (LendsDefault P.row P.LoadPayload.row P.IdentPayload.row P.IdentAssignPayload.row P.DefPayload.row P.TypeExprPayload.row self.entry result) }
        ensures value { option_copied_mut result ≡ parameter_default self.old }
    {
        match self {
            ParameterP::Slash => None,
            ParameterP::Normal(_, _, default) => lent_mut(default),
            ParameterP::NoArgs => None,
            ParameterP::Args(_, _) => None,
            ParameterP::KwArgs(_, _) => None,
        }
    }
}

// what a box holds, where there is one
fn lent<T>(x: &Option<Box<T>>) -> Option<&T>
    ensures { option_copied result ≡ unboxed x.now }
{
    match x {
        None => None,
        Some(x) => Some(x),
    }
}

// the same, for writing
fn lent_mut<T>(x: &mut Option<Box<T>>) -> Option<&mut T>
    ensures* writes_back { sem 𝓛 (LendsHeld T.row x.entry result) }
    ensures value { option_copied_mut result ≡ unboxed x.old }
{
    match x {
        None => None,
        Some(x) => Some(&mut **x),
    }
}

// one span and those of others
fn merged_with<T>(first: Span, others: &[Spanned<T>]) -> Span
    ensures { result ≡ merged_with first others.now }
{
    let mut all = first;
    for x in others {
        all = all.merge(x.span);
    }
    all
}

impl<P: AstPayload> LambdaP<P> {
    /// From the least beginning of a parameter to the greatest end, or the body's span where there is none.
    pub fn signature_span(&self) -> Span
        ensures { result ≡ lambda_signature self.now }
    {
        match self.params.split_first() {
            None => self.body.span,
            Some((first, rest)) => merged_with(first.span, rest),
        }
    }
}

impl<P: AstPayload> DefP<P> {
    /// From the least beginning to the greatest end of the name, the parameters and the type of what is returned.
    pub fn signature_span(&self) -> Span
        ensures { result ≡ def_signature self.now }
    {
        let span = merged_with(self.name.span, &self.params);
        match &self.return_type {
            None => span,
            Some(ty) => span.merge(ty.span),
        }
    }
}

impl<P: AstPayload> LoadArgP<P> {
    /// From the lesser beginning to the greater end of the local name and the name in the other module.
    pub fn span(&self) -> Span
        ensures { result ≡ load_arg_span self.now }
    {
        self.local.span.merge(self.their.span)
    }

    /// The same, with the comma behind it where there is one.
    pub fn span_with_trailing_comma(&self) -> Span
        ensures { result ≡ load_arg_whole_span self.now }
    {
        match &self.comma {
            None => self.span(),
            Some(comma) => self.span().merge(comma.span),
        }
    }
}
