//! Payload maps of nodes at their places.

ghost use Rattle.std.specs.Prelude.{◌≡◌, List, IfOk, OnErr};
ghost use Rattle.starlark_place.specs.Place.{Extent};
ghost use Rattle.starlark_ast.specs.Tree as tree;
ghost use Rattle.starlark_ast.specs.View.{argument_view, expr_view, fstring_view, parameter_view, target_view, type_view};
ghost use Rattle.starlark_payload.specs.Payloads.{Answers, Begins, Payload, argument_payloads, expr_payloads, fstring_payloads, gives, parameter_payloads, target_payloads, type_payloads};

use crate::f_strings::f_string;
use crate::mapping::{expression, parameter, target};
use crate::payload_map::AstPayloadFunction;
use crate::single::{argument, type_expr};
use starlark_ast::ast::{
    AstArgumentP, AstAssignTargetP, AstExprP, AstFStringP, AstParameterP, AstPayload, AstTypeExprP,
};
use starlark_place::pos::Spanned;
use std::alloc::{AllocError, Global};

/// `into_map_payload` of an expression, at its place.
pub trait ExprPExt<A: AstPayload> {
    /// What it is at a place.
    ghost view: { Self → Extent → tree.Expr };

    ghost place: { Self → Extent };

    ghost payloads: { Self → List (Payload A.LoadPayload A.IdentPayload A.IdentAssignPayload A.DefPayload A.TypeExprPayload) };

    /// The same at the same place, as `IntoMapPayload` says.
    fn into_map_payload<B: AstPayload, F: AstPayloadFunction<A, B>>(
        self,
        alloc: Global,
        f: &mut F,
    ) -> Result<AstExprP<B>, AllocError>
        ensures kept { IfOk result (λ y. expr_view y.node ≡ view self) }
        ensures placed { IfOk result (λ y. y.span ≡ place self) }
        ensures called { IfOk result (λ y. Answers (gives F.gives_load F.gives_ident F.gives_ident_assign F.gives_def F.gives_type_expr) f.old (payloads self) f.new (expr_payloads y.node)) }
        ensures stopped { OnErr result (Begins (gives F.gives_load F.gives_ident F.gives_ident_assign F.gives_def F.gives_type_expr) f.old (payloads self) f.new) };
}

impl<A: AstPayload> ExprPExt<A> for AstExprP<A> {
    ghost view = { λ x. expr_view x.node };

    ghost place = { λ x. x.span };

    ghost payloads = { λ x. expr_payloads x.node };

    fn into_map_payload<B: AstPayload, F: AstPayloadFunction<A, B>>(
        self,
        alloc: Global,
        f: &mut F,
    ) -> Result<AstExprP<B>, AllocError> {
        let Spanned { span, node } = self;
        let node = expression(alloc, node, f)?;
        Ok(Spanned { span, node })
    }
}

/// `into_map_payload` of a type, at its place.
pub trait TypeExprPExt<A: AstPayload> {
    /// What it is at a place.
    ghost view: { Self → Extent → tree.Annotation };

    ghost place: { Self → Extent };

    ghost payloads: { Self → List (Payload A.LoadPayload A.IdentPayload A.IdentAssignPayload A.DefPayload A.TypeExprPayload) };

    /// The same at the same place, as `IntoMapPayload` says.
    fn into_map_payload<B: AstPayload, F: AstPayloadFunction<A, B>>(
        self,
        alloc: Global,
        f: &mut F,
    ) -> Result<AstTypeExprP<B>, AllocError>
        ensures kept { IfOk result (λ y. type_view y.node ≡ view self) }
        ensures placed { IfOk result (λ y. y.span ≡ place self) }
        ensures called { IfOk result (λ y. Answers (gives F.gives_load F.gives_ident F.gives_ident_assign F.gives_def F.gives_type_expr) f.old (payloads self) f.new (type_payloads y.node)) }
        ensures stopped { OnErr result (Begins (gives F.gives_load F.gives_ident F.gives_ident_assign F.gives_def F.gives_type_expr) f.old (payloads self) f.new) };
}

impl<A: AstPayload> TypeExprPExt<A> for AstTypeExprP<A> {
    ghost view = { λ x. type_view x.node };

    ghost place = { λ x. x.span };

    ghost payloads = { λ x. type_payloads x.node };

    fn into_map_payload<B: AstPayload, F: AstPayloadFunction<A, B>>(
        self,
        alloc: Global,
        f: &mut F,
    ) -> Result<AstTypeExprP<B>, AllocError> {
        let Spanned { span, node } = self;
        let node = type_expr(alloc, node, f)?;
        Ok(Spanned { span, node })
    }
}

/// `into_map_payload` of a target, at its place.
pub trait AssignTargetPExt<A: AstPayload> {
    /// What it is at a place.
    ghost view: { Self → Extent → tree.Expr };

    ghost place: { Self → Extent };

    ghost payloads: { Self → List (Payload A.LoadPayload A.IdentPayload A.IdentAssignPayload A.DefPayload A.TypeExprPayload) };

    /// The same at the same place, as `IntoMapPayload` says.
    fn into_map_payload<B: AstPayload, F: AstPayloadFunction<A, B>>(
        self,
        alloc: Global,
        f: &mut F,
    ) -> Result<AstAssignTargetP<B>, AllocError>
        ensures kept { IfOk result (λ y. target_view y.node ≡ view self) }
        ensures placed { IfOk result (λ y. y.span ≡ place self) }
        ensures called { IfOk result (λ y. Answers (gives F.gives_load F.gives_ident F.gives_ident_assign F.gives_def F.gives_type_expr) f.old (payloads self) f.new (target_payloads y.node)) }
        ensures stopped { OnErr result (Begins (gives F.gives_load F.gives_ident F.gives_ident_assign F.gives_def F.gives_type_expr) f.old (payloads self) f.new) };
}

impl<A: AstPayload> AssignTargetPExt<A> for AstAssignTargetP<A> {
    ghost view = { λ x. target_view x.node };

    ghost place = { λ x. x.span };

    ghost payloads = { λ x. target_payloads x.node };

    fn into_map_payload<B: AstPayload, F: AstPayloadFunction<A, B>>(
        self,
        alloc: Global,
        f: &mut F,
    ) -> Result<AstAssignTargetP<B>, AllocError> {
        let Spanned { span, node } = self;
        let node = target(alloc, node, f)?;
        Ok(Spanned { span, node })
    }
}

/// `into_map_payload` of a parameter, at its place.
pub trait ParameterPExt<A: AstPayload> {
    /// What it is at a place.
    ghost view: { Self → Extent → tree.Member };

    ghost place: { Self → Extent };

    ghost payloads: { Self → List (Payload A.LoadPayload A.IdentPayload A.IdentAssignPayload A.DefPayload A.TypeExprPayload) };

    /// The same at the same place, as `IntoMapPayload` says.
    fn into_map_payload<B: AstPayload, F: AstPayloadFunction<A, B>>(
        self,
        alloc: Global,
        f: &mut F,
    ) -> Result<AstParameterP<B>, AllocError>
        ensures kept { IfOk result (λ y. parameter_view y.node ≡ view self) }
        ensures placed { IfOk result (λ y. y.span ≡ place self) }
        ensures called { IfOk result (λ y. Answers (gives F.gives_load F.gives_ident F.gives_ident_assign F.gives_def F.gives_type_expr) f.old (payloads self) f.new (parameter_payloads y.node)) }
        ensures stopped { OnErr result (Begins (gives F.gives_load F.gives_ident F.gives_ident_assign F.gives_def F.gives_type_expr) f.old (payloads self) f.new) };
}

impl<A: AstPayload> ParameterPExt<A> for AstParameterP<A> {
    ghost view = { λ x. parameter_view x.node };

    ghost place = { λ x. x.span };

    ghost payloads = { λ x. parameter_payloads x.node };

    fn into_map_payload<B: AstPayload, F: AstPayloadFunction<A, B>>(
        self,
        alloc: Global,
        f: &mut F,
    ) -> Result<AstParameterP<B>, AllocError> {
        let Spanned { span, node } = self;
        let node = parameter(alloc, node, f)?;
        Ok(Spanned { span, node })
    }
}

/// `into_map_payload` of an argument, at its place.
pub trait ArgumentPExt<A: AstPayload> {
    /// What it is at a place.
    ghost view: { Self → Extent → tree.Member };

    ghost place: { Self → Extent };

    ghost payloads: { Self → List (Payload A.LoadPayload A.IdentPayload A.IdentAssignPayload A.DefPayload A.TypeExprPayload) };

    /// The same at the same place, as `IntoMapPayload` says.
    fn into_map_payload<B: AstPayload, F: AstPayloadFunction<A, B>>(
        self,
        alloc: Global,
        f: &mut F,
    ) -> Result<AstArgumentP<B>, AllocError>
        ensures kept { IfOk result (λ y. argument_view y.node ≡ view self) }
        ensures placed { IfOk result (λ y. y.span ≡ place self) }
        ensures called { IfOk result (λ y. Answers (gives F.gives_load F.gives_ident F.gives_ident_assign F.gives_def F.gives_type_expr) f.old (payloads self) f.new (argument_payloads y.node)) }
        ensures stopped { OnErr result (Begins (gives F.gives_load F.gives_ident F.gives_ident_assign F.gives_def F.gives_type_expr) f.old (payloads self) f.new) };
}

impl<A: AstPayload> ArgumentPExt<A> for AstArgumentP<A> {
    ghost view = { λ x. argument_view x.node };

    ghost place = { λ x. x.span };

    ghost payloads = { λ x. argument_payloads x.node };

    fn into_map_payload<B: AstPayload, F: AstPayloadFunction<A, B>>(
        self,
        alloc: Global,
        f: &mut F,
    ) -> Result<AstArgumentP<B>, AllocError> {
        let Spanned { span, node } = self;
        let node = argument(alloc, node, f)?;
        Ok(Spanned { span, node })
    }
}

/// `into_map_payload` of an f-string, at its place.
pub trait FStringPExt<A: AstPayload> {
    /// What it is at a place.
    ghost view: { Self → Extent → Extent → tree.Expr };

    ghost place: { Self → Extent };

    ghost payloads: { Self → List (Payload A.LoadPayload A.IdentPayload A.IdentAssignPayload A.DefPayload A.TypeExprPayload) };

    /// The same at the same place, as `IntoMapPayload` says.
    fn into_map_payload<B: AstPayload, F: AstPayloadFunction<A, B>>(
        self,
        alloc: Global,
        f: &mut F,
    ) -> Result<AstFStringP<B>, AllocError>
        ensures kept { IfOk result (λ y. fstring_view y.node ≡ view self) }
        ensures placed { IfOk result (λ y. y.span ≡ place self) }
        ensures called { IfOk result (λ y. Answers (gives F.gives_load F.gives_ident F.gives_ident_assign F.gives_def F.gives_type_expr) f.old (payloads self) f.new (fstring_payloads y.node)) }
        ensures stopped { OnErr result (Begins (gives F.gives_load F.gives_ident F.gives_ident_assign F.gives_def F.gives_type_expr) f.old (payloads self) f.new) };
}

impl<A: AstPayload> FStringPExt<A> for AstFStringP<A> {
    ghost view = { λ x. fstring_view x.node };

    ghost place = { λ x. x.span };

    ghost payloads = { λ x. fstring_payloads x.node };

    fn into_map_payload<B: AstPayload, F: AstPayloadFunction<A, B>>(
        self,
        alloc: Global,
        f: &mut F,
    ) -> Result<AstFStringP<B>, AllocError> {
        let Spanned { span, node } = self;
        let node = f_string(alloc, node, f)?;
        Ok(Spanned { span, node })
    }
}
