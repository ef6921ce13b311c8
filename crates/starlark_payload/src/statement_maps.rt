//! Payload maps of statements and of what they assign.

ghost use Rattle.std.specs.Prelude.{◌≡◌, List, IfOk, OnErr};
ghost use Rattle.starlark_place.specs.Place.{Extent};
ghost use Rattle.starlark_ast.specs.Tree as tree;
ghost use Rattle.starlark_ast.specs.View.{assign_view, for_view, stmt_view};
ghost use Rattle.starlark_payload.specs.Payloads.{Answers, Begins, Payload, assign_payloads, for_payloads, gives, stmt_payloads};

use crate::payload_map::{AstPayloadFunction, IntoMapPayload};
use crate::statement_mapping::{assign, for_loop, statement};
use starlark_ast::ast::{AssignP, AstPayload, AstStmtP, ForP, StmtP};
use starlark_place::pos::Spanned;
use std::alloc::{AllocError, Global};

impl<A: AstPayload, B: AstPayload> IntoMapPayload<A, B> for AssignP<A> {
    type Mapped = AssignP<B>;

    ghost keeps = { λ x y. assign_view y ≡ assign_view x };

    ghost payloads = { assign_payloads };

    ghost mapped_payloads = { assign_payloads };

    fn into_map_payload<F: AstPayloadFunction<A, B>>(
        self,
        alloc: Global,
        f: &mut F,
    ) -> Result<AssignP<B>, AllocError> {
        Ok(assign(alloc, self, f)?)
    }
}

impl<A: AstPayload, B: AstPayload> IntoMapPayload<A, B> for ForP<A> {
    type Mapped = ForP<B>;

    ghost keeps = { λ x y. for_view y ≡ for_view x };

    ghost payloads = { for_payloads };

    ghost mapped_payloads = { for_payloads };

    fn into_map_payload<F: AstPayloadFunction<A, B>>(
        self,
        alloc: Global,
        f: &mut F,
    ) -> Result<ForP<B>, AllocError> {
        Ok(for_loop(alloc, self, f)?)
    }
}

impl<A: AstPayload, B: AstPayload> IntoMapPayload<A, B> for StmtP<A> {
    type Mapped = StmtP<B>;

    ghost keeps = { λ x y. stmt_view y ≡ stmt_view x };

    ghost payloads = { stmt_payloads };

    ghost mapped_payloads = { stmt_payloads };

    fn into_map_payload<F: AstPayloadFunction<A, B>>(
        self,
        alloc: Global,
        f: &mut F,
    ) -> Result<StmtP<B>, AllocError> {
        Ok(statement(alloc, self, f)?)
    }
}

/// `into_map_payload` of a statement, at its place.
pub trait StmtPExt<A: AstPayload> {
    /// What it is at a place.
    ghost view: { Self → Extent → tree.Statement };

    ghost place: { Self → Extent };

    ghost payloads: { Self → List (Payload A.LoadPayload A.IdentPayload A.IdentAssignPayload A.DefPayload A.TypeExprPayload) };

    /// The same at the same place, as `IntoMapPayload` says.
    fn into_map_payload<B: AstPayload, F: AstPayloadFunction<A, B>>(
        self,
        alloc: Global,
        f: &mut F,
    ) -> Result<AstStmtP<B>, AllocError>
        ensures kept { IfOk result (λ y. stmt_view y.node ≡ view self) }
        ensures placed { IfOk result (λ y. y.span ≡ place self) }
        ensures called { IfOk result (λ y. Answers (gives F.gives_load F.gives_ident F.gives_ident_assign F.gives_def F.gives_type_expr) f.old (payloads self) f.new (stmt_payloads y.node)) }
        ensures stopped { OnErr result (Begins (gives F.gives_load F.gives_ident F.gives_ident_assign F.gives_def F.gives_type_expr) f.old (payloads self) f.new) };
}

impl<A: AstPayload> StmtPExt<A> for AstStmtP<A> {
    ghost view = { λ x. stmt_view x.node };

    ghost place = { λ x. x.span };

    ghost payloads = { λ x. stmt_payloads x.node };

    fn into_map_payload<B: AstPayload, F: AstPayloadFunction<A, B>>(
        self,
        alloc: Global,
        f: &mut F,
    ) -> Result<AstStmtP<B>, AllocError> {
        let Spanned { span, node } = self;
        let node = statement(alloc, node, f)?;
        Ok(Spanned { span, node })
    }
}
