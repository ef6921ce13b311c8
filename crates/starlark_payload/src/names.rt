//! Names, at their places.

ghost use Rattle.starlark_ast.specs.View.{ident_at, ident_view};
ghost use Rattle.starlark_payload.specs.Mapped.{Mapped};
ghost use Rattle.starlark_payload.specs.Payloads.{assigned_payloads, gives, ident_payloads};

use crate::payload_map::{AstPayloadFunction, assign_ident, ident};
use starlark_ast::ast::{AstAssignIdentP, AstIdentP, AstPayload};
use starlark_place::pos::Spanned;

/// A name that is read.
pub(crate) fn name<A: AstPayload, B: AstPayload, F: AstPayloadFunction<A, B>>(
    x: AstIdentP<A>,
    f: &mut F,
) -> AstIdentP<B>
    ensures { Mapped (gives F.gives_load F.gives_ident F.gives_ident_assign F.gives_def F.gives_type_expr) f.old (ident_payloads x.node) (ident_view x) f.new (ident_payloads result.node) (ident_view result) }
{
    let Spanned { span, node } = x;
    let node = ident(node, f);
    Spanned { span, node }
}

/// A name that is assigned.
pub(crate) fn assigned<A: AstPayload, B: AstPayload, F: AstPayloadFunction<A, B>>(
    x: AstAssignIdentP<A>,
    f: &mut F,
) -> AstAssignIdentP<B>
    ensures { Mapped (gives F.gives_load F.gives_ident F.gives_ident_assign F.gives_def F.gives_type_expr) f.old (assigned_payloads x.node) (ident_at x) f.new (assigned_payloads result.node) (ident_at result) }
{
    let Spanned { span, node } = x;
    let node = assign_ident(node, f);
    Spanned { span, node }
}
