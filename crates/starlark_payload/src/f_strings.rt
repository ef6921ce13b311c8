//! Maps of f-strings.

ghost use Rattle.starlark_ast.specs.View.{fstring_view};
ghost use Rattle.starlark_payload.specs.Mapped.{Maps};
ghost use Rattle.starlark_payload.specs.Payloads.{fstring_payloads, gives};

use crate::mapping::expressions;
use crate::payload_map::AstPayloadFunction;
use starlark_ast::ast::{AstPayload, FStringP};
use std::alloc::{AllocError, Global};

/// An f-string.
pub(crate) fn f_string<A: AstPayload, B: AstPayload, F: AstPayloadFunction<A, B>>(
    alloc: Global,
    x: FStringP<A>,
    f: &mut F,
) -> Result<FStringP<B>, AllocError>
    ensures { Maps (gives F.gives_load F.gives_ident F.gives_ident_assign F.gives_def F.gives_type_expr) f.old (fstring_payloads x) (fstring_view x) f.new fstring_payloads fstring_view result }
{
    let FStringP {
        format,
        expressions: xs,
    } = x;
    let expressions = expressions(alloc, xs, f)?;
    Ok(FStringP {
        format,
        expressions,
    })
}
