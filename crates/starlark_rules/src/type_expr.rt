//! Types by their parts, and strings that stand for types.

ghost use Rattle.std.specs.Prelude.{◌≡◌, IfOk, IfErr, Ok};
ghost use Rattle.starlark_ast.specs.View.{expr_at};
ghost use Rattle.starlark_rules.specs.Forms.{RefusesType, form_at};
ghost use Rattle.starlark_rulebook.specs.Types as types;
ghost use Rattle.starlark_rulebook.specs.View.{IsPlaced};
ghost use Rattle.starlark_rules.specs.Wildcards.{is_wildcard};

use crate::types::{Role, Stop, type_parts};
use starlark_ast::ast::{AstExprP, AstIdentP, AstPayload};
use starlark_place::codemap::CodeMap;
use starlark_place::diagnostic::Refusal;
use starlark_place::pos::Spanned;
use starlark_rulebook::rule::TypeExprUnpackError;
use std::alloc::Global;

/// An identifier, or identifiers joined by dots.
#[derive(Debug, Drop)]
pub struct TypePathP<'a, P: AstPayload> {
    pub first: &'a AstIdentP<P>,
    /// The attributes behind it.
    pub rem: Vec<Spanned<&'a str>>,
}

/// A type by its parts.
#[derive(Debug)]
pub enum TypeExprUnpackP<'a, P: AstPayload> {
    /// `...`
    Ellipsis,
    Path(TypePathP<'a, P>),
    /// `list[str]`
    Index(&'a AstIdentP<P>, Box<Spanned<TypeExprUnpackP<'a, P>>>),
    /// `dict[str, int]`
    Index2(
        Spanned<TypePathP<'a, P>>,
        Box<Spanned<TypeExprUnpackP<'a, P>>>,
        Box<Spanned<TypeExprUnpackP<'a, P>>>,
    ),
    /// A list that is one of the two arguments of an `Index2`, as in `typing.Callable[[int], str]`, or stands in such a
    /// list.
    List(Vec<Spanned<TypeExprUnpackP<'a, P>>>),
    /// `a | b`, or a list of two or more.
    Union(Vec<Spanned<TypeExprUnpackP<'a, P>>>),
    Tuple(Vec<Spanned<TypeExprUnpackP<'a, P>>>),
}

// a derived one over references to what has a payload is not covered by the check
impl<'a, P: AstPayload> Drop for TypeExprUnpackP<'a, P> {
    fn drop(self) {
        match self {
            TypeExprUnpackP::Ellipsis => {}
            TypeExprUnpackP::Path(path) => drop(path),
            TypeExprUnpackP::Index(_, inner) => drop(inner),
            TypeExprUnpackP::Index2(path, first, second) => {
                drop(path);
                drop(first);
                drop(second);
            }
            TypeExprUnpackP::List(members) => drop(members),
            TypeExprUnpackP::Union(members) => drop(members),
            TypeExprUnpackP::Tuple(members) => drop(members),
        }
    }
}

impl<'a, P: AstPayload> TypeExprUnpackP<'a, P> {
    /// The type by its parts, lent from its expression. It is refused with its first fault, and with `Memory` where
    /// memory runs out. The place of the fault is to lie in the source: `CodeMap::holds` tells. The rules stand in
    /// docs/LANGUAGE.md, Rules.
    pub fn unpack(
        alloc: Global,
        expr: &'a AstExprP<P>,
        codemap: &CodeMap,
    ) -> Result<Spanned<TypeExprUnpackP<'a, P>>, Refusal<TypeExprUnpackError>>
        requires { IsPlaced codemap.now.source (types.first_type_fault (expr_at expr.now)) }
        ensures taken { IfOk result (λ u. types.type_form (expr_at expr.now) ≡ Ok (form_at u)) }
        ensures refused { IfErr result (RefusesType (types.type_form (expr_at expr.now)) codemap.now) }
    {
        match type_parts(alloc, Role::Alone, expr) {
            Ok(node) => Ok(Spanned {
                span: expr.span,
                node,
            }),
            Err(Stop::NoType(fault)) => {
                Err(Refusal::new(alloc, fault.node, fault.span, codemap))
            }
            Err(Stop::Memory) => Err(Refusal::Memory),
        }
    }
}

/// Whether a string that stands for a type matches every value: it is empty or begins with `_`.
pub fn type_str_literal_is_wildcard(s: &str) -> bool
    ensures { result ≡ is_wildcard s.now }
{
    match s.as_bytes() {
        [] => true,
        [first, ..] => *first == b'_',
    }
}
