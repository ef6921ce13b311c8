//! Clones of what holds no expression: literals, names and loads.

ghost use Rattle.std.specs.Prelude.{◌≡◌, IfOk, IsOk, string_bytes};
ghost use Rattle.starlark_place.specs.Place.{Extent};
ghost use Rattle.starlark_ast.specs.Small.{HoldsNothing, IsSmall};
ghost use Rattle.starlark_ast.specs.View.{comma_at, ident_at, literal_view, load_view, text_at};
ghost use Rattle.starlark_lexer.specs.Items.{number_of};

use crate::ast::{
    AssignIdentP, AstLiteral, AstNoPayload, AstString, Comma, IdentP, LoadArgP, LoadP,
};
use starlark_lexer::token::TokenInt;
use starlark_place::pos::{Span, Spanned};
use std::alloc::{AllocError, Global};

// a text at a place again
pub(crate) fn text(alloc: Global, x: &str, span: Span) -> Result<AstString, AllocError>
    ensures bytes { IfOk result (λ y. string_bytes y.node ≡ x.now) }
    ensures place { IfOk result (λ y. y.span ≡ span) }
{
    let node = String::from_str(alloc, x)?;
    Ok(Spanned { span, node })
}

// a number again
fn number(alloc: Global, x: &TokenInt) -> Result<TokenInt, AllocError>
    ensures same { IfOk result (λ y. number_of y ≡ number_of x.now) }
    ensures small { IsSmall x.now → IsOk result }
{
    match x {
        TokenInt::I32(n) => Ok(TokenInt::I32(*n)),
        TokenInt::BigInt {
            digits,
            negative,
            radix,
        } => {
            let digits = String::from_str(alloc, digits.as_str())?;
            Ok(TokenInt::BigInt {
                digits,
                negative: *negative,
                radix: *radix,
            })
        }
    }
}

impl AstLiteral {
    /// The same literal, with texts of its own. `...` and a number of 32 bits hold nothing on the heap, and their clones
    /// are never refused.
    pub fn clone(&self, alloc: Global) -> Result<AstLiteral, AllocError>
        ensures same { IfOk result (λ x. (s : Extent) → literal_view x s ≡ literal_view self.now s) }
        ensures taken { HoldsNothing self.now → IsOk result }
    {
        match self {
            AstLiteral::Int(x) => {
                let node = number(alloc, &x.node)?;
                Ok(AstLiteral::Int(Spanned { span: x.span, node }))
            }
            AstLiteral::Float(x) => Ok(AstLiteral::Float(text(alloc, x.node.as_str(), x.span)?)),
            AstLiteral::String(x) => Ok(AstLiteral::String(text(alloc, x.node.as_str(), x.span)?)),
            AstLiteral::Bytes(x) => {
                let node = Vec::from_slice(alloc, &x.node)?;
                Ok(AstLiteral::Bytes(Spanned { span: x.span, node }))
            }
            AstLiteral::Ellipsis => Ok(AstLiteral::Ellipsis),
        }
    }
}

impl IdentP<AstNoPayload> {
    /// The same identifier, with a text of its own. It is refused where memory runs out.
    pub fn clone(&self, alloc: Global) -> Result<IdentP<AstNoPayload>, AllocError>
        ensures { IfOk result (λ x. string_bytes x.ident ≡ string_bytes self.now.ident) }
    {
        let ident = String::from_str(alloc, self.ident.as_str())?;
        Ok(IdentP { ident, payload: () })
    }
}

impl AssignIdentP<AstNoPayload> {
    /// The same identifier, with a text of its own. It is refused where memory runs out.
    pub fn clone(&self, alloc: Global) -> Result<AssignIdentP<AstNoPayload>, AllocError>
        ensures { IfOk result (λ x. string_bytes x.ident ≡ string_bytes self.now.ident) }
    {
        let ident = String::from_str(alloc, self.ident.as_str())?;
        Ok(AssignIdentP { ident, payload: () })
    }
}

// a comma at its place again
fn comma(x: &Option<Spanned<Comma>>) -> Option<Spanned<Comma>>
    ensures { comma_at result ≡ comma_at x.now }
{
    match x {
        None => None,
        Some(x) => Some(Spanned {
            span: x.span,
            node: x.node,
        }),
    }
}

impl LoadArgP<AstNoPayload> {
    /// The same symbol, with texts of its own. It is refused where memory runs out.
    pub fn clone(&self, alloc: Global) -> Result<LoadArgP<AstNoPayload>, AllocError>
        ensures local { IfOk result (λ x. ident_at x.local ≡ ident_at self.now.local) }
        ensures their { IfOk result (λ x. text_at x.their ≡ text_at self.now.their) }
        ensures comma { IfOk result (λ x. comma_at x.comma ≡ comma_at self.now.comma) }
    {
        let node = self.local.node.clone(alloc)?;
        let span = self.local.span;
        let their = text(alloc, self.their.node.as_str(), self.their.span)?;
        Ok(LoadArgP {
            local: Spanned { span, node },
            their,
            comma: comma(&self.comma),
        })
    }
}

impl LoadP<AstNoPayload> {
    /// The same load, with a list and texts of its own. It is refused where memory runs out.
    pub fn clone(&self, alloc: Global) -> Result<LoadP<AstNoPayload>, AllocError>
        ensures { IfOk result (λ x. (s : Extent) → load_view x s ≡ load_view self.now s) }
    {
        let module = text(alloc, self.module.node.as_str(), self.module.span)?;
        let mut args = Vec::new(alloc);
        for arg in &self.args {
            let again = arg.clone(alloc)?;
            args.push(again)?;
        }
        Ok(LoadP {
            module,
            args,
            payload: (),
        })
    }
}
