//! The forms of nodes.

ghost use Rattle.std.specs.Prelude.{◌≡◌};
ghost use Rattle.starlark_payload.specs.Weights as form;

use crate::nodes::{ClauseShape, ParameterShape, Shape, TargetShape};
use starlark_ast::ast::{AssignTargetP, AstPayload, ClauseP, ExprP, ParameterP};

/// The form of an expression.
pub(crate) fn shape<P: AstPayload>(x: &ExprP<P>) -> Shape
    ensures { result ≡ form.expr_shape x.now }
{
    match x {
        ExprP::Tuple(_) => Shape::Many,
        ExprP::Dot(_, _) => Shape::One,
        ExprP::Call(_, _) => Shape::Call,
        ExprP::Index(_) => Shape::Index,
        ExprP::Index2(_) => Shape::Three,
        ExprP::Slice(_, _, _, _) => Shape::Slice,
        ExprP::Identifier(_) => Shape::Name,
        ExprP::Lambda(_) => Shape::Lambda,
        ExprP::Literal(_) => Shape::Literal,
        ExprP::Not(_) => Shape::One,
        ExprP::Minus(_) => Shape::One,
        ExprP::Plus(_) => Shape::One,
        ExprP::BitNot(_) => Shape::One,
        ExprP::Op(_, _, _) => Shape::Operation,
        ExprP::If(_) => Shape::Three,
        ExprP::List(_) => Shape::Many,
        ExprP::Dict(_) => Shape::Dict,
        ExprP::ListComprehension(_, _, _) => Shape::ListComprehension,
        ExprP::DictComprehension(_, _, _) => Shape::DictComprehension,
        ExprP::FString(_) => Shape::Many,
    }
}

/// That of a parameter.
pub(crate) fn parameter_shape<P: AstPayload>(x: &ParameterP<P>) -> ParameterShape
    ensures { result ≡ form.parameter_shape x.now }
{
    match x {
        ParameterP::Slash => ParameterShape::Marker,
        ParameterP::Normal(_, _, _) => ParameterShape::Normal,
        ParameterP::NoArgs => ParameterShape::Marker,
        ParameterP::Args(_, _) => ParameterShape::Starred,
        ParameterP::KwArgs(_, _) => ParameterShape::Starred,
    }
}

/// That of a target.
pub(crate) fn target_shape<P: AstPayload>(x: &AssignTargetP<P>) -> TargetShape
    ensures { result ≡ form.target_shape x.now }
{
    match x {
        AssignTargetP::Tuple(_) => TargetShape::Tuple,
        AssignTargetP::Index(_) => TargetShape::Index,
        AssignTargetP::Dot(_, _) => TargetShape::Dot,
        AssignTargetP::Identifier(_) => TargetShape::Name,
    }
}

/// That of a clause.
pub(crate) fn clause_shape<P: AstPayload>(x: &ClauseP<P>) -> ClauseShape
    ensures { result ≡ form.clause_shape x.now }
{
    match x {
        ClauseP::For(_) => ClauseShape::For,
        ClauseP::If(_) => ClauseShape::If,
    }
}
