//! The forms of nodes, and what stands around their parts.

use starlark_ast::ast::AstString;
use starlark_place::pos::Span;

/// The form of an expression.
#[derive(Clone, Copy, Debug)]
pub enum Shape {
    Literal,
    Name,
    One,
    Index,
    Operation,
    Three,
    Slice,
    Many,
    Dict,
    Call,
    Lambda,
    ListComprehension,
    DictComprehension,
}

/// The form of a target.
#[derive(Clone, Copy, Debug)]
pub enum TargetShape {
    Tuple,
    Index,
    Dot,
    Name,
}

/// The form of a parameter.
#[derive(Clone, Copy, Debug)]
pub enum ParameterShape {
    Marker,
    Normal,
    Starred,
}

/// The form of a clause.
#[derive(Clone, Copy, Debug)]
pub enum ClauseShape {
    For,
    If,
}

/// What stands around one expression.
#[derive(Debug, Drop)]
pub enum AroundOne {
    Dot(AstString),
    Not,
    Minus,
    Plus,
    BitNot,
}

/// What stands around three expressions.
#[derive(Debug, Drop)]
pub enum AroundThree {
    Index2,
    If,
}

/// What stands around expressions of any number.
#[derive(Debug, Drop)]
pub enum AroundMany {
    Tuple,
    List,
    /// The place of the f-string, and its format.
    FString(Span, AstString),
}

/// What stands around the value of an argument.
#[derive(Debug, Drop)]
pub enum AroundArgument {
    Positional,
    Named(AstString),
    Args,
    KwArgs,
}

/// A marker between parameters.
#[derive(Debug, Drop)]
pub enum Marker {
    Slash,
    NoArgs,
}

/// What stands before the name of a parameter that takes all others.
#[derive(Debug, Drop)]
pub enum Starred {
    Args,
    KwArgs,
}
