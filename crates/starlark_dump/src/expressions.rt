//! The lines of an expression and of what stands in it.

use crate::lines::Lines;
use starlark_ast::ast::{
    Argument, AssignTarget, AstArgument, AstAssignIdent, AstAssignTarget, AstExpr, AstFString,
    AstLiteral, AstParameter, AstString, AstTypeExpr, Clause, Expr, ForClause, Parameter,
};
use starlark_lexer::place::pos::Span;
use std::alloc::AllocError;

/// The name of an expression's variant; of a literal that of its kind.
fn expression_name(x: &Expr) -> &'static str {
    match x {
        Expr::Tuple(_) => "Tuple",
        Expr::Dot(_, _) => "Dot",
        Expr::Call(_, _) => "Call",
        Expr::Index(_) => "Index",
        Expr::Index2(_) => "Index2",
        Expr::Slice(_, _, _, _) => "Slice",
        Expr::Identifier(_) => "Identifier",
        Expr::Lambda(_) => "Lambda",
        Expr::Literal(literal) => literal_name(literal),
        Expr::Not(_) => "Not",
        Expr::Minus(_) => "Minus",
        Expr::Plus(_) => "Plus",
        Expr::BitNot(_) => "BitNot",
        Expr::Op(_, _, _) => "Op",
        Expr::If(_) => "If",
        Expr::List(_) => "List",
        Expr::Dict(_) => "Dict",
        Expr::ListComprehension(_, _, _) => "ListComprehension",
        Expr::DictComprehension(_, _, _) => "DictComprehension",
        Expr::FString(_) => "FString",
    }
}

/// The name of a literal's variant.
fn literal_name(x: &AstLiteral) -> &'static str {
    match x {
        AstLiteral::Int(_) => "Int",
        AstLiteral::Float(_) => "Float",
        AstLiteral::String(_) => "String",
        AstLiteral::Bytes(_) => "Bytes",
        AstLiteral::Ellipsis => "Ellipsis",
    }
}

/// What an expression itself holds, behind its place: a name, a literal, an operator.
fn push_own(lines: &mut Lines, x: &Expr) -> Result<(), AllocError> {
    match x {
        Expr::Identifier(name) => lines.say(&name.node),
        Expr::Literal(AstLiteral::Ellipsis) => Ok(()),
        Expr::Literal(literal) => lines.say(literal),
        Expr::Op(_, operator, _) => lines.say_operator(operator),
        _ => Ok(()),
    }
}

/// The lines of an expression: its own, and those of what it is made of.
#[cycle(expressions)]
pub(crate) fn push_expression(lines: &mut Lines, x: &AstExpr) -> Result<(), AllocError> {
    lines.begin_at(expression_name(&x.node), x.span)?;
    push_own(lines, &x.node)?;
    lines.open()?;
    push_operands(lines, &x.node)?;
    push_slice(lines, &x.node)?;
    push_members(lines, &x.node)?;
    push_comprehension(lines, &x.node)?;
    lines.close();
    Ok(())
}

/// The lines of the operands of an expression that has a fixed number of them, but for a slice.
#[cycle(expressions)]
fn push_operands(lines: &mut Lines, x: &Expr) -> Result<(), AllocError> {
    match x {
        Expr::Dot(object, name) => {
            push_expression(lines, object)?;
            push_attribute(lines, name)
        }
        Expr::Index(parts) => {
            push_expression(lines, &parts.0)?;
            push_expression(lines, &parts.1)
        }
        Expr::Index2(parts) => {
            push_expression(lines, &parts.0)?;
            push_expression(lines, &parts.1)?;
            push_expression(lines, &parts.2)
        }
        Expr::Not(operand) => push_expression(lines, operand),
        Expr::Minus(operand) => push_expression(lines, operand),
        Expr::Plus(operand) => push_expression(lines, operand),
        Expr::BitNot(operand) => push_expression(lines, operand),
        Expr::Op(left, _, right) => {
            push_expression(lines, left)?;
            push_expression(lines, right)
        }
        Expr::If(parts) => {
            push_expression(lines, &parts.0)?;
            push_expression(lines, &parts.1)?;
            push_expression(lines, &parts.2)
        }
        _ => Ok(()),
    }
}

/// The lines of the object and the bounds of a slice, `None` for a bound that is missing.
#[cycle(expressions)]
fn push_slice(lines: &mut Lines, x: &Expr) -> Result<(), AllocError> {
    let Expr::Slice(object, from, to, step) = x else {
        return Ok(());
    };
    push_expression(lines, object)?;
    match from {
        None => lines.word("None")?,
        Some(x) => push_expression(lines, x)?,
    }
    match to {
        None => lines.word("None")?,
        Some(x) => push_expression(lines, x)?,
    }
    match step {
        None => lines.word("None"),
        Some(x) => push_expression(lines, x),
    }
}

/// The lines of the members of an expression that has a list of them, but for a comprehension.
#[cycle(expressions)]
fn push_members(lines: &mut Lines, x: &Expr) -> Result<(), AllocError> {
    match x {
        Expr::Tuple(xs) => {
            for x in xs {
                push_expression(lines, x)?;
            }
            Ok(())
        }
        Expr::List(xs) => {
            for x in xs {
                push_expression(lines, x)?;
            }
            Ok(())
        }
        Expr::Dict(xs) => {
            for x in xs {
                push_expression(lines, &x.0)?;
                push_expression(lines, &x.1)?;
            }
            Ok(())
        }
        Expr::Call(called, args) => {
            push_expression(lines, called)?;
            for x in &args.args {
                push_argument(lines, x)?;
            }
            Ok(())
        }
        Expr::Lambda(inner) => {
            for x in &inner.params {
                push_parameter(lines, x)?;
            }
            push_expression(lines, &inner.body)
        }
        Expr::FString(inner) => push_fields(lines, inner),
        _ => Ok(()),
    }
}

/// The lines of the format and of the fields of an f-string.
#[cycle(expressions)]
fn push_fields(lines: &mut Lines, x: &AstFString) -> Result<(), AllocError> {
    let format = &x.node.format;
    lines.quoted(format.span, format.node.as_str())?;
    for x in &x.node.expressions {
        push_expression(lines, x)?;
    }
    Ok(())
}

/// The lines of a comprehension: its element, and its clauses behind that.
#[cycle(expressions)]
fn push_comprehension(lines: &mut Lines, x: &Expr) -> Result<(), AllocError> {
    match x {
        Expr::ListComprehension(element, first, rest) => {
            push_expression(lines, element)?;
            push_for(lines, first)?;
            for x in rest {
                push_clause(lines, x)?;
            }
            Ok(())
        }
        Expr::DictComprehension(entry, first, rest) => {
            push_expression(lines, &entry.0)?;
            push_expression(lines, &entry.1)?;
            push_for(lines, first)?;
            for x in rest {
                push_clause(lines, x)?;
            }
            Ok(())
        }
        _ => Ok(()),
    }
}

/// The lines of an argument.
#[cycle(expressions)]
fn push_argument(lines: &mut Lines, x: &AstArgument) -> Result<(), AllocError> {
    lines.begin_at(argument_name(&x.node), x.span)?;
    lines.open()?;
    match &x.node {
        Argument::Positional(value) => push_expression(lines, value)?,
        Argument::Named(name, value) => {
            push_attribute(lines, name)?;
            push_expression(lines, value)?;
        }
        Argument::Args(value) => push_expression(lines, value)?,
        Argument::KwArgs(value) => push_expression(lines, value)?,
    }
    lines.close();
    Ok(())
}

/// The name of an argument's variant.
fn argument_name(x: &Argument) -> &'static str {
    match x {
        Argument::Positional(_) => "Positional",
        Argument::Named(_, _) => "Named",
        Argument::Args(_) => "Args",
        Argument::KwArgs(_) => "KwArgs",
    }
}

/// The lines of a parameter.
#[cycle(expressions)]
pub(crate) fn push_parameter(lines: &mut Lines, x: &AstParameter) -> Result<(), AllocError> {
    match &x.node {
        Parameter::Slash => lines.leaf("Slash", x.span),
        Parameter::NoArgs => lines.leaf("NoArgs", x.span),
        Parameter::Normal(name, ty, default) => {
            open_parameter(lines, "Normal", x.span, name)?;
            if let Some(ty) = ty {
                push_type(lines, ty)?;
            }
            if let Some(default) = default {
                push_expression(lines, default)?;
            }
            lines.close();
            Ok(())
        }
        Parameter::Args(name, ty) => {
            open_parameter(lines, "Args", x.span, name)?;
            if let Some(ty) = ty {
                push_type(lines, ty)?;
            }
            lines.close();
            Ok(())
        }
        Parameter::KwArgs(name, ty) => {
            open_parameter(lines, "KwArgs", x.span, name)?;
            if let Some(ty) = ty {
                push_type(lines, ty)?;
            }
            lines.close();
            Ok(())
        }
    }
}

/// The line of a parameter, and that of its name below it.
fn open_parameter(
    lines: &mut Lines,
    variant: &str,
    span: Span,
    name: &AstAssignIdent,
) -> Result<(), AllocError> {
    lines.begin_at(variant, span)?;
    lines.open()?;
    push_name(lines, name)
}

/// The lines of a type.
#[cycle(expressions)]
pub(crate) fn push_type(lines: &mut Lines, x: &AstTypeExpr) -> Result<(), AllocError> {
    lines.begin_at("Type", x.span)?;
    lines.open()?;
    push_expression(lines, &x.node.expr)?;
    lines.close();
    Ok(())
}

/// The lines of a clause.
#[cycle(expressions)]
fn push_clause(lines: &mut Lines, x: &Clause) -> Result<(), AllocError> {
    match x {
        Clause::For(inner) => push_for(lines, inner),
        Clause::If(condition) => {
            lines.begin("If")?;
            lines.open()?;
            push_expression(lines, condition)?;
            lines.close();
            Ok(())
        }
    }
}

/// The lines of a clause that goes over values.
#[cycle(expressions)]
fn push_for(lines: &mut Lines, x: &ForClause) -> Result<(), AllocError> {
    lines.begin("For")?;
    lines.open()?;
    push_target(lines, &x.var)?;
    push_expression(lines, &x.over)?;
    lines.close();
    Ok(())
}

/// The lines of a target.
#[cycle(expressions)]
pub(crate) fn push_target(lines: &mut Lines, x: &AstAssignTarget) -> Result<(), AllocError> {
    match &x.node {
        AssignTarget::Identifier(name) => lines.said("Identifier", x.span, &name.node),
        AssignTarget::Tuple(xs) => {
            lines.begin_at("Tuple", x.span)?;
            lines.open()?;
            for inner in xs {
                push_target(lines, inner)?;
            }
            lines.close();
            Ok(())
        }
        AssignTarget::Index(parts) => {
            lines.begin_at("Index", x.span)?;
            lines.open()?;
            push_expression(lines, &parts.0)?;
            push_expression(lines, &parts.1)?;
            lines.close();
            Ok(())
        }
        AssignTarget::Dot(object, name) => {
            lines.begin_at("Dot", x.span)?;
            lines.open()?;
            push_expression(lines, object)?;
            push_attribute(lines, name)?;
            lines.close();
            Ok(())
        }
    }
}

/// The line of a name that is assigned.
pub(crate) fn push_name(lines: &mut Lines, x: &AstAssignIdent) -> Result<(), AllocError> {
    lines.said("Name", x.span, &x.node)
}

/// The line of a name behind a dot or before an argument.
fn push_attribute(lines: &mut Lines, x: &AstString) -> Result<(), AllocError> {
    lines.said("Name", x.span, &x.node)
}
