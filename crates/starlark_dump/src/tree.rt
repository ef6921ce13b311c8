//! The word `tree`: a line for each node of a tree, parents first.

use crate::expressions::{push_expression, push_name, push_parameter, push_target, push_type};
use crate::lines::Lines;
use starlark_ast::ast::{AssignP, AstExpr, AstNoPayload, AstStmt, DefP, Load, LoadArgP, Stmt};
use std::alloc::{AllocError, Global};

/// The lines of a tree.
pub(crate) fn answer(alloc: Global, tree: &AstStmt) -> Result<String, AllocError> {
    let mut lines = Lines::new(alloc);
    push_statement(&mut lines, tree)?;
    Ok(lines.into_text())
}

/// The name of a statement's variant.
fn statement_name(x: &Stmt) -> &'static str {
    match x {
        Stmt::Break => "Break",
        Stmt::Continue => "Continue",
        Stmt::Pass => "Pass",
        Stmt::Return(_) => "Return",
        Stmt::Expression(_) => "Expression",
        Stmt::Assign(_) => "Assign",
        Stmt::AssignModify(_, _, _) => "AssignModify",
        Stmt::Statements(_) => "Statements",
        Stmt::If(_, _) => "If",
        Stmt::IfElse(_, _) => "IfElse",
        Stmt::For(_) => "For",
        Stmt::Def(_) => "Def",
        Stmt::Load(_) => "Load",
    }
}

/// The lines of a statement: its own, and those of what it is made of.
#[cycle(statements)]
fn push_statement(lines: &mut Lines, x: &AstStmt) -> Result<(), AllocError> {
    lines.begin_at(statement_name(&x.node), x.span)?;
    if let Stmt::AssignModify(_, operator, _) = &x.node {
        lines.say_operator(operator)?;
    }
    lines.open()?;
    push_parts(lines, &x.node)?;
    lines.close();
    Ok(())
}

/// The lines of what a statement is made of.
#[cycle(statements)]
fn push_parts(lines: &mut Lines, x: &Stmt) -> Result<(), AllocError> {
    match x {
        Stmt::Break => Ok(()),
        Stmt::Continue => Ok(()),
        Stmt::Pass => Ok(()),
        Stmt::Return(value) => push_value(lines, value),
        Stmt::Expression(value) => push_expression(lines, value),
        Stmt::Assign(inner) => push_assign(lines, inner),
        Stmt::AssignModify(target, _, value) => {
            push_target(lines, target)?;
            push_expression(lines, value)
        }
        Stmt::Statements(xs) => {
            for inner in xs {
                push_statement(lines, inner)?;
            }
            Ok(())
        }
        Stmt::If(condition, body) => {
            push_expression(lines, condition)?;
            push_statement(lines, body)
        }
        Stmt::IfElse(condition, bodies) => {
            push_expression(lines, condition)?;
            push_statement(lines, &bodies.0)?;
            push_statement(lines, &bodies.1)
        }
        Stmt::For(inner) => {
            push_target(lines, &inner.var)?;
            push_expression(lines, &inner.over)?;
            push_statement(lines, &inner.body)
        }
        Stmt::Def(inner) => {
            push_signature(lines, inner)?;
            push_statement(lines, &inner.body)
        }
        Stmt::Load(inner) => push_load(lines, inner),
    }
}

/// The lines of a function's name, of its parameters, and of the type of its result.
fn push_signature(lines: &mut Lines, x: &DefP<AstNoPayload>) -> Result<(), AllocError> {
    push_name(lines, &x.name)?;
    for param in &x.params {
        push_parameter(lines, param)?;
    }
    if let Some(ty) = &x.return_type {
        push_type(lines, ty)?;
    }
    Ok(())
}

/// The lines of a value, if there is one.
fn push_value(lines: &mut Lines, value: &Option<AstExpr>) -> Result<(), AllocError> {
    match value {
        None => Ok(()),
        Some(x) => push_expression(lines, x),
    }
}

/// The lines of an assignment.
fn push_assign(lines: &mut Lines, x: &AssignP<AstNoPayload>) -> Result<(), AllocError> {
    push_target(lines, &x.lhs)?;
    if let Some(ty) = &x.ty {
        push_type(lines, ty)?;
    }
    push_expression(lines, &x.rhs)
}

/// The lines of a load.
fn push_load(lines: &mut Lines, x: &Load) -> Result<(), AllocError> {
    lines.quoted(x.module.span, x.module.node.as_str())?;
    for symbol in &x.args {
        push_symbol(lines, symbol)?;
    }
    Ok(())
}

/// The lines of a symbol of a load.
fn push_symbol(lines: &mut Lines, x: &LoadArgP<AstNoPayload>) -> Result<(), AllocError> {
    lines.begin("LoadArg")?;
    lines.open()?;
    push_name(lines, &x.local)?;
    lines.quoted(x.their.span, x.their.node.as_str())?;
    if let Some(comma) = &x.comma {
        lines.leaf("Comma", comma.span)?;
    }
    lines.close();
    Ok(())
}
