//! The words that show a tree: it is read, or refused by one line.

use crate::answer::{Refused, codemap_of};
use crate::{outline, said, tree};
use starlark_ast::ast::AstStmt;
use starlark_lexer::dialect::Dialect;
use starlark_lexer::place::codemap::CodeMapId;
use starlark_lexer::place::diagnostic::WithDiagnostic;
use starlark_parser::fault::{EvalException, ParserError};
use starlark_parser::module::AstModule;
use std::alloc::{AllocError, Global};
use std::fmt::Write;

/// What is shown of a tree.
#[derive(Clone, Copy)]
pub(crate) enum Shown {
    /// Where the comments stand, and their texts.
    Comments,
    /// What is loaded.
    Loads,
    /// Where each statement at the top begins, and its word.
    Outline,
    /// What the tree prints.
    Print,
    /// Where each statement stands.
    Statements,
    /// The tree, a line for each node.
    Tree,
}

/// The lines for a text: those of its tree, or that of its refusal.
pub(crate) fn answer(
    alloc: Global,
    shown: Shown,
    text: &str,
    dialect: &Dialect,
) -> Result<String, Refused> {
    let content = String::from_str(alloc, text)?;
    match AstModule::parse(alloc, CodeMapId::EMPTY, "text", content, dialect) {
        Ok(module) => lines(alloc, shown, text, &module),
        Err(EvalException::TooLong) => Err(Refused::Long),
        Err(EvalException::Fault(fault)) => Ok(refusal(alloc, &fault)?),
        Err(EvalException::Memory) => Err(Refused::Memory),
    }
}

/// The lines of the tree of that text.
fn lines(alloc: Global, shown: Shown, text: &str, module: &AstModule) -> Result<String, Refused> {
    let statement = module.statement();
    let codemap = codemap_of(alloc, text)?;
    match shown {
        Shown::Comments => Ok(said::comments(alloc, module, &codemap)?),
        Shown::Loads => Ok(said::loads(alloc, module)?),
        Shown::Outline => Ok(outline::outline(alloc, statement, &codemap)?),
        Shown::Print => Ok(printed(alloc, statement)?),
        Shown::Statements => Ok(said::statements(alloc, module)?),
        Shown::Tree => Ok(tree::answer(alloc, statement)?),
    }
}

/// What a tree prints.
fn printed(alloc: Global, tree: &AstStmt) -> Result<String, AllocError> {
    format!(in alloc; "{}", tree.node)
}

/// The line of a refusal: its place, and what is wrong there.
fn refusal(alloc: Global, fault: &WithDiagnostic<ParserError>) -> Result<String, AllocError> {
    let mut out = String::new(alloc);
    out.push_str("refused ")?;
    if let Some(span) = fault.span() {
        let place = span.resolve_span();
        write!(out, "{place} ")?;
    }
    write!(out, "{:?}\n", *fault.inner())?;
    Ok(out)
}
