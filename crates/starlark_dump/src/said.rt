//! The words `comments`, `loads` and `statements`: what a module says beside its tree.

use crate::quote::push_text;
use starlark_lexer::place::codemap::CodeMap;
use starlark_parser::module::AstModule;
use std::alloc::{AllocError, Global};
use std::fmt::Write;

/// A line for each comment: where it stands, and its text.
pub(crate) fn comments(
    alloc: Global,
    module: &AstModule,
    codemap: &CodeMap,
) -> Result<String, AllocError> {
    let mut out = String::new(alloc);
    for comment in module.comments() {
        if codemap.holds(*comment) {
            let place = codemap.resolve_span(*comment);
            write!(out, "{place} ")?;
            push_text(&mut out, codemap.source_span(*comment))?;
            out.push('\n')?;
        }
    }
    Ok(out)
}

/// A line for each load: where the name of the other module stands, that name, and what is bound.
pub(crate) fn loads(alloc: Global, module: &AstModule) -> Result<String, AllocError> {
    let mut out = String::new(alloc);
    for load in &module.loads(alloc)? {
        let place = load.span.resolve_span();
        write!(out, "{place} ")?;
        push_text(&mut out, load.module_id)?;
        for (local, their) in load.symbols.iter() {
            write!(out, " {local}=")?;
            push_text(&mut out, their)?;
        }
        out.push('\n')?;
    }
    Ok(out)
}

/// A line for each statement but lists, each before those in it: where it stands.
pub(crate) fn statements(alloc: Global, module: &AstModule) -> Result<String, AllocError> {
    let mut out = String::new(alloc);
    for statement in &module.stmt_locations(alloc)? {
        let place = statement.resolve_span();
        write!(out, "{place}\n")?;
    }
    Ok(out)
}
