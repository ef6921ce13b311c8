//! The loads of a module.

ghost use Rattle.std.specs.Prelude.{◌≡◌, ◌++◌, IfOk, map, string_bytes};
ghost use Rattle.std.specs.List.{All};
ghost use Rattle.starlark_place.specs.Place.{Holds, file_place};
ghost use Rattle.starlark_ast.specs.View.{stmt_at, symbols};
ghost use Rattle.starlark_parser.specs.Loaded.{bindings, loads_in};
ghost use Rattle.starlark_parser.specs.Shown.{binding, loaded, loads_of};

use crate::module::AstModule;
use indexmap::IndexMap;
use starlark_ast::ast::{AstNoPayload, AstStmt, LoadArgP, LoadP, StmtP};
use starlark_place::codemap::CodeMap;
use starlark_place::file_span::FileSpan;
use std::alloc::{AllocError, Global};

/// A load of a module.
#[derive(Debug, Drop)]
pub struct AstLoad<'a> {
    /// Where the name of the other module stands.
    pub span: FileSpan,
    /// The name of the other module.
    pub module_id: &'a str,
    /// What is bound, and the names in the other module that it stands for. A name that is bound again keeps its place
    /// and stands for the later one.
    pub symbols: IndexMap<&'a str, &'a str>,
}

impl AstModule {
    /// The loads at the top of the tree, in order. A dialect without loads has none. `Err` comes where memory,
    /// or one more owner of shared data, cannot be had.
    pub fn loads(&self, alloc: Global) -> Result<Vec<AstLoad<'_>>, AllocError>
        ensures { IfOk result (λ v. map loaded v.items ≡ loads_of self.now) }
    {
        let mut loads = Vec::new(alloc);
        if self.dialect.enable_load {
            put_loads(alloc, &self.codemap, &self.statement, &mut loads)?;
        }
        Ok(loads)
    }
}

/// Puts the loads at the top of a tree behind others.
fn put_loads<'a>(
    alloc: Global,
    file: &CodeMap,
    statement: &'a AstStmt,
    loads: &mut Vec<AstLoad<'a>>,
) -> Result<(), AllocError>
    requires { All (λ x. Holds file.now.source x.at.extent) (loads_in file.now (stmt_at statement.now)) }
    ensures { IfOk result (λ _. map loaded loads.new.items ≡ map loaded loads.old.items ++ loads_in file.now (stmt_at statement.now)) }
{
    match &statement.node {
        StmtP::Load(load) => loads.push(load_of(alloc, file, load)?)?,
        StmtP::Statements(xs) => {
            for x in xs {
                put_loads(alloc, file, x, loads)?;
            }
        }
        _ => {}
    }
    Ok(())
}

/// One load.
fn load_of<'a>(
    alloc: Global,
    file: &CodeMap,
    load: &'a LoadP<AstNoPayload>,
) -> Result<AstLoad<'a>, AllocError>
    requires { Holds file.now.source load.now.module.span }
    ensures at { IfOk result (λ x. x.span ≡ file_place file.now load.now.module.span) }
    ensures name { IfOk result (λ x. x.module_id.now ≡ string_bytes load.now.module.node) }
    ensures binds { IfOk result (λ x. map binding x.symbols.entries ≡ bindings (symbols load.now.args.items)) }
{
    Ok(AstLoad {
        span: file.file_span(load.module.span)?,
        module_id: load.module.node.as_str(),
        symbols: bound(alloc, load.args.as_slice())?,
    })
}

/// What symbols bind.
fn bound<'a>(
    alloc: Global,
    args: &'a [LoadArgP<AstNoPayload>],
) -> Result<IndexMap<&'a str, &'a str>, AllocError>
    ensures { IfOk result (λ m. map binding m.entries ≡ bindings (symbols args.now)) }
{
    let mut bound = IndexMap::new(alloc);
    for arg in args {
        bound.insert(arg.local.node.ident.as_str(), arg.their.node.as_str())?;
    }
    Ok(bound)
}
