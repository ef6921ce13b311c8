//! Where the statements of a module stand.

ghost use Rattle.std.specs.Prelude.{◌≡◌, ◌++◌, IfOk, map};
ghost use Rattle.std.specs.List.{All};
ghost use Rattle.starlark_place.specs.Place.{Holds, file_place};
ghost use Rattle.starlark_ast.specs.View.{stmt_at};
ghost use Rattle.starlark_parser.specs.Locations.{locations};
ghost use Rattle.starlark_parser.specs.Shown.{locations_of};

use crate::module::AstModule;
use starlark_ast::ast::{AstStmt, StmtP};
use starlark_place::codemap::CodeMap;
use starlark_place::file_span::FileSpan;
use std::alloc::{AllocError, Global};

impl AstModule {
    /// Where its statements stand, each before those in it. A list of statements is none of them. `Err` comes
    /// where memory, or one more owner of shared data, cannot be had.
    pub fn stmt_locations(&self, alloc: Global) -> Result<Vec<FileSpan>, AllocError>
        ensures { IfOk result (λ v. v.items ≡ locations_of self.now) }
    {
        let mut places = Vec::new(alloc);
        put_locations(&self.codemap, &self.statement, &mut places)?;
        Ok(places)
    }
}

/// Puts where a statement and those in it stand behind other places.
fn put_locations(
    file: &CodeMap,
    statement: &AstStmt,
    places: &mut Vec<FileSpan>,
) -> Result<(), AllocError>
    requires { All (Holds file.now.source) (locations (stmt_at statement.now)) }
    ensures { IfOk result (λ _. places.new.items ≡ places.old.items ++ map (file_place file.now) (locations (stmt_at statement.now))) }
{
    if let StmtP::Statements(xs) = &statement.node {
        for x in xs {
            put_locations(file, x, places)?;
        }
        return Ok(());
    }
    places.push(file.file_span(statement.span)?)?;
    match &statement.node {
        StmtP::If(_, body) => put_locations(file, body, places)?,
        StmtP::IfElse(_, bodies) => {
            put_locations(file, &bodies.0, places)?;
            put_locations(file, &bodies.1, places)?;
        }
        StmtP::For(x) => put_locations(file, &x.body, places)?,
        StmtP::Def(x) => put_locations(file, &x.body, places)?,
        _ => {}
    }
    Ok(())
}
