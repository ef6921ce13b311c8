//! Statements with calls in the place of operations.

ghost use Rattle.std.specs.Prelude.{◌≡◌, IfOk};
ghost use Rattle.starlark_place.specs.Place.{Extent};
ghost use Rattle.starlark_clone.specs.Replacing.{renaming, replaced_statement};
ghost use Rattle.starlark_ast.specs.View.{stmt_view};

use crate::again_statements::statement;
use crate::kept::Kept;
use crate::rename::Renamed;
use starlark_ast::ast::Stmt;
use std::alloc::{AllocError, Global};
use std::collections::HashMap;

/// The same statement, with lists and texts of its own, in which each operation whose operator is a key of `names`
/// is a call of the name that stands there. A key is an operator's text without spaces around it, as `+` or
/// `not in`. The operands, from left to right, are the call's arguments, and operations in them are calls too. It is
/// refused where memory runs out.
pub fn with_calls_for_operators(
    alloc: Global,
    x: &Stmt,
    names: &HashMap<String, String>,
) -> Result<Stmt, AllocError>
    ensures { IfOk result (λ y. (s : Extent) → stmt_view y s ≡ replaced_statement (renaming names.now) (stmt_view x.now s)) }
{
    statement::<Kept, Renamed>(alloc, &Renamed(names), x)
}
