//! The statements at the top of a tree, one after another.

ghost use Rattle.std.specs.Prelude.{◌≡◌, []};
ghost use Rattle.starlark_parts.specs.Walk.{left, opened, tops_of};

use starlark_ast::ast::{AstStmt, StmtP};
use std::slice;

/// The statements at the top of a tree that are left. A tree is a list of lines at most, and a line a list of statements
/// at most.
#[derive(Drop)]
pub(crate) struct TopLevel<'a> {
    // of the line that has begun
    row: &'a [AstStmt],
    // the lines behind it
    lines: &'a [AstStmt],
}

impl<'a> TopLevel<'a> {
    /// None.
    pub(crate) fn none() -> TopLevel<'a>
        ensures { left result ≡ [] }
    {
        TopLevel {
            row: &[],
            lines: &[],
        }
    }

    /// All of a tree.
    pub(crate) fn of(tree: &'a AstStmt) -> TopLevel<'a>
        ensures { left result ≡ tops_of tree.now }
    {
        TopLevel {
            row: &[],
            lines: row_of(tree),
        }
    }
}

// the statements of a list, or a statement alone
fn row_of(line: &AstStmt) -> &[AstStmt]
    ensures { result.now ≡ opened line.now }
{
    match &line.node {
        StmtP::Statements(row) => row.as_slice(),
        _ => slice::from_ref(line),
    }
}

impl<'a> Iterator for TopLevel<'a> {
    ghost use Rattle.std.specs.Iterator.{YieldsFirstRef, item_count};
    ghost use Rattle.starlark_parts.specs.Walk.{left};

    type Item = &'a AstStmt;

    ghost next_gives = { YieldsFirstRef left };

    ghost remaining = { item_count left };

    fn next(&mut self) -> Option<&'a AstStmt> {
        while self.row.is_empty() {
            let (line, lines) = self.lines.split_first()?;
            self.lines = lines;
            self.row = row_of(line);
        }
        let (first, row) = self.row.split_first()?;
        self.row = row;
        Some(first)
    }
}
