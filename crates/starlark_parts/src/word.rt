//! The words of statements, and the items of outlines.

ghost use Rattle.std.specs.Prelude.{◌≡◌, ◌+◌, ◌<◌, ◌^◌};
ghost use Rattle.starlark_ast.specs.View.{stmt_at};
ghost use Rattle.starlark_parts.specs.Tops.{word_of, word_text};
ghost use Rattle.starlark_parts.specs.Outlines.{item_down};

use starlark_ast::ast::{AstStmt, StmtP};
use starlark_place::resolved::ResolvedPos;
use std::fmt;

/// What a statement at the top of a text is. It prints as `def`, `load`, `assign`, `modify`, `if`, `for`, `expression` or
/// `pass`.
#[derive(Clone, Copy, Debug, PartialEq, Eq)]
pub enum Word {
    Def,
    Load,
    /// An assignment with `=` alone.
    Assign,
    /// An assignment with an operator before its `=`.
    Modify,
    /// With an `else` or without.
    If,
    For,
    Expression,
    Pass,
}

impl Word {
    /// The word of a statement. A `return`, a `break` and a `continue` have none, which no text has at its top, nor has a
    /// list of statements.
    pub fn of(statement: &AstStmt) -> Option<Word>
        ensures { result ≡ word_of (stmt_at statement.now) }
    {
        match &statement.node {
            StmtP::Break => None,
            StmtP::Continue => None,
            StmtP::Pass => Some(Word::Pass),
            StmtP::Return(_) => None,
            StmtP::Expression(_) => Some(Word::Expression),
            StmtP::Assign(_) => Some(Word::Assign),
            StmtP::AssignModify(_, _, _) => Some(Word::Modify),
            StmtP::Statements(_) => None,
            StmtP::If(_, _) => Some(Word::If),
            StmtP::IfElse(_, _) => Some(Word::If),
            StmtP::For(_) => Some(Word::For),
            StmtP::Def(_) => Some(Word::Def),
            StmtP::Load(_) => Some(Word::Load),
        }
    }

    /// How it is written.
    pub fn text(self) -> &'static str
        ensures { result.now ≡ word_text self }
    {
        match self {
            Word::Def => "def",
            Word::Load => "load",
            Word::Assign => "assign",
            Word::Modify => "modify",
            Word::If => "if",
            Word::For => "for",
            Word::Expression => "expression",
            Word::Pass => "pass",
        }
    }
}

impl fmt::Display for Word {
    ghost use Rattle.std.specs.Prelude.{Some};
    ghost use Rattle.starlark_parts.specs.Tops.{word_text};

    ghost output = { λ w. Some (word_text w) };

    fn fmt<W: fmt::Write>(&self, f: &mut fmt::Formatter<W>) -> fmt::Result {
        f.write_str(self.text())
    }
}

/// A statement of an outline.
#[derive(Clone, Copy, Debug, PartialEq, Eq)]
pub struct OutlineItem {
    /// What it is.
    pub word: Word,
    /// The line and column at which it begins, both from 0.
    pub begin: ResolvedPos,
}

impl OutlineItem {
    // the same so many lines further down
    pub(crate) fn below(self, lines: usize) -> OutlineItem
        requires { lines + self.begin.line < 2 ^ 64 }
        ensures { result ≡ item_down lines self }
    {
        OutlineItem {
            word: self.word,
            begin: ResolvedPos {
                line: lines + self.begin.line,
                column: self.begin.column,
            },
        }
    }
}
