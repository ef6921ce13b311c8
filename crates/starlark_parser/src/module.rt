//! A module: a text with its tree.

ghost use Rattle.std.specs.Str.{IsCharBoundary};
ghost use Rattle.starlark_ast.specs.View.{stmt_at};
ghost use Rattle.starlark_grammar.specs.Comments.{AreHeld};
ghost use Rattle.starlark_grammar.specs.Ends.{StatementAt};

use crate::fault::EvalException;
use crate::parsing::module_of;
use crate::suppression::is_suppressed;
use starlark_ast::ast::AstStmt;
use starlark_clone::discard::discard_stmt;
use starlark_lexer::dialect::Dialect;
use starlark_place::codemap::{CodeMap, CodeMapId};
use starlark_place::file_span::FileSpan;
use starlark_place::pos::Span;
use starlark_read::cost::Cost;
use starlark_read::told::Comments;
use std::alloc::{AllocError, Global};

/// A text that is in the language, with its tree, in which `replace_binary_operators` may have put calls.
#[derive(Debug)]
pub struct AstModule {
    pub(crate) codemap: CodeMap,
    pub(crate) statement: AstStmt,
    pub(crate) dialect: Dialect,
    pub(crate) comments: Comments,
    // each place in the tree begins and ends between two characters
    pub ghost held: { ∥ StatementAt (IsCharBoundary codemap.source) (stmt_at statement) ∥₁ },
    // so does each comment, and each has its flag
    pub ghost comments_held: { AreHeld codemap.source comments.places.items comments.joined.items },
}

// Written out, so that a crate that lets a module go need not prove how the parts of a tree are let go.
impl Drop for AstModule {
    fn drop(self) {
        let AstModule {
            codemap: _codemap,
            statement,
            dialect: _,
            comments: _comments,
        } = self;
        discard_stmt(statement);
    }
}

impl AstModule {
    ghost use Rattle.std.specs.Prelude.{◌≡◌, ◌<◌, ◌↔◌, IfOk, IfErr, IsErrOf, string_bytes, length};
    ghost use Rattle.starlark_place.specs.Place.{Holds, file_place};
    ghost use Rattle.starlark_grammar.specs.Comments.{AreComments};
    ghost use Rattle.starlark_parser.specs.Costs.{Costs};
    ghost use Rattle.starlark_grammar.specs.Language.{Language};
    ghost use Rattle.starlark_parser.specs.Faults.{IsFault};
    ghost use Rattle.starlark_parser.specs.Modules.{comments_of, dialect_of, file_of, joined_of, tree_of};
    ghost use Rattle.starlark_parser.specs.Suppressions.{is_suppressed};

    /// The module of a text under a name. A text of more than `u32::MAX` bytes is `TooLong`, which is looked at first. A
    /// text that is not in the language is refused for one reason: the first from the left of the lexer's fault, a token
    /// that cannot stand and the rules that break at once, or else the first of the other rules in their own order
    /// (docs/LANGUAGE.md, Refusals). `Memory` is answered where memory, or one more owner of shared data, cannot be had.
    pub fn parse(
        alloc: Global,
        id: CodeMapId,
        filename: &str,
        content: String,
        dialect: &Dialect,
    ) -> Result<AstModule, EvalException>
        ensures too_long { IsErrOf result EvalException.TooLong ↔ (4294967295 < length (string_bytes content)) }
        ensures tree { IfOk result (λ m. Language dialect.now (string_bytes content) (tree_of m)) }
        ensures file { IfOk result (λ m. file_of m ≡ record { id = id.0; name = filename.now; source = string_bytes content }) }
        ensures dialect { IfOk result (λ m. dialect_of m ≡ dialect.now) }
        ensures comments { IfOk result (λ m. AreComments (string_bytes content) (comments_of m) (joined_of m)) }
        ensures fault { IfErr result (λ e. IsFault dialect.now (record { id = id.0; name = filename.now; source = string_bytes content }) e) }
    {
        let mut cost = Cost::NONE;
        module_of(alloc, id, filename, content, dialect, &mut cost)
    }

    /// The same as `parse`, and what the reading took. Nothing is asked for behind the first fault of the lexer. Where
    /// memory runs out the cost is of what was read until then, and no more than a text of that length takes.
    pub fn parse_counted(
        alloc: Global,
        id: CodeMapId,
        filename: &str,
        content: String,
        dialect: &Dialect,
    ) -> (Result<AstModule, EvalException>, Cost)
        ensures too_long { IsErrOf result.0 EvalException.TooLong ↔ (4294967295 < length (string_bytes content)) }
        ensures tree { IfOk result.0 (λ m. Language dialect.now (string_bytes content) (tree_of m)) }
        ensures file { IfOk result.0 (λ m. file_of m ≡ record { id = id.0; name = filename.now; source = string_bytes content }) }
        ensures dialect { IfOk result.0 (λ m. dialect_of m ≡ dialect.now) }
        ensures comments { IfOk result.0 (λ m. AreComments (string_bytes content) (comments_of m) (joined_of m)) }
        ensures fault { IfErr result.0 (λ e. IsFault dialect.now (record { id = id.0; name = filename.now; source = string_bytes content }) e) }
        ensures cost { Costs dialect.now (string_bytes content) result.0 result.1 }
    {
        let mut cost = Cost::NONE;
        let module = module_of(alloc, id, filename, content, dialect, &mut cost);
        (module, cost)
    }

    /// The tree.
    pub fn statement(&self) -> &AstStmt
        ensures { result.now ≡ self.now.statement }
    {
        &self.statement
    }

    /// Where the comments stand, each from its `#` on, in order.
    pub fn comments(&self) -> &[Span]
        ensures { result.now ≡ comments_of self.now }
    {
        self.comments.places.as_slice()
    }

    /// Whether comments suppress a finding of a linter, by its name and where it stands: docs/LANGUAGE.md, Suppressions. The
    /// place need not lie in the text.
    pub fn is_suppressed(&self, name: &str, issue_span: Span) -> bool
        ensures { result ≡ is_suppressed (file_of self.now).source (comments_of self.now) (joined_of self.now) name.now issue_span }
    {
        is_suppressed(
            &self.codemap,
            self.comments.places.as_slice(),
            self.comments.joined.as_slice(),
            name,
            issue_span,
        )
    }

    /// Its text, its tree and its dialect.
    pub(crate) fn into_fields(self) -> (CodeMap, AstStmt, Dialect)
        ensures file { result.0 ≡ file_of self }
        ensures tree { stmt_at result.1 ≡ tree_of self }
        ensures dialect { result.2 ≡ dialect_of self }
    {
        let AstModule {
            codemap,
            statement,
            dialect,
            comments: _comments,
        } = self;
        (codemap, statement, dialect)
    }

    /// A stretch of the text with the name of the file. It is refused where std refuses shared data one more owner.
    pub fn file_span(&self, span: Span) -> Result<FileSpan, AllocError>
        requires { Holds (file_of self.now).source span }
        ensures { IfOk result (λ s. s ≡ file_place (file_of self.now) span) }
    {
        self.codemap.file_span(span)
    }
}
