//! One part, which is read alone.

ghost use Rattle.std.specs.Prelude.{◌≡◌, ◌≤◌, ◌↔◌, IfOk, IfErr, IsSome, IsTrue, length, string_bytes};
ghost use Rattle.starlark_place.specs.Place.{line_feeds};
ghost use Rattle.starlark_place.specs.Diagnostic.{span_of};
ghost use Rattle.starlark_lexer.specs.Joining.{IsClosed};
ghost use Rattle.starlark_parser.specs.Modules.{file_of, tree_of};
ghost use Rattle.starlark_ast.specs.View.{stmt_at};
ghost use Rattle.starlark_parts.specs.Flat.{AreWorded, IsFlat};
ghost use Rattle.starlark_parts.specs.Held.{IsPart, IsRead, MissesEnd, RefusesBytes, RefusesText, Resolves, items_of, statements_of, text_of};
ghost use Rattle.starlark_parts.specs.Outlines.{AreItems, IsInLanguage, IsOutline};
ghost use Rattle.starlark_parts.specs.Spent.{SpentOn, nothing_read};
ghost use Rattle.starlark_parts.specs.Walk.{left};

use crate::cursor::{Cursor, reach};
use crate::fault::PartFault;
use crate::laws::good_trees;
use crate::top::TopLevel;
use crate::word::{OutlineItem, Word};
use starlark_ast::ast::AstStmt;
use starlark_grammar::text_laws::one_refusal;
use starlark_lexer::dialect::Dialect;
use starlark_parser::cost::Cost;
use starlark_parser::fault::{EvalException, ParserError};
use starlark_parser::fields::AstModuleFields;
use starlark_parser::module::AstModule;
use starlark_place::codemap::CodeMapId;
use starlark_place::diagnostic::WithDiagnostic;
use std::alloc::{AllocError, Global};
use std::str;

/// A closed text with its tree and its own outline.
#[derive(Drop)]
pub(crate) struct Part {
    // the text with its tree
    read: AstModule,
    // its own outline
    items: Vec<OutlineItem>,
    // how many line feeds it has
    feeds: usize,
}

impl Part {
    /// Its text.
    pub(crate) fn text(&self) -> &str
        ensures { result.now ≡ text_of self.now }
    {
        self.read.codemap().source()
    }

    /// Its own outline.
    pub(crate) fn items(&self) -> &[OutlineItem]
        ensures { result.now ≡ items_of self.now }
    {
        self.items.as_slice()
    }

    /// How many line feeds it has.
    pub(crate) fn feeds(&self) -> usize
        ensures { result ≡ self.now.feeds }
    {
        self.feeds
    }

    /// The statements at the top of its tree.
    pub(crate) fn statements(&self) -> TopLevel<'_>
        ensures { left result ≡ statements_of self.now }
    {
        TopLevel::of(self.read.statement())
    }
}

// whether a text ends in a line feed that no backslash escapes
fn is_closed(text: &[u8]) -> bool
    ensures { IsTrue result ↔ IsClosed text.now }
{
    if !text.ends_with(b"\n") {
        return false;
    }
    if text.ends_with(b"\\\n") {
        return false;
    }
    !text.ends_with(b"\\\r\n")
}

fn count_feeds(text: &[u8]) -> usize
    ensures { result ≡ line_feeds text.now }
{
    text.iter().filter(|b| **b == b'\n').count()
}

// the outline of a text with that tree
fn outline_of(alloc: Global, text: &[u8], tree: &AstStmt) -> Result<Vec<OutlineItem>, AllocError>
    requires flat { IsFlat (stmt_at tree.now) }
    requires worded { AreWorded (stmt_at tree.now) }
    ensures { IfOk result (λ v. AreItems text.now (stmt_at tree.now) v.items) }
{
    let mut items = Vec::new(alloc);
    let mut cursor = Cursor::START;
    let mut walk = TopLevel::of(tree);
    while let Some(statement) = walk.next() {
        let Some(word) = Word::of(statement) else {
            unreachable!()
        };
        cursor = reach(text, cursor, statement.span.begin().get() as usize);
        items.push(OutlineItem {
            word,
            begin: cursor.position(),
        })?;
    }
    Ok(items)
}

/// The outline of a text that is in the language, by reading it. Want of memory is the only refusal.
pub(crate) fn read_outline(
    alloc: Global,
    dialect: &Dialect,
    text: String,
) -> Result<Vec<OutlineItem>, AllocError>
    requires short { length (string_bytes text) ≤ 4294967295 }
    requires language { IsInLanguage dialect.now (string_bytes text) }
    ensures { IfOk result (λ v. IsOutline dialect.now (string_bytes text) v.items) }
{
    good_trees();
    one_refusal();
    match AstModule::parse(alloc, CodeMapId::EMPTY, "part", text, dialect) {
        Ok(module) => outline_of(
            alloc,
            module.codemap().source().as_bytes(),
            module.statement(),
        ),
        Err(EvalException::TooLong) => unreachable!(),
        Err(EvalException::Fault(_)) => unreachable!(),
        Err(EvalException::Memory) => Err(AllocError),
    }
}

// the fault of a reading, by the text's own lines and columns
fn refusal(alloc: Global, fault: WithDiagnostic<ParserError>) -> PartFault
    requires { IsSome (span_of fault) }
    ensures { Resolves fault result }
{
    let Some(span) = fault.span() else {
        unreachable!()
    };
    match span.resolve(alloc) {
        Ok(place) => PartFault::Parse(fault.into_inner(), place),
        Err(_) => PartFault::Memory,
    }
}

// the outline of a module whose text is closed
fn outlined(alloc: Global, read: &AstModule) -> Result<Vec<OutlineItem>, PartFault>
    requires flat { IsFlat (tree_of read.now) }
    requires worded { AreWorded (tree_of read.now) }
    ensures closed { IfOk result (λ _. IsClosed (file_of read.now).source) }
    ensures ok { IfOk result (λ v. AreItems (file_of read.now).source (tree_of read.now) v.items) }
    ensures err { IfErr result (λ f. MissesEnd (file_of read.now).source f) }
{
    let text = read.codemap().source().as_bytes();
    if !is_closed(text) {
        return Err(PartFault::Open);
    }
    Ok(outline_of(alloc, text, read.statement())?)
}

// the part of a module, where its text is closed
fn closed(alloc: Global, read: AstModule) -> Result<Part, PartFault>
    requires flat { IsFlat (tree_of read) }
    requires worded { AreWorded (tree_of read) }
    ensures read { IfOk result (λ p. p.read ≡ read) }
    ensures closed { IfOk result (λ _. IsClosed (file_of read).source) }
    ensures items { IfOk result (λ p. AreItems (file_of read).source (tree_of read) (items_of p)) }
    ensures feeds { IfOk result (λ p. p.feeds ≡ line_feeds (file_of read).source) }
    ensures err { IfErr result (λ f. MissesEnd (file_of read).source f) }
{
    let feeds = count_feeds(read.codemap().source().as_bytes());
    match outlined(alloc, &read) {
        Ok(items) => Ok(Part { read, items, feeds }),
        Err(fault) => Err(fault),
    }
}

// reads a text alone, and says what that took, where nothing was said yet
fn read_text(
    alloc: Global,
    dialect: &Dialect,
    text: &str,
    cost: &mut Cost,
) -> Result<Part, PartFault>
    requires short { length text.now ≤ 4294967295 }
    requires cost { cost.old ≡ nothing_read }
    ensures text { IfOk result (λ p. text_of p ≡ text.now) }
    ensures ok { IfOk result (λ p. IsPart dialect.now p) }
    ensures err { IfErr result (λ f. RefusesText dialect.now text.now f) }
    ensures cost { SpentOn dialect.now text.now result cost.new }
{
    good_trees();
    let content = String::from_str(alloc, text)?;
    let (module, spent) = AstModule::parse_counted(
        alloc,
        CodeMapId::EMPTY,
        "part",
        content,
        dialect,
    );
    *cost = spent;
    match module {
        Ok(module) => closed(alloc, module),
        Err(EvalException::TooLong) => unreachable!(),
        Err(EvalException::Fault(fault)) => Err(refusal(alloc, fault)),
        Err(EvalException::Memory) => Err(PartFault::Memory),
    }
}

/// Reads bytes alone, for which there is so much room, and adds what that took to a cost that is nothing yet.
pub(crate) fn read_part(
    alloc: Global,
    dialect: &Dialect,
    bytes: &[u8],
    room: u64,
    cost: &mut Cost,
) -> Result<Part, PartFault>
    requires room { room ≤ 4294967295 }
    requires cost { cost.old ≡ nothing_read }
    ensures ok { IfOk result (λ p. IsRead dialect.now room bytes.now p) }
    ensures err { IfErr result (λ f. RefusesBytes dialect.now room bytes.now f) }
    ensures cost { SpentOn dialect.now bytes.now result cost.new }
{
    let Ok(text) = str::from_utf8(bytes) else {
        return Err(PartFault::Utf8);
    };
    if text.len() as u64 > room {
        return Err(PartFault::Long);
    }
    read_text(alloc, dialect, text, cost)
}
