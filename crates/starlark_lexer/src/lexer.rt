//! The lexer, which hands out one lexeme at a time.

ghost use Rattle.std.specs.Prelude.{◌≡◌, ◌≤◌, ◌+◌, ◌*◌, length, IfNone};
ghost use Rattle.starlark_lexer.specs.Lex.{Lex, start};
ghost use Rattle.starlark_lexer.specs.Model.{Counts, Gives, Within};
ghost use Rattle.starlark_lexer.specs.Parts.{IsStretch};
ghost use Rattle.starlark_place.specs.Place.{extent, file_place};
ghost use Rattle.starlark_place.specs.Diagnostic.{Refuses};

use crate::dialect::Dialect;
use crate::parts::{Fault, Parts, next};
use crate::scan::{Mode, State};
use crate::token::{LexemeError, Token};
use starlark_place::codemap::CodeMap;
use starlark_place::diagnostic::Refusal;
use starlark_place::pos::{Pos, Span};
use std::alloc::Global;
use std::marker::Model;

/// Why a text is refused: the error with its place, or want of memory.
pub type EvalException = Refusal<LexemeError>;

/// Cuts a text into lexemes: the source of the code map, which it holds. A clause sees the items and the fault that are
/// left, the length of the text, how much of it is cut, the count of looks so far and the source.
pub struct Lexer {
    parts: Parts,
}

// Written out, so that a crate that lets a lexer go need not prove how its parts are let go.
impl Drop for Lexer {
    fn drop(self) {
        let Lexer { parts: _parts } = self;
    }
}

impl Model for Lexer {
    ghost use Rattle.starlark_lexer.specs.Model.{Reading, view_of, IsLexer};

    ghost Value = { Reading };

    ghost view = { view_of };

    ghost invariant = { IsLexer };
}

impl Lexer {
    /// Stands at the beginning of the input, which is the map's source: comparing it with `CodeMap::source` tells that. The
    /// map is kept, and the input is not. It takes no memory, and the dialect changes no lexeme.
    pub fn new(alloc: Global, input: &str, _dialect: &Dialect, codemap: CodeMap) -> Lexer
        requires { codemap.source ≡ input.now }
        ensures left { Lex start input.now result.left }
        ensures size { result.size ≡ length input.now }
        ensures fits { result.size ≤ 4294967295 }
        ensures place { result.place ≡ 0 }
        ensures reads { result.reads ≡ 0 }
        ensures file { result.file ≡ codemap }
    {
        prove!(codemap.source().len() == input.len());
        Lexer {
            parts: Parts {
                alloc,
                codemap,
                state: State {
                    place: 0,
                    opened: 0,
                    closed: 0,
                    line_begin: 0,
                    line_end: 0,
                    fresh: true,
                    mode: Mode::Code,
                },
                widths: Vec::new(alloc),
                outer: Vec::new(alloc),
                pending: 0,
                margin: 0,
                over: false,
                reads: 0,
            },
        }
    }

    /// The next lexeme with its beginning and end in bytes, or the fault, or `Memory` where memory runs out.
    /// After the first `Err` it answers `None` for ever, as behind the last lexeme. Such a call changes nothing.
    pub fn next(&mut self) -> Option<Result<(usize, Token, usize), EvalException>>
        ensures gives { Gives self.old.file self.old.left result self.new.left }
        ensures within { Within self.old.size result }
        ensures counts { Counts self.old result self.new }
        ensures size { self.new.size ≡ self.old.size }
        ensures fits { self.new.size ≤ 4294967295 }
        ensures file { self.new.file ≡ self.old.file }
        ensures idle { IfNone result (self.new ≡ self.old) }
    {
        match next(&mut self.parts)? {
            Ok(item) => Some(Ok(item)),
            Err(Fault::Lexeme(begin, error, end)) => Some(Err(refusal(
                self.parts.alloc,
                error,
                begin,
                end,
                &self.parts.codemap,
            ))),
            Err(Fault::Memory) => Some(Err(Refusal::Memory)),
        }
    }

    /// How many looks at bytes the scanner has counted so far. It never falls, and it is at least the number of bytes that
    /// are cut: behind the last lexeme of a text without fault, the bytes of the text. It is at most 16 times the bytes of
    /// the text and 16 more.
    pub fn reads(&self) -> u64
        ensures value { result ≡ self.now.reads }
        ensures least { self.now.place ≤ result }
        ensures most { result ≤ 16 * self.now.size + 16 }
    {
        self.parts.reads
    }
}

impl Iterator for Lexer {
    ghost use Rattle.std.specs.Iterator.{at_most};
    ghost use Rattle.starlark_lexer.specs.Items.{answers};
    ghost use Rattle.starlark_lexer.specs.Model.{IsNext};

    type Item = Result<(usize, Token, usize), EvalException>;

    ghost next_gives = { IsNext };

    ghost remaining = { λ s. at_most (answers s.left) };

    fn next(&mut self) -> Option<Result<(usize, Token, usize), EvalException>> {
        Lexer::next(self)
    }
}

/// The error at a stretch of the source.
fn refusal(
    alloc: Global,
    error: LexemeError,
    begin: usize,
    end: usize,
    codemap: &CodeMap,
) -> EvalException
    requires stretch { IsStretch codemap.now.source begin end }
    requires fits { length codemap.now.source ≤ 4294967295 }
    ensures { Refuses error (file_place codemap.now (extent begin end)) result }
{
    let span = Span::new(Pos::new(begin as u32), Pos::new(end as u32));
    Refusal::new(alloc, error, span, codemap)
}
