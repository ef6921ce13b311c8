//! A lexer's parts, and one call of it.

ghost use Rattle.std.specs.Prelude.{◌≡◌, ◌<◌, ◌≤◌, ◌+◌, ◌*◌, length, drop, if◌then◌else◌, true, false, Some, IfNone};
ghost use Rattle.starlark_lexer.specs.Classes.{begins};
ghost use Rattle.starlark_lexer.specs.Items.{with_fault};
ghost use Rattle.starlark_lexer.specs.Scan.{in_text};
ghost use Rattle.starlark_lexer.specs.Turns.{IsLexical, passed, room};
ghost use Rattle.starlark_lexer.specs.declared.scan.Turn.TheVariants.{End, Gives, Enter, Fits, Deeper, Leave};
ghost use Rattle.starlark_lexer.specs.declared.scan.Mode.TheVariants.{Inside};
ghost use Rattle.starlark_lexer.specs.Parts.{left, Begins, Hands, Spans, IsStretch, IsWhole, IsReady, Comes, Stands, Advances, Moves, Reaches, IsPaid, Covers};
ghost use Rattle.starlark_lexer.specs.Reads.{Grows};

use crate::layout::line_turn;
use crate::literal::Form;
use crate::making::token;
use crate::scan::{Kind, Mode, State, Turn, gap, here, text_here};
use crate::state::{
    advance, begin_of, body_of, field_of, in_text, is_joined, pass_lexeme, pop, turned,
};
use crate::token::{LexemeError, Token};
use starlark_place::codemap::CodeMap;
use std::alloc::Global;

/// Why nothing more is handed out.
#[derive(Clone, Copy, Debug)]
pub(crate) enum Fault {
    /// Its beginning, the error and its end, in bytes.
    Lexeme(usize, LexemeError, usize),
    Memory,
}

/// A lexeme with its beginning and end, in bytes.
pub(crate) type Answer = Result<(usize, Token, usize), Fault>;

#[derive(Drop)]
pub(crate) struct Parts {
    pub alloc: Global,
    /// Its source is the text.
    pub codemap: CodeMap,
    pub state: State,
    /// The widths that are open, from the outside in.
    pub widths: Vec<usize>,
    /// What is open around the place, from the outside in.
    pub outer: Vec<Mode>,
    /// Dedents that are still to be handed out.
    pub pending: usize,
    /// Where they stand.
    pub margin: usize,
    /// Nothing more comes.
    pub over: bool,
    /// How many looks at bytes were counted.
    pub reads: u64,
}

/// Hands out what comes, and goes on behind it.
#[inline(always)]
fn hand_out(parts: &mut Parts, turn: Turn) -> Answer
    requires whole { IsWhole parts.old }
    requires ready { IsReady parts.old }
    requires comes { Comes parts.old turn }
    requires lexical { IsLexical turn }
    requires paid { Covers parts.old turn }
    ensures whole { IsWhole parts.new }
    ensures text { parts.new.codemap ≡ parts.old.codemap }
    ensures gives { Hands (left parts.old) (Some result) (left parts.new) }
    ensures spans { Spans parts.old.codemap.source (Some result) }
    ensures goes { Advances parts.old parts.new (passed turn) }
    ensures paid { IsPaid parts.new }
    ensures reaches { Reaches (Some result) parts.new.state.place }
{
    let place = parts.state.place;
    match turn {
        Turn::End(gap) => finish(parts, turn, gap),
        Turn::Tab(_) => {
            let (begin, end) = (parts.state.line_begin, parts.state.line_end);
            refuse(parts, begin, LexemeError::InvalidTab, end)
        }
        Turn::Fault(begin, error, len) => refuse(parts, place + begin, error, place + begin + len),
        Turn::Gives(begin, kind, len, next, fresh) => give(
            parts, turn, begin, kind, len, next, fresh,
        ),
        Turn::Enter(form, len) => enter(parts, turn, form, len),
        Turn::Leave(len) => leave(parts, turn, len),
        Turn::Open => {
            parts.state = turned(parts.state, 1, field_of(parts.state.mode));
            Ok((place, Token::FStringExprStart, place + 1))
        }
        Turn::Shut => {
            parts.state = turned(parts.state, 1, body_of(parts.state.mode));
            Ok((place, Token::FStringExprEnd, place + 1))
        }
        Turn::Unfinished(len) => {
            let begin = begin_of(parts.state.mode);
            refuse(
                parts,
                begin,
                LexemeError::UnfinishedStringLiteral,
                place + len,
            )
        }
        Turn::Deeper(_, _) => unreachable!(),
        Turn::Fits(_, _) => unreachable!(),
    }
}

/// Hands out the closing line end at the text's end.
fn finish(parts: &mut Parts, turn: Turn, gap: usize) -> Answer
    requires whole { IsWhole parts.old }
    requires ready { IsReady parts.old }
    requires comes { Comes parts.old turn }
    requires is { turn ≡ End gap }
    requires paid { Covers parts.old turn }
    ensures whole { IsWhole parts.new }
    ensures text { parts.new.codemap ≡ parts.old.codemap }
    ensures gives { Hands (left parts.old) (Some result) (left parts.new) }
    ensures spans { Spans parts.old.codemap.source (Some result) }
    ensures goes { Advances parts.old parts.new (passed turn) }
    ensures paid { IsPaid parts.new }
    ensures reaches { Reaches (Some result) parts.new.state.place }
{
    let end = parts.codemap.source().as_bytes().len();
    parts.state.place = end;
    parts.margin = end;
    parts.pending = parts.widths.len();
    parts.over = true;
    Ok((end, Token::Newline, end))
}

/// Hands out the fault that is left.
fn refuse(parts: &mut Parts, begin: usize, error: LexemeError, end: usize) -> Answer
    requires whole { IsWhole parts.old }
    requires ready { IsReady parts.old }
    requires is { left parts.old ≡ with_fault begin error end }
    requires stretch { IsStretch parts.old.codemap.source begin end }
    requires paid { parts.old.reads ≤ 16 * length parts.old.codemap.source + 16 }
    ensures whole { IsWhole parts.new }
    ensures text { parts.new.codemap ≡ parts.old.codemap }
    ensures gives { Hands (left parts.old) (Some result) (left parts.new) }
    ensures spans { Spans parts.old.codemap.source (Some result) }
    ensures goes { Advances parts.old parts.new 0 }
    ensures paid { IsPaid parts.new }
    ensures reaches { Reaches (Some result) parts.new.state.place }
{
    parts.over = true;
    Err(Fault::Lexeme(begin, error, end))
}

/// Hands out a lexeme.
#[inline(always)]
fn give(
    parts: &mut Parts,
    turn: Turn,
    begin: usize,
    kind: Kind,
    len: usize,
    next: usize,
    fresh: bool,
) -> Answer
    requires whole { IsWhole parts.old }
    requires ready { IsReady parts.old }
    requires comes { Comes parts.old turn }
    requires is { turn ≡ Gives begin kind len next fresh }
    requires paid { Covers parts.old turn }
    ensures whole { IsWhole parts.new }
    ensures text { parts.new.codemap ≡ parts.old.codemap }
    ensures gives { Hands (left parts.old) (Some result) (left parts.new) }
    ensures spans { Spans parts.old.codemap.source (Some result) }
    ensures goes { Advances parts.old parts.new (passed turn) }
    ensures paid { IsPaid parts.new }
    ensures reaches { Reaches (Some result) parts.new.state.place }
{
    let place = parts.state.place;
    let text = &parts.codemap.source()[place + begin..place + begin + len];
    pass_lexeme(&mut parts.state, begin, kind, len, next, fresh);
    match token(parts.alloc, kind, text) {
        Ok(token) => Ok((place + begin, token, place + begin + len)),
        Err(_) => {
            parts.over = true;
            Err(Fault::Memory)
        }
    }
}

/// Hands out the beginning of an f-string.
fn enter(parts: &mut Parts, turn: Turn, form: Form, len: usize) -> Answer
    requires whole { IsWhole parts.old }
    requires ready { IsReady parts.old }
    requires comes { Comes parts.old turn }
    requires is { turn ≡ Enter form len }
    requires paid { Covers parts.old turn }
    ensures whole { IsWhole parts.new }
    ensures text { parts.new.codemap ≡ parts.old.codemap }
    ensures gives { Hands (left parts.old) (Some result) (left parts.new) }
    ensures spans { Spans parts.old.codemap.source (Some result) }
    ensures goes { Advances parts.old parts.new (passed turn) }
    ensures paid { IsPaid parts.new }
    ensures reaches { Reaches (Some result) parts.new.state.place }
{
    let place = parts.state.place;
    if parts.outer.push(parts.state.mode).is_err() {
        parts.over = true;
        return Err(Fault::Memory);
    }
    parts.state = turned(parts.state, len, Mode::Inside(place, form));
    Ok((place, Token::FStringStart(form.quote), place + len))
}

/// Hands out the end of an f-string.
fn leave(parts: &mut Parts, turn: Turn, len: usize) -> Answer
    requires whole { IsWhole parts.old }
    requires ready { IsReady parts.old }
    requires comes { Comes parts.old turn }
    requires is { turn ≡ Leave len }
    requires paid { Covers parts.old turn }
    ensures whole { IsWhole parts.new }
    ensures text { parts.new.codemap ≡ parts.old.codemap }
    ensures gives { Hands (left parts.old) (Some result) (left parts.new) }
    ensures spans { Spans parts.old.codemap.source (Some result) }
    ensures goes { Advances parts.old parts.new (passed turn) }
    ensures paid { IsPaid parts.new }
    ensures reaches { Reaches (Some result) parts.new.state.place }
{
    let place = parts.state.place;
    let below = pop(&mut parts.outer);
    parts.state = turned(parts.state, len, below);
    Ok((place, Token::FStringEnd, place + len))
}

/// What the line that begins here comes with.
fn line_ahead(parts: &Parts, reads: &mut u64) -> Turn
    requires whole { IsWhole parts.now }
    requires fresh { parts.now.state.fresh ≡ true }
    ensures comes { Comes parts.now result }
    ensures paid { reads.new ≤ reads.old + room result }
    ensures looked { Grows reads.old (passed result) reads.new }
{
    let bytes = parts.codemap.source().as_bytes();
    line_turn(&parts.widths, &bytes[parts.state.place..], reads)
}

/// What a line gives ahead of what stands in it.
fn begin_line(parts: &mut Parts) -> Option<Answer>
    requires whole { IsWhole parts.old }
    requires ready { IsReady parts.old }
    requires fresh { parts.old.state.fresh ≡ true }
    requires paid { IsPaid parts.old }
    ensures whole { IsWhole parts.new }
    ensures text { parts.new.codemap ≡ parts.old.codemap }
    ensures gives { Begins parts.old result parts.new }
    ensures spans { Spans parts.old.codemap.source result }
    ensures moves { Moves parts.old parts.new }
    ensures paid { IsPaid parts.new }
    ensures reaches { Reaches result parts.new.state.place }
{
    let mut reads = parts.reads;
    let turn = line_ahead(parts, &mut reads);
    parts.reads = reads;
    match turn {
        Turn::Fits(kept, gap) => fit(parts, turn, kept, gap),
        Turn::Deeper(width, gap) => Some(deepen(parts, turn, width, gap)),
        turn => Some(hand_out(parts, turn)),
    }
}

/// Closes the widths above a line's.
fn fit(parts: &mut Parts, turn: Turn, kept: usize, gap: usize) -> Option<Answer>
    requires whole { IsWhole parts.old }
    requires ready { IsReady parts.old }
    requires comes { Comes parts.old turn }
    requires is { turn ≡ Fits kept gap }
    requires paid { Covers parts.old turn }
    ensures whole { IsWhole parts.new }
    ensures text { parts.new.codemap ≡ parts.old.codemap }
    ensures gives { Begins parts.old result parts.new }
    ensures spans { Spans parts.old.codemap.source result }
    ensures goes { Advances parts.old parts.new (passed turn) }
    ensures paid { IsPaid parts.new }
    ensures reaches { Reaches result parts.new.state.place }
{
    let place = parts.state.place;
    let closed = parts.widths.len() - kept;
    parts.widths.truncate(kept);
    parts.state = turned(parts.state, gap, parts.state.mode);
    if closed == 0 {
        return None;
    }
    parts.pending = closed - 1;
    parts.margin = place;
    Some(Ok((place, Token::Dedent, place)))
}

/// Opens a width.
fn deepen(parts: &mut Parts, turn: Turn, width: usize, gap: usize) -> Answer
    requires whole { IsWhole parts.old }
    requires ready { IsReady parts.old }
    requires comes { Comes parts.old turn }
    requires is { turn ≡ Deeper width gap }
    requires paid { Covers parts.old turn }
    ensures whole { IsWhole parts.new }
    ensures text { parts.new.codemap ≡ parts.old.codemap }
    ensures gives { Hands (left parts.old) (Some result) (left parts.new) }
    ensures spans { Spans parts.old.codemap.source (Some result) }
    ensures goes { Advances parts.old parts.new (passed turn) }
    ensures paid { IsPaid parts.new }
    ensures reaches { Reaches (Some result) parts.new.state.place }
{
    let place = parts.state.place;
    if parts.widths.push(width).is_err() {
        parts.over = true;
        return Err(Fault::Memory);
    }
    parts.state = turned(parts.state, gap, parts.state.mode);
    Ok((place, Token::Indent, place + gap))
}

/// Passes over what gives nothing among lexemes.
fn pass_over(parts: &mut Parts)
    requires whole { IsWhole parts.old }
    requires ready { IsReady parts.old }
    requires within { parts.old.state.fresh ≡ false }
    requires among { in_text parts.old.state.mode ≡ false }
    requires paid { IsPaid parts.old }
    ensures whole { IsWhole parts.new }
    ensures text { parts.new.codemap ≡ parts.old.codemap }
    ensures among { in_text parts.new.state.mode ≡ false }
    ensures same { left parts.new ≡ left parts.old }
    ensures ready { IsReady parts.new }
    ensures stands { Stands parts.new }
    ensures moves { Moves parts.old parts.new }
    ensures paid { parts.new.reads ≤ 16 * parts.new.state.place + 3 + (if begins 92 (drop parts.new.state.place parts.new.codemap.source) then 2 else 0) }
{
    let joined = is_joined(parts.state);
    let bytes = parts.codemap.source().as_bytes();
    let mut reads = parts.reads;
    let gap = gap(joined, &bytes[parts.state.place..], &mut reads);
    parts.reads = reads;
    advance(&mut parts.state, gap);
}

/// What comes among lexemes where nothing is passed over.
fn lexeme_ahead(parts: &Parts, reads: &mut u64) -> Turn
    requires whole { IsWhole parts.now }
    requires stands { Stands parts.now }
    requires among { in_text parts.now.state.mode ≡ false }
    ensures comes { Comes parts.now result }
    ensures lexical { IsLexical result }
    ensures paid { reads.new + 3 + (if begins 92 (drop parts.now.state.place parts.now.codemap.source) then 2 else 0) ≤ reads.old + room result }
    ensures looked { Grows reads.old (passed result) reads.new }
{
    let bytes = parts.codemap.source().as_bytes();
    here(parts.state.mode, &bytes[parts.state.place..], reads)
}

/// What comes in the text of an f-string of that form.
fn text_ahead(parts: &Parts, begin: usize, form: Form, reads: &mut u64) -> Turn
    requires whole { IsWhole parts.now }
    requires within { parts.now.state.fresh ≡ false }
    requires mode { parts.now.state.mode ≡ Inside begin form }
    ensures comes { Comes parts.now result }
    ensures lexical { IsLexical result }
    ensures paid { reads.new + 2 ≤ reads.old + room result }
    ensures looked { Grows reads.old (passed result) reads.new }
{
    let bytes = parts.codemap.source().as_bytes();
    text_here(form, &bytes[parts.state.place..], reads)
}

/// What comes next in the text of an f-string.
fn in_format(parts: &mut Parts, begin: usize, form: Form) -> Answer
    requires whole { IsWhole parts.old }
    requires ready { IsReady parts.old }
    requires within { parts.old.state.fresh ≡ false }
    requires mode { parts.old.state.mode ≡ Inside begin form }
    requires paid { IsPaid parts.old }
    ensures whole { IsWhole parts.new }
    ensures text { parts.new.codemap ≡ parts.old.codemap }
    ensures gives { Hands (left parts.old) (Some result) (left parts.new) }
    ensures spans { Spans parts.old.codemap.source (Some result) }
    ensures moves { Moves parts.old parts.new }
    ensures paid { IsPaid parts.new }
    ensures reaches { Reaches (Some result) parts.new.state.place }
{
    let mut reads = parts.reads;
    let turn = text_ahead(parts, begin, form, &mut reads);
    parts.reads = reads;
    hand_out(parts, turn)
}

/// What comes next among lexemes.
fn in_code(parts: &mut Parts) -> Answer
    requires whole { IsWhole parts.old }
    requires ready { IsReady parts.old }
    requires within { parts.old.state.fresh ≡ false }
    requires among { in_text parts.old.state.mode ≡ false }
    requires paid { IsPaid parts.old }
    ensures whole { IsWhole parts.new }
    ensures text { parts.new.codemap ≡ parts.old.codemap }
    ensures gives { Hands (left parts.old) (Some result) (left parts.new) }
    ensures spans { Spans parts.old.codemap.source (Some result) }
    ensures moves { Moves parts.old parts.new }
    ensures paid { IsPaid parts.new }
    ensures reaches { Reaches (Some result) parts.new.state.place }
{
    pass_over(parts);
    let mut reads = parts.reads;
    let turn = lexeme_ahead(parts, &mut reads);
    parts.reads = reads;
    hand_out(parts, turn)
}

/// What comes next within a line.
fn in_line(parts: &mut Parts) -> Answer
    requires whole { IsWhole parts.old }
    requires ready { IsReady parts.old }
    requires within { parts.old.state.fresh ≡ false }
    requires paid { IsPaid parts.old }
    ensures whole { IsWhole parts.new }
    ensures text { parts.new.codemap ≡ parts.old.codemap }
    ensures gives { Hands (left parts.old) (Some result) (left parts.new) }
    ensures spans { Spans parts.old.codemap.source (Some result) }
    ensures moves { Moves parts.old parts.new }
    ensures paid { IsPaid parts.new }
    ensures reaches { Reaches (Some result) parts.new.state.place }
{
    match parts.state.mode {
        Mode::Inside(begin, form) => in_format(parts, begin, form),
        _ => in_code(parts),
    }
}

/// The next lexeme or the fault. After the first `Err` it answers `None`.
pub(crate) fn next(parts: &mut Parts) -> Option<Answer>
    requires whole { IsWhole parts.old }
    requires paid { IsPaid parts.old }
    ensures whole { IsWhole parts.new }
    ensures text { parts.new.codemap ≡ parts.old.codemap }
    ensures gives { Hands (left parts.old) result (left parts.new) }
    ensures spans { Spans parts.old.codemap.source result }
    ensures moves { Moves parts.old parts.new }
    ensures paid { IsPaid parts.new }
    ensures reaches { Reaches result parts.new.state.place }
    ensures idle { IfNone result (parts.new ≡ parts.old) }
{
    if parts.pending > 0 {
        parts.pending -= 1;
        return Some(Ok((parts.margin, Token::Dedent, parts.margin)));
    }
    if parts.over {
        return None;
    }
    if parts.state.fresh {
        let answer = begin_line(parts);
        if answer.is_some() {
            return answer;
        }
    }
    Some(in_line(parts))
}
