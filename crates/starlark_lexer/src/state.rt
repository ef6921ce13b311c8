//! The state behind what was handed out.

ghost use Rattle.std.specs.Prelude.{Some, None, ◌≡◌, ◌<◌, ◌+◌, ◌-◌, ◌^◌, length, take, true, false};
ghost use Rattle.starlark_lexer.specs.Scan as spec;
ghost use Rattle.starlark_lexer.specs.Scan.{depth_of};

use crate::literal::Form;
use crate::scan::{Kind, Mode, State};
use crate::words::Operator;

fn opens(kind: Kind) -> usize
    ensures { result ≡ spec.opens kind }
{
    match kind {
        Kind::Operator(Operator::OpeningRound) => 1,
        Kind::Operator(Operator::OpeningSquare) => 1,
        Kind::Operator(Operator::OpeningCurly) => 1,
        _ => 0,
    }
}

fn closes(kind: Kind) -> usize
    ensures { result ≡ spec.closes kind }
{
    match kind {
        Kind::Operator(Operator::ClosingRound) => 1,
        Kind::Operator(Operator::ClosingSquare) => 1,
        Kind::Operator(Operator::ClosingCurly) => 1,
        _ => 0,
    }
}

/// Goes on behind a lexeme.
pub(crate) fn pass_lexeme(
    state: &mut State,
    begin: usize,
    kind: Kind,
    len: usize,
    next: usize,
    fresh: bool,
)
    requires opened { state.old.opened < 2 ^ 63 }
    requires closed { state.old.closed < 2 ^ 63 }
    requires place { state.old.place + begin + len < 2 ^ 64 }
    requires next { state.old.place + next < 2 ^ 64 }
    requires depth { depth_of state.old.mode < 2 ^ 63 }
    ensures value { state.new ≡ spec.after state.old begin kind len next fresh }
    ensures place { state.new.place ≡ state.old.place + next }
{
    let place = state.place;
    state.place = place + next;
    state.fresh = fresh;
    match state.mode {
        Mode::Code => {
            state.opened += opens(kind);
            state.closed += closes(kind);
            if is_newline(kind) {
                state.line_begin = place + begin;
                state.line_end = place + begin + len;
            }
        }
        mode => state.mode = mode_after(mode, kind),
    }
}

/// The mode behind a lexeme.
fn mode_after(mode: Mode, kind: Kind) -> Mode
    requires { depth_of mode < 2 ^ 63 }
    ensures { result ≡ spec.mode_after mode kind }
{
    match mode {
        Mode::Field(begin, form, depth) => {
            let depth = (depth + opens(kind)).saturating_sub(closes(kind));
            Mode::Field(begin, form, depth)
        }
        mode => mode,
    }
}

fn is_newline(kind: Kind) -> bool
    ensures { result ≡ spec.is_newline kind }
{
    match kind {
        Kind::Newline => true,
        _ => false,
    }
}

/// Goes on by so many bytes within a line.
pub(crate) fn advance(state: &mut State, n: usize)
    requires within { state.old.fresh ≡ false }
    requires fits { state.old.place + n < 2 ^ 64 }
    ensures value { state.new ≡ spec.turned state.old n state.old.mode }
    ensures place { state.new.place ≡ state.old.place + n }
{
    state.place += n;
}

pub(crate) fn turned(state: State, n: usize, mode: Mode) -> State
    requires { state.place + n < 2 ^ 64 }
    ensures value { result ≡ spec.turned state n mode }
    ensures place { result.place ≡ state.place + n }
{
    State {
        place: state.place + n,
        fresh: false,
        mode,
        ..state
    }
}

pub(crate) fn field_of(mode: Mode) -> Mode
    ensures { result ≡ spec.field_of mode }
{
    match mode {
        Mode::Inside(begin, form) => Mode::Field(begin, form, 0),
        mode => mode,
    }
}

pub(crate) fn body_of(mode: Mode) -> Mode
    ensures { result ≡ spec.body_of mode }
{
    match mode {
        Mode::Field(begin, form, _) => Mode::Inside(begin, form),
        mode => mode,
    }
}

pub(crate) fn begin_of(mode: Mode) -> usize
    ensures { result ≡ spec.begin_of mode }
{
    match mode {
        Mode::Code => 0,
        Mode::Inside(begin, _) => begin,
        Mode::Field(begin, _, _) => begin,
    }
}

pub(crate) fn pop(outer: &mut Vec<Mode>) -> Mode
    ensures mode { result ≡ spec.last_mode outer.old.items }
    ensures rest { outer.new.items ≡ take (length outer.old.items - 1) outer.old.items }
{
    match outer.pop() {
        Some(mode) => mode,
        None => Mode::Code,
    }
}

pub(crate) fn in_text(mode: Mode) -> bool
    ensures { result ≡ spec.in_text mode }
{
    match mode {
        Mode::Inside(_, _) => true,
        _ => false,
    }
}

pub(crate) fn is_joined(state: State) -> bool
    ensures { result ≡ spec.is_joined state }
{
    match state.mode {
        Mode::Code => state.opened != state.closed,
        _ => true,
    }
}
