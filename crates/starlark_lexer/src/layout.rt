//! What a line begins with, by its blanks and the widths that are open.

ghost use Rattle.std.specs.Prelude.{◌≡◌, ◌<◌, ◌≤◌, ◌+◌, ◌*◌, ◌^◌, length};
ghost use Rattle.starlark_lexer.specs.Classes as classes;
ghost use Rattle.starlark_lexer.specs.Reads.{Grows};
ghost use Rattle.starlark_lexer.specs.Scan as spec;
ghost use Rattle.starlark_lexer.specs.Turns.{passed, room};

use crate::scan::{Class, Kind, Turn, line_end, line_len, look, run};
use crate::token::LexemeError;

fn is_open(widths: &[usize], width: usize) -> bool
    ensures { result ≡ classes.is_open widths.now width }
{
    if width == 0 {
        return true;
    }
    for x in widths {
        if *x == width {
            return true;
        }
    }
    false
}

/// How many of the widths stay open at a line.
fn kept(widths: &[usize], width: usize) -> usize
    ensures value { result ≡ spec.kept widths.now width }
    ensures within { result ≤ length widths.now }
{
    let mut end = 0;
    while end < widths.len() && widths[end] <= width {
        end += 1;
    }
    end
}

#[tactic(auto, unfolding(crate::specs::Scan::fits))]
fn fits(widths: &[usize], width: usize, gap: usize) -> Turn
    ensures value { result ≡ spec.fits widths.now width gap }
    ensures paid { 3 * gap + 2 ≤ room result }
    ensures passed { passed result ≤ gap }
{
    let kept = kept(widths, width);
    if is_open(widths, width) {
        Turn::Fits(kept, gap)
    } else if kept == widths.len() {
        Turn::Deeper(width, gap)
    } else {
        Turn::Fault(0, LexemeError::Indentation, gap)
    }
}

fn has_tab(blanks: &[u8]) -> bool
    ensures { result ≡ classes.has_tab blanks.now }
{
    blanks.iter().any(|b| *b == b'\t')
}

fn spaces(blanks: &[u8]) -> usize
    ensures { result ≡ classes.spaces blanks.now }
{
    blanks.iter().filter(|b| **b == b' ').count()
}

/// What a line begins with.
#[tactic(auto, unfolding(crate::specs::Scan::line_from))]
pub(crate) fn line_turn(widths: &[usize], bytes: &[u8], reads: &mut u64) -> Turn
    requires { length bytes.now < 2 ^ 63 }
    ensures value { result ≡ spec.line_turn widths.now bytes.now }
    ensures paid { reads.new ≤ reads.old + room result }
    ensures looked { Grows reads.old (passed result) reads.new }
{
    let gap = run(Class::Blank, bytes, reads);
    let rest = &bytes[gap..];
    if rest.is_empty() {
        return Turn::End(gap);
    }
    look(reads, 1);
    if rest[0] == b'\n' {
        return Turn::Gives(gap, Kind::Newline, 1, gap + 1, true);
    }
    if rest[0] == b'#' {
        let len = line_len(&rest[1..], reads);
        let ends = line_end(&rest[1 + len..], reads);
        return Turn::Gives(gap, Kind::Comment, 1 + len, gap + (1 + len) + ends, true);
    }
    let blanks = &bytes[..gap];
    look(reads, gap);
    if has_tab(blanks) {
        Turn::Tab(gap)
    } else {
        look(reads, gap);
        fits(widths, spaces(blanks), gap)
    }
}
