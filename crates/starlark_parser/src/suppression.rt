//! Findings that comments suppress.

ghost use Rattle.std.specs.Prelude.{◌≡◌, ◌≤◌, ◌<◌, ◌++◌, [], ◌∷◌, true, false, MatchOption, IfSome, length, slice_index, ℕ};
ghost use Rattle.std.specs.List.{list_any};
ghost use Rattle.std.specs.Str.{IsCharBoundary};
ghost use Rattle.starlark_place.specs.Place.{Holds};
ghost use Rattle.starlark_grammar.specs.Comments.{AreHeld};
ghost use Rattle.starlark_parser.specs.Suppressions.{behind, covers, is_suppressed, list_of, names_in, names_of, parts_names, reaches_on, same_text, stands_first, with_next_line};
ghost use Rattle.starlark_parser.specs.Tallies.{IsSound, IsWithin, suppresses, tallied};

use starlark_place::codemap::CodeMap;
use starlark_place::pos::Span;

/// What is known of the comments that count in a block, as far as it was read.
#[derive(Clone, Copy, Drop)]
pub(crate) struct Tally {
    // from the first of them to the last
    token: Span,
    // their lines without line ends
    lines: Span,
    several: bool,
    // whether one of them names what is asked for
    named: bool,
}

/// Whether a finding of this name is suppressed at a place of the source, by comments at these places, each with whether
/// it follows another directly.
pub(crate) fn is_suppressed(
    codemap: &CodeMap,
    comments: &[Span],
    joined: &[bool],
    name: &str,
    finding: Span,
) -> bool
    requires { AreHeld codemap.now.source comments.now joined.now }
    ensures { result ≡ is_suppressed codemap.now.source comments.now joined.now name.now finding }
{
    let mut block = None;
    for (i, comment) in comments.iter().enumerate() {
        if !joined[i] {
            if suppresses(codemap, block, finding) {
                return true;
            }
            block = None;
        }
        block = tallied(codemap, block, *comment, name);
    }
    suppresses(codemap, block, finding)
}

/// What is known of a block with one more comment. One before the first that names something does not count.
fn tallied(codemap: &CodeMap, block: Option<Tally>, comment: Span, name: &str) -> Option<Tally>
    requires { Holds codemap.now.source comment }
    ensures is { result ≡ tallied codemap.now.source name.now block comment }
    ensures sound { IsSound codemap.now.source block → IsSound codemap.now.source result }
{
    let list = list_of(codemap.source_span(comment));
    if block.is_none() && first_name(list).is_none() {
        return None;
    }
    let lines = codemap.line_span_trim_newline(codemap.find_line(comment.begin()));
    let named = names(list, name);
    Some(match block {
        None => Tally {
            token: comment,
            lines,
            several: false,
            named,
        },
        Some(tally) => Tally {
            token: tally.token.merge(comment),
            lines: tally.lines.merge(lines),
            several: true,
            named: tally.named || named,
        },
    })
}

/// Whether the comments of a block suppress a finding at a place.
fn suppresses(codemap: &CodeMap, block: Option<Tally>, finding: Span) -> bool
    requires { IsSound codemap.now.source block }
    ensures { result ≡ suppresses codemap.now.source finding block }
{
    match block {
        None => false,
        Some(tally) => tally.named && covers(codemap, tally, finding),
    }
}

/// Whether comments that name it reach a finding at a place.
fn covers(codemap: &CodeMap, tally: Tally, finding: Span) -> bool
    requires { IsWithin codemap.now.source tally }
    ensures { result ≡ covers codemap.now.source tally.several tally.token tally.lines finding }
{
    let lines = tally.lines;
    let token_end = tally.token.end();
    if !reaches_on(codemap, tally) {
        return finding.intersects(lines);
    }
    u64::from(finding.end().get()) != u64::from(token_end.get()) + 1
        && finding.intersects(with_next_line(codemap, lines))
}

/// Whether the comments speak of the next line, too.
fn reaches_on(codemap: &CodeMap, tally: Tally) -> bool
    requires { IsWithin codemap.now.source tally }
    ensures { result ≡ reaches_on codemap.now.source tally.several tally.token tally.lines }
{
    tally.several
        || tally.token == tally.lines
        || tally.token.end() == tally.lines.end() && stands_first(codemap, tally.token, tally.lines)
}

/// Whether nothing but white space stands before the place on its line.
fn stands_first(codemap: &CodeMap, token: Span, lines: Span) -> bool
    requires token { Holds codemap.now.source token }
    requires lines { Holds codemap.now.source lines }
    requires order { lines.begin ≤ token.begin }
    ensures { result ≡ stands_first codemap.now.source token lines }
{
    let before = Span::new(lines.begin(), token.begin());
    codemap.source_span(before).trim().is_empty()
}

/// The lines with the next one and its line feed, where there is one.
fn with_next_line(codemap: &CodeMap, lines: Span) -> Span
    requires { Holds codemap.now.source lines }
    ensures { result ≡ with_next_line codemap.now.source lines }
{
    match codemap.line_span_opt(codemap.find_line(lines.end()) + 1) {
        None => lines,
        Some(next) => lines.merge(next),
    }
}

/// The list of names of a comment, which begins with its `#`. It is empty in a comment without the words before it.
fn list_of(comment: &str) -> &str
    ensures { result.now ≡ list_of comment.now }
{
    behind("starlark-lint-disable ", behind("#", comment).trim_start())
}

/// What stands behind the front of a text, or nothing where it does not begin so.
fn behind<'a>(front: &str, text: &'a str) -> &'a str
    ensures { result.now ≡ behind front.now text.now }
{
    text.strip_prefix(front).unwrap_or("")
}

/// Whether the name is in a list.
fn names(list: &str, name: &str) -> bool
    ensures { result ≡ list_any (same_text name.now) (names_in list.now) }
{
    let mut rest = list;
    while let Some((first, behind)) = first_name(rest) {
        if name == first {
            return true;
        }
        rest = behind;
    }
    false
}

/// The first name of a list, and what stands behind it.
fn first_name(list: &str) -> Option<(&str, &str)>
    ensures first { MatchOption result (names_in list.now ≡ []) (λ r. (names_in list.now ≡ r.0.now ∷ names_in r.1.now)) }
    ensures shorter { IfSome result (λ r. length r.1.now < length list.now) }
{
    let mut rest = list;
    while !rest.is_empty() {
        let (piece, behind) = first_piece(rest);
        let name = piece.trim();
        if !name.is_empty() {
            return Some((name, behind));
        }
        rest = behind;
    }
    None
}

/// What stands before the first space or comma of a list, and what stands behind it.
fn first_piece(list: &str) -> (&str, &str)
    requires { 0 < length list.now }
    ensures pieces { names_in list.now ≡ names_of (result.0.now ∷ []) ++ names_in result.1.now }
    ensures shorter { length result.1.now < length list.now }
{
    let end = first_cut(list);
    if end == list.len() {
        return (list, "");
    }
    (&list[..end], &list[end + 1..])
}

/// Where the first space or comma stands, or the length.
fn first_cut(list: &str) -> usize
    ensures before { (k : ℕ) → k < result → parts_names (slice_index list.now k) ≡ false }
    ensures there { result < length list.now → parts_names (slice_index list.now result) ≡ true }
    ensures within { result ≤ length list.now }
    ensures boundary { IsCharBoundary list.now result }
{
    let bytes = list.as_bytes();
    for (i, b) in bytes.iter().enumerate() {
        if *b == b' ' || *b == b',' {
            return i;
        }
    }
    bytes.len()
}
