//! Literals: their prefixes, quotes and bodies.

ghost use Rattle.std.specs.Prelude.{◌≡◌, ◌≤◌, ◌<◌, ◌+◌, ◌-◌, ◌*◌, ◌⊎◌, ◌++◌, if◌then◌else◌, IfOk, OnOk, length, take, drop, true, false};
ghost use Rattle.std.specs.List.{prefix_len};
ghost use Rattle.std.specs.Option.{is_some};
ghost use Rattle.std.specs.String.{string_bytes};
ghost use Rattle.starlark_lexer.specs.Fronts as fronts;
ghost use Rattle.starlark_lexer.specs.Literals as spec;
ghost use Rattle.starlark_lexer.specs.Reads.{Grows};

use crate::blocks::plain_len;
use crate::escape::{begins, escape, front, look, raw_escape};
use crate::token::FStringQuote;
use std::alloc::{AllocError, Global};

/// What a literal stands for.
#[derive(Clone, Copy, Debug)]
pub(crate) enum Sort {
    Text,
    Bytes,
    Format,
}

/// What the prefix and quotes of a literal say.
#[derive(Clone, Copy, Debug)]
pub(crate) struct Form {
    pub sort: Sort,
    pub raw: bool,
    pub quote: FStringQuote,
}

/// How the body of a literal ends, and after how many bytes.
#[derive(Clone, Copy, Debug, PartialEq, Eq)]
pub enum Ending {
    /// Before its closing quotes.
    Closed(usize),
    /// Before the brace that opens a field.
    Field(usize),
    /// Before a line end or the text's end.
    Unfinished(usize),
    /// Before an escape that is none, and how many bytes its fault spans.
    Escape(usize, usize),
}

/// What stands at a place of a body.
#[derive(Clone, Copy, Debug)]
pub enum Piece {
    Closing,
    Field,
    Stop,
    /// No escape, and how many bytes its fault spans.
    Wrong(usize),
    /// So many bytes that denote nothing.
    Nothing(usize),
    /// A character, and how many bytes denote it.
    Char(char, usize),
    /// A byte, and how many bytes denote it.
    Byte(u8, usize),
    /// So many bytes that denote themselves.
    Same(usize),
}

/// How many bytes the quotes have.
pub(crate) fn quotes(quote: FStringQuote) -> usize
    ensures { result ≡ spec.quotes quote }
{
    match quote {
        FStringQuote::Single | FStringQuote::Double => 1,
        FStringQuote::TripleSingle | FStringQuote::TripleDouble => 3,
    }
}

fn mark(quote: FStringQuote) -> u8
    ensures { result ≡ spec.mark quote }
{
    match quote {
        FStringQuote::Single | FStringQuote::TripleSingle => b'\'',
        FStringQuote::Double | FStringQuote::TripleDouble => b'"',
    }
}

fn is_triple(quote: FStringQuote) -> bool
    ensures { result ≡ spec.is_triple quote }
{
    quotes(quote) > 1
}

pub(crate) fn is_format(sort: Sort) -> bool
    ensures { result ≡ spec.is_format sort }
{
    matches!(sort, Sort::Format)
}

/// Behind a mark stand the others of the quotes.
fn goes_on(quote: FStringQuote, rest: &[u8], reads: &mut u64) -> bool
    ensures value { result ≡ spec.goes_on quote rest.now }
    ensures paid { reads.new ≤ reads.old + 2 }
    ensures looked { Grows reads.old (if result then spec.quotes quote - 1 else 0) reads.new }
{
    if !is_triple(quote) {
        return true;
    }
    begins(mark(quote), rest, reads) && begins(mark(quote), &rest[1..], reads)
}

/// A brace in an f-string.
fn brace(b: u8, rest: &[u8], reads: &mut u64) -> Piece
    requires some { b ≡ 123 ⊎ b ≡ 125 }
    ensures value { result ≡ spec.brace b rest.now }
    ensures paid { reads.new ≤ reads.old + 1 }
    ensures looked { Grows reads.old (fronts.width result - 1) reads.new }
{
    if begins(b, rest, reads) {
        Piece::Char(b as char, 2)
    } else if b == b'{' {
        Piece::Field
    } else {
        Piece::Same(1)
    }
}

/// What stands at the front of the rest of a body.
#[tactic(auto, using(crate::proofs::Looks::item_passed), unfolding(crate::specs::Literals::piece))]
fn next_piece(form: Form, bytes: &[u8], reads: &mut u64) -> Piece
    ensures value { result ≡ spec.piece form bytes.now }
    ensures paid { reads.new ≤ reads.old + fronts.due result }
    ensures looked { Grows reads.old (fronts.passed form.quote result) reads.new }
{
    if bytes.is_empty() {
        return Piece::Stop;
    }
    look(reads);
    let b = bytes[0];
    let rest = &bytes[1..];
    if b == mark(form.quote) && goes_on(form.quote, rest, reads) {
        return Piece::Closing;
    }
    match b {
        b'\r' => Piece::Nothing(1),
        b'\n' if is_triple(form.quote) => Piece::Same(1),
        b'\n' => Piece::Stop,
        b'\\' if form.raw => raw_escape(form.sort, rest, reads),
        b'\\' => escape(form.sort, rest, reads),
        b'{' | b'}' if is_format(form.sort) => brace(b, rest, reads),
        _ => Piece::Same(1),
    }
}

/// Where a piece that ends a body ends it, so many bytes on.
fn ending_at(at: usize, piece: Piece) -> Option<Ending>
    ensures { result ≡ fronts.ending_at at piece }
{
    match piece {
        Piece::Closing => Some(Ending::Closed(at)),
        Piece::Field => Some(Ending::Field(at)),
        Piece::Stop => Some(Ending::Unfinished(at)),
        Piece::Wrong(len) => Some(Ending::Escape(at, len)),
        _ => None,
    }
}

fn width(piece: Piece) -> usize
    ensures { result ≡ fronts.width piece }
{
    match piece {
        Piece::Nothing(len) => len,
        Piece::Char(_, len) => len,
        Piece::Byte(_, len) => len,
        Piece::Same(len) => len,
        _ => 0,
    }
}

/// How the body ends that begins with the bytes. It takes no memory.
pub(crate) fn body(form: Form, bytes: &[u8], reads: &mut u64) -> Ending
    ensures value { result ≡ spec.body form 0 bytes.now }
    ensures paid { reads.new ≤ reads.old + fronts.owed result }
    ensures looked { Grows reads.old (fronts.reached form.quote result) reads.new }
{
    let mut at = 0;
    while at < bytes.len() {
        at += plain_run(&bytes[at..], reads);
        let piece = next_piece(form, &bytes[at..], reads);
        if let Some(ending) = ending_at(at, piece) {
            return ending;
        }
        at += width(piece);
    }
    Ending::Unfinished(at)
}

/// How many plain bytes stand at the front. They are counted, and one behind them.
fn plain_run(bytes: &[u8], reads: &mut u64) -> usize
    ensures value { result ≡ prefix_len fronts.is_plain bytes.now }
    ensures within { result ≤ length bytes.now }
    ensures paid { reads.new ≤ reads.old + result + 1 }
    ensures looked { Grows reads.old result reads.new }
{
    let len = plain_len(bytes);
    *reads = reads.saturating_add(len as u64).saturating_add(1);
    len
}

/// The plain front of a text, and the rest.
fn plain(text: &str) -> (&str, &str)
    ensures front { result.0.now ≡ take (prefix_len fronts.is_plain text.now) text.now }
    ensures rest { result.1.now ≡ drop (prefix_len fronts.is_plain text.now) text.now }
{
    text.split_at(plain_len(text.as_bytes()))
}

/// Appends what the piece at the front of the text denotes.
fn put_text(value: &mut String, piece: Piece, text: &str) -> Result<(), AllocError>
    requires { fronts.IsText piece text.now }
    ensures { OnOk result (string_bytes value.new ≡ string_bytes value.old ++ fronts.denoted piece text.now) }
{
    match piece {
        Piece::Char(c, _) => value.push(c)?,
        Piece::Same(len) => value.push_str(&text[..len])?,
        Piece::Byte(_, _) => unreachable!(),
        _ => {}
    }
    Ok(())
}

/// What the items of a body of text denote.
pub(crate) fn text_value(alloc: Global, form: Form, text: &str) -> Result<String, AllocError>
    requires { spec.is_bytes form.sort ≡ false }
    ensures { IfOk result (λ t. string_bytes t ≡ spec.value form text.now) }
{
    let mut looked = 0;
    let mut value = String::new(alloc);
    let mut rest = text;
    while !rest.is_empty() {
        let (front, back) = plain(rest);
        value.push_str(front)?;
        let piece = next_piece(form, back.as_bytes(), &mut looked);
        if ending_at(0, piece).is_some() {
            return Ok(value);
        }
        put_text(&mut value, piece, back)?;
        rest = &back[width(piece)..];
    }
    Ok(value)
}

/// Appends what the piece at the front of the bytes denotes.
fn put_bytes(value: &mut Vec<u8>, piece: Piece, bytes: &[u8]) -> Result<(), AllocError>
    requires { fronts.IsBytes piece bytes.now }
    ensures { OnOk result (value.new.items ≡ value.old.items ++ fronts.denoted piece bytes.now) }
{
    match piece {
        Piece::Byte(b, _) => value.push(b)?,
        Piece::Same(len) => value.extend_from_slice(&bytes[..len])?,
        Piece::Char(_, _) => unreachable!(),
        _ => {}
    }
    Ok(())
}

/// What the items of a body of bytes denote.
pub(crate) fn bytes_value(alloc: Global, form: Form, text: &str) -> Result<Vec<u8>, AllocError>
    requires { spec.is_bytes form.sort ≡ true }
    ensures { IfOk result (λ v. v.items ≡ spec.value form text.now) }
{
    let mut looked = 0;
    let mut value = Vec::new(alloc);
    let mut rest = text.as_bytes();
    while !rest.is_empty() {
        let (front, back) = rest.split_at(plain_len(rest));
        value.extend_from_slice(front)?;
        let piece = next_piece(form, back, &mut looked);
        if ending_at(0, piece).is_some() {
            return Ok(value);
        }
        put_bytes(&mut value, piece, back)?;
        rest = back.split_at(width(piece)).1;
    }
    Ok(value)
}

/// How many bytes stand before the first mark.
fn letters(bytes: &[u8], reads: &mut u64) -> usize
    ensures value { result ≡ spec.letters bytes.now }
    ensures within { result ≤ length bytes.now }
    ensures paid { reads.new ≤ reads.old + result + 1 }
    ensures looked { Grows reads.old result reads.new }
{
    let mut end = 0;
    while end < bytes.len() {
        look(reads);
        if bytes[end] == b'\'' || bytes[end] == b'"' {
            return end;
        }
        end += 1;
    }
    end
}

/// What a prefix says.
fn prefix(letters: &[u8]) -> Option<(Sort, bool)>
    ensures { result ≡ spec.prefix_of letters.now }
{
    match letters {
        [] => Some((Sort::Text, false)),
        [b'r'] => Some((Sort::Text, true)),
        [b'b'] => Some((Sort::Bytes, false)),
        [b'f'] => Some((Sort::Format, false)),
        [b'r', b'b'] | [b'b', b'r'] => Some((Sort::Bytes, true)),
        [b'f', b'r'] | [b'r', b'f'] => Some((Sort::Format, true)),
        _ => None,
    }
}

/// The longest quotes at the front.
fn quote_front(bytes: &[u8], reads: &mut u64) -> Option<FStringQuote>
    ensures value { result ≡ fronts.quote_front bytes.now }
    ensures paid { reads.new ≤ reads.old + 1 + (if is_some result then 2 else 0) }
    ensures looked { Grows reads.old (fronts.quotes_len result) reads.new }
{
    if bytes.is_empty() {
        return None;
    }
    look(reads);
    let mark = bytes[0];
    if mark != b'\'' && mark != b'"' {
        return None;
    }
    let rest = &bytes[1..];
    let triple = begins(mark, rest, reads) && begins(mark, &rest[1..], reads);
    match (mark, triple) {
        (b'\'', true) => Some(FStringQuote::TripleSingle),
        (b'\'', false) => Some(FStringQuote::Single),
        (_, true) => Some(FStringQuote::TripleDouble),
        (_, false) => Some(FStringQuote::Double),
    }
}

/// Whether a literal may begin with the first byte.
fn may_open(bytes: &[u8]) -> bool
    ensures { result ≡ fronts.may_open bytes.now }
{
    !bytes.is_empty() && matches!(bytes[0], b'"' | b'\'' | b'b' | b'f' | b'r')
}

/// The longest prefix and quotes at the front, and how many bytes they have.
pub(crate) fn opening(bytes: &[u8], reads: &mut u64) -> Option<(Form, usize)>
    ensures value { result ≡ fronts.opening_front bytes.now }
    ensures paid { reads.new ≤ reads.old + fronts.tried bytes.now result }
    ensures looked { Grows reads.old (fronts.opening_len result) reads.new }
{
    look(reads);
    if !may_open(bytes) {
        return None;
    }
    let len = letters(front(bytes, 3), reads);
    let (sort, raw) = prefix(&bytes[..len])?;
    let quote = quote_front(&bytes[len..], reads)?;
    Some((Form { sort, raw, quote }, len + quotes(quote)))
}
