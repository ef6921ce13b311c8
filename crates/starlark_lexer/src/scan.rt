//! Finds the next lexeme of a text, without memory.

ghost use Rattle.std.specs.Prelude.{Some, None, IfSome, ◌≡◌, ◌<◌, ◌≤◌, ◌+◌, ◌-◌, ◌*◌, ◌^◌, length, drop, slice_index, true, false, if◌then◌else◌, ◌==◌};
ghost use Rattle.std.specs.Str.{bytes_eq};
ghost use Rattle.std.specs.Char.{is_ascii_digit};
ghost use Rattle.std.specs.List.{list_all, list_any, prefix_len};
ghost use Rattle.starlark_lexer.specs.Classes as classes;
ghost use Rattle.starlark_lexer.specs.Scan as spec;
ghost use Rattle.starlark_lexer.specs.Scan.{IsClass, IsEnding};
ghost use Rattle.starlark_lexer.specs.Literals as literals;
ghost use Rattle.starlark_lexer.specs.Fronts as fronts;
ghost use Rattle.starlark_lexer.specs.Reads.{Grows};
ghost use Rattle.starlark_lexer.specs.Turns.{passed, room};

use crate::blocks::{is_word_byte, plain_len, word_len};
use crate::literal::{Ending, Form, body, is_format, opening, quotes};
use crate::token::LexemeError;
use crate::words::{
    KEYWORDS, Keyword, OPERATORS, Operator, RESERVED, alone, is_second, may_be_fixed,
};

#[derive(Clone, Copy, Debug)]
pub(crate) enum Class {
    Blank,
    Word,
    Digit,
    /// Digits of a radix.
    Based(u32),
    Continuation,
}

/// A lexeme without its text.
#[derive(Clone, Copy, Debug)]
pub(crate) enum Kind {
    Newline,
    Comment,
    Word,
    Keyword(Keyword),
    /// Behind so many bytes, in a radix.
    Int(usize, u32),
    Float,
    Operator(Operator),
    /// So many bytes of prefix and quotes, and so many of its body.
    Literal(Form, usize, usize),
    /// The text of an f-string.
    Text(Form),
    Bang,
}

#[derive(Clone, Copy, Debug)]
pub(crate) enum Found {
    Kind(Kind),
    Fault(LexemeError),
    /// A literal.
    Opens(Form),
}

/// Where the text is cut: among lexemes, in the text of an f-string that begins at a place, or in a field of it at a depth.
#[derive(Clone, Copy, Debug)]
pub(crate) enum Mode {
    Code,
    Inside(usize, Form),
    Field(usize, Form, usize),
}

/// What stands before the place, as far as it bears on what comes.
#[derive(Clone, Copy, Debug)]
pub(crate) struct State {
    pub place: usize,
    pub opened: usize,
    pub closed: usize,
    pub line_begin: usize,
    pub line_end: usize,
    pub fresh: bool,
    pub mode: Mode,
}

/// What comes at a place. All numbers count from the place.
#[derive(Clone, Copy, Debug)]
pub(crate) enum Turn {
    /// After so many bytes.
    End(usize),
    Tab(usize),
    Fault(usize, LexemeError, usize),
    /// Its beginning, its length, where to go on, and whether a line begins there.
    Gives(usize, Kind, usize, usize, bool),
    /// A line of that width, behind so many blanks.
    Deeper(usize, usize),
    /// So many widths stay open, behind so many blanks.
    Fits(usize, usize),
    /// An f-string begins with so many bytes.
    Enter(Form, usize),
    /// An f-string ends with so many bytes.
    Leave(usize),
    /// A field begins, or ends.
    Open,
    Shut,
    /// An f-string has no end, after so many bytes.
    Unfinished(usize),
}

/// Counts so many bytes as looked at.
pub(crate) fn look(reads: &mut u64, n: usize)
    ensures paid { reads.new ≤ reads.old + n }
    ensures looked { Grows reads.old n reads.new }
{
    *reads = reads.saturating_add(n as u64);
}

fn is_in(class: Class, b: u8) -> bool
    requires { IsClass class }
    ensures { result ≡ spec.is_in class b }
{
    match class {
        Class::Blank => b == b' ' || b == b'\t' || b == b'\r',
        Class::Word => is_word_byte(b),
        Class::Digit => b.is_ascii_digit(),
        Class::Based(radix) => (b as char).is_digit(radix),
        Class::Continuation => 128 <= b && b < 192,
    }
}

/// How many bytes at the front are of the class. None is counted.
pub(crate) fn run_len(class: Class, bytes: &[u8]) -> usize
    requires { IsClass class }
    ensures value { result ≡ prefix_len (spec.is_in class) bytes.now }
    ensures within { result ≤ length bytes.now }
{
    let mut end = 0;
    while end < bytes.len() && is_in(class, bytes[end]) {
        end += 1;
    }
    end
}

// How many bytes at the front are of the class.
#[tactic(auto, using(crate::proofs::Runs::run_nonempty))]
pub(crate) fn run(class: Class, bytes: &[u8], reads: &mut u64) -> usize
    requires { IsClass class }
    ensures value { result ≡ prefix_len (spec.is_in class) bytes.now }
    ensures within { result ≤ length bytes.now }
    ensures moves { 0 < length bytes.now → spec.is_in class (slice_index bytes.now 0) ≡ true → 0 < result }
    ensures paid { reads.new ≤ reads.old + result + 1 }
    ensures looked { Grows reads.old result reads.new }
{
    let end = match class {
        Class::Word => word_len(bytes),
        class => run_len(class, bytes),
    };
    look(reads, if end < bytes.len() { end + 1 } else { end });
    end
}

fn is_any(mut table: &[&[u8]], word: &[u8]) -> bool
    ensures { result ≡ list_any (λ k. bytes_eq k.now word.now) table.entry.now }
{
    while let [keyword, rest @ ..] = table {
        if *keyword == word {
            return true;
        }
        table = rest;
    }
    false
}

#[tactic(auto, unfolding(crate::specs::Classes::is_reserved))]
pub(crate) fn is_reserved(word: &[u8]) -> bool
    ensures { result ≡ classes.is_reserved word.now }
{
    is_any(&RESERVED, word)
}

fn keyword_in(mut table: &[(&[u8], Keyword)], word: &[u8]) -> Option<Keyword>
    ensures { result ≡ classes.lookup (classes.texts_of table.entry.now) word.now }
{
    while let [row, rest @ ..] = table {
        if row.0 == word {
            return Some(row.1);
        }
        table = rest;
    }
    None
}

#[tactic(auto, unfolding(crate::specs::Classes::keyword_of))]
pub(crate) fn keyword_of(word: &[u8]) -> Option<Keyword>
    ensures { result ≡ classes.keyword_of word.now }
{
    keyword_in(&KEYWORDS, word)
}

fn word(word: &[u8]) -> Found
    ensures { result ≡ spec.word word.now }
{
    if !may_be_fixed(word) {
        return Found::Kind(Kind::Word);
    }
    if let Some(keyword) = keyword_of(word) {
        return Found::Kind(Kind::Keyword(keyword));
    }
    if is_reserved(word) {
        return Found::Fault(LexemeError::ReservedKeyword);
    }
    Found::Kind(Kind::Word)
}

fn operator_in(mut table: &[(&[u8], Operator)], bytes: &[u8]) -> Option<(Operator, usize)>
    ensures { result ≡ spec.first_row (classes.texts_of table.entry.now) bytes.now }
{
    while let [row, rest @ ..] = table {
        if bytes.starts_with(row.0) {
            return Some((row.1, row.0.len()));
        }
        table = rest;
    }
    None
}

/// The operator of one byte at the front, where the byte behind it stands second in none.
fn single(bytes: &[u8]) -> Option<Operator>
    ensures { IfSome result (λ o. spec.first_row classes.operators bytes.now ≡ Some (o, 1)) }
{
    match bytes {
        [b] => alone(*b),
        [b, next, ..] if !is_second(*next) => alone(*b),
        _ => None,
    }
}

/// The operator at the front, or the fault of a character that begins no lexeme.
fn operator(bytes: &[u8], reads: &mut u64) -> (Found, usize)
    ensures value { result ≡ spec.operator (spec.first_row classes.operators bytes.now) }
    ensures paid { reads.new ≤ reads.old + 3 }
    ensures looked { Grows reads.old result.1 reads.new }
{
    look(reads, 3);
    if let Some(operator) = single(bytes) {
        return (Found::Kind(Kind::Operator(operator)), 1);
    }
    match operator_in(&OPERATORS, bytes) {
        Some((operator, len)) => (Found::Kind(Kind::Operator(operator)), len),
        None => (Found::Fault(LexemeError::InvalidInput), 1),
    }
}

/// How long a sign with digits behind it is: 0 where none stands at the front.
#[tactic(auto, unfolding(crate::specs::Scan::signed_len))]
fn signed_len(bytes: &[u8], reads: &mut u64) -> usize
    ensures value { result ≡ spec.signed_len bytes.now }
    ensures within { result ≤ length bytes.now }
    ensures paid { reads.new ≤ reads.old + result + 2 }
    ensures looked { Grows reads.old result reads.new }
{
    if bytes.is_empty() {
        return 0;
    }
    look(reads, 1);
    if bytes[0] != b'+' && bytes[0] != b'-' {
        return 0;
    }
    let digits = run(Class::Digit, &bytes[1..], reads);
    if digits == 0 { 0 } else { digits + 1 }
}

/// How long the exponent at the front is: 0 where none stands there.
#[tactic(auto, unfolding(crate::specs::Scan::exponent_len))]
fn exponent_len(bytes: &[u8], reads: &mut u64) -> usize
    ensures value { result ≡ spec.exponent_len bytes.now }
    ensures within { result ≤ length bytes.now }
    ensures paid { reads.new ≤ reads.old + result + 4 }
    ensures looked { Grows reads.old result reads.new }
{
    if bytes.is_empty() {
        return 0;
    }
    look(reads, 1);
    if bytes[0] != b'e' && bytes[0] != b'E' {
        return 0;
    }
    let digits = run(Class::Digit, &bytes[1..], reads);
    if digits > 0 {
        return digits + 1;
    }
    let signed = signed_len(&bytes[1..], reads);
    if signed == 0 { 0 } else { signed + 1 }
}

/// How long the point, digits and exponent at the front are: 0 where no point stands there.
#[tactic(auto, unfolding(crate::specs::Scan::fraction_len))]
fn fraction_len(bytes: &[u8], reads: &mut u64) -> usize
    ensures value { result ≡ spec.fraction_len bytes.now }
    ensures within { result ≤ length bytes.now }
    ensures paid { reads.new ≤ reads.old + 5 * result + 1 }
    ensures looked { Grows reads.old result reads.new }
{
    if bytes.is_empty() {
        return 0;
    }
    look(reads, 1);
    if bytes[0] != b'.' {
        return 0;
    }
    let digits = run(Class::Digit, &bytes[1..], reads);
    1 + digits + exponent_len(&bytes[1 + digits..], reads)
}

/// How long what follows the digits of a float is: 0 where nothing of it stands at the front.
fn tail_len(bytes: &[u8], reads: &mut u64) -> usize
    ensures value { result ≡ spec.tail_len bytes.now }
    ensures within { result ≤ length bytes.now }
    ensures paid { reads.new ≤ reads.old + 5 * result + (if result == 0 then 5 else 1) }
    ensures looked { Grows reads.old result reads.new }
{
    let fraction = fraction_len(bytes, reads);
    if fraction == 0 {
        exponent_len(bytes, reads)
    } else {
        fraction
    }
}

fn radix_of(letter: u8) -> u32
    ensures value { result ≡ classes.radix_of letter }
    ensures most { result ≤ 16 }
    ensures least { 0 < result → 2 ≤ result }
{
    match letter {
        b'x' => 16,
        b'X' => 16,
        b'o' => 8,
        b'O' => 8,
        b'b' => 2,
        b'B' => 2,
        _ => 0,
    }
}

/// The radix that a number is written in, and how many digits of it stand behind its letter: 0 where it has no letter.
#[tactic(auto, unfolding(crate::specs::Scan::based_len))]
fn based(bytes: &[u8], reads: &mut u64) -> (u32, usize)
    ensures digits { result.1 ≡ spec.based_len bytes.now }
    ensures radix { 0 < result.1 → result.0 ≡ classes.base_of bytes.now }
    ensures within { 0 < result.1 → result.1 + 2 ≤ length bytes.now }
    ensures paid { reads.new ≤ reads.old + result.1 + 3 }
    ensures looked { Grows reads.old result.1 reads.new }
    ensures letter { 0 < result.1 → Grows reads.old (result.1 + 2) reads.new }
{
    if bytes.len() < 2 {
        return (0, 0);
    }
    look(reads, 2);
    let radix = radix_of(bytes[1]);
    if bytes[0] != b'0' || radix == 0 {
        return (0, 0);
    }
    (radix, run(Class::Based(radix), &bytes[2..], reads))
}

/// A point and a digit stand at the front.
fn is_pointed(bytes: &[u8], reads: &mut u64) -> bool
    requires { 0 < length bytes.now }
    ensures value { result ≡ spec.is_pointed bytes.now }
    ensures paid { reads.new ≤ reads.old + 2 }
    ensures looked { Grows reads.old 0 reads.new }
{
    look(reads, 2);
    bytes[0] == b'.' && bytes.len() > 1 && bytes[1].is_ascii_digit()
}

fn is_zeros(digits: &[u8]) -> bool
    requires { list_all is_ascii_digit digits.now ≡ true }
    ensures { result ≡ classes.is_zeros digits.now }
{
    digits.len() > 1 && digits[0] == b'0'
}

/// A number that begins with a digit.
#[tactic(auto, using(crate::proofs::Runs::list_all_run), unfolding(crate::specs::Scan::number_scan))]
fn number(bytes: &[u8], reads: &mut u64) -> (Found, usize)
    requires { 0 < length bytes.now }
    ensures found { result.0 ≡ (spec.number_scan bytes.now).0 }
    ensures len { result.1 ≡ (spec.number_scan bytes.now).1 }
    ensures within { result.1 ≤ length bytes.now }
    ensures paid { is_ascii_digit (slice_index bytes.now 0) ≡ true → reads.new ≤ reads.old + 5 * result.1 + 6 }
    ensures looked { Grows reads.old result.1 reads.new }
{
    let (radix, digits) = based(bytes, reads);
    if digits > 0 {
        return (Found::Kind(Kind::Int(2, radix)), digits + 2);
    }
    let len = run(Class::Digit, bytes, reads);
    let tail = tail_len(&bytes[len..], reads);
    if tail > 0 {
        return (Found::Kind(Kind::Float), len + tail);
    }
    look(reads, 1);
    if is_zeros(&bytes[..len]) {
        (Found::Fault(LexemeError::StartsZero), len)
    } else {
        (Found::Kind(Kind::Int(0, 10)), len)
    }
}

/// The lexeme at the front that is no literal.
#[tactic(auto, using(crate::proofs::Runs::list_all_run), unfolding(crate::specs::Scan::scan_more))]
fn scan_more(bytes: &[u8], reads: &mut u64) -> (Found, usize)
    requires { 0 < length bytes.now }
    ensures found { result.0 ≡ (spec.scan_more bytes.now).0 }
    ensures len { result.1 ≡ (spec.scan_more bytes.now).1 }
    ensures paid { reads.new + fronts.aside bytes.now ≤ reads.old + 5 * result.1 + 7 }
    ensures looked { Grows reads.old result.1 reads.new }
{
    look(reads, 1);
    let b = bytes[0];
    if b.is_ascii_alphabetic() || b == b'_' {
        let len = run(Class::Word, bytes, reads);
        look(reads, len);
        return (word(&bytes[..len]), len);
    }
    if b.is_ascii_digit() {
        return number(bytes, reads);
    }
    if is_pointed(bytes, reads) {
        return (Found::Kind(Kind::Float), tail_len(bytes, reads));
    }
    if b < 128 {
        return operator(bytes, reads);
    }
    let len = 1 + run(Class::Continuation, &bytes[1..], reads);
    (Found::Fault(LexemeError::InvalidInput), len)
}

fn scan(bytes: &[u8], reads: &mut u64) -> (Found, usize)
    requires { 0 < length bytes.now }
    ensures found { result.0 ≡ (spec.scan bytes.now).0 }
    ensures len { result.1 ≡ (spec.scan bytes.now).1 }
    ensures paid { reads.new + (if classes.begins 92 bytes.now then 2 else 0) ≤ reads.old + 5 * result.1 + 8 }
    ensures looked { Grows reads.old result.1 reads.new }
{
    match opening(bytes, reads) {
        Some((form, len)) => (Found::Opens(form), len),
        None => scan_more(bytes, reads),
    }
}

/// How long the line end at the front is: 0 where none stands there.
#[tactic(auto, unfolding(crate::specs::Classes::line_end))]
pub(crate) fn line_end(bytes: &[u8], reads: &mut u64) -> usize
    ensures value { result ≡ classes.line_end bytes.now }
    ensures within { result ≤ length bytes.now }
    ensures short { result ≤ 2 }
    ensures paid { reads.new ≤ reads.old + 2 }
    ensures looked { Grows reads.old 2 reads.new }
{
    look(reads, 2);
    if bytes.is_empty() {
        0
    } else if bytes[0] == b'\n' {
        1
    } else if bytes[0] == b'\r' && bytes.len() > 1 && bytes[1] == b'\n' {
        2
    } else {
        0
    }
}

/// How many bytes stand before the line's end.
#[tactic(auto, using(crate::proofs::Gaps::line_on, crate::proofs::Gaps::line_stop))]
pub(crate) fn line_len(bytes: &[u8], reads: &mut u64) -> usize
    ensures value { result ≡ classes.line_len bytes.now }
    ensures within { result ≤ length bytes.now }
    ensures paid { reads.new ≤ reads.old + 2 * result + 2 }
    ensures looked { Grows reads.old result reads.new }
{
    let mut end = 0;
    loop {
        let len = plain_len(&bytes[end..]);
        look(reads, len);
        end += len;
        if end == bytes.len() || line_end(&bytes[end..], reads) > 0 {
            return end;
        }
        end += 1;
    }
}

/// How many bytes are passed over at once: 0 where none is. The look at the first of them is not counted.
#[tactic(auto, unfolding(crate::specs::Scan::pass))]
fn pass(joined: bool, bytes: &[u8], reads: &mut u64) -> usize
    ensures value { result ≡ spec.pass joined bytes.now }
    ensures within { result ≤ length bytes.now }
    ensures paid { reads.new ≤ reads.old + (if classes.begins 92 bytes.now then 2 else 0) }
    ensures on { 0 < result → reads.new ≤ reads.old + result }
    ensures looked { Grows reads.old 0 reads.new }
{
    if bytes.is_empty() {
        return 0;
    }
    let b = bytes[0];
    if is_in(Class::Blank, b) {
        1
    } else if b == b'\n' {
        if joined { 1 } else { 0 }
    } else if b == b'\\' {
        let len = line_end(&bytes[1..], reads);
        if len == 0 { 0 } else { len + 1 }
    } else {
        0
    }
}

/// How many bytes are passed over.
#[tactic(auto, using(crate::proofs::Gaps::gap_on, crate::proofs::Gaps::gap_stop))]
pub(crate) fn gap(joined: bool, bytes: &[u8], reads: &mut u64) -> usize
    ensures value { result ≡ spec.gap joined 0 bytes.now }
    ensures within { result ≤ length bytes.now }
    ensures paid { reads.new ≤ reads.old + 2 * result + 1 + (if classes.begins 92 (drop result bytes.now) then 2 else 0) }
    ensures looked { Grows reads.old result reads.new }
{
    let mut end = 0;
    loop {
        let len = pass(joined, &bytes[end..], reads);
        if len == 0 {
            look(reads, if end < bytes.len() { end + 1 } else { end });
            return end;
        }
        end += len;
    }
}

fn begins(c: u8, bytes: &[u8]) -> bool
    ensures { result ≡ classes.begins c bytes.now }
{
    !bytes.is_empty() && bytes[0] == c
}

fn closes_field(bytes: &[u8]) -> bool
    ensures { result ≡ classes.closes_field bytes.now }
{
    !bytes.is_empty() && (bytes[0] == b'}' || (bytes[0] == b'!' && !begins(b'=', &bytes[1..])))
}

fn at_ground(mode: Mode) -> bool
    ensures { result ≡ spec.at_ground mode }
{
    match mode {
        Mode::Field(_, _, depth) => depth == 0,
        _ => false,
    }
}

/// What comes in the text of an f-string whose run ends like that.
fn text_turn(form: Form, ending: Ending) -> Turn
    ensures value { result ≡ spec.text_turn form ending }
    ensures paid { fronts.owed ending + 2 ≤ room result }
    ensures passed { passed result ≤ fronts.reached form.quote ending }
{
    match ending {
        Ending::Closed(0) => Turn::Leave(quotes(form.quote)),
        Ending::Closed(len) => Turn::Gives(0, Kind::Text(form), len, len, false),
        Ending::Field(0) => Turn::Open,
        Ending::Field(len) => Turn::Gives(0, Kind::Text(form), len, len, false),
        Ending::Unfinished(len) => Turn::Unfinished(len),
        Ending::Escape(begin, len) => Turn::Fault(begin, LexemeError::InvalidEscapeSequence, len),
    }
}

/// What comes at a place in the text of an f-string.
pub(crate) fn text_here(form: Form, bytes: &[u8], reads: &mut u64) -> Turn
    ensures value { result ≡ spec.text_turn form (literals.body form 0 bytes.now) }
    ensures paid { reads.new + 2 ≤ reads.old + room result }
    ensures looked { Grows reads.old (passed result) reads.new }
{
    text_turn(form, body(form, bytes, reads))
}

/// What a literal with so many bytes of prefix and quotes comes to, whose body ends like that.
fn literal_turn(form: Form, from: usize, ending: Ending) -> Turn
    requires { IsEnding from ending }
    ensures value { result ≡ spec.literal_turn form from ending }
    ensures paid { 0 < from → 5 * from + 13 + fronts.owed ending ≤ room result }
    ensures passed { passed result ≤ from + fronts.reached form.quote ending }
{
    match ending {
        Ending::Closed(len) => {
            let next = from + len + quotes(form.quote);
            Turn::Gives(0, Kind::Literal(form, from, len), next, next, false)
        }
        Ending::Field(len) => Turn::Unfinished(from + len),
        Ending::Unfinished(len) => Turn::Fault(0, LexemeError::UnfinishedStringLiteral, from + len),
        Ending::Escape(begin, len) => Turn::Fault(
            from + begin,
            LexemeError::InvalidEscapeSequence,
            len,
        ),
    }
}

/// What a literal at the front comes to, with so many bytes of prefix and quotes.
fn opens_turn(form: Form, from: usize, bytes: &[u8], reads: &mut u64) -> Turn
    requires within { from ≤ length bytes.now }
    requires short { length bytes.now < 2 ^ 63 }
    ensures value { result ≡ spec.opens_turn form from bytes.now }
    ensures paid { 0 < from → reads.new + 5 * from + 13 ≤ reads.old + room result }
    ensures looked { Grows reads.old (passed result - from) reads.new }
{
    if is_format(form.sort) {
        return Turn::Enter(form, from);
    }
    literal_turn(form, from, body(form, &bytes[from..], reads))
}

/// What stands at a place where nothing is passed over.
#[tactic(auto, unfolding(crate::specs::Scan::here))]
pub(crate) fn here(mode: Mode, bytes: &[u8], reads: &mut u64) -> Turn
    requires { length bytes.now < 2 ^ 63 }
    ensures value { result ≡ spec.here mode bytes.now }
    ensures paid { reads.new + 3 + (if classes.begins 92 bytes.now then 2 else 0) ≤ reads.old + room result }
    ensures looked { Grows reads.old (passed result) reads.new }
{
    if bytes.is_empty() {
        return Turn::End(0);
    }
    look(reads, 1);
    if bytes[0] == b'\n' {
        return Turn::Gives(0, Kind::Newline, 1, 1, true);
    }
    if bytes[0] == b'#' {
        let len = 1 + line_len(&bytes[1..], reads);
        return Turn::Gives(0, Kind::Comment, len, len, false);
    }
    look(reads, 1);
    if at_ground(mode) && closes_field(bytes) {
        return if bytes[0] == b'}' {
            Turn::Shut
        } else {
            Turn::Gives(0, Kind::Bang, 1, 1, false)
        };
    }
    let (found, len) = scan(bytes, reads);
    match found {
        Found::Kind(kind) => Turn::Gives(0, kind, len, len, false),
        Found::Fault(error) => Turn::Fault(0, error, len),
        Found::Opens(form) => opens_turn(form, len, bytes, reads),
    }
}
