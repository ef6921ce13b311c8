//! Laws of the definitions.

ghost use Rattle.std.specs.Prelude.{◌*◌, ◌+◌, ◌≡◌, ◌≤◌, ◌↔◌, List, None, count_by, length, map, true, ℕ};
ghost use Rattle.std.specs.Str.{IsUtf8};
ghost use Rattle.std.specs.String.{string_bytes};
ghost use Rattle.std.specs.declared.alloc.Global.{Global};
ghost use Rattle.std.specs.declared.string.String.{String};
ghost use Rattle.std.specs.declared.vec.Vec.{Vec};
ghost use Rattle.starlark_lexer.specs.declared.dialect.TheConstants.Dialect.{AllOptionsInternal, Extended, Standard};
ghost use Rattle.starlark_lexer.specs.declared.words.TheConstants.{KEYWORDS, OPERATORS, RESERVED};
ghost use Rattle.starlark_lexer.specs.Dialects.{all_options, extended, standard};
ghost use Rattle.starlark_lexer.specs.Format.{Parsed, Pieces, part_of};
ghost use Rattle.starlark_lexer.specs.Items.{Lexed, keyword_lexeme, number_of, operator_lexeme};
ghost use Rattle.starlark_lexer.specs.Joining.{IsClosed, IsEven, IsJoined, IsLaid, IsLevel, dedent_item, opens_level};
ghost use Rattle.starlark_lexer.specs.Lex.{Lex, start};
ghost use Rattle.starlark_lexer.specs.Order.{AreFirm, Covers, HoldsEach, InOrder};
ghost use Rattle.starlark_lexer.specs.Words.{keywords, operators, reserved};
ghost use Rattle.starlark_lexer.specs.declared.token.Token.TheVariants as token;

use crate::dialect::{Dialect, DialectTypes};
use crate::format::{EscapeCurlyBrace, FormatConv, FormatError, FormatErrorKind, FormatToken};
use crate::number::TokenIntError;
use crate::token::{FStringConv, FStringQuote, LexemeError, Token, TokenInt};

/// A text has at most one reading.
pub fn one_reading()
    ensures { (text : List ℕ) (a b : Lexed) → Lex start text a → Lex start text b → a ≡ b }
{}

/// Two texts that are cut without fault, of which the first is closed, even and level, are one
/// behind the other cut into what both are cut into: the first's closing line end goes. A text
/// without a `Dedent` is level.
pub fn joined_texts()
    ensures level { (a b : List ℕ) (l m : Lexed) → Lex start a l → Lex start b m → l.fault ≡ None → m.fault ≡ None → IsClosed a → IsEven l.items → IsLevel l.items → IsJoined a b l m }
    ensures flat { (a b : List ℕ) (l m : Lexed) → Lex start a l → Lex start b m → l.fault ≡ None → m.fault ≡ None → IsClosed a → IsEven l.items → count_by dedent_item l.items ≡ 0 → IsJoined a b l m }
{}

/// The same of two texts without fault, of which the first is closed and even, where Dedents may
/// close the first. They stand where the first line of the second that has a width begins, behind
/// all line ends and comments before it, or where no line has one at the second's end, behind all.
/// That first line is not indented.
pub fn joined_layouts()
    ensures { (a b : List ℕ) (l m : Lexed) → Lex start a l → Lex start b m → l.fault ≡ None → m.fault ≡ None → IsClosed a → IsEven l.items → opens_level m.items ≡ true → IsLaid a b l m }
{}

/// Items stand in order in the text, the fault within it, and there are at most two items a byte,
/// and one more.
pub fn in_order()
    ensures order { (text : List ℕ) (l : Lexed) → Lex start text l → InOrder 0 (length text) l.items l.fault }
    ensures few { (text : List ℕ) (l : Lexed) → Lex start text l → length l.items ≤ 2 * length text + 1 }
{}

/// Items and the fault cut no character of the text.
pub fn whole_characters()
    ensures { (text : List ℕ) (l : Lexed) → IsUtf8 text → Lex start text l → HoldsEach text l.items l.fault }
{}

/// Before and between items, and behind them where there is no fault, stand only blanks, line
/// feeds and escaped line ends.
pub fn nothing_left_out()
    ensures { (text : List ℕ) (l : Lexed) → Lex start text l → Covers text 0 l.items l.fault }
{}

/// An identifier and an integer have some bytes, the first of which is an ASCII byte.
pub fn firm_items()
    ensures { (text : List ℕ) (l : Lexed) → Lex start text l → AreFirm text l.items }
{}

/// A format string has at most one reading.
pub fn one_format()
    ensures { (text : List ℕ) (a b : Parsed) → Pieces 0 text a → Pieces 0 text b → a ≡ b }
{}

/// The words and operators that the lexer knows are these.
pub fn words()
    ensures keywords { map (λ r. (r.0.now, keyword_lexeme r.1)) KEYWORDS ≡ keywords }
    ensures reserved { map (λ w. w.now) RESERVED ≡ reserved }
    ensures operators { map (λ r. (r.0.now, operator_lexeme r.1)) OPERATORS ≡ operators }
{}

/// The dialects have these constructs.
pub fn dialects()
    ensures standard { Standard ≡ standard }
    ensures extended { Extended ≡ extended }
    ensures all { AllOptionsInternal ≡ all_options }
{}

/// Dialects are equal where all their switches are, and so are kinds, quotes, conversions and faults.
pub fn choices_compare()
    ensures types { (x y : DialectTypes) → (⟦<DialectTypes as PartialEq>⟧.eq x y ≡ true) ↔ (x ≡ y) }
    ensures dialects { (x y : Dialect) → (⟦<Dialect as PartialEq>⟧.eq x y ≡ true) ↔ (x ≡ y) }
    ensures quotes { (x y : FStringQuote) → (⟦<FStringQuote as PartialEq>⟧.eq x y ≡ true) ↔ (x ≡ y) }
    ensures conversions { (x y : FStringConv) → (⟦<FStringConv as PartialEq>⟧.eq x y ≡ true) ↔ (x ≡ y) }
    ensures captures { (x y : FormatConv) → (⟦<FormatConv as PartialEq>⟧.eq x y ≡ true) ↔ (x ≡ y) }
    ensures braces { (x y : EscapeCurlyBrace) → (⟦<EscapeCurlyBrace as PartialEq>⟧.eq x y ≡ true) ↔ (x ≡ y) }
    ensures kinds { (x y : FormatErrorKind) → (⟦<FormatErrorKind as PartialEq>⟧.eq x y ≡ true) ↔ (x ≡ y) }
    ensures numbers { (x y : TokenIntError) → (⟦<TokenIntError as PartialEq>⟧.eq x y ≡ true) ↔ (x ≡ y) }
    ensures faults { (x y : LexemeError) → (⟦<LexemeError as PartialEq>⟧.eq x y ≡ true) ↔ (x ≡ y) }
{}

/// Integers are equal where all that they say of their literal is.
pub fn integers_compare()
    ensures { (x y : TokenInt) → (⟦<TokenInt as PartialEq>⟧.eq x y ≡ true) ↔ (number_of x ≡ number_of y) }
{}

/// Tokens of one kind that hold something are equal where they hold the same.
pub fn tokens_compare()
    ensures comments { (x y : String Global) → (⟦<Token as PartialEq>⟧.eq (token.Comment x) (token.Comment y) ≡ true) ↔ (string_bytes x ≡ string_bytes y) }
    ensures identifiers { (x y : String Global) → (⟦<Token as PartialEq>⟧.eq (token.Identifier x) (token.Identifier y) ≡ true) ↔ (string_bytes x ≡ string_bytes y) }
    ensures integers { (x y : TokenInt) → (⟦<Token as PartialEq>⟧.eq (token.Int x) (token.Int y) ≡ true) ↔ (number_of x ≡ number_of y) }
    ensures floats { (x y : String Global) → (⟦<Token as PartialEq>⟧.eq (token.Float x) (token.Float y) ≡ true) ↔ (string_bytes x ≡ string_bytes y) }
    ensures strings { (x y : String Global) → (⟦<Token as PartialEq>⟧.eq (token.String x) (token.String y) ≡ true) ↔ (string_bytes x ≡ string_bytes y) }
    ensures bytes { (x y : Vec ℕ Global) → (⟦<Token as PartialEq>⟧.eq (token.Bytes x) (token.Bytes y) ≡ true) ↔ (x.items ≡ y.items) }
    ensures texts { (x y : String Global) → (⟦<Token as PartialEq>⟧.eq (token.FStringText x) (token.FStringText y) ≡ true) ↔ (string_bytes x ≡ string_bytes y) }
    ensures starts { (x y : FStringQuote) → (⟦<Token as PartialEq>⟧.eq (token.FStringStart x) (token.FStringStart y) ≡ true) ↔ (x ≡ y) }
{}

/// Tokens and errors of format strings are equal where they say the same of the same text.
pub fn formats_compare<'a>()
    ensures tokens { (x y : FormatToken) → (⟦<FormatToken<'a> as PartialEq>⟧.eq x y ≡ true) ↔ (part_of x ≡ part_of y) }
    ensures errors { (x y : FormatError) → (⟦<FormatError<'a> as PartialEq>⟧.eq x y ≡ true) ↔ ((x.kind ≡ y.kind) × (x.text.now ≡ y.text.now)) }
{}

/// The clone of what is copied is itself.
pub fn clones_are_copies<'a>()
    ensures types { (x y : DialectTypes) → ⟦<DialectTypes as Clone>⟧.is_clone x y → y ≡ x }
    ensures dialects { (x y : Dialect) → ⟦<Dialect as Clone>⟧.is_clone x y → y ≡ x }
    ensures quotes { (x y : FStringQuote) → ⟦<FStringQuote as Clone>⟧.is_clone x y → y ≡ x }
    ensures conversions { (x y : FStringConv) → ⟦<FStringConv as Clone>⟧.is_clone x y → y ≡ x }
    ensures captures { (x y : FormatConv) → ⟦<FormatConv as Clone>⟧.is_clone x y → y ≡ x }
    ensures braces { (x y : EscapeCurlyBrace) → ⟦<EscapeCurlyBrace as Clone>⟧.is_clone x y → y ≡ x }
    ensures kinds { (x y : FormatErrorKind) → ⟦<FormatErrorKind as Clone>⟧.is_clone x y → y ≡ x }
    ensures numbers { (x y : TokenIntError) → ⟦<TokenIntError as Clone>⟧.is_clone x y → y ≡ x }
    ensures faults { (x y : LexemeError) → ⟦<LexemeError as Clone>⟧.is_clone x y → y ≡ x }
    ensures tokens { (x y : FormatToken) → ⟦<FormatToken<'a> as Clone>⟧.is_clone x y → y ≡ x }
    ensures errors { (x y : FormatError) → ⟦<FormatError<'a> as Clone>⟧.is_clone x y → y ≡ x }
{}

/// The clone of what is copied is made whatever memory there is.
pub fn clones_succeed<'a>()
    ensures types { (x : DialectTypes) → ⟦<DialectTypes as Clone>⟧.is_infallible x }
    ensures dialects { (x : Dialect) → ⟦<Dialect as Clone>⟧.is_infallible x }
    ensures quotes { (x : FStringQuote) → ⟦<FStringQuote as Clone>⟧.is_infallible x }
    ensures conversions { (x : FStringConv) → ⟦<FStringConv as Clone>⟧.is_infallible x }
    ensures captures { (x : FormatConv) → ⟦<FormatConv as Clone>⟧.is_infallible x }
    ensures braces { (x : EscapeCurlyBrace) → ⟦<EscapeCurlyBrace as Clone>⟧.is_infallible x }
    ensures kinds { (x : FormatErrorKind) → ⟦<FormatErrorKind as Clone>⟧.is_infallible x }
    ensures numbers { (x : TokenIntError) → ⟦<TokenIntError as Clone>⟧.is_infallible x }
    ensures faults { (x : LexemeError) → ⟦<LexemeError as Clone>⟧.is_infallible x }
    ensures tokens { (x : FormatToken) → ⟦<FormatToken<'a> as Clone>⟧.is_infallible x }
    ensures errors { (x : FormatError) → ⟦<FormatError<'a> as Clone>⟧.is_infallible x }
{}
