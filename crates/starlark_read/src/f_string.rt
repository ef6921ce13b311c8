//! F-strings.

ghost use Rattle.std.specs.Prelude.{◌≡◌, ◌<◌, ◌++◌, ℕ, [], true, false, None, IfOk, OnOk, length, string_bytes, encode_utf8};
ghost use Rattle.std.specs.Bool.{MatchBool};
ghost use Rattle.starlark_lexer.specs.declared.dialect.Dialect.{Dialect};
ghost use Rattle.starlark_ast.specs.Tree as tree;
ghost use Rattle.starlark_grammar.specs.Nodes.{start};
ghost use Rattle.starlark_grammar.specs.Tables.{doubled};
ghost use Rattle.starlark_grammar.specs.Points.{field, letter_wanted, piece_wanted};
ghost use Rattle.starlark_grammar.specs.Frames.{Frames, tail, inside, stands, wants, has};
ghost use Rattle.starlark_read.specs.Gathered.{quoted_ahead, text_ahead};
ghost use Rattle.starlark_read.specs.Reads.{Comes, Goes};

use crate::error::Error;
use crate::expression::expression;
use crate::kind::Kind;
use crate::level::TEST;
use crate::lists::push;
use crate::tokens::Tokens;
use starlark_grammar::make::Make;
use starlark_place::pos::{Pos, Spanned};
use starlark_rulebook::rule::Rule;
use std::alloc::AllocError;

/// Reads the beginning of an f-string, if one stands ahead.
pub(crate) fn opens_f_string(tokens: &mut Tokens) -> Result<bool, AllocError>
    ensures reads { IfOk result (λ found. MatchBool found ((d : Dialect) (k : Frames) → Goes d (wants 0 k) tokens.old (stands (piece_wanted (start tokens.old.items) [] tree.none) (tail 0 k)) tokens.new) ((tokens.new ≡ tokens.old) × (quoted_ahead tokens.old.items ≡ false))) }
    ensures shorter { IfOk result (λ found. found ≡ true → length tokens.new.items < length tokens.old.items) }
{
    if tokens.kind() != Kind::FStringStart {
        return Ok(false);
    }
    tokens.skip()?;
    Ok(true)
}

/// An f-string behind its beginning.
#[cycle(expression)]
pub(crate) fn f_string<B: Make>(tokens: &mut Tokens, begin: Pos) -> Result<B::Expr, Error>
    ensures reads { (d : Dialect) (k : Frames) → Comes d (stands (piece_wanted begin [] tree.none) k) (λ x. has (B.means x) tokens.new.last k) tokens.old result tokens.new }
    ensures shorter { OnOk result (length tokens.new.items < length tokens.old.items) }
{
    let mut format = String::new(tokens.alloc());
    let mut fields = Vec::new(tokens.alloc());
    loop {
        if tokens.accept(Kind::FStringEnd)? {
            return Ok(B::f_string(format, fields, tokens.since(begin)));
        }
        if !text(tokens, &mut format)? {
            tokens.expect(Kind::FStringExprStart)?;
            let next = field::<B>(tokens, &mut format)?;
            push(&mut fields, next)?;
        }
    }
}

/// Reads the text between fields, if one stands ahead, and puts it behind the format.
fn text(tokens: &mut Tokens, format: &mut String) -> Result<bool, AllocError>
    ensures reads { IfOk result (λ found. MatchBool found ((d : Dialect) (b : ℕ) (ms : tree.Members) (k : Frames) → Goes d (stands (piece_wanted b (string_bytes format.old) ms) k) tokens.old (stands (piece_wanted b (string_bytes format.new) ms) k) tokens.new) ((tokens.new ≡ tokens.old) × (format.new ≡ format.old) × (text_ahead tokens.old.items ≡ None))) }
    ensures shorter { IfOk result (λ found. found ≡ true → length tokens.new.items < length tokens.old.items) }
{
    let Some(found) = tokens.f_string_text()? else {
        return Ok(false);
    };
    push_doubled(format, found.node)?;
    Ok(true)
}

/// Puts a text behind the format, its braces doubled.
fn push_doubled(format: &mut String, text: String) -> Result<(), AllocError>
    ensures { IfOk result (λ u. string_bytes format.new ≡ string_bytes format.old ++ doubled (string_bytes text)) }
{
    for c in text.chars() {
        push_twice_if_brace(format, c)?;
    }
    Ok(())
}

/// Puts a character behind the format, twice if it is a brace.
fn push_twice_if_brace(format: &mut String, c: char) -> Result<(), AllocError>
    ensures { IfOk result (λ u. string_bytes format.new ≡ string_bytes format.old ++ doubled (encode_utf8 c)) }
{
    if c == '{' {
        return format.push_str("{{");
    }
    if c == '}' {
        return format.push_str("}}");
    }
    format.push(c)
}

/// A field behind its opening brace.
#[cycle(expression)]
fn field<B: Make>(tokens: &mut Tokens, format: &mut String) -> Result<B::Expr, Error>
    ensures reads { (d : Dialect) (b : ℕ) (ms : tree.Members) (k : Frames) → Comes d (wants 12 (inside (field b (string_bytes format.old) ms) k)) (λ x. stands (piece_wanted b (string_bytes format.new) (tree.more ms (tree.item (B.means x)))) k) tokens.old result tokens.new }
    ensures shorter { OnOk result (length tokens.new.items < length tokens.old.items) }
{
    let found = expression::<B>(tokens, TEST)?;
    if tokens.accept(Kind::FStringExprEnd)? {
        format.push_str("{}")?;
        return Ok(found);
    }
    let begin = tokens.begin();
    tokens.expect(Kind::FStringBang)?;
    conversion(tokens, format, begin)?;
    Ok(found)
}

/// What a field asks for behind its `!`, which begins at `begin`, with the closing brace.
fn conversion(tokens: &mut Tokens, format: &mut String, begin: Pos) -> Result<(), Error>
    ensures reads { (d : Dialect) (b : ℕ) (ms : tree.Members) (q : tree.Expr) (k : Frames) → Comes d (stands (letter_wanted b (string_bytes format.old) ms q begin tokens.old.last) k) (λ u. stands (piece_wanted b (string_bytes format.new) (tree.more ms (tree.item q))) k) tokens.old result tokens.new }
    ensures shorter { OnOk result (length tokens.new.items < length tokens.old.items) }
{
    let Some(letters) = tokens.conversion() else {
        let span = tokens.conversion_place(begin);
        let node = Rule::FStringConversion;
        return Err(tokens.stop(Spanned { span, node }));
    };
    tokens.skip()?;
    format.push_str(letters)?;
    tokens.expect(Kind::FStringExprEnd)?;
    Ok(())
}
