//! Loads.

ghost use Rattle.std.specs.Prelude.{ℕ, ◌≡◌, ◌≢◌, ◌<◌, ◌≤◌, IfOk, MatchOption, None, OnOk, Some, length, string_bytes};
ghost use Rattle.starlark_lexer.specs.Items.{closing_round, item, string};
ghost use Rattle.starlark_lexer.specs.declared.dialect.Dialect.{Dialect};
ghost use Rattle.starlark_ast.specs.View.{comma_at};
ghost use Rattle.starlark_ast.specs.Tree.{Name, Symbols, load, name_at, no_symbols, symbol};
ghost use Rattle.starlark_grammar.specs.Frames.{Line, behind_small, load_behind, load_opens, load_symbol};
ghost use Rattle.starlark_grammar.specs.Made.{symbol_at, symbols_of};
ghost use Rattle.starlark_grammar.specs.Nodes.{start};
ghost use Rattle.starlark_read.specs.Reads.{Comes, Passes, first_lexeme, string_ahead};
ghost use Rattle.starlark_grammar.specs.Spans.{stretch};

use crate::error::Error;
use crate::kind::Kind;
use crate::lists::push;
use crate::names::name;
use crate::tokens::Tokens;
use starlark_ast::ast::{AssignIdentP, AstNoPayload, Comma, LoadArgP};
use starlark_grammar::build::Build;
use starlark_place::pos::{Pos, Span, Spanned};
use starlark_rulebook::rule::Rule;
use std::alloc::AllocError;

/// A load behind its first word, which begins at `begin`.
pub(crate) fn load<B: Build>(tokens: &mut Tokens, begin: Pos) -> Result<B::Stmt, Error>
    ensures reads { (d : Dialect) (k : Line) → Comes d (load_opens begin k) (λ x. behind_small (B.says x) k) tokens.old result tokens.new }
    ensures shorter { OnOk result (length tokens.new.items ≤ length tokens.old.items) }
{
    tokens.expect(Kind::OpeningRound)?;
    let Some(source) = text(tokens)? else {
        return Err(Error::Unexpected);
    };
    if !tokens.accept(Kind::Comma)? {
        tokens.expect(Kind::ClosingRound)?;
        let none = Vec::new(tokens.alloc());
        return Ok(B::load(source, none, tokens.since(begin)));
    }
    let found = symbols(tokens)?;
    Ok(B::load(source, found, tokens.since(begin)))
}

/// The symbols of a load with the commas behind them, and its closing parenthesis.
fn symbols(tokens: &mut Tokens) -> Result<Vec<LoadArgP<AstNoPayload>>, Error>
    ensures reads { (d : Dialect) (p : ℕ) (m : Name) (k : Line) → Comes d (load_symbol p m no_symbols k) (λ xs. behind_small (load m (symbols_of symbol_at xs.items) (stretch p tokens.new.last)) k) tokens.old result tokens.new }
    ensures shorter { OnOk result (length tokens.new.items < length tokens.old.items) }
{
    let mut found = Vec::new(tokens.alloc());
    loop {
        if tokens.accept(Kind::ClosingRound)? {
            return Ok(found);
        }
        let (local, their) = names(tokens)?;
        let begin = tokens.begin();
        if !tokens.accept(Kind::Comma)? {
            tokens.expect(Kind::ClosingRound)?;
            push(&mut found, symbol(local, their, None))?;
            return Ok(found);
        }
        let comma = tokens.since(begin);
        push(&mut found, symbol(local, their, Some(comma)))?;
    }
}

/// A symbol of a load: the name that it binds, the name in the other module, and where the comma behind it stands.
fn symbol(
    local: Spanned<String>,
    their: Spanned<String>,
    comma: Option<Span>,
) -> LoadArgP<AstNoPayload>
    ensures { symbol_at result ≡ (symbol (name_at (string_bytes local.node) local.span) (name_at (string_bytes their.node) their.span), comma) }
{
    let Spanned { span, node } = local;
    let node = AssignIdentP {
        ident: node,
        payload: (),
    };
    LoadArgP {
        local: Spanned { span, node },
        their,
        comma: maybe_comma(comma),
    }
}

/// A comma, if there is one.
fn maybe_comma(comma: Option<Span>) -> Option<Spanned<Comma>>
    ensures { comma_at result ≡ comma }
{
    match comma {
        None => None,
        Some(span) => Some(Spanned { span, node: Comma }),
    }
}

/// The name that a symbol binds, and the one that it has in the other module, where no closing parenthesis stands.
fn names(tokens: &mut Tokens) -> Result<(Spanned<String>, Spanned<String>), Error>
    ensures reads { (d : Dialect) (p : ℕ) (m : Name) (ss : Symbols) (k : Line) → first_lexeme tokens.old.items ≢ Some closing_round → Comes d (load_symbol p m ss k) (λ x. load_behind p m ss (symbol (name_at (string_bytes x.0.node) x.0.span) (name_at (string_bytes x.1.node) x.1.span)) k) tokens.old result tokens.new }
    ensures shorter { OnOk result (length tokens.new.items < length tokens.old.items) }
{
    if let Some(their) = text(tokens)? {
        let node = String::from_str(tokens.alloc(), their.node.as_str())?;
        let span = their.span;
        return Ok((Spanned { span, node }, their));
    }
    let Some(local) = name(tokens)? else {
        return Err(Error::Unexpected);
    };
    if !tokens.accept(Kind::Equal)? {
        let span = local.span;
        let node = Rule::LoadIdentifier;
        return Err(tokens.stop(Spanned { span, node }));
    }
    let Some(their) = text(tokens)? else {
        return Err(Error::Unexpected);
    };
    Ok((local, their))
}

/// A literal of text, if one stands ahead, with its place.
fn text(tokens: &mut Tokens) -> Result<Option<Spanned<String>>, AllocError>
    ensures { IfOk result (λ o. MatchOption o ((tokens.new ≡ tokens.old) × (string_ahead tokens.old.items ≡ None)) (λ s. (s.span ≡ stretch (start tokens.old.items) tokens.new.last) × Passes tokens.old (item (start tokens.old.items) (string (string_bytes s.node)) tokens.new.last) tokens.new)) }
{
    let begin = tokens.begin();
    let Some(found) = tokens.string()? else {
        return Ok(None);
    };
    let span = tokens.since(begin);
    let node = found.node;
    Ok(Some(Spanned { span, node }))
}
