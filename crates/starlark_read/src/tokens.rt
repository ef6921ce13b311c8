//! The tokens of a text, with one token of look-ahead.

ghost use Rattle.std.specs.Prelude.{◌≡◌, ◌≢◌, ◌≤◌, ◌+◌, ◌*◌, [], IfOk, MatchOption, Some, None, true, false, string_bytes, Err, max};
ghost use Rattle.std.specs.Bool.{MatchBool};
ghost use Rattle.starlark_place.specs.Place.{Extent};
ghost use Rattle.starlark_lexer.specs.Items.{item, lexeme_of, fstring_text, identifier, string};
ghost use Rattle.starlark_rulebook.specs.Rules as broken;
ghost use Rattle.starlark_rulebook.specs.View.{finding_of};
ghost use Rattle.starlark_read.specs.Asides.{ahead_end, aside_of, counted};
ghost use Rattle.starlark_grammar.specs.Events.{conversion_end};
ghost use Rattle.starlark_read.specs.Counted.{kind_given};
ghost use Rattle.starlark_read.specs.Gathered.{conversion_ahead, text_ahead};
ghost use Rattle.starlark_read.specs.Kinds.{kind_ahead, kind_of, has_text, is_plain, token_of, with_text};
ghost use Rattle.starlark_grammar.specs.Language.{by_rule, uncommented};
ghost use Rattle.starlark_grammar.specs.Nodes.{start};
ghost use Rattle.starlark_grammar.specs.Sorts.{is_some};
ghost use Rattle.starlark_grammar.specs.Spans.{stretch};
ghost use Rattle.starlark_grammar.specs.Tables.{beginning, grade_of, suffix};
ghost use Rattle.starlark_grammar.specs.Verdicts.{begins_test};
ghost use Rattle.starlark_read.specs.Refused.{fault_ahead, fault_of};
ghost use Rattle.starlark_read.specs.Reads.{asks_left, left_of, stopped, with_ahead, first_lexeme, grade_ahead, name_ahead, string_ahead, Passes};
ghost use Rattle.starlark_read.specs.Stops.{end_ahead};

use crate::cost::Cost;
use crate::error::Error;
use crate::feed::{Feed, Lookahead};
use crate::kind::{Kind, kind_of};
use crate::level::{
    AND, BIT_AND, BIT_OR, BIT_XOR, COMPARISON, NONE, OR, PRIMARY, PRODUCT, SHIFT, SUM, TEST,
};
use crate::refused::Refused;
use crate::told::Comments;
use starlark_lexer::token::Token;
use starlark_place::pos::{Pos, Span, Spanned};
use starlark_rulebook::rule::Rule;
use std::alloc::{AllocError, Global};
use std::marker::Model;
use std::mem;

/// The tokens that are still to be read, comments left out. A clause sees them, the fault behind them, where the last one
/// ends that was read, and what is told of the whole text beside them.
#[derive(Drop)]
pub(crate) struct Tokens {
    alloc: Global,
    feed: Feed,
    ahead: Lookahead,
    // of what stands ahead
    kind: Kind,
    last: Pos,
    // the rule at which reading stopped
    broken: Option<Spanned<Rule>>,
}

impl Model for Tokens {
    ghost use Rattle.starlark_read.specs.Counted.{left_in, IsCounted};
    ghost use Rattle.starlark_read.specs.Reads.{Left};

    ghost Value = { Left };

    ghost view = { left_in };

    ghost invariant = { IsCounted };
}

/// The place itself, whose end is not before its beginning.
fn place(span: &Span) -> Span
    ensures { result ≡ stretch span.now.begin span.now.end }
{
    Span::new(span.begin(), span.end())
}

/// The kind of what the lexer gave.
fn kind_given(ahead: &Lookahead) -> Kind
    ensures { result ≡ kind_given ahead.now }
{
    match ahead {
        Lookahead::Token(_, token) => kind_of(token),
        _ => Kind::End,
    }
}

/// Whether a token of that kind begins an expression.
fn begins_test(kind: Kind) -> bool
    ensures { result ≡ is_some (beginning (token_of kind)) }
{
    match kind {
        Kind::Identifier | Kind::Int | Kind::Float | Kind::String | Kind::Bytes => true,
        Kind::Ellipsis | Kind::FStringStart | Kind::Lambda | Kind::Not => true,
        Kind::OpeningRound | Kind::OpeningSquare | Kind::OpeningCurly => true,
        Kind::Plus | Kind::Minus | Kind::Tilde => true,
        _ => false,
    }
}

/// The text in a token of an identifier, a literal of text or the text of an f-string.
fn text_in(token: Token) -> Option<String>
    ensures { MatchOption result (has_text (kind_of (lexeme_of token)) ≡ false) (λ s. lexeme_of token ≡ with_text (kind_of (lexeme_of token)) (string_bytes s)) }
{
    match token {
        Token::Identifier(text) => Some(text),
        Token::String(text) => Some(text),
        Token::FStringText(text) => Some(text),
        _ => None,
    }
}

/// The level of the suffix or the operator of that kind, or `NONE`.
fn grade(kind: Kind) -> u8
    ensures { result ≡ grade_of (suffix (token_of kind)) }
{
    match kind {
        Kind::Dot | Kind::OpeningRound | Kind::OpeningSquare => PRIMARY,
        Kind::Star | Kind::Slash | Kind::SlashSlash | Kind::Percent => PRODUCT,
        Kind::Plus | Kind::Minus => SUM,
        Kind::LessLess | Kind::GreaterGreater => SHIFT,
        Kind::Ampersand => BIT_AND,
        Kind::Caret => BIT_XOR,
        Kind::Pipe => BIT_OR,
        Kind::EqualEqual | Kind::BangEqual | Kind::LessThan | Kind::GreaterThan => COMPARISON,
        Kind::LessEqual | Kind::GreaterEqual | Kind::In | Kind::Not => COMPARISON,
        Kind::And => AND,
        Kind::Or => OR,
        Kind::If => TEST,
        _ => NONE,
    }
}

impl Tokens {
    /// What the lexer gave first, and all that it has left.
    pub(crate) fn new(alloc: Global, feed: Feed, ahead: Lookahead) -> Tokens
        requires reached { ahead_end ahead ≤ feed.lexer.place }
        ensures { result ≡ left_of 0 (with_ahead ahead (uncommented feed.lexer.left)) feed.lexer.left.items (aside_of ahead feed) }
    {
        let kind = kind_given(&ahead);
        Tokens {
            alloc,
            feed,
            ahead,
            kind,
            last: Pos::new(0),
            broken: None,
        }
    }

    /// What the reading took so far.
    pub(crate) fn cost(&self) -> Cost
        ensures asks { self.now.aside.asks ≡ counted (result.asks + asks_left self.now.items self.now.unasked) }
        ensures whole { self.now.items ≡ [] → result.asks ≡ self.now.aside.asks }
        ensures reads { self.now.last ≤ result.reads }
        ensures ahead { end_ahead self.now.last self.now.items ≤ result.reads }
        ensures bounded { result.reads ≤ 16 * self.now.aside.size + 16 }
    {
        self.feed.cost()
    }

    /// The comments of the text, where no token is left.
    pub(crate) fn into_comments(self) -> Comments
        ensures places { self.items ≡ [] → result.places.items ≡ self.aside.comments }
        ensures joined { self.items ≡ [] → result.joined.items ≡ self.aside.joined }
    {
        self.feed.into_comments()
    }

    /// Where memory comes from.
    pub(crate) fn alloc(&self) -> Global {
        self.alloc
    }

    /// Why what stands ahead is refused: a token, the lexer's fault, or the end.
    pub(crate) fn refusal(&self) -> Refused
        ensures { fault_of result ≡ Some (fault_ahead self.now) }
    {
        match &self.ahead {
            Lookahead::Token(span, _) => Refused::Unexpected(place(span)),
            Lookahead::Fault(error, span) => Refused::Lexer(*error, place(span)),
            Lookahead::End => Refused::UnexpectedEnd(self.last),
        }
    }

    /// The lexer's fault, where it stands ahead.
    pub(crate) fn fault(&self) -> Option<Refused>
        ensures { MatchOption result (self.now.items ≡ [] → self.now.fault ≡ None) (λ e. (self.now.fault ≢ None) × (fault_of e ≡ Some (fault_ahead self.now))) }
    {
        match &self.ahead {
            Lookahead::Fault(error, span) => Some(Refused::Lexer(*error, place(span))),
            _ => None,
        }
    }

    /// Stops at a broken rule, and keeps it.
    pub(crate) fn stop(&mut self, fault: Spanned<Rule>) -> Error
        ensures broken { result ≡ Error.Broken }
        ensures kept { self.new ≡ stopped self.old (Some (finding_of fault)) }
    {
        self.broken = Some(fault);
        Error::Broken
    }

    /// Why a text is refused whose reading stopped at a broken rule.
    pub(crate) fn rule_refusal(&mut self) -> Refused
        requires { self.old.broken ≢ None }
        ensures rule { (r : broken.Rule) (s : Extent) → self.old.broken ≡ Some (broken.breaks r s) → fault_of result ≡ Some (by_rule r s) }
        ensures kept { self.new ≡ stopped self.old None }
    {
        match self.broken.take() {
            Some(rule) => Refused::Rule(rule),
            None => unreachable!(),
        }
    }

    /// The kind of what stands ahead.
    pub(crate) fn kind(&self) -> Kind
        ensures { result ≡ kind_ahead self.now.items }
    {
        self.kind
    }

    /// Where the next token begins, or 0 where none is left.
    pub(crate) fn begin(&self) -> Pos
        ensures { result ≡ start self.now.items }
    {
        match &self.ahead {
            Lookahead::Token(span, _) => span.begin(),
            _ => Pos::new(0),
        }
    }

    /// Where the last token ends that was read.
    pub(crate) fn last(&self) -> Pos
        ensures { result ≡ self.now.last }
    {
        self.last
    }

    /// From a place to the end of the last token that was read.
    pub(crate) fn since(&self, begin: Pos) -> Span
        ensures { result ≡ stretch begin self.now.last }
    {
        Span::new(begin, begin.max(self.last))
    }

    /// Whether the next token begins an expression.
    pub(crate) fn begins_test(&self) -> bool
        ensures { result ≡ begins_test self.now.items }
    {
        begins_test(self.kind())
    }

    /// The level of the suffix or the operator that stands ahead, or `NONE`.
    pub(crate) fn grade(&self) -> u8
        ensures { result ≡ grade_ahead self.now.items }
    {
        grade(self.kind())
    }

    /// What a field of an f-string holds in its format where the next token is `s` or `r`, behind `!`.
    pub(crate) fn conversion(&self) -> Option<&'static str>
        ensures { MatchOption result (conversion_ahead self.now.items ≡ None) (λ s. conversion_ahead self.now.items ≡ Some s.now) }
    {
        let Lookahead::Token(_, Token::Identifier(name)) = &self.ahead else {
            return None;
        };
        match name.as_str() {
            "s" => Some("{}"),
            "r" => Some("{!r}"),
            _ => None,
        }
    }

    /// From the `!` of a field, which was read last, to the end of an identifier behind it, or to any other token.
    pub(crate) fn conversion_place(&self, begin: Pos) -> Span
        ensures { result ≡ stretch begin (conversion_end (max begin self.now.last) self.now.items) }
    {
        let end = match &self.ahead {
            Lookahead::Token(span, Token::Identifier(_)) => span.end(),
            Lookahead::Token(span, _) => span.begin(),
            _ => begin.max(self.last),
        };
        Span::new(begin, begin.max(end))
    }

    /// Reads the next token.
    #[inline(always)]
    pub(crate) fn next(&mut self) -> Result<Option<(Token, Span)>, AllocError>
        ensures { IfOk result (λ o. MatchOption o ((self.old.items ≡ []) × (self.new ≡ self.old)) (λ x. Passes self.old (item x.1.begin (lexeme_of x.0) x.1.end) self.new)) }
    {
        match mem::replace(&mut self.ahead, Lookahead::End) {
            Lookahead::Token(span, token) => {
                self.kind = Kind::End;
                self.feed.advance(&mut self.ahead)?;
                self.kind = kind_given(&self.ahead);
                self.last = span.end();
                Ok(Some((token, span)))
            }
            other => {
                self.ahead = other;
                Ok(None)
            }
        }
    }

    /// Lets the next token go, if one is left.
    pub(crate) fn skip(&mut self) -> Result<(), AllocError>
        ensures { IfOk result (λ u. MatchOption (first_lexeme self.old.items) ((self.old.items ≡ []) × (self.new ≡ self.old)) (λ w. Passes self.old (item (start self.old.items) w self.new.last) self.new)) }
    {
        let Lookahead::Token(span, _) = &self.ahead else {
            return Ok(());
        };
        let end = span.end();
        self.feed.advance(&mut self.ahead)?;
        self.kind = kind_given(&self.ahead);
        self.last = end;
        Ok(())
    }

    /// Whether the next token is of that kind, which has no payload.
    pub(crate) fn stands(&self, want: Kind) -> bool
        requires { is_plain want ≡ true }
        ensures { MatchBool result (first_lexeme self.now.items ≡ Some (token_of want)) (first_lexeme self.now.items ≢ Some (token_of want)) }
    {
        self.kind() == want
    }

    /// Reads the next token if it is of that kind, which has no payload.
    pub(crate) fn accept(&mut self, want: Kind) -> Result<bool, AllocError>
        requires { is_plain want ≡ true }
        ensures { IfOk result (λ b. MatchBool b (Passes self.old (item (start self.old.items) (token_of want) self.new.last) self.new) ((self.new ≡ self.old) × (first_lexeme self.old.items ≢ Some (token_of want)))) }
    {
        if !self.stands(want) {
            return Ok(false);
        }
        self.skip()?;
        Ok(true)
    }

    /// Reads the next token, which has to be of that kind, one without payload.
    pub(crate) fn expect(&mut self, want: Kind) -> Result<(), Error>
        requires { is_plain want ≡ true }
        ensures read { IfOk result (λ u. Passes self.old (item (start self.old.items) (token_of want) self.new.last) self.new) }
        ensures unread { result ≡ Err Error.Unexpected → (self.new ≡ self.old) × (first_lexeme self.old.items ≢ Some (token_of want)) }
        ensures no_rule { result ≡ Err Error.Broken → ⊥ }
    {
        if self.accept(want)? {
            Ok(())
        } else {
            Err(Error::Unexpected)
        }
    }

    /// Reads an identifier, if one stands ahead.
    pub(crate) fn identifier(&mut self) -> Result<Option<Spanned<String>>, AllocError>
        ensures { IfOk result (λ o. MatchOption o ((self.new ≡ self.old) × (name_ahead self.old.items ≡ None)) (λ s. Passes self.old (item s.span.begin (identifier (string_bytes s.node)) s.span.end) self.new)) }
    {
        self.text_of(Kind::Identifier)
    }

    /// Reads a literal of text, if one stands ahead.
    pub(crate) fn string(&mut self) -> Result<Option<Spanned<String>>, AllocError>
        ensures { IfOk result (λ o. MatchOption o ((self.new ≡ self.old) × (string_ahead self.old.items ≡ None)) (λ s. Passes self.old (item s.span.begin (string (string_bytes s.node)) s.span.end) self.new)) }
    {
        self.text_of(Kind::String)
    }

    /// Reads the text between the fields of an f-string, if one stands ahead.
    pub(crate) fn f_string_text(&mut self) -> Result<Option<Spanned<String>>, AllocError>
        ensures { IfOk result (λ o. MatchOption o ((self.new ≡ self.old) × (text_ahead self.old.items ≡ None)) (λ s. Passes self.old (item s.span.begin (fstring_text (string_bytes s.node)) s.span.end) self.new)) }
    {
        self.text_of(Kind::FStringText)
    }

    /// Reads the next token if it is of that kind, one with a text.
    fn text_of(&mut self, want: Kind) -> Result<Option<Spanned<String>>, AllocError>
        requires { has_text want ≡ true }
        ensures { IfOk result (λ o. MatchOption o ((self.new ≡ self.old) × (kind_ahead self.old.items ≢ want)) (λ s. Passes self.old (item s.span.begin (with_text want (string_bytes s.node)) s.span.end) self.new)) }
    {
        if self.kind() != want {
            return Ok(None);
        }
        let Some((token, span)) = self.next()? else {
            unreachable!();
        };
        let Some(node) = text_in(token) else {
            unreachable!();
        };
        Ok(Some(Spanned { span, node }))
    }
}
