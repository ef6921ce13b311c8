//! What is asked of the lexer.

ghost use Rattle.std.specs.Prelude.{◌≡◌, ◌≤◌, ◌+◌, ◌*◌, ◌∷◌, ◌++◌, IfOk, IfErr, [], true};
ghost use Rattle.starlark_lexer.specs.Items.{lexeme_of};
ghost use Rattle.starlark_read.specs.Asides.{ahead_end, aside_in, aside_of, in_all};
ghost use Rattle.starlark_grammar.specs.Language.{is_comment, uncommented};
ghost use Rattle.starlark_read.specs.Reads.{behind_token, with_ahead};

use crate::cost::Cost;
use crate::told::Comments;
use starlark_lexer::lexer::Lexer;
use starlark_lexer::token::{LexemeError, Token};
use starlark_place::diagnostic::Refusal;
use starlark_place::pos::{Pos, Span};
use std::alloc::{AllocError, Global};

/// What the lexer gave last.
#[derive(Drop)]
pub(crate) enum Lookahead {
    Token(Span, Token),
    End,
    Fault(LexemeError, Span),
}

/// A lexer whose comments are put aside and whose answers are counted.
#[derive(Drop)]
pub(crate) struct Feed {
    lexer: Lexer,
    // where the comments stand
    comments: Vec<Span>,
    // for each of them, whether the item right before it is a comment, too
    joined: Vec<bool>,
    // whether the last item is a comment
    behind_comment: bool,
    // how often the lexer was asked
    asks: u64,
}

/// Whether the token is a comment.
fn is_comment(token: &Token) -> bool
    ensures { result ≡ is_comment (lexeme_of token.now) }
{
    match token {
        Token::Comment(_) => true,
        _ => false,
    }
}

impl Feed {
    /// A lexer that was not asked yet.
    pub(crate) fn new(alloc: Global, lexer: Lexer) -> Feed
        ensures lexer { result.lexer ≡ lexer }
        ensures aside { in_all result ≡ aside_in lexer.size lexer.left.items }
    {
        Feed {
            lexer,
            comments: Vec::new(alloc),
            joined: Vec::new(alloc),
            behind_comment: false,
            asks: 0,
        }
    }

    /// What the lexer gives next that is no comment.
    pub(crate) fn fetch(&mut self) -> Result<Lookahead, AllocError>
        ensures tokens { IfOk result (λ a. uncommented self.old.lexer.left ≡ with_ahead a (uncommented self.new.lexer.left)) }
        ensures aside { IfOk result (λ a. aside_of a self.new ≡ in_all self.old) }
        ensures unasked { IfOk result (λ a. self.new.lexer.left.items ≡ behind_token self.old.lexer.left.items) }
        ensures reaches { IfOk result (λ a. ahead_end a ≤ self.new.lexer.place) }
        ensures on { self.old.lexer.place ≤ self.new.lexer.place }
    {
        let mut ahead = Lookahead::End;
        self.advance(&mut ahead)?;
        Ok(ahead)
    }

    /// Puts what the lexer gives next that is no comment in the place of what it gave last.
    pub(crate) fn advance(&mut self, ahead: &mut Lookahead) -> Result<(), AllocError>
        ensures tokens { IfOk result (λ u. uncommented self.old.lexer.left ≡ with_ahead ahead.new (uncommented self.new.lexer.left)) }
        ensures aside { IfOk result (λ u. aside_of ahead.new self.new ≡ in_all self.old) }
        ensures unasked { IfOk result (λ u. self.new.lexer.left.items ≡ behind_token self.old.lexer.left.items) }
        ensures reaches { IfOk result (λ u. ahead_end ahead.new ≤ self.new.lexer.place) }
        ensures kept { IfErr result (λ e. ahead.new ≡ ahead.old) }
        ensures on { self.old.lexer.place ≤ self.new.lexer.place }
    {
        while let Some(answer) = self.lexer.next() {
            self.asks = self.asks.saturating_add(1);
            match answer {
                Ok((begin, token, end)) => {
                    let span = Span::new(Pos::new(begin as u32), Pos::new(end as u32));
                    if !is_comment(&token) {
                        self.behind_comment = false;
                        *ahead = Lookahead::Token(span, token);
                        return Ok(());
                    }
                    self.put_aside(span)?;
                }
                Err(Refusal::Memory) => return Err(AllocError),
                Err(Refusal::Fault(fault)) => {
                    let Some(place) = fault.span() else {
                        unreachable!();
                    };
                    *ahead = Lookahead::Fault(*fault.inner(), place.span);
                    return Ok(());
                }
            }
        }
        self.asks = self.asks.saturating_add(1);
        *ahead = Lookahead::End;
        Ok(())
    }

    /// One more comment.
    fn put_aside(&mut self, comment: Span) -> Result<(), AllocError>
        ensures comments { IfOk result (λ u. self.new.comments.items ≡ self.old.comments.items ++ comment ∷ []) }
        ensures joined { IfOk result (λ u. self.new.joined.items ≡ self.old.joined.items ++ self.old.behind_comment ∷ []) }
        ensures behind { IfOk result (λ u. self.new.behind_comment ≡ true) }
        ensures lexer { self.new.lexer ≡ self.old.lexer }
        ensures asks { self.new.asks ≡ self.old.asks }
    {
        self.comments.push(comment)?;
        self.joined.push(self.behind_comment)?;
        self.behind_comment = true;
        Ok(())
    }

    /// What it took so far.
    pub(crate) fn cost(&self) -> Cost
        ensures asks { result.asks ≡ self.now.asks }
        ensures reads { self.now.lexer.place ≤ result.reads }
        ensures bounded { result.reads ≤ 16 * self.now.lexer.size + 16 }
    {
        Cost {
            reads: self.lexer.reads(),
            asks: self.asks,
        }
    }

    /// The comments that were passed.
    pub(crate) fn into_comments(self) -> Comments
        ensures places { result.places.items ≡ self.comments.items }
        ensures joined { result.joined.items ≡ self.joined.items }
    {
        Comments {
            places: self.comments,
            joined: self.joined,
        }
    }
}
