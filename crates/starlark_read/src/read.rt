//! A whole text.

ghost use Rattle.std.specs.Prelude.{◌≡◌, ◌≢◌, ◌<◌, ◌≤◌, ◌+◌, ◌*◌, ℕ, IfErr, IfOk, IsErr, List, false, None, Some, Err, [], suc, length};
ghost use Rattle.starlark_lexer.specs.Items.{Item, Lexed};
ghost use Rattle.starlark_lexer.specs.Lex.{Lex, start};
ghost use Rattle.starlark_read.specs.declared.refused.Refused.{Refused};
ghost use Rattle.starlark_read.specs.Asides.{Aside, counted};
ghost use Rattle.starlark_grammar.specs.Comments.{comments_in, joined_in};
ghost use Rattle.starlark_grammar.specs.Language.{Fault, IsProgram, IsRefusal, IsRefused, Language, last_end, uncommented};
ghost use Rattle.starlark_read.specs.Reads.{left_of, SameEnd};
ghost use Rattle.starlark_read.specs.Refused.{fault_of};
ghost use Rattle.starlark_read.specs.Stops.{answer_to, asked, end_ahead, left_over, reached};

use crate::block::block;
use crate::error::Error;
use crate::feed::Feed;
use crate::refused::Refused;
use crate::statements::{TopStatements, statements};
use crate::tokens::Tokens;
use crate::told::Told;
use starlark_grammar::build::Build;
use starlark_lexer::dialect::Dialect;
use starlark_lexer::lexer::Lexer;
use std::alloc::Global;

/// The tree of all that a lexer has left, as `B` makes it, or why there is none. It tells what it took to read, and the
/// comments of the text: none where there is no tree. Where memory ran out, what is told of the cost is what was spent
/// until then. What was told before is gone.
pub fn read<B: Build>(
    alloc: Global,
    lexer: Lexer,
    dialect: &Dialect,
    told: &mut Told,
) -> Result<B::Stmt, Refused>
    ensures whole { IfOk result (λ x. (lexer.left.fault ≡ None) × IsProgram dialect.now (uncommented lexer.left).items (B.says x)) }
    ensures refused { (e : Refused) (f : Fault) → result ≡ Err e → fault_of e ≡ Some f → IsRefusal dialect.now (uncommented lexer.left) f }
    ensures language { (text : List ℕ) → Lex start text lexer.left → IfOk result (λ x. Language dialect.now text (B.says x)) }
    ensures reason { (text : List ℕ) (e : Refused) (f : Fault) → Lex start text lexer.left → result ≡ Err e → fault_of e ≡ Some f → IsRefused dialect.now text f }
    ensures comments { IfOk result (λ x. told.new.comments.places.items ≡ comments_in lexer.left.items) }
    ensures joined { IfOk result (λ x. told.new.comments.joined.items ≡ joined_in false lexer.left.items) }
    ensures bare { IsErr result → (told.new.comments.places.items ≡ []) × (told.new.comments.joined.items ≡ []) }
    ensures asks { IfOk result (λ x. told.new.cost.asks ≡ counted (suc (length lexer.left.items))) }
    ensures reads { IfOk result (λ x. last_end 0 (uncommented lexer.left).items ≤ told.new.cost.reads) }
    ensures bounded { IfOk result (λ x. told.new.cost.reads ≤ 16 * lexer.size + 16) }
    ensures asked { IfErr result (λ e. fault_of e ≢ None → suc (length lexer.left.items) < 18446744073709551615 → told.new.cost.asks ≡ asked dialect.now lexer.left) }
    ensures reached { IfErr result (λ e. fault_of e ≢ None → reached dialect.now (uncommented lexer.left).items ≤ told.new.cost.reads) }
    ensures spent { IfErr result (λ e. fault_of e ≢ None → told.new.cost.reads ≤ 16 * lexer.size + 16) }
{
    *told = Told::nothing(alloc);
    let mut feed = Feed::new(alloc, lexer);
    let Ok(ahead) = feed.fetch() else {
        told.cost = feed.cost();
        return Err(Refused::Memory);
    };
    let mut tokens = Tokens::new(alloc, feed, ahead);
    let answer = program::<B>(&mut tokens, dialect);
    told.cost = tokens.cost();
    match answer {
        Ok(tree) => {
            told.comments = tokens.into_comments();
            Ok(tree)
        }
        Err(refused) => Err(refused),
    }
}

/// The tree of all tokens, or why there is none.
fn program<B: Build>(tokens: &mut Tokens, dialect: &Dialect) -> Result<B::Stmt, Refused>
    ensures whole { (l : Lexed) (us : List Item) (a : Aside) → tokens.old ≡ left_of 0 l us a → IfOk result (λ x. (l.fault ≡ None) × IsProgram dialect.now l.items (B.says x)) }
    ensures refused { (l : Lexed) (us : List Item) (a : Aside) → tokens.old ≡ left_of 0 l us a → (e : Refused) (f : Fault) → result ≡ Err e → fault_of e ≡ Some f → IsRefusal dialect.now l f }
    ensures ended { IfOk result (λ x. (tokens.new.items ≡ []) × SameEnd tokens.old tokens.new) }
    ensures behind { IfErr result (λ e. fault_of e ≢ None → SameEnd tokens.old tokens.new) }
    ensures left { (l : Lexed) (us : List Item) (a : Aside) → tokens.old ≡ left_of 0 l us a → IfErr result (λ e. fault_of e ≢ None → length tokens.new.items ≡ left_over (answer_to dialect.now l.items)) }
    ensures reached { (l : Lexed) (us : List Item) (a : Aside) → tokens.old ≡ left_of 0 l us a → IfErr result (λ e. fault_of e ≢ None → reached dialect.now l.items ≤ end_ahead tokens.new.last tokens.new.items) }
{
    let TopStatements { items, are_clean } = match statements::<B>(tokens, *dialect) {
        Ok(statements) => statements,
        Err(Error::Unexpected) => return Err(tokens.refusal()),
        Err(Error::Broken) => return Err(tokens.rule_refusal()),
        Err(Error::Memory) => return Err(Refused::Memory),
    };
    if let Some(fault) = tokens.fault() {
        return Err(fault);
    }
    let tree = block::<B>(items, tokens.last());
    if are_clean {
        return Ok(tree);
    }
    match B::end_fault(tokens.alloc(), dialect, &tree)? {
        Some(rule) => Err(Refused::Rule(rule)),
        None => Ok(tree),
    }
}
