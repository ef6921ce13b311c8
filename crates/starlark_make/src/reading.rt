//! The tree of a text that is kept.

ghost use Rattle.std.specs.Prelude.{◌≡◌, ◌≢◌, ◌<◌, ◌≤◌, ◌+◌, ◌*◌, ℕ, IfErr, IfOk, IsErr, List, false, None, Err, [], suc, length};
ghost use Rattle.starlark_lexer.specs.Lex.{Lex, start};
ghost use Rattle.starlark_ast.specs.View.{stmt_at};
ghost use Rattle.starlark_grammar.specs.Comments.{comments_in, joined_in};
ghost use Rattle.starlark_grammar.specs.Language.{Fault, IsProgram, IsRefusal, IsRefused, Language, last_end, uncommented};
ghost use Rattle.starlark_read.specs.declared.refused.Refused.{Refused};
ghost use Rattle.starlark_read.specs.Asides.{counted};
ghost use Rattle.starlark_read.specs.Refused.{fault_of};
ghost use Rattle.starlark_read.specs.Stops.{asked, reached};

use crate::trees::Trees;
use starlark_ast::ast::AstStmt;
use starlark_lexer::dialect::Dialect;
use starlark_lexer::lexer::Lexer;
use starlark_read::read::read;
use starlark_read::refused::Refused;
use starlark_read::told::Told;
use std::alloc::Global;

/// The tree of all that a lexer has left, or why there is none: as `read` says of any builder. It stands here, since who
/// calls that with these trees proves how they are let go.
pub fn read_tree(
    alloc: Global,
    lexer: Lexer,
    dialect: &Dialect,
    told: &mut Told,
) -> Result<AstStmt, Refused>
    ensures whole { IfOk result (λ x. (lexer.left.fault ≡ None) × IsProgram dialect.now (uncommented lexer.left).items (stmt_at x)) }
    ensures refused { (e : Refused) (f : Fault) → result ≡ Err e → fault_of e ≡ Some f → IsRefusal dialect.now (uncommented lexer.left) f }
    ensures language { (text : List ℕ) → Lex start text lexer.left → IfOk result (λ x. Language dialect.now text (stmt_at x)) }
    ensures reason { (text : List ℕ) (e : Refused) (f : Fault) → Lex start text lexer.left → result ≡ Err e → fault_of e ≡ Some f → IsRefused dialect.now text f }
    ensures comments { IfOk result (λ x. told.new.comments.places.items ≡ comments_in lexer.left.items) }
    ensures joined { IfOk result (λ x. told.new.comments.joined.items ≡ joined_in false lexer.left.items) }
    ensures bare { IsErr result → (told.new.comments.places.items ≡ []) × (told.new.comments.joined.items ≡ []) }
    ensures asks { IfOk result (λ x. told.new.cost.asks ≡ counted (suc (length lexer.left.items))) }
    ensures reads { IfOk result (λ x. last_end 0 (uncommented lexer.left).items ≤ told.new.cost.reads) }
    ensures bounded { IfOk result (λ x. told.new.cost.reads ≤ 16 * lexer.size + 16) }
    ensures asked { IfErr result (λ e. fault_of e ≢ None → suc (length lexer.left.items) < 18446744073709551615 → told.new.cost.asks ≡ asked dialect.now lexer.left) }
    ensures reached { IfErr result (λ e. fault_of e ≢ None → reached dialect.now (uncommented lexer.left).items ≤ told.new.cost.reads) }
    ensures spent { IfErr result (λ e. fault_of e ≢ None → told.new.cost.reads ≤ 16 * lexer.size + 16) }
{
    read::<Trees>(alloc, lexer, dialect, told)
}
