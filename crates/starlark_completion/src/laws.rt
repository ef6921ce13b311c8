//! Laws of tokens and of texts that go on.

ghost use Rattle.std.specs.Prelude.{◌++◌, ◌∷◌, ◌≡◌, List, [], false, take, ℕ};
ghost use Rattle.starlark_lexer.specs.Items.{Item, Lexed, dedent, fstring_expr_start, fstring_text, item};
ghost use Rattle.starlark_lexer.specs.Lex.{Lex, start};
ghost use Rattle.starlark_lexer.specs.declared.dialect.Dialect.{Dialect};
ghost use Rattle.starlark_grammar.specs.Language.{Fault, IsRefused, IsViable, last_end, without_comments};
ghost use Rattle.starlark_completion.specs.Closing.{CanClose};
ghost use Rattle.starlark_completion.specs.Ending.{CanEnd, IsAtLine, IsBehindBlock, another, goes_on_line, last_of, no_token};
ghost use Rattle.starlark_completion.specs.GoesOn.{CanGoOn, IsRefusedText};

use starlark_cutting::laws::{
    cut_off_blocks, cut_off_ends, cut_off_fields, cut_off_indents, cut_off_kinds, cut_off_lines,
    cut_off_whole, empty_text,
};
use starlark_grammar::laws::{complete, goes_on, sound, stuck_at_dead};
use starlark_lexer::laws::in_order;

/// Tokens behind which a line begins go on to a program by line ends, a line `pass` where a block is
/// wanted, and as many Dedents as blocks are open.
pub fn can_end()
    ensures { (dialect : Dialect) (w : List Item) → IsViable dialect w → goes_on_line (last_of no_token w) ≡ false → CanEnd w }
{
    sound();
    complete();
    goes_on();
    stuck_at_dead();
}

/// Tokens that go on to a program do so within a line, whatever is open there: by what closes it, a
/// line end, and as many Dedents as blocks are open. Behind the text of an f-string a field begins
/// before that.
pub fn can_close()
    ensures line { (dialect : Dialect) (w : List Item) → IsViable dialect w → last_of no_token w ≡ another → CanClose w }
    ensures text { (dialect : Dialect) (w : List Item) (z : Item) (v : List ℕ) → z.lexeme ≡ fstring_text v → IsViable dialect (w ++ z ∷ []) → CanClose ((w ++ z ∷ []) ++ item 0 fstring_expr_start 0 ∷ []) }
{
    sound();
    complete();
    goes_on();
    stuck_at_dead();
}

/// Before a Dedent a line begins: tokens that stand before one go on to a program by line ends, and
/// as many Dedents as blocks are open.
pub fn before_dedent()
    ensures { (dialect : Dialect) (w : List Item) (z : Item) → z.lexeme ≡ dedent → IsViable dialect (w ++ z ∷ []) → IsAtLine w }
{
    sound();
    complete();
    goes_on();
    stuck_at_dead();
}

/// Behind a Dedent a line begins: tokens that end with one go on to a program by any number of
/// Dedents more, as far as blocks are open, and a line `pass` behind them.
pub fn behind_dedent()
    ensures { (dialect : Dialect) (w : List Item) (z : Item) → z.lexeme ≡ dedent → IsViable dialect (w ++ z ∷ []) → IsBehindBlock (w ++ z ∷ []) }
{
    sound();
    complete();
    goes_on();
    stuck_at_dead();
}

/// Tokens that are read from a text and go on to a program do so in that text: the text up to the
/// end of the last of them, comments behind it left out, goes on to a program that begins with them.
pub fn can_go_on()
    ensures { (dialect : Dialect) (text : List ℕ) (l : Lexed) (w rest : List Item) → Lex start text l → w ++ rest ≡ without_comments l.items → IsViable dialect w → CanGoOn (take (last_end 0 w) text) w }
{
    sound();
    complete();
    goes_on();
    stuck_at_dead();
    in_order();
    empty_text();
    cut_off_fields();
    cut_off_lines();
    cut_off_indents();
    cut_off_blocks();
    cut_off_whole();
    cut_off_kinds();
    cut_off_ends();
}

/// Where a text is refused for syntax, the text before the token, or the end, that is refused goes
/// on to a program that begins with all tokens before it.
pub fn refused_goes_on()
    ensures { (dialect : Dialect) (text : List ℕ) (f : Fault) → IsRefused dialect text f → IsRefusedText dialect text f }
{
    can_go_on();
}
