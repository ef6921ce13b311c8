//! Laws of the grammar, of the machine that reads it, and of refusals. Tokens are those without
//! comments.

ghost use Rattle.std.specs.Prelude.{[], ◌++◌, ◌<◌, ◌≡◌, ◌↔◌, ◌∷◌, List, None, length, true};
ghost use Rattle.starlark_grammar.specs.Spans.{stretch};
ghost use Rattle.starlark_lexer.specs.Items.{Item, Lexed};
ghost use Rattle.starlark_lexer.specs.declared.dialect.Dialect.{Dialect};
ghost use Rattle.starlark_ast.specs.Tree.{Statement};
ghost use Rattle.starlark_grammar.specs.Events.{Event};
ghost use Rattle.starlark_grammar.specs.Nested.{StatementIn};
ghost use Rattle.starlark_grammar.specs.Grammar.{Derives};
ghost use Rattle.starlark_grammar.specs.Marks.{Has, mark, marks_in};
ghost use Rattle.starlark_grammar.specs.Frames.{State};
ghost use Rattle.starlark_grammar.specs.Runs.{Accepts, Stuck, bottom, initial, marks_of, run};
ghost use Rattle.starlark_grammar.specs.Completion.{completion};
ghost use Rattle.starlark_grammar.specs.Language.{Decision, EndsAt, Fault, HasEnded, IsProgram, IsRefusal, IsViable, last_end};
ghost use Rattle.starlark_grammar.specs.Longer.{AreFirm, GoesLonger, InOrder, IsConstruct, begin_of};

use crate::make::Sign;

/// What the machine accepts is of Module, with that tree.
pub fn sound()
    ensures { (u : List Item) (raw : Statement) → bottom (run initial u) ≡ Accepts raw → Derives u raw }
{}

/// What is of Module the machine accepts, with that tree, and it meets the marks of each
/// derivation.
pub fn complete()
    ensures accepts { (u : List Item) (raw : Statement) → Derives u raw → bottom (run initial u) ≡ Accepts raw }
    ensures meets { (u : List Item) (raw : Statement) (d : Derives u raw) → marks_of (run initial u) ≡ marks_in d }
{}

/// Tokens have one tree at most, rules aside.
pub fn one_derivation()
    ensures { (u : List Item) (a b : Statement) → Derives u a → Derives u b → a ≡ b }
{}

/// Each state goes on to a program.
pub fn goes_on()
    ensures { (s : State) → (raw : Statement) × (bottom (run s (completion s)) ≡ Accepts raw) }
{}

/// The machine is stuck only at a token with which no program goes on, while one does with what is
/// before it.
pub fn stuck_at_dead()
    ensures { (u rest : List Item) → bottom (run initial u) ≡ Stuck rest → EndsAt u rest }
{}

/// Tokens are a program or refused, for one reason at most, and never both.
pub fn one_answer()
    ensures some { (dialect : Dialect) (l : Lexed) → Decision dialect l }
    ensures tree { (dialect : Dialect) (u : List Item) (a b : Statement) → IsProgram dialect u a → IsProgram dialect u b → a ≡ b }
    ensures refusal { (dialect : Dialect) (l : Lexed) (f g : Fault) → IsRefusal dialect l f → IsRefusal dialect l g → f ≡ g }
    ensures other { (dialect : Dialect) (l : Lexed) (raw : Statement) (f : Fault) → l.fault ≡ None → IsProgram dialect l.items raw → IsRefusal dialect l f → ⊥ }
{}

/// A construct has ended before a token exactly where no list of Module goes on with a longer one of
/// its kind at the same beginning: where the tokens stand in order, and those that begin a Test have
/// bytes.
pub fn ended_or_longer()
    ensures ended { (dialect : Dialect) (w : List Item) (x : Item) (xs : List Item) (v : IsViable dialect w) (e : Event) → Has (mark (length v.rest) e) (marks_in v.derives) → (GoesLonger w x e → ⊥) → HasEnded w (x ∷ xs) e }
    ensures longer { (w : List Item) (x : Item) (xs : List Item) (e : Event) → IsConstruct e → InOrder 0 (w ++ x ∷ []) → AreFirm w → begin_of e < x.begin → HasEnded w (x ∷ xs) e → GoesLonger w x e → ⊥ }
{}

/// Over tokens in order each part of a derivation's tree lies in the node around it, and all from 0 to
/// the end of the last token.
pub fn nested_places()
    ensures { (u : List Item) (raw : Statement) → InOrder 0 u → Derives u raw → StatementIn (stretch 0 (last_end 0 u)) raw }
{}

/// Signs are equal where they are one, and a clone is always made and is the sign itself.
pub fn signs_compare()
    ensures equal { (x y : Sign) → (⟦<Sign as PartialEq>⟧.eq x y ≡ true) ↔ (x ≡ y) }
    ensures cloned { (x y : Sign) → ⟦<Sign as Clone>⟧.is_clone x y → y ≡ x }
    ensures always { (x : Sign) → ⟦<Sign as Clone>⟧.is_infallible x }
{}
