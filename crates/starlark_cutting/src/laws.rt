//! Laws of texts that are cut off behind a lexeme.

ghost use Rattle.std.specs.Prelude.{◌++◌, ◌+◌, ◌<◌, ◌∷◌, ◌≡◌, ◌⊎◌, List, [], false, length, map, true, ℕ};
ghost use Rattle.starlark_lexer.specs.Items.{Item, dedent, fstring_expr_start, fstring_text, indent, item, newline, nothing, with_items};
ghost use Rattle.starlark_lexer.specs.Joining.{open_behind};
ghost use Rattle.starlark_lexer.specs.Lex.{Lex, start};
ghost use Rattle.starlark_cutting.specs.Cutting.{EvenWith, IsClosedBefore, IsClosedOff, IsContinued, IsCutAt, IsDeepened, IsEnded, IsFilled, IsFilledBehind, IsIndented, inner};
ghost use Rattle.starlark_cutting.specs.Opened.{IsFinishedBy, Nest, Put, Way, in_field, in_text, is_text, outside, put_lexemes};

/// The empty text is cut into a line end.
pub fn empty_text()
    ensures { Lex start [] (with_items (item 0 newline 0 ∷ []) nothing) }
{}

/// A text that is cut off behind a line end, or behind a `Dedent` that is not at the text's end, is
/// cut into the same up to there, Dedents at its end aside, and the end of the text.
pub fn cut_off_lines()
    ensures line { (u v : List ℕ) (before : List Item) (z : Item) (behind : List Item) → IsCutAt u v before z behind → z.lexeme ≡ newline → z.end ≡ z.begin + 1 → IsClosedOff u (before ++ z ∷ []) }
    ensures dedent { (u v : List ℕ) (before : List Item) (z : Item) (behind : List Item) → IsCutAt u v before z behind → z.lexeme ≡ dedent → 0 < length v → IsClosedBefore u before }
{}

/// A text that is cut off behind a line end is cut into the same up to there with a deeper line
/// behind it, and one that is cut off behind an `Indent` with a space and `pass` behind it into the
/// same before that `Indent`, which is one space wider.
pub fn cut_off_indents()
    ensures line { (u v : List ℕ) (before : List Item) (z : Item) (behind : List Item) → IsCutAt u v before z behind → z.lexeme ≡ newline → z.end ≡ z.begin + 1 → IsDeepened u (before ++ z ∷ []) }
    ensures indent { (u v : List ℕ) (before : List Item) (z : Item) (behind : List Item) → IsCutAt u v before z behind → z.lexeme ≡ indent → IsIndented u (32 ∷ []) before }
{}

/// A text that is cut off behind a line end is cut into the same up to there with a line of the
/// innermost open width behind it, which closes none. One that is cut off behind a `Dedent` that is
/// not at the text's end is cut into the same up to there, and the Dedents that stood behind that
/// one, with a line of the width behind it that they left.
pub fn cut_off_blocks()
    ensures line { (u v : List ℕ) (before : List Item) (z : Item) (behind : List Item) → IsCutAt u v before z behind → z.lexeme ≡ newline → z.end ≡ z.begin + 1 → IsFilled u (before ++ z ∷ []) }
    ensures dedent { (u v : List ℕ) (before : List Item) (z : Item) (behind : List Item) → IsCutAt u v before z behind → z.lexeme ≡ dedent → 0 < length v → IsFilledBehind u (before ++ z ∷ []) }
{}

/// Behind a line end of no width, and behind a `Dedent` that stands at the very end of the text,
/// nothing stands but the Dedents of the text's end, and the text is cut without fault.
pub fn cut_off_whole()
    ensures newline { (u v : List ℕ) (before : List Item) (z : Item) (behind : List Item) (c : IsCutAt u v before z behind) → z.lexeme ≡ newline → z.end ≡ z.begin → IsEnded u v before z behind c.fault }
    ensures dedent { (u v : List ℕ) (before : List Item) (z : Item) (behind : List Item) (c : IsCutAt u v before z behind) → z.lexeme ≡ dedent → v ≡ [] → IsEnded u v before z behind c.fault }
{}

/// A line end is one byte wide, or has no width.
pub fn cut_off_kinds()
    ensures newline_width { (u v : List ℕ) (before : List Item) (z : Item) (behind : List Item) → IsCutAt u v before z behind → z.lexeme ≡ newline → (z.end ≡ z.begin) ⊎ (z.end ≡ z.begin + 1) }
{}

/// A text that is cut off behind its end, where no f-string and no bracket is open, is cut into the
/// same tokens with some ASCII bytes behind it, where a line end stands in place of its end.
pub fn cut_off_ends()
    ensures newline { (u v : List ℕ) (before : List Item) (z : Item) (behind : List Item) → IsCutAt u v before z behind → z.lexeme ≡ newline → z.end ≡ z.begin → open_behind 0 (before ++ z ∷ []) ≡ 0 → EvenWith (before ++ z ∷ []) [] → IsContinued u (before ++ z ∷ []) }
{}

/// A text that is cut off behind a lexeme within a line, also in a field of an f-string, behind the
/// start of one or behind the end of a field, is cut into the same up to there with words of ASCII
/// behind it that close what is open there, the innermost first, and a line feed. Behind a piece of
/// text of an f-string a field is begun first.
pub fn cut_off_fields()
    ensures line { (u v : List ℕ) (before : List Item) (z : Item) (behind : List Item) (n : Nest) (xs : List Put) → IsCutAt u v before z behind → inner z.lexeme ≡ true → is_text z.lexeme ≡ false → Way (outside 0) (map (λ x. x.lexeme) (before ++ z ∷ [])) n → Way n (put_lexemes xs) (outside 0) → IsFinishedBy u (before ++ z ∷ []) (put_lexemes xs) }
    ensures text { (u v : List ℕ) (before : List Item) (z : Item) (behind : List Item) (w : List ℕ) (m : Nest) (xs : List Put) → IsCutAt u v before z behind → z.lexeme ≡ fstring_text w → Way (outside 0) (map (λ x. x.lexeme) (before ++ z ∷ [])) (in_text m) → Way (in_field 0 m) (put_lexemes xs) (outside 0) → IsFinishedBy u (before ++ z ∷ []) (fstring_expr_start ∷ put_lexemes xs) }
{}
