//! Laws of scripts.

ghost use Rattle.std.specs.Prelude.{◌≡◌, ◌⊎◌, ℕ, List};
ghost use Rattle.starlark_script.specs.Script.{Command, IsCut, IsWhole, asking, front};

/// Bytes are cut, or what stands at their front is whole, whatever comes behind them. Those that are cut ask nothing.
pub fn cut_or_whole()
    ensures either { (bs : List ℕ) → IsCut bs ⊎ IsWhole bs }
    ensures never { (bs rest : List ℕ) (c : Command) → IsCut bs → front bs ≡ asking c rest → ⊥ }
{}
