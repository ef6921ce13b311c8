//! What a reading costs.

ghost use Rattle.std.specs.Prelude.{◌≡◌, ◌+◌, ◌*◌, min};

/// What the reading of a text took: the looks at bytes that the lexer counted, and how often the lexer was asked for a
/// lexeme, the fault or the end among the answers. Behind a fault nothing more is asked.
#[derive(Clone, Copy, Debug, PartialEq, Eq)]
pub struct Cost {
    /// As `Lexer::reads` counts them.
    pub reads: u64,
    /// Calls of `Lexer::next`.
    pub asks: u64,
}

impl Cost {
    /// The cost of a text that is not read.
    pub const NONE: Cost = Cost { reads: 0, asks: 0 };

    /// The same, but no more than a text of so many bytes takes.
    pub fn at_most(self, bytes: u32) -> Cost
        ensures reads { result.reads ≡ min self.reads (16 * bytes + 16) }
        ensures asks { result.asks ≡ min self.asks (2 * bytes + 2) }
    {
        let bytes = u64::from(bytes);
        Cost {
            reads: self.reads.min(16 * bytes + 16),
            asks: self.asks.min(2 * bytes + 2),
        }
    }
}
