//! Lines and columns of places of a text, one after another.

ghost use Rattle.std.specs.Prelude.{◌≡◌, ◌<◌, ◌≤◌, ◌+◌, ◌^◌};
ghost use Rattle.starlark_place.specs.Resolved.{resolved};
ghost use Rattle.starlark_parts.specs.Cursor.{IsAt, behind};

use starlark_place::resolved::ResolvedPos;

/// A place of a text, in bytes, with its line and column. All count from 0.
#[derive(Clone, Copy)]
pub(crate) struct Cursor {
    place: usize,
    line: usize,
    column: usize,
}

impl Cursor {
    /// The beginning of a text.
    pub(crate) const START: Cursor = Cursor {
        place: 0,
        line: 0,
        column: 0,
    };

    /// Its line and column.
    pub(crate) fn position(self) -> ResolvedPos
        ensures { (result.line ≡ self.line) × (result.column ≡ self.column) }
    {
        ResolvedPos {
            line: self.line,
            column: self.column,
        }
    }

    // behind one byte more
    fn behind(self, byte: u8) -> Cursor
        requires place { self.place + 1 < 2 ^ 64 }
        requires line { self.line ≤ self.place }
        requires column { self.column ≤ self.place }
        ensures { result ≡ behind self byte }
    {
        let place = self.place + 1;
        if byte == b'\n' {
            return Cursor {
                place,
                line: self.line + 1,
                column: 0,
            };
        }
        let line = self.line;
        if byte < 128 || 192 <= byte {
            return Cursor {
                place,
                line,
                column: self.column + 1,
            };
        }
        Cursor {
            place,
            line,
            column: self.column,
        }
    }
}

/// The cursor at a place, or at the text's end where that comes first. Where the place is not before `from`, only the
/// bytes between them are looked at.
pub(crate) fn reach(text: &[u8], from: Cursor, place: usize) -> Cursor
    requires { IsAt text.now from }
    ensures at { IsAt text.now result }
    ensures line { result.line ≡ (resolved text.now place).line }
    ensures column { result.column ≡ (resolved text.now place).column }
{
    let mut cursor = if place < from.place {
        Cursor::START
    } else {
        from
    };
    while cursor.place < place && cursor.place < text.len() {
        cursor = cursor.behind(text[cursor.place]);
    }
    cursor
}
