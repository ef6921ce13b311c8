//! Reading a text from one end to the other.

ghost use Rattle.std.specs.Prelude.{◌≡◌, ◌≤◌, ◌<◌, ◌+◌, ◌-◌, length, slice_index, IfSome, MatchOption};
ghost use Rattle.std.specs.Str.{IsCharBoundary};
ghost use Rattle.starlark_place.specs.Cursor.{At, at, IsNext, TakesChar, StandsAt};

use std::marker::Model;

/// Reads a text byte by byte.
#[derive(Debug, Drop)]
pub struct CursorBytes<'a> {
    text: &'a str,
    offset: usize,
}

impl<'a> Model for CursorBytes<'a> {
    ghost use Rattle.std.specs.Prelude.{◌≤◌, length};
    ghost use Rattle.starlark_place.specs.Cursor.{At, at};

    ghost Value = { At };

    ghost view = { λ c. at c.text.now c.offset };

    ghost invariant = { λ c. c.offset ≤ length c.text.now };
}

impl<'a> CursorBytes<'a> {
    /// At the beginning of a text.
    pub fn new(text: &'a str) -> CursorBytes<'a>
        ensures is { result ≡ at text.now 0 }
        ensures boundary { IsCharBoundary text.now 0 }
    {
        CursorBytes { text, offset: 0 }
    }

    /// The byte at the place, which moves behind it, or none at the end.
    pub fn next(&mut self) -> Option<u8>
        ensures { MatchOption result ((self.old.place ≡ length self.old.text) × (self.new ≡ self.old)) (λ b. (self.old.place < length self.old.text) × (b ≡ slice_index self.old.text self.old.place) × (self.new ≡ at self.old.text (self.old.place + 1))) }
    {
        let bytes = self.text.as_bytes();
        if self.offset == bytes.len() {
            return None;
        }
        let byte = bytes[self.offset];
        self.offset += 1;
        Some(byte)
    }

    /// The character at the place, which moves behind it, or none at the end. The place is at a character's boundary:
    /// `str::is_char_boundary` tells that of `pos`.
    pub fn next_char(&mut self) -> Option<char>
        requires { IsCharBoundary self.old.text self.old.place }
        ensures takes { TakesChar self.old result self.new }
        ensures boundary { IsCharBoundary self.new.text self.new.place }
    {
        let (c, next) = char_at(self.text, self.offset)?;
        self.offset = next;
        Some(c)
    }

    /// The number of bytes before the place.
    pub fn pos(&self) -> usize
        ensures is { result ≡ self.now.place }
        ensures within { result ≤ length self.now.text }
    {
        self.offset
    }
}

/// Reads a text character by character.
#[derive(Debug, Drop)]
pub struct CursorChars<'a> {
    text: &'a str,
    place: usize,
}

impl<'a> Model for CursorChars<'a> {
    ghost use Rattle.std.specs.Str.{IsCharBoundary};
    ghost use Rattle.starlark_place.specs.Cursor.{At, at};

    ghost Value = { At };

    ghost view = { λ c. at c.text.now c.place };

    ghost invariant = { λ c. IsCharBoundary c.text.now c.place };
}

impl<'a> CursorChars<'a> {
    /// Behind `offset` bytes of a text, at a character's boundary: `str::is_char_boundary` tells that.
    pub fn new_offset(text: &'a str, offset: usize) -> CursorChars<'a>
        requires { IsCharBoundary text.now offset }
        ensures { result ≡ at text.now offset }
    {
        CursorChars {
            text,
            place: offset,
        }
    }

    /// The character at the place, which moves behind it, or none at the end.
    pub fn next(&mut self) -> Option<char>
        ensures { TakesChar self.old result self.new }
    {
        let (c, next) = char_at(self.text, self.place)?;
        self.place = next;
        Some(c)
    }

    /// The character at the place, or none at the end.
    pub fn peek(&self) -> Option<char>
        ensures { StandsAt self.now result }
    {
        self.text[self.place..].chars().next()
    }

    /// Moves back by `c`, which stands right before the place, as behind a `next` that gave it.
    pub fn unnext(&mut self, c: char)
        requires { (before : At) × IsNext before c self.old }
        ensures { IsNext self.new c self.old }
    {
        self.place -= c.len_utf8();
    }

    /// The number of bytes before the place.
    pub fn pos(&self) -> usize
        ensures is { result ≡ self.now.place }
        ensures boundary { IsCharBoundary self.now.text result }
    {
        self.place
    }
}

// the character at a place and the place behind it, or none at the end
fn char_at(text: &str, place: usize) -> Option<(char, usize)>
    requires { IsCharBoundary text.now place }
    ensures stands { MatchOption result (place ≡ length text.now) (λ r. IsNext (at text.now place) r.0 (at text.now r.1)) }
    ensures boundary { IfSome result (λ r. IsCharBoundary text.now r.1) }
{
    let mut chars = text[place..].chars();
    match chars.next() {
        None => None,
        Some(c) => Some((c, text.len() - chars.as_str().len())),
    }
}
