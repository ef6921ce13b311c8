//! The lines of commands: words between single spaces, and numbers of one to ten decimal digits up to 4294967295.

ghost use Rattle.std.specs.Prelude.{◌≡◌, ◌<◌, ◌+◌, ◌*◌, [], ◌∷◌, Option, MatchOption};
ghost use Rattle.starlark_script.specs.Script.{bytes_of, command_of, number_of, same_bytes, with_one, with_two, words};

/// What a line says. Parts count from 0.
#[derive(Clone, Copy, Debug)]
pub enum Head {
    /// Put a text before the part of the first number, or behind the last. Behind the line stand as many bytes as the
    /// second number says.
    Insert(usize, usize),
    /// Put a text in the place of the part of the first number. Behind the line stand as many bytes as the second number
    /// says.
    Replace(usize, usize),
    /// Leave the part of that number out.
    Remove(usize),
    /// Take the part of the first number out, and put it at the second one of what is left.
    Move(usize, usize),
    /// Tell the outline.
    Outline,
}

impl Head {
    /// How many bytes follow the line.
    pub fn bytes(self) -> usize
        ensures { result ≡ bytes_of self }
    {
        match self {
            Head::Insert(_, count) => count,
            Head::Replace(_, count) => count,
            Head::Remove(_) => 0,
            Head::Move(_, _) => 0,
            Head::Outline => 0,
        }
    }
}

/// The greatest number of a command.
const MOST: usize = 4294967295;

/// The number that the digits spell. None where they are none, more than ten or no digits, or spell more than `MOST`.
fn number(digits: &[u8]) -> Option<usize>
    ensures { result ≡ number_of digits.now }
{
    if digits.len() == 0 || digits.len() > 10 {
        return None;
    }
    let mut value: usize = 0;
    for b in digits {
        if value > MOST {
            return None;
        }
        if *b < b'0' || *b > b'9' {
            return None;
        }
        value = value * 10 + (*b - b'0') as usize;
    }
    if value > MOST { None } else { Some(value) }
}

/// The word before the first space, and what stands behind that space. None where there is no space.
fn split_once(line: &[u8]) -> Option<(&[u8], &[u8])>
    ensures { MatchOption result (words line.now ≡ line.now ∷ []) (λ p. words line.now ≡ p.0.now ∷ words p.1.now) }
{
    for (i, b) in line.iter().enumerate() {
        if *b == b' ' {
            return Some((&line[..i], &line[i + 1..]));
        }
    }
    None
}

/// Whether the word is that one.
fn is(word: &[u8], name: &[u8]) -> bool
    ensures { result ≡ same_bytes word.now name.now }
{
    word == name
}

// the command of a word and a number
fn with_one(word: &[u8], index: &[u8]) -> Option<Head>
    ensures { result ≡ with_one word.now (number_of index.now) }
{
    let Some(index) = number(index) else {
        return None;
    };
    if is(word, b"remove") {
        return Some(Head::Remove(index));
    }
    None
}

// the command of a word and two numbers
fn with_two(word: &[u8], first: &[u8], second: &[u8]) -> Option<Head>
    ensures { result ≡ with_two word.now (number_of first.now) (number_of second.now) }
{
    let Some(first) = number(first) else {
        return None;
    };
    let Some(second) = number(second) else {
        return None;
    };
    if is(word, b"insert") {
        return Some(Head::Insert(first, second));
    }
    if is(word, b"replace") {
        return Some(Head::Replace(first, second));
    }
    if is(word, b"move") {
        return Some(Head::Move(first, second));
    }
    None
}

/// The command that a line says, given without its line feed. None where it says none.
pub fn command(line: &[u8]) -> Option<Head>
    ensures { result ≡ command_of line.now }
{
    let Some((word, rest)) = split_once(line) else {
        if is(line, b"outline") {
            return Some(Head::Outline);
        }
        return None;
    };
    let Some((first, second)) = split_once(rest) else {
        return with_one(word, rest);
    };
    if let Some(_) = split_once(second) {
        return None;
    }
    with_two(word, first, second)
}
