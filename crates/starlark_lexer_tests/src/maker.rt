//! Values that tests want, made where memory is at hand.

ghost use Rattle.std.specs.Prelude.{◌≡◌, Ok, string_bytes};

use crate::check::equal;
use starlark_place::codemap::{CodeMap, CodeMapId};
use std::alloc::Global;
use std::fmt::{Debug, Display};
use std::mem::ManuallyDrop;
use std::process::Abort;

/// Makes what tests want, and sees what it prints. A test ends where memory runs out, and no token or lexer is let go: how they are
/// let go is proved anew in each crate that does so.
#[derive(Drop)]
pub(crate) struct Maker<'a, A> {
    rt: &'a A,
    alloc: Global,
}

impl<'a, A: Abort> Maker<'a, A> {
    /// What makes values from this memory, and ends a test by `rt`.
    pub(crate) fn new(rt: &'a A, alloc: Global) -> Maker<'a, A> {
        Maker { rt, alloc }
    }

    /// What a call made.
    pub(crate) fn made<T, E>(&self, made: Result<T, E>) -> T
        ensures { made ≡ Ok result }
    {
        match made {
            Ok(x) => x,
            Err(_) => panic!(self.rt; "it is refused, or memory ran out"),
        }
    }

    /// The map of a text.
    pub(crate) fn map_of(&self, id: u64, name: &str, source: &str) -> CodeMap
        ensures { result.source ≡ source.now }
    {
        let map = CodeMap::new(
            self.alloc,
            CodeMapId(id),
            self.text(name),
            self.text(source),
        );
        self.made(map)
    }

    /// A text as a string.
    pub(crate) fn text(&self, text: &str) -> String
        ensures { string_bytes result ≡ text.now }
    {
        self.made(String::from_str(self.alloc, text))
    }

    /// A list of none.
    pub(crate) fn none<T>(&self) -> Vec<T> {
        Vec::new(self.alloc)
    }

    /// A list of one.
    pub(crate) fn one<T>(&self, x: T) -> Vec<T> {
        let mut xs = Vec::new(self.alloc);
        self.made(xs.push(x));
        xs
    }

    /// What stands there prints that.
    pub(crate) fn prints(&self, x: &impl Display, want: &str) {
        let text = self.made(x.to_string(self.alloc));
        equal(self.rt, text.as_str(), want);
    }

    /// Each of a table prints what stands beside it.
    pub(crate) fn each_prints<T: Display>(&self, table: &[(T, &str)]) {
        for (x, want) in table {
            self.prints(x, want);
        }
    }

    /// It shows that to a reader of code.
    pub(crate) fn shows(&self, x: &impl Debug, want: &str) {
        let text = self.made(format!(in self.alloc; "{x:?}"));
        equal(self.rt, text.as_str(), want);
    }

    /// A value prints that. It is left.
    pub(crate) fn printed<T: Display>(&self, x: T, want: &str) {
        self.prints(&x, want);
        leave(x);
    }
}

/// Leaves a value where it is.
pub(crate) fn leave<T>(x: T) {
    // all that tests make may be let go, but no bound says so here
    let _left = unsafe { ManuallyDrop::new_unchecked(x) };
}
