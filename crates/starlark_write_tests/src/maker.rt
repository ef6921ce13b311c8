//! Values that tests want, made where memory is at hand.

use crate::check::equal;
use std::alloc::Global;
use std::fmt::Display;
use std::mem::ManuallyDrop;
use std::process::Abort;

/// Makes what tests want, and sees what it prints. A test ends where memory runs out, and no tree is let go: how trees are let
/// go is proved anew in each crate that does so.
#[derive(Drop)]
pub(crate) struct Maker<'a, A> {
    rt: &'a A,
    alloc: Global,
}

impl<'a, A: Abort> Maker<'a, A> {
    /// What makes values from this memory, and ends a test by `rt`.
    pub(crate) fn new(rt: &'a A, alloc: Global) -> Maker<'a, A> {
        Maker { rt, alloc }
    }

    /// What a call made.
    pub(crate) fn made<T, E>(&self, made: Result<T, E>) -> T {
        match made {
            Ok(x) => x,
            Err(_) => panic!(self.rt; "memory ran out"),
        }
    }

    /// A text as a string.
    pub(crate) fn text(&self, text: &str) -> String {
        self.made(String::from_str(self.alloc, text))
    }

    /// A list of one.
    pub(crate) fn one<T>(&self, x: T) -> Vec<T> {
        let mut xs = Vec::new(self.alloc);
        self.made(xs.push(x));
        xs
    }

    /// A list of two.
    pub(crate) fn both<T>(&self, x: T, y: T) -> Vec<T> {
        let mut xs = self.one(x);
        self.made(xs.push(y));
        xs
    }

    /// A value in a box.
    pub(crate) fn boxed<T>(&self, x: T) -> Box<T> {
        self.made(Box::new(self.alloc, x))
    }

    /// What stands there prints that.
    pub(crate) fn prints(&self, x: &impl Display, want: &str) {
        let text = self.made(x.to_string(self.alloc));
        equal(self.rt, text.as_str(), want);
    }

    /// A tree prints that. It is left.
    pub(crate) fn printed<T: Display>(&self, tree: T, want: &str) {
        self.prints(&tree, want);
        leave(tree);
    }
}

/// Leaves a value where it is.
pub(crate) fn leave<T>(x: T) {
    // all that tests make may be let go, but no bound says so here
    let _left = unsafe { ManuallyDrop::new_unchecked(x) };
}
