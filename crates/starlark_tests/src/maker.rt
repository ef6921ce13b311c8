//! Values that tests want, made where memory is at hand.

ghost use Rattle.std.specs.Prelude.{◌≡◌, Ok, string_bytes};

use crate::check::equal;
use starlark_ast::ast::AstStmt;
use starlark_lexer::dialect::Dialect;
use starlark_parser::fields::AstModuleFields;
use starlark_parser::module::AstModule;
use starlark_place::codemap::{CodeMap, CodeMapId};
use std::alloc::Global;
use std::fmt::{Debug, Display};
use std::mem::ManuallyDrop;
use std::process::Abort;

/// Makes what tests want, and sees what it prints. A test ends where memory runs out, and no tree is let go: how trees are let
/// go is proved anew in each crate that does so.
#[derive(Drop)]
pub(crate) struct Maker<'a, A> {
    rt: &'a A,
    alloc: Global,
}

impl<'a, A: Abort> Maker<'a, A> {
    /// What makes values from this memory, and ends a test by `rt`.
    pub(crate) fn new(rt: &'a A, alloc: Global) -> Maker<'a, A> {
        Maker { rt, alloc }
    }

    /// The memory.
    pub(crate) fn alloc(&self) -> Global {
        self.alloc
    }

    /// Ends a test in the place of a value of another form, which is left.
    pub(crate) fn unlike<T, U>(&self, other: T) -> U {
        leave(other);
        panic!(self.rt; "it has another form")
    }

    /// What a call made.
    pub(crate) fn made<T, E>(&self, made: Result<T, E>) -> T
        ensures { made ≡ Ok result }
    {
        match made {
            Ok(x) => x,
            Err(_) => panic!(self.rt; "it is refused, or memory ran out"),
        }
    }

    /// The map of a text.
    pub(crate) fn map_of(&self, id: u64, name: &str, source: &str) -> CodeMap
        ensures { result.source ≡ source.now }
    {
        let map = CodeMap::new(
            self.alloc,
            CodeMapId(id),
            self.text(name),
            self.text(source),
        );
        self.made(map)
    }

    /// The module of a text, in the dialect that has all.
    pub(crate) fn parsed(&self, text: &str) -> AstModule {
        let dialect = &Dialect::AllOptionsInternal;
        let id = CodeMapId(1);
        self.made(AstModule::parse(self.alloc, id, "t", self.text(text), dialect))
    }

    /// The tree of a text, taken out of its module.
    pub(crate) fn tree(&self, text: &str) -> AstStmt {
        let (_codemap, tree, _, _) = self.parsed(text).into_parts();
        tree
    }

    /// A text as a string.
    pub(crate) fn text(&self, text: &str) -> String
        ensures { string_bytes result ≡ text.now }
    {
        self.made(String::from_str(self.alloc, text))
    }

    /// A list of none.
    pub(crate) fn none<T>(&self) -> Vec<T> {
        Vec::new(self.alloc)
    }

    /// A list of one.
    pub(crate) fn one<T>(&self, x: T) -> Vec<T> {
        let mut xs = Vec::new(self.alloc);
        self.made(xs.push(x));
        xs
    }

    /// A list of two.
    pub(crate) fn both<T>(&self, x: T, y: T) -> Vec<T> {
        let mut xs = self.one(x);
        self.made(xs.push(y));
        xs
    }

    /// A value in a box.
    pub(crate) fn boxed<T>(&self, x: T) -> Box<T> {
        self.made(Box::new(self.alloc, x))
    }

    /// What stands there prints that.
    pub(crate) fn prints(&self, x: &impl Display, want: &str) {
        let text = self.made(x.to_string(self.alloc));
        equal(self.rt, text.as_str(), want);
    }

    /// Each of a table prints what stands beside it.
    pub(crate) fn each_prints<T: Display>(&self, table: &[(T, &str)]) {
        for (x, want) in table {
            self.prints(x, want);
        }
    }

    /// Both show the same, places and texts among it.
    pub(crate) fn same(&self, x: &impl Debug, y: &impl Debug) {
        let shown = self.made(format!(in self.alloc; "{x:?}"));
        let wanted = self.made(format!(in self.alloc; "{y:?}"));
        equal(self.rt, shown, wanted);
    }

    /// A copy shows the same as what it is of. It is left.
    pub(crate) fn copied<T: Debug, E>(&self, copy: Result<T, E>, of: &T) {
        let copy = self.made(copy);
        self.same(&copy, of);
        leave(copy);
    }

    /// A tree prints that. It is left.
    pub(crate) fn printed<T: Display>(&self, tree: T, want: &str) {
        self.prints(&tree, want);
        leave(tree);
    }
}

/// Leaves a value where it is.
pub(crate) fn leave<T>(x: T) {
    // all that tests make may be let go, but no bound says so here
    let _left = unsafe { ManuallyDrop::new_unchecked(x) };
}
