//! A module once more.

ghost use Rattle.std.specs.Prelude.{◌≡◌, IfOk};
ghost use Rattle.starlark_parser.specs.Modules.{comments_of, dialect_of, file_of, joined_of, tree_of};

use crate::module::AstModule;
use starlark_clone::clone_tree::CloneTree;
use starlark_place::pos::Spanned;
use std::alloc::{AllocError, Global};

impl AstModule {
    /// The same module, with a tree of its own. Both own the text. It is refused where memory runs out, or where std
    /// refuses shared data one more owner.
    pub fn clone(&self, alloc: Global) -> Result<AstModule, AllocError>
        ensures file { IfOk result (λ m. file_of m ≡ file_of self.now) }
        ensures tree { IfOk result (λ m. tree_of m ≡ tree_of self.now) }
        ensures dialect { IfOk result (λ m. dialect_of m ≡ dialect_of self.now) }
        ensures comments { IfOk result (λ m. comments_of m ≡ comments_of self.now) }
        ensures joined { IfOk result (λ m. joined_of m ≡ joined_of self.now) }
    {
        let codemap = self.codemap.dupe()?;
        let comments = self.comments.clone(alloc)?;
        let node = self.statement.node.clone(alloc)?;
        Ok(AstModule {
            codemap,
            statement: Spanned {
                span: self.statement.span,
                node,
            },
            dialect: self.dialect,
            comments,
        })
    }
}
