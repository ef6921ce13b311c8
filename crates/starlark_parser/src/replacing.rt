//! Operators of a module that become calls.

ghost use Rattle.std.specs.Prelude.{◌≡◌, OnOk, OnErr};
ghost use Rattle.starlark_clone.specs.Replacing.{renaming, replaced_statement};
ghost use Rattle.starlark_parser.specs.Modules.{comments_of, dialect_of, file_of, joined_of, tree_of};

use crate::module::AstModule;
use starlark_clone::discard::discard_stmt;
use starlark_clone::renaming::with_calls_for_operators;
use starlark_place::pos::Spanned;
use std::alloc::{AllocError, Global};
use std::collections::HashMap;
use std::mem;

impl AstModule {
    /// Makes each operation whose operator is a key of `replace` a call of the name that stands there, on its two
    /// operands: docs/LANGUAGE.md, Modules. A key is an operator's text, as `+` or `not in`; any other counts for nothing.
    /// Operations in types, targets and defaults are among them. It is refused where memory runs out, and then the module
    /// is as it was.
    pub fn replace_binary_operators(
        &mut self,
        alloc: Global,
        replace: &HashMap<String, String>,
    ) -> Result<(), AllocError>
        ensures tree { OnOk result (tree_of self.new ≡ replaced_statement (renaming replace.now) (tree_of self.old)) }
        ensures err { OnErr result (self.new ≡ self.old) }
        ensures file { file_of self.new ≡ file_of self.old }
        ensures dialect { dialect_of self.new ≡ dialect_of self.old }
        ensures comments { comments_of self.new ≡ comments_of self.old }
        ensures joined { joined_of self.new ≡ joined_of self.old }
    {
        let node = with_calls_for_operators(alloc, &self.statement.node, replace)?;
        let node = mem::replace(&mut self.statement.node, node);
        let span = self.statement.span;
        discard_stmt(Spanned { span, node });
        Ok(())
    }
}
