//! What a module is made of.

ghost use Rattle.std.specs.Prelude.{◌≡◌};
ghost use Rattle.starlark_place.specs.Place.{File};
ghost use Rattle.starlark_lexer.specs.declared.dialect.Dialect.{Dialect};
ghost use Rattle.starlark_ast.specs.Tree.{Statement};
ghost use Rattle.starlark_ast.specs.View.{stmt_at};
ghost use Rattle.starlark_parser.specs.Modules.{asks_for_types, dialect_of, file_of, tree_of};

use crate::module::AstModule;
use starlark_ast::ast::AstStmt;
use starlark_lexer::dialect::Dialect;
use starlark_place::codemap::CodeMap;
use starlark_place::fast_string::contains;

/// The parts of a module.
pub trait AstModuleFields: Sized {
    ghost file: { Self → File };

    ghost tree: { Self → Statement };

    ghost switches: { Self → Dialect };

    /// Its named text.
    fn codemap(&self) -> &CodeMap
        ensures { result.now ≡ file self.now };

    /// Its tree.
    fn statement(&self) -> &AstStmt
        ensures { stmt_at result.now ≡ tree self.now };

    /// The dialect that it was read in.
    fn dialect(&self) -> &Dialect
        ensures { result.now ≡ switches self.now };

    /// All of them, and whether `@starlark-rust: typecheck` stands in the text.
    fn into_parts(self) -> (CodeMap, AstStmt, Dialect, bool)
        ensures file { result.0 ≡ file self }
        ensures tree { stmt_at result.1 ≡ tree self }
        ensures dialect { result.2 ≡ switches self }
        ensures types { result.3 ≡ asks_for_types (file self).source };
}

impl AstModuleFields for AstModule {
    ghost file = { file_of };

    ghost tree = { tree_of };

    ghost switches = { dialect_of };

    fn codemap(&self) -> &CodeMap {
        &self.codemap
    }

    fn statement(&self) -> &AstStmt {
        &self.statement
    }

    fn dialect(&self) -> &Dialect {
        &self.dialect
    }

    fn into_parts(self) -> (CodeMap, AstStmt, Dialect, bool) {
        let types = contains(self.codemap.source(), "@starlark-rust: typecheck");
        let (codemap, statement, dialect) = self.into_fields();
        (codemap, statement, dialect, types)
    }
}
