//! Dialects as C names them.

ghost use Rattle.std.specs.Prelude.{◌≡◌};
ghost use Rattle.starlark_c_parser.specs.Taken.{dialect_of};

use starlark_lexer::dialect::{Dialect, DialectTypes};

/// Which constructs a text may use.
#[repr(C)]
#[derive(Clone, Copy)]
pub struct Switches {
    /// Function definitions.
    pub enable_def: bool,
    /// Lambdas.
    pub enable_lambda: bool,
    /// Loads.
    pub enable_load: bool,
    /// A lone `*` among parameters.
    pub enable_keyword_only_arguments: bool,
    /// A `/` among parameters.
    pub enable_positional_only_arguments: bool,
    /// Types.
    pub enable_types: bool,
    /// `if` and `for` outside of functions.
    pub enable_top_level_stmt: bool,
    /// f-strings.
    pub enable_f_strings: bool,
}

impl Switches {
    /// The dialect that they say.
    pub(crate) fn dialect(self) -> Dialect
        ensures { result ≡ dialect_of self }
    {
        let enable_types = if self.enable_types {
            DialectTypes::Enable
        } else {
            DialectTypes::Disable
        };
        Dialect {
            enable_def: self.enable_def,
            enable_lambda: self.enable_lambda,
            enable_load: self.enable_load,
            enable_keyword_only_arguments: self.enable_keyword_only_arguments,
            enable_positional_only_arguments: self.enable_positional_only_arguments,
            enable_types,
            enable_load_reexport: true,
            enable_top_level_stmt: self.enable_top_level_stmt,
            enable_f_strings: self.enable_f_strings,
        }
    }
}
