//! Which constructs a text may use.

/// What is done with types.
#[derive(Clone, Copy, Debug, PartialEq, Eq)]
pub enum DialectTypes {
    /// They are refused, and so is `...`.
    Disable,
    /// They are taken, and all is read and refused as with `Enable`. A caller may tell the two apart.
    ParseOnly,
    /// They are taken.
    Enable,
}

/// Which constructs a text may use. It changes no lexeme.
#[derive(Clone, Copy, Debug, PartialEq, Eq)]
pub struct Dialect {
    /// Function definitions.
    pub enable_def: bool,
    /// Lambdas.
    pub enable_lambda: bool,
    /// Loads.
    pub enable_load: bool,
    /// A lone `*` among parameters.
    pub enable_keyword_only_arguments: bool,
    /// A `/` among parameters.
    pub enable_positional_only_arguments: bool,
    /// Types.
    pub enable_types: DialectTypes,
    /// Read by no call.
    pub enable_load_reexport: bool,
    /// `if` and `for` outside of functions.
    pub enable_top_level_stmt: bool,
    /// f-strings.
    pub enable_f_strings: bool,
}

impl Dialect {
    /// The default: definitions, lambdas and loads, and no more.
    pub const Standard: Dialect = Dialect {
        enable_def: true,
        enable_lambda: true,
        enable_load: true,
        enable_keyword_only_arguments: false,
        enable_positional_only_arguments: false,
        enable_types: DialectTypes::Disable,
        enable_load_reexport: true,
        enable_top_level_stmt: false,
        enable_f_strings: false,
    };

    /// All but f-strings.
    pub const Extended: Dialect = Dialect {
        enable_keyword_only_arguments: true,
        enable_positional_only_arguments: true,
        enable_types: DialectTypes::Enable,
        enable_top_level_stmt: true,
        ..Dialect::Standard
    };

    /// All that there is.
    pub const AllOptionsInternal: Dialect = Dialect {
        enable_f_strings: true,
        ..Dialect::Extended
    };
}

impl Default for Dialect {
    ghost use Rattle.std.specs.Prelude.{◌≡◌};
    ghost use Rattle.starlark_lexer.specs.declared.dialect.TheConstants.Dialect.{Standard};

    ghost is_default = { λ d. d ≡ Standard };

    fn default() -> Dialect {
        Dialect::Standard
    }
}
