//! Calls of the lexer that its items do not tell, and dialects.

use crate::check::{equal, holds};
use crate::maker::{Maker, leave};
use starlark_lexer::dialect::{Dialect, DialectTypes};
use starlark_lexer::lexer::Lexer;

#[test]
fn counts_reads_and_goes_through(rt: HostRuntime) {
    let alloc = rt.alloc();
    let codemap = Maker::new(&rt, alloc).map_of(1, "t", "f(x)\n");
    let mut lexer = Lexer::new(alloc, "f(x)\n", &Dialect::default(), codemap);
    equal(&rt, lexer.reads(), 0);
    for item in &mut lexer {
        holds(&rt, item.is_ok());
        leave(item);
    }
    holds(&rt, lexer.reads() >= 5);
    let end = lexer.next();
    holds(&rt, end.is_none());
    leave(end);
    leave(lexer);
}

#[test]
fn dialects(rt: HostRuntime) {
    let standard = Dialect::Standard;
    let extended = Dialect {
        enable_keyword_only_arguments: true,
        enable_positional_only_arguments: true,
        enable_top_level_stmt: true,
        enable_types: DialectTypes::Enable,
        ..standard
    };
    holds(&rt, Dialect::default() == standard);
    holds(&rt, Dialect::Extended == extended);
    holds(
        &rt,
        Dialect::AllOptionsInternal
            == Dialect {
                enable_f_strings: true,
                ..extended
            },
    );
    holds(
        &rt,
        standard.enable_def
            && standard.enable_lambda
            && standard.enable_load
            && standard.enable_load_reexport,
    );
}
