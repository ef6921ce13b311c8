//! Each call once: what it answers with memory at hand. Its contract says the rest.

use crate::keeping::{starlark_c_parser_keep, starlark_c_parser_release};
use crate::kept::Kept;
use crate::parsing::starlark_c_parser_parse;
use crate::switches::Switches;
use std::alloc::Global;

const PLAIN: Switches = Switches {
    enable_def: true,
    enable_lambda: true,
    enable_load: true,
    enable_keyword_only_arguments: false,
    enable_positional_only_arguments: false,
    enable_types: false,
    enable_top_level_stmt: false,
    enable_f_strings: false,
};

/// All that a text may use.
const ALL: Switches = Switches {
    enable_def: true,
    enable_lambda: true,
    enable_load: true,
    enable_keyword_only_arguments: true,
    enable_positional_only_arguments: true,
    enable_types: true,
    enable_top_level_stmt: true,
    enable_f_strings: true,
};

/// Texts, and whether they are taken. Refused are a rule that is broken, a token that cannot stand, a fault of the lexer.
static TEXTS: [(&str, Switches, bool); 6] = [
    ("x = 1\n", PLAIN, true),
    ("x: int = 1\n", PLAIN, false),
    ("x = )\n", PLAIN, false),
    ("x = $\n", PLAIN, false),
    ("x: int = f\"{y}\"\nif x: pass\n", ALL, true),
    ("", ALL, true),
];

#[test]
fn texts(rt: HostRuntime) {
    for (text, switches, wanted) in &TEXTS {
        let mut taken = !*wanted;
        assert!(rt; starlark_c_parser_parse(rt.alloc(), text.as_bytes(), switches, &mut taken));
        assert_eq!(rt; taken, *wanted);
    }
}

// whether a tree is kept, which goes
fn is_kept(alloc: Global, kept: Kept) -> bool {
    match kept.into_module(alloc) {
        Some(_module) => true,
        None => false,
    }
}

#[test]
fn kept_trees(rt: HostRuntime) {
    let mut kept = Kept::none();
    assert!(rt; starlark_c_parser_keep(rt.alloc(), b"x = 1\n", &PLAIN, &mut kept));
    // the first tree goes
    assert!(rt; starlark_c_parser_keep(rt.alloc(), b"y = 2\n", &PLAIN, &mut kept));
    assert!(rt; is_kept(rt.alloc(), kept));
}

#[test]
fn refused_text(rt: HostRuntime) {
    let mut kept = Kept::none();
    assert!(rt; starlark_c_parser_keep(rt.alloc(), b"x = 1\n", &PLAIN, &mut kept));
    assert!(rt; starlark_c_parser_keep(rt.alloc(), b"x: int = 1\n", &PLAIN, &mut kept));
    assert!(rt; !is_kept(rt.alloc(), kept));
}

#[test]
fn released_tree(rt: HostRuntime) {
    let mut kept = Kept::none();
    assert!(rt; starlark_c_parser_keep(rt.alloc(), b"x = 1\n", &PLAIN, &mut kept));
    starlark_c_parser_release(rt.alloc(), &mut kept);
    assert!(rt; !is_kept(rt.alloc(), kept));
}
