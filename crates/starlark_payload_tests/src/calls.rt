//! Payload maps that write down their calls: the kind of each, and what each was given.

ghost use Rattle.std.specs.Prelude.{⊤};

use crate::check::{equal, equal_in};
use crate::common::{Counter, Numbered};
use crate::maker::{Maker, leave};
use crate::parsed::tree;
use starlark_ast::ast::{AstNoPayload, AstStmt, AstStmtP};
use starlark_payload::payload_map::AstPayloadFunction;
use starlark_payload::statement_maps::StmtPExt;

/// What was written down.
#[derive(Drop)]
struct Calls {
    said: String,
}

impl Calls {
    fn say(&mut self, what: char) {
        let _ = self.said.push(what);
    }

    // a number below 10
    fn tell(&mut self, number: u8) {
        self.say(char::from(b'0'.wrapping_add(number)));
    }
}

/// Of a tree without payloads: a letter for each call.
impl AstPayloadFunction<AstNoPayload, AstNoPayload> for Calls {
    ghost gives_load = { λ s p x y t. ⊤ };

    ghost gives_ident = { λ s x y t. ⊤ };

    ghost gives_ident_assign = { λ s x y t. ⊤ };

    ghost gives_def = { λ s x y t. ⊤ };

    ghost gives_type_expr = { λ s x y t. ⊤ };

    fn map_load(&mut self, _import_path: &str, _a: ()) {
        self.say('l');
    }

    fn map_ident(&mut self, _a: ()) {
        self.say('i');
    }

    fn map_ident_assign(&mut self, _a: ()) {
        self.say('a');
    }

    fn map_def(&mut self, _a: ()) {
        self.say('d');
    }

    fn map_type_expr(&mut self, _a: ()) {
        self.say('t');
    }
}

/// Of a tree with numbers: the number that each call was given.
impl AstPayloadFunction<Numbered, AstNoPayload> for Calls {
    ghost gives_load = { λ s p x y t. ⊤ };

    ghost gives_ident = { λ s x y t. ⊤ };

    ghost gives_ident_assign = { λ s x y t. ⊤ };

    ghost gives_def = { λ s x y t. ⊤ };

    ghost gives_type_expr = { λ s x y t. ⊤ };

    fn map_load(&mut self, _import_path: &str, a: u8) {
        self.tell(a);
    }

    fn map_ident(&mut self, a: u8) {
        self.tell(a);
    }

    fn map_ident_assign(&mut self, a: u8) {
        self.tell(a);
    }

    fn map_def(&mut self, a: u8) {
        self.tell(a);
    }

    fn map_type_expr(&mut self, a: u8) {
        self.tell(a);
    }
}

/// Texts, and a letter for each call: of a load, of a name that is read, of one that is assigned, of a `def` or a lambda, of a type.
static KINDS: [(&str, &str); 3] = [
    ("z = lambda x: y", "aaid"),
    ("def f(a: int) -> int: return a", "aaititid"),
    ("load(\"m\", \"a\")", "la"),
];

#[test]
fn kinds(rt: HostRuntime) {
    let alloc = rt.alloc();
    let m = &Maker::new(&rt, alloc);
    for (text, want) in &KINDS {
        let mut calls = Calls { said: m.text("") };
        let tree = m.made(tree(alloc, text));
        let tree: AstStmt = m.made(StmtPExt::into_map_payload(tree, alloc, &mut calls));
        leave(tree);
        equal_in(&rt, text, calls.said.as_str(), *want);
    }
}

/// Each payload of a tree that was numbered by one map is given to another in the same order.
#[test]
fn numbers(rt: HostRuntime) {
    let alloc = rt.alloc();
    let m = &Maker::new(&rt, alloc);
    let tree = m.made(tree(alloc, "def f(a: int) -> int: return a"));
    let mut counter = Counter::new();
    let tree: AstStmtP<Numbered> = m.made(StmtPExt::into_map_payload(tree, alloc, &mut counter));
    let mut calls = Calls { said: m.text("") };
    let tree: AstStmt = m.made(StmtPExt::into_map_payload(tree, alloc, &mut calls));
    leave(tree);
    equal(&rt, calls.said.as_str(), "01234567");
}
