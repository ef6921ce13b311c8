//! What these tests share.

ghost use Rattle.std.specs.Prelude.{◌≡◌};

use crate::maker::Maker;
use starlark_ast::ast::{AssignIdent, AssignIdentP, AstNoPayload, AstPayload, Ident, IdentP};
use starlark_payload::payload_map::AstPayloadFunction;
use std::process::Abort;

/// Numbers as payloads.
#[derive(Debug)]
pub(crate) struct Numbered;

impl AstPayload for Numbered {
    type LoadPayload = u8;

    type IdentPayload = u8;

    type IdentAssignPayload = u8;

    type DefPayload = u8;

    type TypeExprPayload = u8;
}

/// Gives each call its number, and tells whether a load was of the module `m`.
#[derive(Drop)]
pub(crate) struct Counter {
    pub(crate) next: u8,
    pub(crate) is_of_m: bool,
}

impl Counter {
    pub(crate) fn new() -> Counter {
        Counter {
            next: 0,
            is_of_m: false,
        }
    }

    fn count(&mut self) -> u8
        ensures { result ≡ self.old.next }
    {
        let number = self.next;
        self.next = number.wrapping_add(1);
        number
    }
}

impl AstPayloadFunction<AstNoPayload, Numbered> for Counter {
    ghost gives_load = { λ s p x y t. y ≡ s.next };

    ghost gives_ident = { λ s x y t. y ≡ s.next };

    ghost gives_ident_assign = { λ s x y t. y ≡ s.next };

    ghost gives_def = { λ s x y t. y ≡ s.next };

    ghost gives_type_expr = { λ s x y t. y ≡ s.next };

    fn map_load(&mut self, import_path: &str, _a: ()) -> u8 {
        self.is_of_m = import_path == "m";
        self.count()
    }

    fn map_ident(&mut self, _a: ()) -> u8 {
        self.count()
    }

    fn map_ident_assign(&mut self, _a: ()) -> u8 {
        self.count()
    }

    fn map_def(&mut self, _a: ()) -> u8 {
        self.count()
    }

    fn map_type_expr(&mut self, _a: ()) -> u8 {
        self.count()
    }
}

pub(crate) fn read(m: &Maker<'_, impl Abort>, text: &str) -> Ident {
    let ident = m.text(text);
    IdentP { ident, payload: () }
}

pub(crate) fn assigned(m: &Maker<'_, impl Abort>, text: &str) -> AssignIdent {
    let ident = m.text(text);
    AssignIdentP { ident, payload: () }
}
