//! What C holds of a module.

ghost use Rattle.std.specs.Prelude.{◌≡◌, IfSome, Option, Some, None};
ghost use Rattle.std.specs.Option.{MatchOption};
ghost use Rattle.starlark_parser.specs.declared.module.AstModule.{AstModule};
ghost use Rattle.starlark_c_parser.specs.Kept.{kept_code, kept_owns};

use crate::loose::Loose;
use starlark_parser::module::AstModule;
use std::alloc::Global;
use std::marker::Model;
use std::mem::ManuallyDrop;
use std::ptr::null_mut;

/// An owner of a module, or of none where its pointer is null. What the pointer leads to is not for C to read, so it
/// points to bytes. C begins with null there, copies no owner that it still uses, and lets each go once.
#[repr(C)]
pub struct Kept {
    at: *mut u8,
    pub ghost tree: { Option AstModule } by { kept_code },
}

impl Model for Kept {
    ghost also_owns = { λ k. kept_owns k.at k.tree };
}

impl Kept {
    /// An owner of none.
    pub(crate) fn none() -> Kept
        ensures { result.tree ≡ None }
    {
        Kept { at: null_mut() }
    }

    /// The owner of a module, or of none. Where memory runs out the module goes, and there is no owner.
    pub(crate) fn of(alloc: Global, parsed: Option<AstModule>) -> Option<Kept>
        ensures { IfSome result (λ k. k.tree ≡ parsed) }
    {
        let Some(module) = parsed else {
            return Some(Kept::none());
        };
        // it is not lost: `into_module` takes it out again
        match Box::new(alloc, unsafe { ManuallyDrop::new_unchecked(module) }) {
            Ok(held) => Some(Kept::of_loose(Loose::of(held))),
            Err(refused) => {
                let _module = ManuallyDrop::into_inner(refused.value);
                None
            }
        }
    }

    /// Its module, if there is one.
    pub(crate) fn into_module(self, alloc: Global) -> Option<AstModule>
        ensures { result ≡ self.tree }
    {
        let loose = self.into_loose(alloc)?;
        Some(ManuallyDrop::into_inner(Box::into_inner(loose.into_box())))
    }

    /// Lets its module go, if there is one.
    pub(crate) fn release(self, alloc: Global) {
        let _module = self.into_module(alloc);
    }

    fn of_loose(loose: Loose<ManuallyDrop<AstModule>, Global>) -> Kept
        ensures { result.tree ≡ Some (loose.value).value }
    {
        let Loose { at, alloc: _ } = loose;
        Kept { at: at as *mut u8 }
    }

    fn into_loose(self, alloc: Global) -> Option<Loose<ManuallyDrop<AstModule>, Global>>
        ensures { MatchOption result (self.tree ≡ None) (λ l. self.tree ≡ Some (l.value).value) }
    {
        let Kept { at } = self;
        if at.is_null() {
            None
        } else {
            Some(Loose {
                at: at as *mut ManuallyDrop<AstModule>,
                alloc,
            })
        }
    }
}
