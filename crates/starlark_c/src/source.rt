//! The source that a text is resolved and cut in.

ghost use Rattle.std.specs.Prelude.{◌≡◌, ◌<◌, IfSome, None, length};

use starlark_place::codemap::{CodeMap, CodeMapId};
use std::alloc::Global;

/// The map of a copy of the text, or none where it is too long or memory runs out.
pub(crate) fn code_map(alloc: Global, text: &str) -> Option<CodeMap>
    ensures source { IfSome result (λ m. m.source ≡ text.now) }
    ensures too_long { 4294967295 < length text.now → result ≡ None }
{
    let source = String::from_str(alloc, text).ok()?;
    CodeMap::new(alloc, CodeMapId::EMPTY, String::new(alloc), source).ok()
}
