//! The answer to a query.

ghost use Rattle.std.specs.Prelude.{◌≡◌, IfOk};

use crate::query::{Question, Word};
use crate::{module, tokens};
use starlark_lexer::place::codemap::{CodeMap, CodeMapError, CodeMapId};
use std::alloc::{AllocError, Global};
use std::str::from_utf8;

/// Why a text has no answer.
#[derive(Clone, Copy)]
pub(crate) enum Refused {
    /// It has more than 4294967295 bytes.
    Long,
    /// Memory lacked for it or for its answer.
    Memory,
    /// It is no UTF-8.
    Utf8,
}

impl Refused {
    /// The line that answers such a text.
    pub(crate) fn line(self) -> &'static str {
        match self {
            Refused::Long => "refused long\n",
            Refused::Memory => "refused memory\n",
            Refused::Utf8 => "refused utf8\n",
        }
    }
}

impl From<AllocError> for Refused {
    fn from(_error: AllocError) -> Refused {
        Refused::Memory
    }
}

/// The map of a text, under the name `text`.
pub(crate) fn codemap_of(alloc: Global, text: &str) -> Result<CodeMap, Refused>
    ensures { IfOk result (λ m. m.source ≡ text.now) }
{
    let name = String::from_str(alloc, "text")?;
    let source = String::from_str(alloc, text)?;
    match CodeMap::new(alloc, CodeMapId::EMPTY, name, source) {
        Ok(codemap) => Ok(codemap),
        Err(CodeMapError::TooLong) => Err(Refused::Long),
        Err(CodeMapError::Memory) => Err(Refused::Memory),
    }
}

/// The lines that answer a question of a text.
pub(crate) fn answer(alloc: Global, question: Question, bytes: &[u8]) -> Result<String, Refused> {
    let Ok(text) = from_utf8(bytes) else {
        return Err(Refused::Utf8);
    };
    match question.word {
        Word::Tokens => {
            let codemap = codemap_of(alloc, text)?;
            tokens::answer(alloc, text, &question.dialect, codemap)
        }
        Word::Module(shown) => module::answer(alloc, shown, text, &question.dialect),
    }
}
