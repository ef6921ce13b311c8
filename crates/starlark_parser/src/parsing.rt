//! How a module is made.

ghost use Rattle.std.specs.Prelude.{◌≡◌, ◌<◌, ◌↔◌, IfOk, IfErr, IsErrOf, string_bytes, length};
ghost use Rattle.starlark_grammar.specs.Comments.{AreComments};
ghost use Rattle.starlark_parser.specs.Costs.{Costs};
ghost use Rattle.starlark_grammar.specs.Language.{Language};
ghost use Rattle.starlark_parser.specs.Faults.{IsFault};
ghost use Rattle.starlark_parser.specs.Modules.{comments_of, dialect_of, file_of, joined_of, tree_of};

use crate::fault::{EvalException, refusal};
use crate::module::AstModule;
use starlark_completion::laws::refused_goes_on;
use starlark_grammar::text_laws::held_places;
use starlark_lexer::dialect::Dialect;
use starlark_lexer::laws::in_order;
use starlark_lexer::lexer::Lexer;
use starlark_make::reading::read_tree;
use starlark_place::codemap::{CodeMap, CodeMapId};
use starlark_read::cost::Cost;
use starlark_read::told::Told;
use std::alloc::Global;

/// The module of a text under a name, and what the reading took.
pub(crate) fn module_of(
    alloc: Global,
    id: CodeMapId,
    filename: &str,
    content: String,
    dialect: &Dialect,
    cost: &mut Cost,
) -> Result<AstModule, EvalException>
    requires { cost.old ≡ record { reads = 0; asks = 0 } }
    ensures too_long { IsErrOf result EvalException.TooLong ↔ (4294967295 < length (string_bytes content)) }
    ensures tree { IfOk result (λ m. Language dialect.now (string_bytes content) (tree_of m)) }
    ensures file { IfOk result (λ m. file_of m ≡ record { id = id.0; name = filename.now; source = string_bytes content }) }
    ensures dialect { IfOk result (λ m. dialect_of m ≡ dialect.now) }
    ensures comments { IfOk result (λ m. AreComments (string_bytes content) (comments_of m) (joined_of m)) }
    ensures fault { IfErr result (λ e. IsFault dialect.now (record { id = id.0; name = filename.now; source = string_bytes content }) e) }
    ensures cost { Costs dialect.now (string_bytes content) result cost.new }
{
    let bytes = content.len();
    if bytes > u32::MAX as usize {
        return Err(EvalException::TooLong);
    }
    let filename = String::from_str(alloc, filename)?;
    let Ok(codemap) = CodeMap::new(alloc, id, filename, content) else {
        return Err(EvalException::Memory);
    };
    let lexer = Lexer::new(alloc, codemap.source(), dialect, codemap.dupe()?);
    in_order();
    let mut told = Told::nothing(alloc);
    let answer = read_tree(alloc, lexer, dialect, &mut told);
    *cost = told.cost.at_most(bytes as u32);
    held_places();
    refused_goes_on();
    match answer {
        Ok(statement) => Ok(AstModule {
            codemap,
            statement,
            dialect: *dialect,
            comments: told.comments,
        }),
        Err(refused) => Err(refusal(alloc, refused, &codemap)),
    }
}
