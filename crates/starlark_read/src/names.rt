//! Names with their places.

ghost use Rattle.std.specs.Prelude.{◌≡◌, IfOk, MatchOption, None, string_bytes};
ghost use Rattle.starlark_lexer.specs.Items.{item, identifier};
ghost use Rattle.starlark_grammar.specs.Nodes.{start};
ghost use Rattle.starlark_grammar.specs.Spans.{stretch};
ghost use Rattle.starlark_read.specs.Reads.{Passes, name_ahead};

use crate::tokens::Tokens;
use starlark_place::pos::Spanned;
use std::alloc::AllocError;

/// An identifier, if one stands ahead, with its place.
pub(crate) fn name(tokens: &mut Tokens) -> Result<Option<Spanned<String>>, AllocError>
    ensures { IfOk result (λ o. MatchOption o ((tokens.new ≡ tokens.old) × (name_ahead tokens.old.items ≡ None)) (λ s. (s.span ≡ stretch (start tokens.old.items) tokens.new.last) × Passes tokens.old (item (start tokens.old.items) (identifier (string_bytes s.node)) tokens.new.last) tokens.new)) }
{
    let begin = tokens.begin();
    let Some(found) = tokens.identifier()? else {
        return Ok(None);
    };
    let span = tokens.since(begin);
    let node = found.node;
    Ok(Some(Spanned { span, node }))
}
