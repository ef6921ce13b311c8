//! Which values may be copied, compared, ordered and hashed.

use starlark_lexer::dialect::{Dialect, DialectTypes};
use starlark_lexer::format::{EscapeCurlyBrace, FormatConv, FormatError, FormatToken};
use starlark_lexer::token::{FStringConv, FStringQuote, LexemeError, Token, TokenInt};
use starlark_place::codemap::{CodeMap, CodeMapId};
use starlark_place::fast_string::{CharIndex, StrIndices};
use starlark_place::file_span::FileSpan;
use starlark_place::pos::{Pos, Span, Spanned};
use starlark_place::resolved::{ResolvedFileLine, ResolvedFileSpan, ResolvedPos, ResolvedSpan};
use std::error::Error;
use std::hash::Hash;

fn ordered<T: Copy + Ord + Hash>() {}

fn hashed<T: Copy + Eq + Hash>() {}

fn copied<T: Copy + Eq>() {}

fn compared<T: Eq>() {}

fn keyed<T: Eq + Hash>() {}

fn sorted<T: Ord + Hash>() {}

fn told<T: Error>() {}

#[test]
fn traits() {
    ordered::<Pos>();
    ordered::<ResolvedPos>();
    ordered::<CharIndex>();
    ordered::<CodeMapId>();
    hashed::<Span>();
    hashed::<ResolvedSpan>();
    copied::<Dialect>();
    copied::<DialectTypes>();
    copied::<FStringQuote>();
    copied::<FStringConv>();
    copied::<FormatConv>();
    copied::<FormatToken<'_>>();
    copied::<EscapeCurlyBrace>();
    copied::<StrIndices<'_>>();
    compared::<Token>();
    compared::<TokenInt>();
    compared::<LexemeError>();
    compared::<ResolvedFileSpan>();
    compared::<ResolvedFileLine>();
    keyed::<Spanned<u8>>();
    keyed::<CodeMap>();
    sorted::<FileSpan>();
    told::<FormatError>();
}
