//! Parameters of a `def`, and the type of its result.

ghost use Rattle.std.specs.Prelude.{ℕ, ◌≢◌, ◌<◌, ◌≤◌, IfOk, OnOk, Some, length, string_bytes};
ghost use Rattle.starlark_lexer.specs.Items.{closing_round};
ghost use Rattle.starlark_lexer.specs.declared.dialect.Dialect.{Dialect};
ghost use Rattle.starlark_ast.specs.Tree as tree;
ghost use Rattle.starlark_ast.specs.View.{members};
ghost use Rattle.starlark_grammar.specs.Frames.{Head, of_def, def_opens, wants_param, behind_star, behind_stars, behind_name, behind_param, wants_result, wants_suite};
ghost use Rattle.starlark_grammar.specs.Made.{annotation_of, bound_of};
ghost use Rattle.starlark_grammar.specs.Nodes.{named};
ghost use Rattle.starlark_read.specs.Reads.{Comes, first_lexeme};
ghost use Rattle.starlark_read.specs.Signature.{IsWhole, behind_type};
ghost use Rattle.starlark_grammar.specs.Spans.{stretch};

use crate::error::Error;
use crate::expression::expression;
use crate::kind::Kind;
use crate::level::TEST;
use crate::lists::push;
use crate::names::name;
use crate::tokens::Tokens;
use crate::types::type_expression;
use starlark_grammar::build::Build;
use starlark_grammar::make::Make;
use starlark_lexer::dialect::Dialect;
use starlark_place::pos::{Pos, Spanned};

/// The parameters of a `def`, with the brackets around them.
pub(crate) fn def_parameters<B: Build>(
    tokens: &mut Tokens,
    dialect: Dialect,
) -> Result<Vec<B::Parameter>, Error>
    ensures reads { (h : Head) → Comes dialect (def_opens h) (λ ps. wants_result h (members B.parameter_means ps.items)) tokens.old result tokens.new }
    ensures shorter { OnOk result (length tokens.new.items < length tokens.old.items) }
{
    tokens.expect(Kind::OpeningRound)?;
    let mut found = Vec::new(tokens.alloc());
    while !tokens.accept(Kind::ClosingRound)? {
        let next = parameter::<B>(tokens, dialect)?;
        push(&mut found, next)?;
        if !tokens.accept(Kind::Comma)? {
            tokens.expect(Kind::ClosingRound)?;
            return Ok(found);
        }
    }
    Ok(found)
}

/// A parameter or a marker, where no bracket closes.
fn parameter<B: Build>(tokens: &mut Tokens, dialect: Dialect) -> Result<B::Parameter, Error>
    ensures reads { (h : Head) (ps : tree.Members) → first_lexeme tokens.old.items ≢ Some closing_round → Comes dialect (wants_param h ps) (λ x. behind_param h (tree.more ps (B.parameter_means x))) tokens.old result tokens.new }
    ensures shorter { OnOk result (length tokens.new.items < length tokens.old.items) }
{
    let begin = tokens.begin();
    if tokens.accept(Kind::Slash)? {
        return Ok(B::slash(tokens.since(begin)));
    }
    if tokens.accept(Kind::Star)? {
        return starred::<B>(tokens, dialect, begin);
    }
    if tokens.accept(Kind::StarStar)? {
        return double_starred::<B>(tokens, dialect, begin);
    }
    let Some(name) = name(tokens)? else {
        return Err(Error::Unexpected);
    };
    plain::<B>(tokens, dialect, begin, name)
}

/// A parameter behind its `*`, or the marker that this is.
fn starred<B: Build>(
    tokens: &mut Tokens,
    dialect: Dialect,
    begin: Pos,
) -> Result<B::Parameter, Error>
    ensures reads { (h : Head) (ps : tree.Members) → Comes dialect (behind_star h ps begin tokens.old.last) (λ x. behind_param h (tree.more ps (B.parameter_means x))) tokens.old result tokens.new }
    ensures shorter { OnOk result (length tokens.new.items ≤ length tokens.old.items) }
{
    let Some(name) = name(tokens)? else {
        return Ok(B::no_args(tokens.since(begin)));
    };
    let ty = annotation::<B>(tokens, dialect)?;
    let span = tokens.since(begin);
    Ok(B::typed_args_parameter(name, ty, span))
}

/// A parameter behind its `**`.
fn double_starred<B: Build>(
    tokens: &mut Tokens,
    dialect: Dialect,
    begin: Pos,
) -> Result<B::Parameter, Error>
    ensures reads { (h : Head) (ps : tree.Members) → Comes dialect (behind_stars h ps begin) (λ x. behind_param h (tree.more ps (B.parameter_means x))) tokens.old result tokens.new }
    ensures shorter { OnOk result (length tokens.new.items ≤ length tokens.old.items) }
{
    let Some(name) = name(tokens)? else {
        return Err(Error::Unexpected);
    };
    let ty = annotation::<B>(tokens, dialect)?;
    let span = tokens.since(begin);
    Ok(B::typed_kwargs_parameter(name, ty, span))
}

/// A parameter without stars, behind its name.
fn plain<B: Build>(
    tokens: &mut Tokens,
    dialect: Dialect,
    begin: Pos,
    name: Spanned<String>,
) -> Result<B::Parameter, Error>
    ensures reads { (h : Head) (ps : tree.Members) → Comes dialect (behind_name h ps tree.plain (tree.name_at (string_bytes name.node) name.span) begin tokens.old.last) (λ x. behind_param h (tree.more ps (B.parameter_means x))) tokens.old result tokens.new }
    ensures shorter { OnOk result (length tokens.new.items ≤ length tokens.old.items) }
{
    let ty = annotation::<B>(tokens, dialect)?;
    let default = default_value::<B>(tokens)?;
    let span = tokens.since(begin);
    Ok(B::typed_parameter(tokens.alloc(), name, ty, default, span)?)
}

/// The type of a parameter behind its name, if one is written.
fn annotation<B: Build>(tokens: &mut Tokens, dialect: Dialect) -> Result<Option<B::Type>, Error>
    ensures reads { (h : Head) (ps : tree.Members) (y : tree.Stars) (n : tree.Name) (p : ℕ) → Comes dialect (behind_name h ps y n p tokens.old.last) (λ t. behind_type h ps y n p (annotation_of B.type_means t) tokens.new.last) tokens.old result tokens.new }
    ensures whole { IfOk result (λ t. IsWhole dialect (annotation_of B.type_means t) tokens.new.items) }
    ensures shorter { OnOk result (length tokens.new.items ≤ length tokens.old.items) }
{
    if tokens.accept(Kind::Colon)? {
        Ok(Some(type_expression::<B>(tokens, dialect)?))
    } else {
        Ok(None)
    }
}

/// The default of a parameter without stars, if one is written.
fn default_value<B: Make>(tokens: &mut Tokens) -> Result<Option<B::Expr>, Error>
    ensures reads { (d : Dialect) (h : Head) (ps : tree.Members) (n : tree.Name) (t : tree.Annotation) (p : ℕ) → IsWhole d t tokens.old.items → Comes d (behind_type h ps tree.plain n p t tokens.old.last) (λ q. behind_param h (tree.more ps (named tree.plain n t (bound_of B.means q) (stretch p tokens.new.last)))) tokens.old result tokens.new }
    ensures shorter { OnOk result (length tokens.new.items ≤ length tokens.old.items) }
{
    if tokens.accept(Kind::Equal)? {
        Ok(Some(expression::<B>(tokens, TEST)?))
    } else {
        Ok(None)
    }
}

/// The type of what a `def` returns, if one is written, and the colon.
pub(crate) fn result_type<B: Build>(
    tokens: &mut Tokens,
    dialect: Dialect,
) -> Result<Option<B::Type>, Error>
    ensures reads { (h : Head) (ps : tree.Members) → Comes dialect (wants_result h ps) (λ t. wants_suite (of_def h ps (annotation_of B.type_means t))) tokens.old result tokens.new }
    ensures shorter { OnOk result (length tokens.new.items < length tokens.old.items) }
{
    if tokens.accept(Kind::Colon)? {
        return Ok(None);
    }
    tokens.expect(Kind::MinusGreater)?;
    let found = type_expression::<B>(tokens, dialect)?;
    tokens.expect(Kind::Colon)?;
    Ok(Some(found))
}
