//! Types, taken apart.

ghost use Rattle.std.specs.Prelude.{◌≡◌, ◌++◌, [], IfOk, OnOk, Result, map, string_bytes};
ghost use Rattle.starlark_place.specs.Place.{Extent};
ghost use Rattle.starlark_ast.specs.Tree as tree;
ghost use Rattle.starlark_ast.specs.View.{expr_at, literal_view};
ghost use Rattle.starlark_ast.specs.Views.{items_of};
ghost use Rattle.starlark_rules.specs.Forms.{attribute, form_at, form_view, path_view, read_at};
ghost use Rattle.starlark_rules.specs.Misfits.{Comes, forms_view, path_text, role_of, stop_for};
ghost use Rattle.starlark_rulebook.specs.Rules as rules;
ghost use Rattle.starlark_rulebook.specs.Types as types;
ghost use Rattle.starlark_rulebook.specs.View.{maybe_finding};

use crate::def::push_at;
use crate::type_expr::{TypeExprUnpackP, TypePathP};
use starlark_ast::ast::{AstExprP, AstIdentP, AstLiteral, AstPayload, AstString, BinOp, ExprP};
use starlark_place::pos::{Span, Spanned};
use starlark_rulebook::rule::{Rule, TypeExprUnpackError};
use std::alloc::{AllocError, Global};

/// The first rule that an expression breaks as a type, at its place. The rules stand in docs/LANGUAGE.md, Rules.
/// `Err` comes where memory lacks, also for a type that breaks none: it is taken apart.
pub fn type_fault<P: AstPayload>(
    alloc: Global,
    x: &AstExprP<P>,
) -> Result<Option<Spanned<Rule>>, AllocError>
    ensures { IfOk result (λ found. maybe_finding found ≡ types.first_type_fault (expr_at x.now)) }
{
    match type_parts(alloc, Role::Alone, x) {
        Ok(_) => Ok(None),
        Err(Stop::NoType(Spanned { span, node })) => Ok(Some(Spanned {
            span,
            node: Rule::TypeForm(node),
        })),
        Err(Stop::Memory) => Err(AllocError),
    }
}

/// Why an expression is not taken apart as a type.
#[derive(Drop)]
pub(crate) enum Stop {
    /// It is none: why, and where.
    NoType(Spanned<TypeExprUnpackError>),
    /// Memory ran out.
    Memory,
}

impl From<AllocError> for Stop {
    ghost use Rattle.std.specs.Prelude.{◌≡◌};
    ghost use Rattle.starlark_rules.specs.declared.types.Stop.TheVariants.{Memory};

    ghost from_gives = { λ _ stop. stop ≡ Memory };

    fn from(_: AllocError) -> Stop {
        Stop::Memory
    }
}

/// Where an expression stands that should be a type.
#[derive(Clone, Copy)]
pub(crate) enum Role {
    Alone,
    /// One of two in brackets behind a path, or in a list there: a list may stand there, too.
    Argument,
}

/// The parts of a type, without its place.
type Parts<'a, P> = Result<TypeExprUnpackP<'a, P>, Stop>;

/// Several types.
type Several<'a, P> = Result<Vec<Spanned<TypeExprUnpackP<'a, P>>>, Stop>;

/// The parts of a type.
#[cycle(parts)]
pub(crate) fn type_parts<'a, P: AstPayload>(
    alloc: Global,
    role: Role,
    x: &'a AstExprP<P>,
) -> Parts<'a, P>
    ensures { Comes (λ u. form_view u x.now.span) (types.form_of (role_of role) (expr_at x.now)) result }
{
    match &x.node {
        ExprP::Identifier(_) => path_type(path_parts(alloc, x)),
        ExprP::Literal(literal) => literal_parts(literal, x.span),
        ExprP::Dot(object, name) => path_type(dotted(alloc, object, name)),
        ExprP::Tuple(xs) => tuple_type(each_type(alloc, Role::Alone, xs)),
        ExprP::List(xs) => list_parts(alloc, role, xs, x.span),
        ExprP::Op(left, operator, right) => {
            operation_parts(alloc, left, *operator, right, x.span)
        }
        ExprP::Index(parts) => index_parts(alloc, &parts.0, &parts.1, x.span),
        ExprP::Index2(parts) => index2_parts(alloc, &parts.0, &parts.1, &parts.2),
        ExprP::Slice(_, _, _, _) => Err(no_type("slice", x.span)),
        ExprP::Call(_, _) => Err(no_type("call", x.span)),
        ExprP::Lambda(_) => Err(no_type("lambda", x.span)),
        ExprP::Not(_) => Err(no_type("not", x.span)),
        ExprP::Minus(_) => Err(no_type("minus", x.span)),
        ExprP::Plus(_) => Err(no_type("plus", x.span)),
        ExprP::BitNot(_) => Err(no_type("bit not", x.span)),
        ExprP::If(_) => Err(no_type("if", x.span)),
        ExprP::Dict(_) => Err(no_type("dict", x.span)),
        ExprP::ListComprehension(_, _, _) => Err(no_type("list comprehension", x.span)),
        ExprP::DictComprehension(_, _, _) => Err(no_type("dict comprehension", x.span)),
        ExprP::FString(_) => Err(no_type("f-string", x.span)),
    }
}

/// The parts of several types.
#[cycle(parts)]
fn each_type<'a, P: AstPayload>(alloc: Global, role: Role, xs: &'a [AstExprP<P>]) -> Several<'a, P>
    ensures { Comes (λ v. forms_view v.items) (types.forms_of (role_of role) (items_of xs.now)) result }
{
    let mut out = Vec::new(alloc);
    for x in xs {
        add_part(&mut out, x.span, type_parts(alloc, role, x))?;
    }
    Ok(out)
}

/// The parts of two types.
#[cycle(parts)]
fn both_types<'a, P: AstPayload>(
    alloc: Global,
    x: &'a AstExprP<P>,
    y: &'a AstExprP<P>,
) -> Several<'a, P>
    ensures { Comes (λ v. forms_view v.items) (types.from_both (λ f g. types.add_form (types.add_form types.no_forms f) g) (types.form_of types.alone (expr_at x.now)) (types.form_of types.alone (expr_at y.now))) result }
{
    let mut both = Vec::new(alloc);
    add_part(&mut both, x.span, type_parts(alloc, Role::Alone, x))?;
    add_part(&mut both, y.span, type_parts(alloc, Role::Alone, y))?;
    Ok(both)
}

/// The parts of two types with an operator between them, which is to be `|`.
#[cycle(parts)]
fn operation_parts<'a, P: AstPayload>(
    alloc: Global,
    x: &'a AstExprP<P>,
    operator: BinOp,
    y: &'a AstExprP<P>,
    span: Span,
) -> Parts<'a, P>
    ensures { (r : types.Role) → Comes (λ u. form_view u span) (types.form_of r (tree.operation (expr_at x.now) operator (expr_at y.now) span)) result }
{
    match operator {
        BinOp::BitOr => union_type(both_types(alloc, x, y)),
        _ => Err(no_type("bin op except `|`", span)),
    }
}

/// The parts of a list: an argument, or alone a union of two types or more.
#[cycle(parts)]
fn list_parts<'a, P: AstPayload>(
    alloc: Global,
    role: Role,
    xs: &'a [AstExprP<P>],
    span: Span,
) -> Parts<'a, P>
    ensures { Comes (λ u. form_view u span) (types.form_of (role_of role) (tree.list (items_of xs.now) span)) result }
{
    match role {
        Role::Argument => list_type(each_type(alloc, Role::Argument, xs)),
        Role::Alone => match xs {
            [] => Err(fault(TypeExprUnpackError::EmptyListInType, span)),
            [_] => Err(no_type("list of 1 element", span)),
            [_, _, ..] => union_type(each_type(alloc, Role::Alone, xs)),
        },
    }
}

/// The parts of an identifier with a type in brackets.
#[cycle(parts)]
fn index_parts<'a, P: AstPayload>(
    alloc: Global,
    array: &'a AstExprP<P>,
    index: &'a AstExprP<P>,
    span: Span,
) -> Parts<'a, P>
    ensures { (r : types.Role) → Comes (λ u. form_view u span) (types.form_of r (tree.index (expr_at array.now) (tree.single (expr_at index.now)) span)) result }
{
    match &array.node {
        ExprP::Identifier(name) => {
            index_type(
                name,
                boxed_part(alloc, index.span, type_parts(alloc, Role::Alone, index)),
            )
        }
        _ => {
            let word = "array indirection where array is not an identifier";
            Err(no_type(word, span))
        }
    }
}

/// The parts of a path with two arguments in brackets.
#[cycle(parts)]
fn index2_parts<'a, P: AstPayload>(
    alloc: Global,
    array: &'a AstExprP<P>,
    x: &'a AstExprP<P>,
    y: &'a AstExprP<P>,
) -> Parts<'a, P>
    ensures { (s : Extent) → Comes (λ u. form_view u s) (types.index2_of array.now.span s (types.path_of (expr_at array.now)) (types.form_of types.argument (expr_at x.now)) (types.form_of types.argument (expr_at y.now))) result }
{
    let path = path_parts(alloc, array)?;
    let first = boxed_part(alloc, x.span, type_parts(alloc, Role::Argument, x))?;
    let second = boxed_part(alloc, y.span, type_parts(alloc, Role::Argument, y))?;
    let span = array.span;
    Ok(TypeExprUnpackP::Index2(Spanned { span, node: path }, first, second))
}

/// Adds a type and its place.
fn add_part<'a, P: AstPayload>(
    out: &mut Vec<Spanned<TypeExprUnpackP<'a, P>>>,
    span: Span,
    made: Parts<'a, P>,
) -> Result<(), Stop>
    ensures { (r : Result types.Form types.Misfit) → Comes (λ u. form_view u span) r made.entry → Comes (λ _. forms_view out.new.items) (types.from (types.add_form (forms_view out.old.items)) r) result }
{
    let node = made?;
    push_at(out, span, node)?;
    Ok(())
}

/// A type and its place, in a box.
fn boxed_part<'a, P: AstPayload>(
    alloc: Global,
    span: Span,
    made: Parts<'a, P>,
) -> Result<Box<Spanned<TypeExprUnpackP<'a, P>>>, Stop>
    ensures { (r : Result types.Form types.Misfit) → Comes (λ u. form_view u span) r made.entry → Comes (λ b. form_at b.value) r result }
{
    let node = made?;
    Ok(boxed_at(alloc, span, node)?)
}

/// A path as a type.
fn path_type<'a, P: AstPayload>(path: Result<TypePathP<'a, P>, Stop>) -> Parts<'a, P>
    ensures { (r : Result types.Path types.Misfit) (s : Extent) → Comes path_view r path.entry → Comes (λ u. form_view u s) (types.from (λ p. types.path_form p s) r) result }
{
    Ok(TypeExprUnpackP::Path(path?))
}

/// An identifier with a type in brackets.
fn index_type<'a, P: AstPayload>(
    name: &'a AstIdentP<P>,
    inner: Result<Box<Spanned<TypeExprUnpackP<'a, P>>>, Stop>,
) -> Parts<'a, P>
    ensures { (r : Result types.Form types.Misfit) (s : Extent) → Comes (λ b. form_at b.value) r inner.entry → Comes (λ u. form_view u s) (types.from (λ f. types.index_form (read_at name.now) f s) r) result }
{
    Ok(TypeExprUnpackP::Index(name, inner?))
}

/// A tuple of types.
fn tuple_type<'a, P: AstPayload>(members: Several<'a, P>) -> Parts<'a, P>
    ensures { (r : Result types.Forms types.Misfit) (s : Extent) → Comes (λ v. forms_view v.items) r members.entry → Comes (λ u. form_view u s) (types.from (λ fs. types.tuple_form fs s) r) result }
{
    Ok(TypeExprUnpackP::Tuple(members?))
}

/// A union of types.
fn union_type<'a, P: AstPayload>(members: Several<'a, P>) -> Parts<'a, P>
    ensures { (r : Result types.Forms types.Misfit) (s : Extent) → Comes (λ v. forms_view v.items) r members.entry → Comes (λ u. form_view u s) (types.from (λ fs. types.union_form fs s) r) result }
{
    Ok(TypeExprUnpackP::Union(members?))
}

/// A list of arguments.
fn list_type<'a, P: AstPayload>(members: Several<'a, P>) -> Parts<'a, P>
    ensures { (r : Result types.Forms types.Misfit) (s : Extent) → Comes (λ v. forms_view v.items) r members.entry → Comes (λ u. form_view u s) (types.from (λ fs. types.list_form fs s) r) result }
{
    Ok(TypeExprUnpackP::List(members?))
}

/// A value and its place, in a box.
fn boxed_at<T: Drop>(alloc: Global, span: Span, node: T) -> Result<Box<Spanned<T>>, AllocError>
    ensures { IfOk result (λ b. b.value ≡ record { span = span; node = node }) }
{
    Ok(Box::new(alloc, Spanned { span, node })?)
}

/// Why an expression is no type, at its place.
fn fault(error: TypeExprUnpackError, span: Span) -> Stop
    ensures { result ≡ Stop.NoType (record { span = span; node = error }) }
{
    Stop::NoType(Spanned { span, node: error })
}

/// An expression that is no type, by the word of what it is.
fn no_type(word: &'static str, span: Span) -> Stop
    ensures { stop_for result ≡ Some (types.misfit (rules.InvalidType word.now) span) }
{
    fault(TypeExprUnpackError::InvalidType(word), span)
}

/// A literal, which is no type but for `...`.
fn literal_parts<'a, P: AstPayload>(literal: &AstLiteral, span: Span) -> Parts<'a, P>
    ensures { (r : types.Role) → Comes (λ u. form_view u span) (types.form_of r (literal_view literal.now span)) result }
{
    match literal {
        AstLiteral::Ellipsis => Ok(TypeExprUnpackP::Ellipsis),
        AstLiteral::Int(_) => Err(no_type("int", span)),
        AstLiteral::Float(_) => Err(no_type("float", span)),
        AstLiteral::String(_) => Err(no_type("string literal", span)),
        AstLiteral::Bytes(_) => Err(no_type("bytes literal", span)),
    }
}

/// The parts of a path: an identifier, or dots on one.
fn path_parts<'a, P: AstPayload>(
    alloc: Global,
    x: &'a AstExprP<P>,
) -> Result<TypePathP<'a, P>, Stop>
    ensures { Comes path_view (types.path_of (expr_at x.now)) result }
{
    match &x.node {
        ExprP::Identifier(first) => {
            let rem = Vec::new(alloc);
            Ok(TypePathP { first, rem })
        }
        ExprP::Dot(object, name) => dotted(alloc, object, name),
        _ => Err(fault(TypeExprUnpackError::ExpectingPath, x.span)),
    }
}

/// The parts of an attribute behind an expression: that is to be a path too, and the attribute is not to be `type`.
fn dotted<'a, P: AstPayload>(
    alloc: Global,
    object: &'a AstExprP<P>,
    last: &'a AstString,
) -> Result<TypePathP<'a, P>, Stop>
    ensures { Comes path_view (types.dotted (types.root (expr_at object.now)) (types.attributes (expr_at object.now)) (string_bytes last.now.node) last.now.span) result }
{
    let bottom = root(object);
    let ExprP::Identifier(first) = &bottom.node else {
        return Err(fault(TypeExprUnpackError::DotInType, bottom.span));
    };
    if last.node.as_str() == "type" {
        let path = joined(alloc, object)?;
        return Err(fault(TypeExprUnpackError::DotTypeBan(path), bottom.span));
    }
    let mut rem = Vec::new(alloc);
    add_attributes(&mut rem, object)?;
    push_at(&mut rem, last.span, last.node.as_str())?;
    Ok(TypePathP { first, rem })
}

/// What dots stand on.
fn root<P: AstPayload>(x: &AstExprP<P>) -> &AstExprP<P>
    ensures { expr_at result.now ≡ types.root (expr_at x.now) }
{
    match &x.node {
        ExprP::Dot(object, _) => root(object),
        _ => x,
    }
}

/// Adds the attributes behind the root.
fn add_attributes<'a, P: AstPayload>(
    out: &mut Vec<Spanned<&'a str>>,
    x: &'a AstExprP<P>,
) -> Result<(), AllocError>
    ensures { OnOk result (map attribute out.new.items ≡ map attribute out.old.items ++ types.attributes (expr_at x.now)) }
{
    match &x.node {
        ExprP::Dot(object, name) => {
            add_attributes(out, object)?;
            push_at(out, name.span, name.node.as_str())
        }
        _ => Ok(()),
    }
}

/// The names of a path, joined by dots.
fn joined<P: AstPayload>(alloc: Global, x: &AstExprP<P>) -> Result<String, AllocError>
    ensures { IfOk result (λ s. string_bytes s ≡ path_text (expr_at x.now)) }
{
    let mut out = String::new(alloc);
    add_path(&mut out, x)?;
    Ok(out)
}

/// Adds the names of a path, joined by dots.
fn add_path<P: AstPayload>(out: &mut String, x: &AstExprP<P>) -> Result<(), AllocError>
    ensures { OnOk result (string_bytes out.new ≡ string_bytes out.old ++ path_text (expr_at x.now)) }
{
    match &x.node {
        ExprP::Identifier(name) => out.push_str(&name.node.ident),
        ExprP::Dot(object, name) => {
            add_path(out, object)?;
            out.push_str(".")?;
            out.push_str(&name.node)
        }
        _ => Ok(()),
    }
}
