//! What expressions print, and what stands in them.

ghost use Rattle.std.specs.Fmt.{WritesOnOk};
ghost use Rattle.std.specs.Prelude.{◌≡◌, ◌++◌, Some, codes};
ghost use Rattle.starlark_ast.specs.Printing.{clause_text, clauses_text, expr_text, member_text, members_text};
ghost use Rattle.starlark_ast.specs.Shown.{behind, nowhere, tuple_end, type_behind};
ghost use Rattle.starlark_ast.specs.Tree as tree;
ghost use Rattle.starlark_ast.specs.View.{argument_at, argument_view, boxed_expr, boxed_type, clause_view, expr_at, expr_view, for_clause_view, members, parameter_at, parameter_view, target_at, target_view};
ghost use Rattle.starlark_ast.specs.Views.{clauses_of, items_of, pairs_of, targets_of};

use crate::ast::{
    ArgumentP, AssignTargetP, AstArgumentP, AstAssignTargetP, AstExprP, AstParameterP, AstPayload,
    AstTypeExprP, BinOp, ClauseP, ExprP, ForClauseP, ParameterP, TypeExprP,
};
use std::fmt;

/// Writes an expression.
#[cycle(printing)]
pub(crate) fn write_node<P: AstPayload, W: fmt::Write>(
    x: &ExprP<P>,
    f: &mut fmt::Formatter<W>,
) -> fmt::Result
    ensures { WritesOnOk W.write_str_gives f.old result (expr_text (expr_view x.now nowhere)) f.new }
{
    match x {
        ExprP::Tuple(xs) => write_tuple(xs, f),
        ExprP::Dot(object, name) => write_dot(object, &name.node, f),
        ExprP::Call(called, args) => write_call(called, &args.args, f),
        ExprP::Index(parts) => write_index(&parts.0, &parts.1, f),
        ExprP::Index2(parts) => write_index2(&parts.0, &parts.1, &parts.2, f),
        ExprP::Slice(object, from, to, step) => write_slice(object, from, to, step, f),
        ExprP::Identifier(name) => f.write_str(&name.node.ident),
        ExprP::Lambda(inner) => write_lambda(&inner.params, &inner.body, f),
        ExprP::Literal(literal) => fmt::Display::fmt(literal, f),
        ExprP::Not(inner) => write_between("(not ", inner, ")", f),
        ExprP::Minus(inner) => write_between("-", inner, "", f),
        ExprP::Plus(inner) => write_between("+", inner, "", f),
        ExprP::BitNot(inner) => write_between("~", inner, "", f),
        ExprP::Op(left, op, right) => write_operation(left, *op, right, f),
        ExprP::If(parts) => write_choice(&parts.0, &parts.1, &parts.2, f),
        ExprP::List(xs) => write_list(xs, f),
        ExprP::Dict(xs) => write_dict(xs, f),
        ExprP::ListComprehension(element, first, rest) => {
            write_list_comprehension(element, first, rest, f)
        }
        ExprP::DictComprehension(entry, first, rest) => {
            write_dict_comprehension(&entry.0, &entry.1, first, rest, f)
        }
        ExprP::FString(inner) => write_f_string(
            &inner.node.format.node,
            &inner.node.expressions,
            f,
        ),
    }
}

/// Writes an expression that has a place.
#[cycle(printing)]
pub(crate) fn write_expr<P: AstPayload, W: fmt::Write>(
    x: &AstExprP<P>,
    f: &mut fmt::Formatter<W>,
) -> fmt::Result
    ensures { WritesOnOk W.write_str_gives f.old result (expr_text (expr_at x.now)) f.new }
{
    write_node(&x.node, f)
}

/// Writes an expression between two texts.
#[cycle(printing)]
pub(crate) fn write_between<P: AstPayload, W: fmt::Write>(
    before: &str,
    x: &AstExprP<P>,
    after: &str,
    f: &mut fmt::Formatter<W>,
) -> fmt::Result
    ensures { WritesOnOk W.write_str_gives f.old result (before.now ++ expr_text (expr_at x.now) ++ after.now) f.new }
{
    f.write_str(before)?;
    write_expr(x, f)?;
    f.write_str(after)
}

/// Writes a tuple.
#[cycle(printing)]
fn write_tuple<P: AstPayload, W: fmt::Write>(
    xs: &[AstExprP<P>],
    f: &mut fmt::Formatter<W>,
) -> fmt::Result
    ensures { WritesOnOk W.write_str_gives f.old result (expr_text (tree.tuple (items_of xs.now) nowhere)) f.new }
{
    f.write_str("(")?;
    write_items(xs, f)?;
    f.write_str(end_of_tuple(xs.len()))
}

/// What stands behind the members of a tuple: a comma behind an only one, and a bracket.
fn end_of_tuple(members: usize) -> &'static str
    ensures { result.now ≡ tuple_end members }
{
    if members == 1 { ",)" } else { ")" }
}

/// Writes a list.
#[cycle(printing)]
fn write_list<P: AstPayload, W: fmt::Write>(
    xs: &[AstExprP<P>],
    f: &mut fmt::Formatter<W>,
) -> fmt::Result
    ensures { WritesOnOk W.write_str_gives f.old result (expr_text (tree.list (items_of xs.now) nowhere)) f.new }
{
    f.write_str("[")?;
    write_items(xs, f)?;
    f.write_str("]")
}

/// Writes a dict.
#[cycle(printing)]
fn write_dict<P: AstPayload, W: fmt::Write>(
    xs: &[(AstExprP<P>, AstExprP<P>)],
    f: &mut fmt::Formatter<W>,
) -> fmt::Result
    ensures { WritesOnOk W.write_str_gives f.old result (expr_text (tree.dict (pairs_of xs.now) nowhere)) f.new }
{
    f.write_str("{")?;
    write_entries(xs, f)?;
    f.write_str("}")
}

/// Writes expressions with commas between them.
#[cycle(printing)]
fn write_items<P: AstPayload, W: fmt::Write>(
    xs: &[AstExprP<P>],
    f: &mut fmt::Formatter<W>,
) -> fmt::Result
    ensures { WritesOnOk W.write_str_gives f.old result (members_text (items_of xs.now)) f.new }
{
    let mut separator = "";
    for x in xs {
        f.write_str(separator)?;
        write_expr(x, f)?;
        separator = ", ";
    }
    Ok(())
}

/// Writes the entries of a dict with commas between them.
#[cycle(printing)]
fn write_entries<P: AstPayload, W: fmt::Write>(
    xs: &[(AstExprP<P>, AstExprP<P>)],
    f: &mut fmt::Formatter<W>,
) -> fmt::Result
    ensures { WritesOnOk W.write_str_gives f.old result (members_text (pairs_of xs.now)) f.new }
{
    let mut separator = "";
    for x in xs {
        f.write_str(separator)?;
        write_entry(&x.0, &x.1, f)?;
        separator = ", ";
    }
    Ok(())
}

/// Writes an entry of a dict.
#[cycle(printing)]
fn write_entry<P: AstPayload, W: fmt::Write>(
    key: &AstExprP<P>,
    value: &AstExprP<P>,
    f: &mut fmt::Formatter<W>,
) -> fmt::Result
    ensures { WritesOnOk W.write_str_gives f.old result (member_text (tree.pair (expr_at key.now) (expr_at value.now))) f.new }
{
    write_expr(key, f)?;
    f.write_str(": ")?;
    write_expr(value, f)
}

/// Writes an attribute of an expression.
#[cycle(printing)]
fn write_dot<P: AstPayload, W: fmt::Write>(
    object: &AstExprP<P>,
    name: &str,
    f: &mut fmt::Formatter<W>,
) -> fmt::Result
    ensures { WritesOnOk W.write_str_gives f.old result (expr_text (tree.dot (expr_at object.now) name.now nowhere nowhere)) f.new }
{
    write_expr(object, f)?;
    f.write_str(".")?;
    f.write_str(name)
}

/// Writes a call.
#[cycle(printing)]
fn write_call<P: AstPayload, W: fmt::Write>(
    called: &AstExprP<P>,
    args: &[AstArgumentP<P>],
    f: &mut fmt::Formatter<W>,
) -> fmt::Result
    ensures { WritesOnOk W.write_str_gives f.old result (expr_text (tree.call (expr_at called.now) (members argument_at args.now) nowhere)) f.new }
{
    write_expr(called, f)?;
    f.write_str("(")?;
    write_arguments(args, f)?;
    f.write_str(")")
}

/// Writes arguments with commas between them.
#[cycle(printing)]
fn write_arguments<P: AstPayload, W: fmt::Write>(
    xs: &[AstArgumentP<P>],
    f: &mut fmt::Formatter<W>,
) -> fmt::Result
    ensures { WritesOnOk W.write_str_gives f.old result (members_text (members argument_at xs.now)) f.new }
{
    let mut separator = "";
    for x in xs {
        f.write_str(separator)?;
        write_argument(&x.node, f)?;
        separator = ", ";
    }
    Ok(())
}

/// Writes an argument.
#[cycle(printing)]
pub(crate) fn write_argument<P: AstPayload, W: fmt::Write>(
    x: &ArgumentP<P>,
    f: &mut fmt::Formatter<W>,
) -> fmt::Result
    ensures { WritesOnOk W.write_str_gives f.old result (member_text (argument_view x.now nowhere)) f.new }
{
    match x {
        ArgumentP::Positional(value) => write_expr(value, f),
        ArgumentP::Named(name, value) => {
            f.write_str(&name.node)?;
            f.write_str(" = ")?;
            write_expr(value, f)
        }
        ArgumentP::Args(value) => {
            f.write_str("*")?;
            write_expr(value, f)
        }
        ArgumentP::KwArgs(value) => {
            f.write_str("**")?;
            write_expr(value, f)
        }
    }
}

/// Writes an expression with an index.
#[cycle(printing)]
fn write_index<P: AstPayload, W: fmt::Write>(
    object: &AstExprP<P>,
    index: &AstExprP<P>,
    f: &mut fmt::Formatter<W>,
) -> fmt::Result
    ensures { WritesOnOk W.write_str_gives f.old result (expr_text (tree.index (expr_at object.now) (tree.single (expr_at index.now)) nowhere)) f.new }
{
    write_expr(object, f)?;
    write_between("[", index, "]", f)
}

/// Writes an expression with two indices.
#[cycle(printing)]
fn write_index2<P: AstPayload, W: fmt::Write>(
    object: &AstExprP<P>,
    first: &AstExprP<P>,
    second: &AstExprP<P>,
    f: &mut fmt::Formatter<W>,
) -> fmt::Result
    ensures { WritesOnOk W.write_str_gives f.old result (expr_text (tree.index (expr_at object.now) (tree.double (expr_at first.now) (expr_at second.now)) nowhere)) f.new }
{
    write_expr(object, f)?;
    f.write_str("[")?;
    write_expr(first, f)?;
    write_between(", ", second, "]", f)
}

/// Writes a slice of an expression.
#[cycle(printing)]
fn write_slice<P: AstPayload, W: fmt::Write>(
    object: &AstExprP<P>,
    from: &Option<Box<AstExprP<P>>>,
    to: &Option<Box<AstExprP<P>>>,
    step: &Option<Box<AstExprP<P>>>,
    f: &mut fmt::Formatter<W>,
) -> fmt::Result
    ensures { WritesOnOk W.write_str_gives f.old result (expr_text (tree.index (expr_at object.now) (tree.slice (boxed_expr from.now) (boxed_expr to.now) (boxed_expr step.now)) nowhere)) f.new }
{
    write_expr(object, f)?;
    f.write_str("[]")?;
    write_bound("", from, f)?;
    f.write_str(":")?;
    write_bound("", to, f)?;
    write_bound(":", step, f)
}

/// Writes an expression behind a text, if there is one.
#[cycle(printing)]
fn write_bound<P: AstPayload, W: fmt::Write>(
    before: &str,
    bound: &Option<Box<AstExprP<P>>>,
    f: &mut fmt::Formatter<W>,
) -> fmt::Result
    ensures { WritesOnOk W.write_str_gives f.old result (behind before.now (boxed_expr bound.now)) f.new }
{
    match bound {
        None => Ok(()),
        Some(x) => {
            f.write_str(before)?;
            write_expr(x, f)
        }
    }
}

/// Writes a type behind a text, if there is one.
#[cycle(printing)]
pub(crate) fn write_type_behind<P: AstPayload, W: fmt::Write>(
    before: &str,
    ty: &Option<Box<AstTypeExprP<P>>>,
    f: &mut fmt::Formatter<W>,
) -> fmt::Result
    ensures { WritesOnOk W.write_str_gives f.old result (type_behind before.now (boxed_type ty.now)) f.new }
{
    match ty {
        None => Ok(()),
        Some(x) => {
            f.write_str(before)?;
            write_expr(&x.node.expr, f)
        }
    }
}

/// Writes a lambda.
#[cycle(printing)]
fn write_lambda<P: AstPayload, W: fmt::Write>(
    params: &[AstParameterP<P>],
    body: &AstExprP<P>,
    f: &mut fmt::Formatter<W>,
) -> fmt::Result
    ensures { WritesOnOk W.write_str_gives f.old result (expr_text (tree.lambda (members parameter_at params.now) (expr_at body.now) nowhere)) f.new }
{
    f.write_str("(lambda ")?;
    write_parameters(params, f)?;
    write_between(": ", body, ")", f)
}

/// Writes parameters with commas between them.
#[cycle(printing)]
pub(crate) fn write_parameters<P: AstPayload, W: fmt::Write>(
    params: &[AstParameterP<P>],
    f: &mut fmt::Formatter<W>,
) -> fmt::Result
    ensures { WritesOnOk W.write_str_gives f.old result (members_text (members parameter_at params.now)) f.new }
{
    let mut separator = "";
    for x in params {
        f.write_str(separator)?;
        write_parameter(&x.node, f)?;
        separator = ", ";
    }
    Ok(())
}

/// Writes a parameter.
#[cycle(printing)]
pub(crate) fn write_parameter<P: AstPayload, W: fmt::Write>(
    x: &ParameterP<P>,
    f: &mut fmt::Formatter<W>,
) -> fmt::Result
    ensures { WritesOnOk W.write_str_gives f.old result (member_text (parameter_view x.now nowhere)) f.new }
{
    match x {
        ParameterP::Slash => f.write_str("/"),
        ParameterP::Normal(name, ty, default) => {
            f.write_str(&name.node.ident)?;
            write_type_behind(": ", ty, f)?;
            write_bound(" = ", default, f)
        }
        ParameterP::NoArgs => f.write_str("*"),
        ParameterP::Args(name, ty) => write_starred("*", &name.node.ident, ty, f),
        ParameterP::KwArgs(name, ty) => write_starred("**", &name.node.ident, ty, f),
    }
}

/// Writes a name behind stars, and its type.
#[cycle(printing)]
fn write_starred<P: AstPayload, W: fmt::Write>(
    stars: &str,
    name: &str,
    ty: &Option<Box<AstTypeExprP<P>>>,
    f: &mut fmt::Formatter<W>,
) -> fmt::Result
    ensures { WritesOnOk W.write_str_gives f.old result (stars.now ++ name.now ++ type_behind (codes ": ") (boxed_type ty.now)) f.new }
{
    f.write_str(stars)?;
    f.write_str(name)?;
    write_type_behind(": ", ty, f)
}

/// Writes an operation.
#[cycle(printing)]
fn write_operation<P: AstPayload, W: fmt::Write>(
    left: &AstExprP<P>,
    op: BinOp,
    right: &AstExprP<P>,
    f: &mut fmt::Formatter<W>,
) -> fmt::Result
    ensures { WritesOnOk W.write_str_gives f.old result (expr_text (tree.operation (expr_at left.now) op (expr_at right.now) nowhere)) f.new }
{
    f.write_str("(")?;
    write_expr(left, f)?;
    write_between(op.text(), right, ")", f)
}

/// Writes a ternary.
#[cycle(printing)]
fn write_choice<P: AstPayload, W: fmt::Write>(
    condition: &AstExprP<P>,
    chosen: &AstExprP<P>,
    other: &AstExprP<P>,
    f: &mut fmt::Formatter<W>,
) -> fmt::Result
    ensures { WritesOnOk W.write_str_gives f.old result (expr_text (tree.choice (expr_at condition.now) (expr_at chosen.now) (expr_at other.now) nowhere)) f.new }
{
    write_between("(", chosen, " if ", f)?;
    write_expr(condition, f)?;
    write_between(" else ", other, ")", f)
}

/// Writes a comprehension of a list.
#[cycle(printing)]
fn write_list_comprehension<P: AstPayload, W: fmt::Write>(
    element: &AstExprP<P>,
    first: &ForClauseP<P>,
    rest: &[ClauseP<P>],
    f: &mut fmt::Formatter<W>,
) -> fmt::Result
    ensures { WritesOnOk W.write_str_gives f.old result (expr_text (tree.comprehension (tree.item (expr_at element.now)) (clauses_of first.now rest.now) nowhere)) f.new }
{
    f.write_str("[")?;
    write_expr(element, f)?;
    write_clauses(first, rest, f)?;
    f.write_str("]")
}

/// Writes a comprehension of a dict.
#[cycle(printing)]
fn write_dict_comprehension<P: AstPayload, W: fmt::Write>(
    key: &AstExprP<P>,
    value: &AstExprP<P>,
    first: &ForClauseP<P>,
    rest: &[ClauseP<P>],
    f: &mut fmt::Formatter<W>,
) -> fmt::Result
    ensures { WritesOnOk W.write_str_gives f.old result (expr_text (tree.comprehension (tree.pair (expr_at key.now) (expr_at value.now)) (clauses_of first.now rest.now) nowhere)) f.new }
{
    f.write_str("{")?;
    write_entry(key, value, f)?;
    write_clauses(first, rest, f)?;
    f.write_str("}")
}

/// Writes the clauses of a comprehension.
#[cycle(printing)]
fn write_clauses<P: AstPayload, W: fmt::Write>(
    first: &ForClauseP<P>,
    rest: &[ClauseP<P>],
    f: &mut fmt::Formatter<W>,
) -> fmt::Result
    ensures { WritesOnOk W.write_str_gives f.old result (clauses_text (clauses_of first.now rest.now)) f.new }
{
    write_for_clause(first, f)?;
    for x in rest {
        write_clause(x, f)?;
    }
    Ok(())
}

/// Writes a clause, with the space before it.
#[cycle(printing)]
pub(crate) fn write_clause<P: AstPayload, W: fmt::Write>(
    x: &ClauseP<P>,
    f: &mut fmt::Formatter<W>,
) -> fmt::Result
    ensures { WritesOnOk W.write_str_gives f.old result (clause_text (clause_view x.now)) f.new }
{
    match x {
        ClauseP::For(inner) => write_for_clause(inner, f),
        ClauseP::If(condition) => {
            f.write_str(" if ")?;
            write_expr(condition, f)
        }
    }
}

/// Writes a clause that goes over values.
#[cycle(printing)]
pub(crate) fn write_for_clause<P: AstPayload, W: fmt::Write>(
    x: &ForClauseP<P>,
    f: &mut fmt::Formatter<W>,
) -> fmt::Result
    ensures { WritesOnOk W.write_str_gives f.old result (clause_text (for_clause_view x.now)) f.new }
{
    f.write_str(" for ")?;
    write_target(&x.var, f)?;
    f.write_str(" in ")?;
    write_expr(&x.over, f)
}

/// Writes an f-string.
#[cycle(printing)]
fn write_f_string<P: AstPayload, W: fmt::Write>(
    format: &str,
    xs: &[AstExprP<P>],
    f: &mut fmt::Formatter<W>,
) -> fmt::Result
    ensures { WritesOnOk W.write_str_gives f.old result (expr_text (tree.fstring format.now nowhere (items_of xs.now) nowhere nowhere)) f.new }
{
    f.write_str(format)?;
    f.write_str(".format(")?;
    write_items(xs, f)?;
    f.write_str(")")
}

/// Writes a target that has a place.
#[cycle(printing)]
pub(crate) fn write_target<P: AstPayload, W: fmt::Write>(
    x: &AstAssignTargetP<P>,
    f: &mut fmt::Formatter<W>,
) -> fmt::Result
    ensures { WritesOnOk W.write_str_gives f.old result (expr_text (target_at x.now)) f.new }
{
    write_target_node(&x.node, f)
}

/// Writes a target.
#[cycle(printing)]
pub(crate) fn write_target_node<P: AstPayload, W: fmt::Write>(
    x: &AssignTargetP<P>,
    f: &mut fmt::Formatter<W>,
) -> fmt::Result
    ensures { WritesOnOk W.write_str_gives f.old result (expr_text (target_view x.now nowhere)) f.new }
{
    match x {
        AssignTargetP::Tuple(xs) => write_target_tuple(xs, f),
        AssignTargetP::Index(parts) => write_index(&parts.0, &parts.1, f),
        AssignTargetP::Dot(object, name) => write_dot(object, &name.node, f),
        AssignTargetP::Identifier(name) => f.write_str(&name.node.ident),
    }
}

/// Writes a tuple of targets.
#[cycle(printing)]
fn write_target_tuple<P: AstPayload, W: fmt::Write>(
    xs: &[AstAssignTargetP<P>],
    f: &mut fmt::Formatter<W>,
) -> fmt::Result
    ensures { WritesOnOk W.write_str_gives f.old result (expr_text (tree.tuple (targets_of xs.now) nowhere)) f.new }
{
    f.write_str("(")?;
    write_targets(xs, f)?;
    f.write_str(end_of_tuple(xs.len()))
}

/// Writes targets with commas between them.
#[cycle(printing)]
fn write_targets<P: AstPayload, W: fmt::Write>(
    xs: &[AstAssignTargetP<P>],
    f: &mut fmt::Formatter<W>,
) -> fmt::Result
    ensures { WritesOnOk W.write_str_gives f.old result (members_text (targets_of xs.now)) f.new }
{
    let mut separator = "";
    for x in xs {
        f.write_str(separator)?;
        write_target(x, f)?;
        separator = ", ";
    }
    Ok(())
}

/// Operations in parentheses. What is printed need not read as the same expression (docs/LANGUAGE.md, What trees print).
impl<P: AstPayload> fmt::Display for ExprP<P> {
    ghost output = { λ x. Some (expr_text (expr_view x nowhere)) };

    fn fmt<W: fmt::Write>(&self, f: &mut fmt::Formatter<W>) -> fmt::Result {
        write_node(self, f)
    }
}

/// As it stands in a call.
impl<P: AstPayload> fmt::Display for ArgumentP<P> {
    ghost output = { λ x. Some (member_text (argument_view x nowhere)) };

    fn fmt<W: fmt::Write>(&self, f: &mut fmt::Formatter<W>) -> fmt::Result {
        write_argument(self, f)
    }
}

/// As it stands in a `def` or a lambda.
impl<P: AstPayload> fmt::Display for ParameterP<P> {
    ghost output = { λ x. Some (member_text (parameter_view x nowhere)) };

    fn fmt<W: fmt::Write>(&self, f: &mut fmt::Formatter<W>) -> fmt::Result {
        write_parameter(self, f)
    }
}

/// Its expression.
impl<P: AstPayload> fmt::Display for TypeExprP<P> {
    ghost output = { λ x. Some (expr_text (expr_at x.expr)) };

    fn fmt<W: fmt::Write>(&self, f: &mut fmt::Formatter<W>) -> fmt::Result {
        write_expr(&self.expr, f)
    }
}

/// Like the expression of its form.
impl<P: AstPayload> fmt::Display for AssignTargetP<P> {
    ghost output = { λ x. Some (expr_text (target_view x nowhere)) };

    fn fmt<W: fmt::Write>(&self, f: &mut fmt::Formatter<W>) -> fmt::Result {
        write_target_node(self, f)
    }
}

/// With the space before it.
impl<P: AstPayload> fmt::Display for ClauseP<P> {
    ghost output = { λ x. Some (clause_text (clause_view x)) };

    fn fmt<W: fmt::Write>(&self, f: &mut fmt::Formatter<W>) -> fmt::Result {
        write_clause(self, f)
    }
}

/// With the space before it.
impl<P: AstPayload> fmt::Display for ForClauseP<P> {
    ghost output = { λ x. Some (clause_text (for_clause_view x)) };

    fn fmt<W: fmt::Write>(&self, f: &mut fmt::Formatter<W>) -> fmt::Result {
        write_for_clause(self, f)
    }
}
