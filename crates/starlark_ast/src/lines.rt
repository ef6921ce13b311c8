//! What statements print.

ghost use Rattle.std.specs.Fmt.{WritesOnOk};
ghost use Rattle.std.specs.Prelude.{suc, Some, ◌++◌, codes};
ghost use Rattle.starlark_ast.specs.Printing.{blanks, expr_text, left_type_text, members_text, name_text, result_text, sequence_text, statement_text, symbol_text, symbols_text};
ghost use Rattle.starlark_ast.specs.Shown.{nowhere};
ghost use Rattle.starlark_ast.specs.StatementViews.{statements_of};
ghost use Rattle.starlark_ast.specs.Tree as tree;
ghost use Rattle.starlark_ast.specs.View.{assign_view, boxed_type, def_view, expr_at, for_view, ident_at, load_view, maybe_expr, maybe_type, members, parameter_at, stmt_at, stmt_view, symbols, target_at, text_at};

use crate::ast::{
    AssignOp, AssignP, AstAssignTargetP, AstExprP, AstPayload, AstStmtP, AstTypeExprP, DefP, ForP,
    LoadArgP, LoadP, StmtP,
};
use crate::leaves::write_quoted;
use crate::printing::{write_between, write_parameters, write_target, write_type_behind};
use std::fmt;

/// Writes two spaces for each level of a depth.
fn write_blanks<W: fmt::Write>(depth: usize, f: &mut fmt::Formatter<W>) -> fmt::Result
    ensures { WritesOnOk W.write_str_gives f.old result (blanks depth) f.new }
{
    for _ in 0..depth {
        f.write_str("  ")?;
    }
    Ok(())
}

/// Writes a text at a depth.
fn write_text<W: fmt::Write>(depth: usize, text: &str, f: &mut fmt::Formatter<W>) -> fmt::Result
    ensures { WritesOnOk W.write_str_gives f.old result (blanks depth ++ text.now) f.new }
{
    write_blanks(depth, f)?;
    f.write_str(text)
}

/// Writes an expression between two texts, at a depth.
fn write_around<P: AstPayload, W: fmt::Write>(
    depth: usize,
    before: &str,
    x: &AstExprP<P>,
    after: &str,
    f: &mut fmt::Formatter<W>,
) -> fmt::Result
    ensures { WritesOnOk W.write_str_gives f.old result (blanks depth ++ before.now ++ expr_text (expr_at x.now) ++ after.now) f.new }
{
    write_blanks(depth, f)?;
    write_between(before, x, after, f)
}

/// Writes a `return`.
fn write_return<P: AstPayload, W: fmt::Write>(
    depth: usize,
    value: &Option<AstExprP<P>>,
    f: &mut fmt::Formatter<W>,
) -> fmt::Result
    ensures { WritesOnOk W.write_str_gives f.old result (statement_text depth (tree.return (maybe_expr value.now) nowhere)) f.new }
{
    match value {
        None => write_text(depth, "return\n", f),
        Some(x) => write_around(depth, "return ", x, "\n", f),
    }
}

/// Writes an assignment.
fn write_assignment<P: AstPayload, W: fmt::Write>(
    depth: usize,
    x: &AssignP<P>,
    f: &mut fmt::Formatter<W>,
) -> fmt::Result
    ensures { WritesOnOk W.write_str_gives f.old result (statement_text depth (assign_view x.now nowhere)) f.new }
{
    write_blanks(depth, f)?;
    write_target(&x.lhs, f)?;
    write_left_type(&x.ty, f)?;
    write_between("= ", &x.rhs, "\n", f)
}

/// Writes what stands between the target of an assignment and its `=`.
fn write_left_type<P: AstPayload, W: fmt::Write>(
    ty: &Option<AstTypeExprP<P>>,
    f: &mut fmt::Formatter<W>,
) -> fmt::Result
    ensures { WritesOnOk W.write_str_gives f.old result (codes " " ++ left_type_text (maybe_type ty.now)) f.new }
{
    match ty {
        None => f.write_str(" "),
        Some(x) => write_between(" : ", &x.node.expr, " ", f),
    }
}

/// Writes an assignment with an operator.
fn write_change<P: AstPayload, W: fmt::Write>(
    depth: usize,
    target: &AstAssignTargetP<P>,
    op: AssignOp,
    value: &AstExprP<P>,
    f: &mut fmt::Formatter<W>,
) -> fmt::Result
    ensures { WritesOnOk W.write_str_gives f.old result (statement_text depth (tree.assign (target_at target.now) tree.untyped (Some op) (expr_at value.now) nowhere)) f.new }
{
    write_blanks(depth, f)?;
    write_target(target, f)?;
    write_between(op.text(), value, "\n", f)
}

/// Writes a load.
fn write_load<P: AstPayload, W: fmt::Write>(
    depth: usize,
    x: &LoadP<P>,
    f: &mut fmt::Formatter<W>,
) -> fmt::Result
    ensures { WritesOnOk W.write_str_gives f.old result (statement_text depth (load_view x.now nowhere)) f.new }
{
    write_text(depth, "load(", f)?;
    write_quoted(&x.module.node, f)?;
    f.write_str(", ")?;
    write_symbols(&x.args, f)?;
    f.write_str(")\n")
}

/// Writes what a load binds, with commas between.
fn write_symbols<P: AstPayload, W: fmt::Write>(
    xs: &[LoadArgP<P>],
    f: &mut fmt::Formatter<W>,
) -> fmt::Result
    ensures { WritesOnOk W.write_str_gives f.old result (symbols_text (symbols xs.now)) f.new }
{
    let mut separator = "";
    for x in xs {
        f.write_str(separator)?;
        write_symbol(x, f)?;
        separator = ", ";
    }
    Ok(())
}

/// Writes a name, and in quotes what it is in the other module.
fn write_symbol<P: AstPayload, W: fmt::Write>(
    x: &LoadArgP<P>,
    f: &mut fmt::Formatter<W>,
) -> fmt::Result
    ensures { WritesOnOk W.write_str_gives f.old result (symbol_text (tree.symbol (ident_at x.now.local) (text_at x.now.their))) f.new }
{
    f.write_str(&x.local.node.ident)?;
    f.write_str(" = ")?;
    write_quoted(&x.their.node, f)
}

/// Writes the line of a `for`.
fn write_for_line<P: AstPayload, W: fmt::Write>(
    depth: usize,
    target: &AstAssignTargetP<P>,
    over: &AstExprP<P>,
    f: &mut fmt::Formatter<W>,
) -> fmt::Result
    ensures { WritesOnOk W.write_str_gives f.old result (blanks depth ++ codes "for " ++ expr_text (target_at target.now) ++ codes " in " ++ expr_text (expr_at over.now) ++ codes ":\n") f.new }
{
    write_text(depth, "for ", f)?;
    write_target(target, f)?;
    write_between(" in ", over, ":\n", f)
}

/// Writes the line of a `def`.
fn write_def_line<P: AstPayload, W: fmt::Write>(
    depth: usize,
    x: &DefP<P>,
    f: &mut fmt::Formatter<W>,
) -> fmt::Result
    ensures { WritesOnOk W.write_str_gives f.old result (blanks depth ++ codes "def " ++ name_text (ident_at x.now.name) ++ codes "(" ++ members_text (members parameter_at x.now.params.items) ++ codes ")" ++ result_text (boxed_type x.now.return_type) ++ codes ":\n") f.new }
{
    write_text(depth, "def ", f)?;
    f.write_str(&x.name.node.ident)?;
    f.write_str("(")?;
    write_parameters(&x.params, f)?;
    f.write_str(")")?;
    write_type_behind(" -> ", &x.return_type, f)?;
    f.write_str(":\n")
}

/// Writes a statement.
#[cycle(lines)]
fn write_statement<P: AstPayload, W: fmt::Write>(
    depth: usize,
    x: &StmtP<P>,
    f: &mut fmt::Formatter<W>,
) -> fmt::Result
    ensures { WritesOnOk W.write_str_gives f.old result (statement_text depth (stmt_view x.now nowhere)) f.new }
{
    match x {
        StmtP::Break => write_text(depth, "break\n", f),
        StmtP::Continue => write_text(depth, "continue\n", f),
        StmtP::Pass => write_text(depth, "pass\n", f),
        StmtP::Return(value) => write_return(depth, value, f),
        StmtP::Expression(value) => write_around(depth, "", value, "\n", f),
        StmtP::Assign(inner) => write_assignment(depth, inner, f),
        StmtP::AssignModify(target, op, value) => write_change(depth, target, *op, value, f),
        StmtP::Statements(xs) => write_statements(depth, xs, f),
        StmtP::If(condition, body) => write_if(depth, condition, body, f),
        StmtP::IfElse(condition, bodies) => {
            write_if_else(depth, condition, &bodies.0, &bodies.1, f)
        }
        StmtP::For(inner) => write_for(depth, inner, f),
        StmtP::Def(inner) => write_def(depth, inner, f),
        StmtP::Load(inner) => write_load(depth, inner, f),
    }
}

/// Writes statements one behind the other.
#[cycle(lines)]
fn write_statements<P: AstPayload, W: fmt::Write>(
    depth: usize,
    xs: &[AstStmtP<P>],
    f: &mut fmt::Formatter<W>,
) -> fmt::Result
    ensures { WritesOnOk W.write_str_gives f.old result (sequence_text depth (statements_of xs.now)) f.new }
{
    for x in xs {
        write_statement(depth, &x.node, f)?;
    }
    Ok(())
}

/// Writes what stands in the block of a statement at that depth. An error where no `usize` is one more.
#[cycle(lines)]
fn write_body<P: AstPayload, W: fmt::Write>(
    depth: usize,
    body: &AstStmtP<P>,
    f: &mut fmt::Formatter<W>,
) -> fmt::Result
    ensures { WritesOnOk W.write_str_gives f.old result (statement_text (suc depth) (stmt_at body.now)) f.new }
{
    match depth.checked_add(1) {
        None => Err(fmt::Error),
        Some(deeper) => write_statement(deeper, &body.node, f),
    }
}

/// Writes an `if` without `else`.
#[cycle(lines)]
fn write_if<P: AstPayload, W: fmt::Write>(
    depth: usize,
    condition: &AstExprP<P>,
    body: &AstStmtP<P>,
    f: &mut fmt::Formatter<W>,
) -> fmt::Result
    ensures { WritesOnOk W.write_str_gives f.old result (statement_text depth (tree.when (expr_at condition.now) (stmt_at body.now) nowhere)) f.new }
{
    write_around(depth, "if ", condition, ":\n", f)?;
    write_body(depth, body, f)
}

/// Writes an `if` with `else`: what was an `elif` is a statement in the other body.
#[cycle(lines)]
fn write_if_else<P: AstPayload, W: fmt::Write>(
    depth: usize,
    condition: &AstExprP<P>,
    body: &AstStmtP<P>,
    other: &AstStmtP<P>,
    f: &mut fmt::Formatter<W>,
) -> fmt::Result
    ensures { WritesOnOk W.write_str_gives f.old result (statement_text depth (tree.either (expr_at condition.now) (stmt_at body.now) (stmt_at other.now) nowhere)) f.new }
{
    write_around(depth, "if ", condition, ":\n", f)?;
    write_body(depth, body, f)?;
    write_text(depth, "else:\n", f)?;
    write_body(depth, other, f)
}

/// Writes a `for`.
#[cycle(lines)]
fn write_for<P: AstPayload, W: fmt::Write>(
    depth: usize,
    x: &ForP<P>,
    f: &mut fmt::Formatter<W>,
) -> fmt::Result
    ensures { WritesOnOk W.write_str_gives f.old result (statement_text depth (for_view x.now nowhere)) f.new }
{
    write_for_line(depth, &x.var, &x.over, f)?;
    write_body(depth, &x.body, f)
}

/// Writes a `def`.
#[cycle(lines)]
fn write_def<P: AstPayload, W: fmt::Write>(
    depth: usize,
    x: &DefP<P>,
    f: &mut fmt::Formatter<W>,
) -> fmt::Result
    ensures { WritesOnOk W.write_str_gives f.old result (statement_text depth (def_view x.now nowhere)) f.new }
{
    write_def_line(depth, x, f)?;
    write_body(depth, &x.body, f)
}

/// With a line feed behind each line that a statement begins, and two spaces more before each in a block. A line feed in
/// the format of an f-string is printed as it is.
impl<P: AstPayload> fmt::Display for StmtP<P> {
    ghost output = { λ x. Some (statement_text 0 (stmt_view x nowhere)) };

    fn fmt<W: fmt::Write>(&self, f: &mut fmt::Formatter<W>) -> fmt::Result {
        write_statement(0, self, f)
    }
}
