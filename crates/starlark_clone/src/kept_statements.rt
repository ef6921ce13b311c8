//! Statements that are kept.

ghost use Rattle.std.specs.Prelude.{◌≡◌, None, Some};
ghost use Rattle.starlark_place.specs.Place.{Extent};
ghost use Rattle.starlark_clone.specs.Copies.{maybe_by, maybe_type_by, members_by, seen, sequence_by, type_by};
ghost use Rattle.starlark_ast.specs.Tree as tree;
ghost use Rattle.starlark_ast.specs.View.{expr_view, ident_at, load_view, parameter_view, stmt_view, target_view, type_view};

use crate::kept::Kept;
use crate::make_statements::MakeStatements;
use starlark_ast::ast::{
    AssignOp, AssignP, AssignTarget, AstAssignIdent, DefP, Expr, ForP, Load, Parameter, Stmt,
    StmtP, TypeExpr,
};
use starlark_place::pos::Spanned;

impl MakeStatements for Kept {
    ghost use Rattle.starlark_ast.specs.View.{stmt_view};

    type Stmt = Stmt;

    ghost says = { stmt_view };

    fn break_statement() -> Stmt
        ensures { (s : Extent) → stmt_view result s ≡ tree.break s }
    {
        StmtP::Break
    }

    fn continue_statement() -> Stmt
        ensures { (s : Extent) → stmt_view result s ≡ tree.continue s }
    {
        StmtP::Continue
    }

    fn pass_statement() -> Stmt
        ensures { (s : Extent) → stmt_view result s ≡ tree.pass s }
    {
        StmtP::Pass
    }

    fn return_statement(value: Option<Spanned<Expr>>) -> Stmt
        ensures { (s : Extent) → stmt_view result s ≡ tree.return (maybe_by expr_view value) s }
    {
        StmtP::Return(value)
    }

    fn expression_statement(value: Spanned<Expr>) -> Stmt
        ensures { (s : Extent) → stmt_view result s ≡ tree.expression (seen expr_view value) s }
    {
        StmtP::Expression(value)
    }

    fn assign(lhs: Spanned<AssignTarget>, ty: Option<Spanned<TypeExpr>>, rhs: Spanned<Expr>) -> Stmt
        ensures { (s : Extent) → stmt_view result s ≡ tree.assign (seen target_view lhs) (maybe_type_by type_view ty) None (seen expr_view rhs) s }
    {
        StmtP::Assign(AssignP { lhs, ty, rhs })
    }

    fn modify(target: Spanned<AssignTarget>, op: AssignOp, value: Box<Spanned<Expr>>) -> Stmt
        ensures { (s : Extent) → stmt_view result s ≡ tree.assign (seen target_view target) tree.untyped (Some op) (seen expr_view value.value) s }
    {
        StmtP::AssignModify(target, op, value)
    }

    fn block(xs: Vec<Spanned<Stmt>>) -> Stmt
        ensures { (s : Extent) → stmt_view result s ≡ tree.block (sequence_by stmt_view xs.items) s }
    {
        StmtP::Statements(xs)
    }

    fn if_statement(condition: Spanned<Expr>, body: Box<Spanned<Stmt>>) -> Stmt
        ensures { (s : Extent) → stmt_view result s ≡ tree.when (seen expr_view condition) (seen stmt_view body.value) s }
    {
        StmtP::If(condition, body)
    }

    fn if_else(condition: Spanned<Expr>, bodies: Box<(Spanned<Stmt>, Spanned<Stmt>)>) -> Stmt
        ensures { (s : Extent) → stmt_view result s ≡ tree.either (seen expr_view condition) (seen stmt_view bodies.value.0) (seen stmt_view bodies.value.1) s }
    {
        StmtP::IfElse(condition, bodies)
    }

    fn for_statement(
        var: Spanned<AssignTarget>,
        over: Spanned<Expr>,
        body: Box<Spanned<Stmt>>,
    ) -> Stmt
        ensures { (s : Extent) → stmt_view result s ≡ tree.repeat (seen target_view var) (seen expr_view over) (seen stmt_view body.value) s }
    {
        StmtP::For(ForP { var, over, body })
    }

    fn def_statement(
        name: AstAssignIdent,
        params: Vec<Spanned<Parameter>>,
        return_type: Option<Box<Spanned<TypeExpr>>>,
        body: Box<Spanned<Stmt>>,
    ) -> Stmt
        ensures { (s : Extent) → stmt_view result s ≡ tree.define (ident_at name) (members_by parameter_view params.items) (type_by type_view return_type) (seen stmt_view body.value) s }
    {
        StmtP::Def(DefP {
            name,
            params,
            return_type,
            body,
            payload: (),
        })
    }

    fn load(x: Load) -> Stmt
        ensures { (s : Extent) → stmt_view result s ≡ load_view x s }
    {
        StmtP::Load(x)
    }
}
