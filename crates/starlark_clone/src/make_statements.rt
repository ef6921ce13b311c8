//! What makes statements. A pass over a tree that makes a tree does not see into what it makes.

ghost use Rattle.std.specs.Prelude.{◌≡◌, None, Some};
ghost use Rattle.starlark_place.specs.Place.{Extent};
ghost use Rattle.starlark_clone.specs.Copies.{maybe_by, maybe_type_by, members_by, seen, sequence_by, type_by};
ghost use Rattle.starlark_ast.specs.Tree as tree;
ghost use Rattle.starlark_ast.specs.View.{ident_at, load_view};

use crate::make::Make;
use starlark_ast::ast::{AssignOp, AstAssignIdent, Load};
use starlark_place::pos::Spanned;

/// Makes statements of their parts.
pub(crate) trait MakeStatements: Make {
    /// A statement.
    type Stmt: Drop;

    /// What it is at a place.
    ghost says: { Self.Stmt → Extent → tree.Statement };

    fn break_statement() -> Self::Stmt
        ensures { (s : Extent) → says result s ≡ tree.break s };

    fn continue_statement() -> Self::Stmt
        ensures { (s : Extent) → says result s ≡ tree.continue s };

    fn pass_statement() -> Self::Stmt
        ensures { (s : Extent) → says result s ≡ tree.pass s };

    fn return_statement(value: Option<Spanned<Self::Expr>>) -> Self::Stmt
        ensures { (s : Extent) → says result s ≡ tree.return (maybe_by Self.expr_means value) s };

    fn expression_statement(value: Spanned<Self::Expr>) -> Self::Stmt
        ensures { (s : Extent) → says result s ≡ tree.expression (seen Self.expr_means value) s };

    fn assign(
        lhs: Spanned<Self::Target>,
        ty: Option<Spanned<Self::Type>>,
        rhs: Spanned<Self::Expr>,
    ) -> Self::Stmt
        ensures { (s : Extent) → says result s ≡ tree.assign (seen Self.target_means lhs) (maybe_type_by Self.type_means ty) None (seen Self.expr_means rhs) s };

    /// An assignment with an operator.
    fn modify(
        target: Spanned<Self::Target>,
        op: AssignOp,
        value: Box<Spanned<Self::Expr>>,
    ) -> Self::Stmt
        ensures { (s : Extent) → says result s ≡ tree.assign (seen Self.target_means target) tree.untyped (Some op) (seen Self.expr_means value.value) s };

    fn block(xs: Vec<Spanned<Self::Stmt>>) -> Self::Stmt
        ensures { (s : Extent) → says result s ≡ tree.block (sequence_by says xs.items) s };

    fn if_statement(condition: Spanned<Self::Expr>, body: Box<Spanned<Self::Stmt>>) -> Self::Stmt
        ensures { (s : Extent) → says result s ≡ tree.when (seen Self.expr_means condition) (seen says body.value) s };

    fn if_else(
        condition: Spanned<Self::Expr>,
        bodies: Box<(Spanned<Self::Stmt>, Spanned<Self::Stmt>)>,
    ) -> Self::Stmt
        ensures { (s : Extent) → says result s ≡ tree.either (seen Self.expr_means condition) (seen says bodies.value.0) (seen says bodies.value.1) s };

    fn for_statement(
        var: Spanned<Self::Target>,
        over: Spanned<Self::Expr>,
        body: Box<Spanned<Self::Stmt>>,
    ) -> Self::Stmt
        ensures { (s : Extent) → says result s ≡ tree.repeat (seen Self.target_means var) (seen Self.expr_means over) (seen says body.value) s };

    fn def_statement(
        name: AstAssignIdent,
        params: Vec<Spanned<Self::Parameter>>,
        return_type: Option<Box<Spanned<Self::Type>>>,
        body: Box<Spanned<Self::Stmt>>,
    ) -> Self::Stmt
        ensures { (s : Extent) → says result s ≡ tree.define (ident_at name) (members_by Self.parameter_means params.items) (type_by Self.type_means return_type) (seen says body.value) s };

    fn load(x: Load) -> Self::Stmt
        ensures { (s : Extent) → says result s ≡ load_view x s };
}
