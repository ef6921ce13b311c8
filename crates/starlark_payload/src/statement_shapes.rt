//! The form of a statement, asked by reference.

ghost use Rattle.std.specs.Prelude.{◌≡◌};
ghost use Rattle.starlark_payload.specs.StatementWeights as form;

use crate::statement_nodes::StmtShape;
use starlark_ast::ast::{AstPayload, StmtP};

/// Its form.
pub(crate) fn stmt_shape<P: AstPayload>(x: &StmtP<P>) -> StmtShape
    ensures { result ≡ form.stmt_shape x.now }
{
    match x {
        StmtP::Break => StmtShape::Plain,
        StmtP::Continue => StmtShape::Plain,
        StmtP::Pass => StmtShape::Plain,
        StmtP::Return(_) => StmtShape::Return,
        StmtP::Expression(_) => StmtShape::Expression,
        StmtP::Assign(_) => StmtShape::Assign,
        StmtP::AssignModify(_, _, _) => StmtShape::AssignModify,
        StmtP::Statements(_) => StmtShape::Statements,
        StmtP::If(_, _) => StmtShape::If,
        StmtP::IfElse(_, _) => StmtShape::IfElse,
        StmtP::For(_) => StmtShape::For,
        StmtP::Def(_) => StmtShape::Def,
        StmtP::Load(_) => StmtShape::Load,
    }
}
