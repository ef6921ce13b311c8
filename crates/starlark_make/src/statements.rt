//! Statements that are kept, and the rules that they break.

ghost use Rattle.std.specs.Prelude.{◌≡◌, None, IfOk, string_bytes};
ghost use Rattle.starlark_ast.specs.Tree as tree;
ghost use Rattle.starlark_ast.specs.View.{expr_at, members, parameter_at, stmt_at};
ghost use Rattle.starlark_grammar.specs.Made.{annotation_of, bound_of, maybe_of, sequence_of, symbol_at, symbols_of};
ghost use Rattle.starlark_make.specs.Kept.{boxed_type_at};
ghost use Rattle.starlark_rulebook.specs.Targets as targets;

use crate::boxes::{boxed_first, maybe_boxed_first, or_dropped};
use crate::ends;
use crate::parts::{annotated, assigned, statement_place_of};
use crate::trees::Trees;
use starlark_ast::ast::{
    AssignOp, AstExpr, AstNoPayload, AstParameter, AstStmt, AstTypeExpr, DefP, ForP, LoadArgP,
    LoadP, ParameterP, StmtP,
};
use starlark_grammar::build::Build;
use starlark_lexer::dialect::Dialect;
use starlark_place::pos::{Span, Spanned};
use starlark_rulebook::rule::Rule;
use starlark_rules::{assign, types};
use std::alloc::{AllocError, Global};

impl Build for Trees {
    ghost use Rattle.starlark_ast.specs.View.{stmt_at};
    ghost use Rattle.starlark_make.specs.Kept.{boxed_type_at};

    type Type = Box<AstTypeExpr>;

    ghost type_means = { boxed_type_at };

    fn type_fault(alloc: Global, x: &AstExpr) -> Result<Option<Spanned<Rule>>, AllocError> {
        types::type_fault(alloc, x)
    }

    fn type_of(alloc: Global, x: AstExpr) -> Result<Box<AstTypeExpr>, AllocError> {
        annotated(alloc, x)
    }

    fn typed_parameter(
        alloc: Global,
        name: Spanned<String>,
        ty: Option<Box<AstTypeExpr>>,
        default: Option<AstExpr>,
        span: Span,
    ) -> Result<AstParameter, AllocError>
        ensures { IfOk result (λ p. parameter_at p ≡ tree.parameter tree.plain (string_bytes name.node) name.span (annotation_of boxed_type_at ty) (bound_of expr_at default) span) }
    {
        let (default, (name, ty)) = maybe_boxed_first(alloc, default, (name, ty))?;
        let node = ParameterP::Normal(assigned(name), ty, default);
        Ok(Spanned { span, node })
    }

    fn typed_args_parameter(
        name: Spanned<String>,
        ty: Option<Box<AstTypeExpr>>,
        span: Span,
    ) -> AstParameter
        ensures { parameter_at result ≡ tree.parameter tree.starred (string_bytes name.node) name.span (annotation_of boxed_type_at ty) tree.absent span }
    {
        let node = ParameterP::Args(assigned(name), ty);
        Spanned { span, node }
    }

    fn typed_kwargs_parameter(
        name: Spanned<String>,
        ty: Option<Box<AstTypeExpr>>,
        span: Span,
    ) -> AstParameter
        ensures { parameter_at result ≡ tree.parameter tree.double_starred (string_bytes name.node) name.span (annotation_of boxed_type_at ty) tree.absent span }
    {
        let node = ParameterP::KwArgs(assigned(name), ty);
        Spanned { span, node }
    }

    type Stmt = AstStmt;

    ghost says = { stmt_at };

    fn statement_place(s: &AstStmt) -> Span {
        statement_place_of(s)
    }

    fn break_statement(span: Span) -> AstStmt {
        let node = StmtP::Break;
        Spanned { span, node }
    }

    fn continue_statement(span: Span) -> AstStmt {
        let node = StmtP::Continue;
        Spanned { span, node }
    }

    fn pass_statement(span: Span) -> AstStmt {
        let node = StmtP::Pass;
        Spanned { span, node }
    }

    fn return_statement(value: Option<AstExpr>, span: Span) -> AstStmt
        ensures { stmt_at result ≡ tree.return (maybe_of expr_at value) span }
    {
        let node = StmtP::Return(value);
        Spanned { span, node }
    }

    fn expression_statement(value: AstExpr, span: Span) -> AstStmt {
        let node = StmtP::Expression(value);
        Spanned { span, node }
    }

    fn load(source: Spanned<String>, symbols: Vec<LoadArgP<AstNoPayload>>, span: Span) -> AstStmt
        ensures { stmt_at result ≡ tree.load (tree.name_at (string_bytes source.node) source.span) (symbols_of symbol_at symbols.items) span }
    {
        let node = StmtP::Load(LoadP {
            module: source,
            args: symbols,
            payload: (),
        });
        Spanned { span, node }
    }

    fn if_statement(
        alloc: Global,
        condition: AstExpr,
        suite: AstStmt,
        span: Span,
    ) -> Result<AstStmt, AllocError> {
        let (suite, condition) = boxed_first(alloc, suite, condition)?;
        let node = StmtP::If(condition, suite);
        Ok(Spanned { span, node })
    }

    fn if_else_statement(
        alloc: Global,
        condition: AstExpr,
        suite: AstStmt,
        otherwise: AstStmt,
        span: Span,
    ) -> Result<AstStmt, AllocError> {
        let (suites, condition) = boxed_first(alloc, (suite, otherwise), condition)?;
        let node = StmtP::IfElse(condition, suites);
        Ok(Spanned { span, node })
    }

    fn for_statement(
        alloc: Global,
        target: AstExpr,
        over: AstExpr,
        suite: AstStmt,
        span: Span,
    ) -> Result<AstStmt, AllocError> {
        let (var, (over, suite)) = or_dropped(assign::target(alloc, target), (over, suite))?;
        let (body, (var, over)) = boxed_first(alloc, suite, (var, over))?;
        let node = StmtP::For(ForP { var, over, body });
        Ok(Spanned { span, node })
    }

    fn def_statement(
        alloc: Global,
        name: Spanned<String>,
        parameters: Vec<AstParameter>,
        ty: Option<Box<AstTypeExpr>>,
        suite: AstStmt,
        span: Span,
    ) -> Result<AstStmt, AllocError>
        ensures { IfOk result (λ s. stmt_at s ≡ tree.define (tree.name_at (string_bytes name.node) name.span) (members parameter_at parameters.items) (annotation_of boxed_type_at ty) (stmt_at suite) span) }
    {
        let (body, (name, params, return_type)) = boxed_first(
            alloc,
            suite,
            (name, parameters, ty),
        )?;
        let node = StmtP::Def(DefP {
            name: assigned(name),
            params,
            return_type,
            body,
            payload: (),
        });
        Ok(Spanned { span, node })
    }

    fn block(statements: Vec<AstStmt>, span: Span) -> AstStmt
        ensures { stmt_at result ≡ tree.block (sequence_of stmt_at statements.items) span }
    {
        let node = StmtP::Statements(statements);
        Spanned { span, node }
    }

    fn assignment_fault(
        left: &AstExpr,
        ty: &Option<Box<AstTypeExpr>>,
        op: Option<AssignOp>,
    ) -> Option<Spanned<Rule>> {
        assign::assignment_fault(left, ty, op)
    }

    fn assign(
        alloc: Global,
        left: AstExpr,
        ty: Option<Box<AstTypeExpr>>,
        op: Option<AssignOp>,
        right: AstExpr,
        span: Span,
    ) -> Result<AstStmt, AllocError>
        requires { targets.assignment_fault (expr_at left) (annotation_of boxed_type_at ty) op ≡ None }
        ensures { IfOk result (λ s. stmt_at s ≡ tree.assign (targets.target_of (expr_at left)) (annotation_of boxed_type_at ty) op (expr_at right) span) }
    {
        let node = assign::assignment(alloc, left, ty, op, right)?;
        Ok(Spanned { span, node })
    }

    fn end_fault(
        alloc: Global,
        dialect: &Dialect,
        s: &AstStmt,
    ) -> Result<Option<Spanned<Rule>>, AllocError> {
        ends::end_fault(alloc, dialect, s)
    }
}
