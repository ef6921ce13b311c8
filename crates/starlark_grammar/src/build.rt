//! Makers of statements, over any trees.

ghost use Rattle.std.specs.Prelude.{◌≡◌, IfOk, None, string_bytes};
ghost use Rattle.starlark_ast.specs.Tree as tree;
ghost use Rattle.starlark_ast.specs.View.{members};
ghost use Rattle.starlark_grammar.specs.Made.{annotation_of, bound_of, maybe_of, sequence_of, symbol_at, symbols_of};
ghost use Rattle.starlark_rulebook.specs.Targets as targets;
ghost use Rattle.starlark_rulebook.specs.Types as types;
ghost use Rattle.starlark_rulebook.specs.View.{maybe_finding};
ghost use Rattle.starlark_grammar.specs.Events.{end_finding};
ghost use Rattle.starlark_grammar.specs.Nodes.{type_at};

use crate::make::Make;
use starlark_ast::ast::{AssignOp, AstNoPayload, LoadArgP};
use starlark_lexer::dialect::Dialect;
use starlark_place::pos::{Span, Spanned};
use starlark_rulebook::rule::Rule;
use std::alloc::{AllocError, Global};

/// Makes types, parameters of a `def` and statements, and finds the rules that they break (docs/LANGUAGE.md, Rules). `Err`
/// comes only where memory lacks, and then all that was handed in by value is let go.
pub trait Build: Make {
    // ---- types

    /// A type.
    type Type: Drop;

    ghost type_means: { Self.Type → tree.Annotation };

    /// The first rule that an expression breaks as a type where the dialect has types, at its place. `Err` comes where memory
    /// lacks.
    fn type_fault(alloc: Global, x: &Self::Expr) -> Result<Option<Spanned<Rule>>, AllocError>
        ensures { IfOk result (λ found. maybe_finding found ≡ types.first_type_fault (Self.means x.now)) };

    /// An expression that breaks no rule as a type, as one, at its place. `Err` comes where memory lacks.
    fn type_of(alloc: Global, x: Self::Expr) -> Result<Self::Type, AllocError>
        requires { types.first_type_fault (Self.means x) ≡ None }
        ensures { IfOk result (λ t. Self.type_means t ≡ type_at (Self.means x)) };

    // ---- parameters of a `def`

    /// A parameter without a star: its name, with a type and a default where it has them.
    fn typed_parameter(
        alloc: Global,
        name: Spanned<String>,
        ty: Option<Self::Type>,
        default: Option<Self::Expr>,
        span: Span,
    ) -> Result<Self::Parameter, AllocError>
        ensures { IfOk result (λ p. Self.parameter_means p ≡ tree.parameter tree.plain (string_bytes name.node) name.span (annotation_of Self.type_means ty) (bound_of Self.means default) span) };

    /// `*name`, a parameter, from its `*` on, with a type where it has one.
    fn typed_args_parameter(
        name: Spanned<String>,
        ty: Option<Self::Type>,
        span: Span,
    ) -> Self::Parameter
        ensures { Self.parameter_means result ≡ tree.parameter tree.starred (string_bytes name.node) name.span (annotation_of Self.type_means ty) tree.absent span };

    /// `**name`, a parameter, from its `**` on, with a type where it has one.
    fn typed_kwargs_parameter(
        name: Spanned<String>,
        ty: Option<Self::Type>,
        span: Span,
    ) -> Self::Parameter
        ensures { Self.parameter_means result ≡ tree.parameter tree.double_starred (string_bytes name.node) name.span (annotation_of Self.type_means ty) tree.absent span };

    // ---- small statements

    /// A statement.
    type Stmt: Drop;

    ghost says: { Self.Stmt → tree.Statement };

    /// Where a statement stands.
    fn statement_place(s: &Self::Stmt) -> Span
        ensures { result ≡ tree.statement_place (Self.says s.now) };

    /// `break`
    fn break_statement(span: Span) -> Self::Stmt
        ensures { Self.says result ≡ tree.break span };

    /// `continue`
    fn continue_statement(span: Span) -> Self::Stmt
        ensures { Self.says result ≡ tree.continue span };

    /// `pass`
    fn pass_statement(span: Span) -> Self::Stmt
        ensures { Self.says result ≡ tree.pass span };

    /// `return`, with a value where it has one.
    fn return_statement(value: Option<Self::Expr>, span: Span) -> Self::Stmt
        ensures { Self.says result ≡ tree.return (maybe_of Self.means value) span };

    /// An expression as a statement.
    fn expression_statement(value: Self::Expr, span: Span) -> Self::Stmt
        ensures { Self.says result ≡ tree.expression (Self.means value) span };

    /// `load(source, symbols)`, from its keyword to the `)`. `source` is the string that names the other module.
    fn load(source: Spanned<String>, symbols: Vec<LoadArgP<AstNoPayload>>, span: Span) -> Self::Stmt
        ensures { Self.says result ≡ tree.load (tree.name_at (string_bytes source.node) source.span) (symbols_of symbol_at symbols.items) span };

    // ---- statements with suites

    /// `if condition: suite`, from its `if` or `elif` to the end of the suite.
    fn if_statement(
        alloc: Global,
        condition: Self::Expr,
        suite: Self::Stmt,
        span: Span,
    ) -> Result<Self::Stmt, AllocError>
        ensures { IfOk result (λ s. Self.says s ≡ tree.when (Self.means condition) (Self.says suite) span) };

    /// The same with `else: otherwise`, or with an `elif` as `otherwise`, to the end of that.
    fn if_else_statement(
        alloc: Global,
        condition: Self::Expr,
        suite: Self::Stmt,
        otherwise: Self::Stmt,
        span: Span,
    ) -> Result<Self::Stmt, AllocError>
        ensures { IfOk result (λ s. Self.says s ≡ tree.either (Self.means condition) (Self.says suite) (Self.says otherwise) span) };

    /// `for target in over: suite`, to the end of the suite. `target` breaks no rule as one, and lists in it become tuples.
    fn for_statement(
        alloc: Global,
        target: Self::Expr,
        over: Self::Expr,
        suite: Self::Stmt,
        span: Span,
    ) -> Result<Self::Stmt, AllocError>
        requires { targets.target_fault (Self.means target) ≡ None }
        ensures { IfOk result (λ s. Self.says s ≡ tree.repeat (targets.target_of (Self.means target)) (Self.means over) (Self.says suite) span) };

    /// `def name(parameters) -> ty: suite`, to the end of the suite.
    fn def_statement(
        alloc: Global,
        name: Spanned<String>,
        parameters: Vec<Self::Parameter>,
        ty: Option<Self::Type>,
        suite: Self::Stmt,
        span: Span,
    ) -> Result<Self::Stmt, AllocError>
        ensures { IfOk result (λ s. Self.says s ≡ tree.define (tree.name_at (string_bytes name.node) name.span) (members Self.parameter_means parameters.items) (annotation_of Self.type_means ty) (Self.says suite) span) };

    /// Statements in a row, in a list even where there is only one.
    fn block(statements: Vec<Self::Stmt>, span: Span) -> Self::Stmt
        ensures { Self.says result ≡ tree.block (sequence_of Self.says statements.items) span };

    // ---- assignments, and whole texts

    /// The first rule that an assignment breaks, at its place. `op` is what stands before `=`, if anything does. It takes no
    /// memory.
    fn assignment_fault(
        left: &Self::Expr,
        ty: &Option<Self::Type>,
        op: Option<AssignOp>,
    ) -> Option<Spanned<Rule>>
        ensures { maybe_finding result ≡ targets.assignment_fault (Self.means left.now) (annotation_of Self.type_means ty.now) op };

    /// `left: ty op= right`, an assignment that breaks no rule, from the begin of its left side on. `Err` comes where memory
    /// lacks.
    fn assign(
        alloc: Global,
        left: Self::Expr,
        ty: Option<Self::Type>,
        op: Option<AssignOp>,
        right: Self::Expr,
        span: Span,
    ) -> Result<Self::Stmt, AllocError>
        requires { targets.assignment_fault (Self.means left) (annotation_of Self.type_means ty) op ≡ None }
        ensures { IfOk result (λ s. Self.says s ≡ tree.assign (targets.target_of (Self.means left)) (annotation_of Self.type_means ty) op (Self.means right) span) };

    /// The first rule that counts at the end of a text, at its place: of the kept ones, or else of the late ones
    /// (docs/LANGUAGE.md, Kept and late). `Err` comes where memory lacks.
    fn end_fault(
        alloc: Global,
        dialect: &Dialect,
        s: &Self::Stmt,
    ) -> Result<Option<Spanned<Rule>>, AllocError>
        ensures { IfOk result (λ found. maybe_finding found ≡ end_finding dialect.now (Self.says s.now)) };
}
