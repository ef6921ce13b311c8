//! What makes nodes. A pass over a tree that makes a tree does not see into what it makes.

ghost use Rattle.std.specs.Option.{option_copied};
ghost use Rattle.std.specs.Prelude.{◌≡◌, IfOk, string_bytes};
ghost use Rattle.starlark_place.specs.Place.{Extent};
ghost use Rattle.starlark_clone.specs.Copies.{bound_by, clauses_by, items_by, members_by, pairs_by, seen, type_by};
ghost use Rattle.starlark_clone.specs.Replacing.{operated};
ghost use Rattle.starlark_ast.specs.Tree as tree;
ghost use Rattle.starlark_ast.specs.View.{assigned_view, ident_view, literal_view, parameter_of};

use starlark_ast::ast::{AstAssignIdent, AstIdent, AstLiteral, AstString, BinOp};
use starlark_place::pos::{Span, Spanned};
use std::alloc::{AllocError, Global};

/// Makes nodes of their parts.
pub(crate) trait Make {
    /// An expression.
    type Expr: Drop;

    /// What it is at a place.
    ghost expr_means: { Self.Expr → Extent → tree.Expr };

    /// What is assigned to.
    type Target: Drop;

    ghost target_means: { Self.Target → Extent → tree.Expr };

    /// A clause that goes over values.
    type ForClause: Drop;

    ghost for_means: { Self.ForClause → tree.Clause };

    /// A clause behind the first.
    type Clause: Drop;

    ghost clause_means: { Self.Clause → tree.Clause };

    /// An argument of a call.
    type Argument: Drop;

    ghost argument_means: { Self.Argument → Extent → tree.Member };

    /// A type.
    type Type: Drop;

    ghost type_means: { Self.Type → Extent → tree.Annotation };

    /// A parameter, or a marker between parameters.
    type Parameter: Drop;

    ghost parameter_means: { Self.Parameter → Extent → tree.Member };

    // ---- expressions

    fn tuple(xs: Vec<Spanned<Self::Expr>>) -> Self::Expr
        ensures { (s : Extent) → expr_means result s ≡ tree.tuple (items_by expr_means xs.items) s };

    fn list(xs: Vec<Spanned<Self::Expr>>) -> Self::Expr
        ensures { (s : Extent) → expr_means result s ≡ tree.list (items_by expr_means xs.items) s };

    fn dict(xs: Vec<(Spanned<Self::Expr>, Spanned<Self::Expr>)>) -> Self::Expr
        ensures { (s : Extent) → expr_means result s ≡ tree.dict (pairs_by expr_means xs.items) s };

    fn dot(x: Box<Spanned<Self::Expr>>, name: AstString) -> Self::Expr
        ensures { (s : Extent) → expr_means result s ≡ tree.dot (seen expr_means x.value) (string_bytes name.node) name.span s };

    fn call(x: Box<Spanned<Self::Expr>>, args: Vec<Spanned<Self::Argument>>) -> Self::Expr
        ensures { (s : Extent) → expr_means result s ≡ tree.call (seen expr_means x.value) (members_by argument_means args.items) s };

    fn index(x: Box<(Spanned<Self::Expr>, Spanned<Self::Expr>)>) -> Self::Expr
        ensures { (s : Extent) → expr_means result s ≡ tree.index (seen expr_means x.value.0) (tree.single (seen expr_means x.value.1)) s };

    fn index_of_two(
        x: Box<
            (
                Spanned<Self::Expr>,
                Spanned<Self::Expr>,
                Spanned<Self::Expr>,
            ),
        >,
    ) -> Self::Expr
        ensures { (s : Extent) → expr_means result s ≡ tree.index (seen expr_means x.value.0) (tree.double (seen expr_means x.value.1) (seen expr_means x.value.2)) s };

    fn slice(
        x: Box<Spanned<Self::Expr>>,
        from: Option<Box<Spanned<Self::Expr>>>,
        to: Option<Box<Spanned<Self::Expr>>>,
        step: Option<Box<Spanned<Self::Expr>>>,
    ) -> Self::Expr
        ensures { (s : Extent) → expr_means result s ≡ tree.index (seen expr_means x.value) (tree.slice (bound_by expr_means from) (bound_by expr_means to) (bound_by expr_means step)) s };

    fn identifier(x: AstIdent) -> Self::Expr
        ensures { (s : Extent) → expr_means result s ≡ ident_view x s };

    fn literal(x: AstLiteral) -> Self::Expr
        ensures { (s : Extent) → expr_means result s ≡ literal_view x s };

    fn lambda(params: Vec<Spanned<Self::Parameter>>, body: Box<Spanned<Self::Expr>>) -> Self::Expr
        ensures { (s : Extent) → expr_means result s ≡ tree.lambda (members_by parameter_means params.items) (seen expr_means body.value) s };

    fn not(x: Box<Spanned<Self::Expr>>) -> Self::Expr
        ensures { (s : Extent) → expr_means result s ≡ tree.signed tree.Not (seen expr_means x.value) s };

    fn minus(x: Box<Spanned<Self::Expr>>) -> Self::Expr
        ensures { (s : Extent) → expr_means result s ≡ tree.signed tree.Minus (seen expr_means x.value) s };

    fn plus(x: Box<Spanned<Self::Expr>>) -> Self::Expr
        ensures { (s : Extent) → expr_means result s ≡ tree.signed tree.Plus (seen expr_means x.value) s };

    fn bit_not(x: Box<Spanned<Self::Expr>>) -> Self::Expr
        ensures { (s : Extent) → expr_means result s ≡ tree.signed tree.BitNot (seen expr_means x.value) s };

    /// An operation at its place, or in its stead a call of the name.
    fn operation(
        alloc: Global,
        x: Box<Spanned<Self::Expr>>,
        op: BinOp,
        y: Box<Spanned<Self::Expr>>,
        called: Option<&str>,
        span: Span,
    ) -> Result<Self::Expr, AllocError>
        ensures { IfOk result (λ z. expr_means z span ≡ operated (option_copied called.entry) (seen expr_means x.value) op (seen expr_means y.value) span) };

    fn choice(
        x: Box<
            (
                Spanned<Self::Expr>,
                Spanned<Self::Expr>,
                Spanned<Self::Expr>,
            ),
        >,
    ) -> Self::Expr
        ensures { (s : Extent) → expr_means result s ≡ tree.choice (seen expr_means x.value.0) (seen expr_means x.value.1) (seen expr_means x.value.2) s };

    fn list_comprehension(
        x: Box<Spanned<Self::Expr>>,
        first: Box<Self::ForClause>,
        rest: Vec<Self::Clause>,
    ) -> Self::Expr
        ensures { (s : Extent) → expr_means result s ≡ tree.comprehension (tree.item (seen expr_means x.value)) (clauses_by (for_means first.value) clause_means rest.items) s };

    fn dict_comprehension(
        x: Box<(Spanned<Self::Expr>, Spanned<Self::Expr>)>,
        first: Box<Self::ForClause>,
        rest: Vec<Self::Clause>,
    ) -> Self::Expr
        ensures { (s : Extent) → expr_means result s ≡ tree.comprehension (tree.pair (seen expr_means x.value.0) (seen expr_means x.value.1)) (clauses_by (for_means first.value) clause_means rest.items) s };

    /// Of a format string with its fields: the place is that of the f-string.
    fn f_string(format: AstString, fields: Vec<Spanned<Self::Expr>>, span: Span) -> Self::Expr
        ensures { (s : Extent) → expr_means result s ≡ tree.fstring (string_bytes format.node) format.span (items_by expr_means fields.items) span s };

    // ---- targets

    fn target_tuple(xs: Vec<Spanned<Self::Target>>) -> Self::Target
        ensures { (s : Extent) → target_means result s ≡ tree.tuple (items_by target_means xs.items) s };

    fn target_index(x: Box<(Spanned<Self::Expr>, Spanned<Self::Expr>)>) -> Self::Target
        ensures { (s : Extent) → target_means result s ≡ tree.index (seen expr_means x.value.0) (tree.single (seen expr_means x.value.1)) s };

    fn target_dot(x: Box<Spanned<Self::Expr>>, name: AstString) -> Self::Target
        ensures { (s : Extent) → target_means result s ≡ tree.dot (seen expr_means x.value) (string_bytes name.node) name.span s };

    fn target_name(x: AstAssignIdent) -> Self::Target
        ensures { (s : Extent) → target_means result s ≡ assigned_view x s };

    // ---- clauses

    fn for_clause(var: Spanned<Self::Target>, over: Spanned<Self::Expr>) -> Self::ForClause
        ensures { for_means result ≡ tree.for_clause (seen target_means var) (seen expr_means over) };

    fn next_for(x: Self::ForClause) -> Self::Clause
        ensures { clause_means result ≡ for_means x };

    fn if_clause(x: Spanned<Self::Expr>) -> Self::Clause
        ensures { clause_means result ≡ tree.if_clause (seen expr_means x) };

    // ---- arguments

    fn positional(x: Spanned<Self::Expr>) -> Self::Argument
        ensures { (s : Extent) → argument_means result s ≡ tree.positional (seen expr_means x) s };

    fn named(name: AstString, x: Spanned<Self::Expr>) -> Self::Argument
        ensures { (s : Extent) → argument_means result s ≡ tree.named (string_bytes name.node) name.span (seen expr_means x) s };

    fn args(x: Spanned<Self::Expr>) -> Self::Argument
        ensures { (s : Extent) → argument_means result s ≡ tree.args (seen expr_means x) s };

    fn kwargs(x: Spanned<Self::Expr>) -> Self::Argument
        ensures { (s : Extent) → argument_means result s ≡ tree.kwargs (seen expr_means x) s };

    // ---- types and parameters

    fn annotation(x: Spanned<Self::Expr>) -> Self::Type
        ensures { (s : Extent) → type_means result s ≡ tree.typed (seen expr_means x) s };

    fn slash() -> Self::Parameter
        ensures { (s : Extent) → parameter_means result s ≡ tree.slash s };

    fn no_args() -> Self::Parameter
        ensures { (s : Extent) → parameter_means result s ≡ tree.no_args s };

    fn parameter(
        name: AstAssignIdent,
        ty: Option<Box<Spanned<Self::Type>>>,
        default: Option<Box<Spanned<Self::Expr>>>,
    ) -> Self::Parameter
        ensures { (s : Extent) → parameter_means result s ≡ parameter_of tree.plain name (type_by type_means ty) (bound_by expr_means default) s };

    /// A parameter behind `*`.
    fn args_parameter(name: AstAssignIdent, ty: Option<Box<Spanned<Self::Type>>>) -> Self::Parameter
        ensures { (s : Extent) → parameter_means result s ≡ parameter_of tree.starred name (type_by type_means ty) tree.absent s };

    /// A parameter behind `**`.
    fn kwargs_parameter(
        name: AstAssignIdent,
        ty: Option<Box<Spanned<Self::Type>>>,
    ) -> Self::Parameter
        ensures { (s : Extent) → parameter_means result s ≡ parameter_of tree.double_starred name (type_by type_means ty) tree.absent s };
}
