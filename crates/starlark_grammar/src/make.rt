//! Makers of expressions, over any trees.

ghost use Rattle.std.specs.Prelude.{◌≡◌, IfOk, None, true, string_bytes};
ghost use Rattle.starlark_lexer.specs.Items.{number_of};
ghost use Rattle.starlark_ast.specs.Tree as tree;
ghost use Rattle.starlark_ast.specs.View.{members};
ghost use Rattle.starlark_grammar.specs.Made.{items_of, pairs_of, clauses_of, goes_over, bound_of, sign_of};
ghost use Rattle.starlark_rulebook.specs.Targets as targets;
ghost use Rattle.starlark_rulebook.specs.View.{maybe_finding};

use starlark_ast::ast::BinOp;
use starlark_lexer::token::TokenInt;
use starlark_place::pos::{Span, Spanned};
use starlark_rulebook::rule::Rule;
use std::alloc::{AllocError, Global};

/// What stands before its operand.
#[derive(Clone, Copy, Debug, PartialEq, Eq, Drop)]
pub enum Sign {
    Not,
    Minus,
    Plus,
    BitNot,
}

/// Makes expressions and what stands in them, and finds the rules that targets break. `span` is where the node stands, as
/// docs/LANGUAGE.md, Spans, says. `Err` comes only where memory lacks, and then all that was handed in by value is let go.
pub trait Make {
    /// An expression.
    type Expr: Drop;

    /// The tree without where it lies in memory.
    ghost means: { Self.Expr → tree.Expr };

    /// Where an expression stands.
    fn place(x: &Self::Expr) -> Span
        ensures { result ≡ tree.place (means x.now) };

    // ---- expressions of one token

    /// An identifier that is read.
    fn name(name: String, span: Span) -> Self::Expr
        ensures { means result ≡ tree.leaf (tree.name (string_bytes name)) span span };

    /// An integer literal.
    fn int(value: TokenInt, span: Span) -> Self::Expr
        ensures { means result ≡ tree.leaf (tree.int (number_of value)) span span };

    /// A float literal, with its text as it stands.
    fn float(text: String, span: Span) -> Self::Expr
        ensures { means result ≡ tree.leaf (tree.float (string_bytes text)) span span };

    /// A string literal, with the text that it denotes.
    fn string(text: String, span: Span) -> Self::Expr
        ensures { means result ≡ tree.leaf (tree.string (string_bytes text)) span span };

    /// A bytes literal, with the bytes that it denotes.
    fn bytes(bytes: Vec<u8>, span: Span) -> Self::Expr
        ensures { means result ≡ tree.leaf (tree.bytes bytes.items) span span };

    /// `...`
    fn ellipsis(span: Span) -> Self::Expr
        ensures { means result ≡ tree.leaf tree.ellipsis span span };

    // ---- brackets

    /// A tuple: `()` with its parentheses, any other from its first member's first token on, without them.
    fn tuple(members: Vec<Self::Expr>, span: Span) -> Self::Expr
        ensures { means result ≡ tree.tuple (items_of means members.items) span };

    /// A list, from `[` to `]`.
    fn list(members: Vec<Self::Expr>, span: Span) -> Self::Expr
        ensures { means result ≡ tree.list (items_of means members.items) span };

    /// A dict, from `{` to `}`: its pairs of a key and a value, in order.
    fn dict(members: Vec<(Self::Expr, Self::Expr)>, span: Span) -> Self::Expr
        ensures { means result ≡ tree.dict (pairs_of means members.items) span };

    // ---- comprehensions

    /// The first rule that an expression breaks as a target, at its place. It takes no memory.
    fn target_fault(x: &Self::Expr) -> Option<Spanned<Rule>>
        ensures { maybe_finding result ≡ targets.target_fault (means x.now) };

    /// A clause.
    type Clause: Drop;

    ghost clause_means: { Self.Clause → tree.Clause };

    /// `for target in over`, a clause. `target` breaks no rule as one, and lists in it become tuples.
    fn for_clause(
        alloc: Global,
        target: Self::Expr,
        over: Self::Expr,
    ) -> Result<Self::Clause, AllocError>
        requires { targets.target_fault (means target) ≡ None }
        ensures { IfOk result (λ c. clause_means c ≡ tree.for_clause (targets.target_of (means target)) (means over)) };

    /// `if condition`, a clause.
    fn if_clause(condition: Self::Expr) -> Self::Clause
        ensures { clause_means result ≡ tree.if_clause (means condition) };

    /// `[member first rest]`, from `[` to `]`. `first` is a clause with `for`.
    fn list_comprehension(
        alloc: Global,
        member: Self::Expr,
        first: Self::Clause,
        rest: Vec<Self::Clause>,
        span: Span,
    ) -> Result<Self::Expr, AllocError>
        requires { goes_over (clause_means first) ≡ true }
        ensures { IfOk result (λ x. means x ≡ tree.comprehension (tree.item (means member)) (clauses_of (clause_means first) clause_means rest.items) span) };

    /// `{key: value first rest}`, from `{` to `}`. `member` is the key and the value, `first` a clause with `for`.
    fn dict_comprehension(
        alloc: Global,
        member: (Self::Expr, Self::Expr),
        first: Self::Clause,
        rest: Vec<Self::Clause>,
        span: Span,
    ) -> Result<Self::Expr, AllocError>
        requires { goes_over (clause_means first) ≡ true }
        ensures { IfOk result (λ x. means x ≡ tree.comprehension (tree.pair (means member.0) (means member.1)) (clauses_of (clause_means first) clause_means rest.items) span) };

    // ---- suffixes

    /// `object.attribute`, from the begin of `object` on.
    fn dot(
        alloc: Global,
        object: Self::Expr,
        attribute: Spanned<String>,
        span: Span,
    ) -> Result<Self::Expr, AllocError>
        ensures { IfOk result (λ x. means x ≡ tree.dot (means object) (string_bytes attribute.node) attribute.span span) };

    /// An argument of a call.
    type Argument: Drop;

    ghost argument_means: { Self.Argument → tree.Member };

    /// `value`, an argument without a name. Parentheses around it count for `span`.
    fn positional(value: Self::Expr, span: Span) -> Self::Argument
        ensures { argument_means result ≡ tree.positional (means value) span };

    /// `name = value`, an argument.
    fn named(name: Spanned<String>, value: Self::Expr, span: Span) -> Self::Argument
        ensures { argument_means result ≡ tree.named (string_bytes name.node) name.span (means value) span };

    /// `*value`, an argument, from its `*` on.
    fn args(value: Self::Expr, span: Span) -> Self::Argument
        ensures { argument_means result ≡ tree.args (means value) span };

    /// `**value`, an argument, from its `**` on.
    fn kwargs(value: Self::Expr, span: Span) -> Self::Argument
        ensures { argument_means result ≡ tree.kwargs (means value) span };

    /// `callee(arguments)`, from the begin of `callee` to the `)`.
    fn call(
        alloc: Global,
        callee: Self::Expr,
        arguments: Vec<Self::Argument>,
        span: Span,
    ) -> Result<Self::Expr, AllocError>
        ensures { IfOk result (λ x. means x ≡ tree.call (means callee) (members argument_means arguments.items) span) };

    /// `object[index]`, from the begin of `object` to the `]`.
    fn index(
        alloc: Global,
        object: Self::Expr,
        index: Self::Expr,
        span: Span,
    ) -> Result<Self::Expr, AllocError>
        ensures { IfOk result (λ x. means x ≡ tree.index (means object) (tree.single (means index)) span) };

    /// `object[first, second]`, from the begin of `object` to the `]`.
    fn index_of_two(
        alloc: Global,
        object: Self::Expr,
        first: Self::Expr,
        second: Self::Expr,
        span: Span,
    ) -> Result<Self::Expr, AllocError>
        ensures { IfOk result (λ x. means x ≡ tree.index (means object) (tree.double (means first) (means second)) span) };

    /// `object[start:stop:step]`, from the begin of `object` to the `]`. Each of the three may not be there.
    fn slice(
        alloc: Global,
        object: Self::Expr,
        start: Option<Self::Expr>,
        stop: Option<Self::Expr>,
        step: Option<Self::Expr>,
        span: Span,
    ) -> Result<Self::Expr, AllocError>
        ensures { IfOk result (λ x. means x ≡ tree.index (means object) (tree.slice (bound_of means start) (bound_of means stop) (bound_of means step)) span) };

    // ---- operators

    /// An operand with one sign before it, from the sign on.
    fn signed(
        alloc: Global,
        sign: Sign,
        operand: Self::Expr,
        span: Span,
    ) -> Result<Self::Expr, AllocError>
        ensures { IfOk result (λ x. means x ≡ tree.signed (sign_of sign) (means operand) span) };

    /// `left op right`, from the begin of `left` to the end of `right`.
    fn operation(
        alloc: Global,
        left: Self::Expr,
        op: BinOp,
        right: Self::Expr,
        span: Span,
    ) -> Result<Self::Expr, AllocError>
        ensures { IfOk result (λ x. means x ≡ tree.operation (means left) op (means right) span) };

    /// `value if condition else otherwise`, from the begin of `value` on.
    fn choice(
        alloc: Global,
        condition: Self::Expr,
        value: Self::Expr,
        otherwise: Self::Expr,
        span: Span,
    ) -> Result<Self::Expr, AllocError>
        ensures { IfOk result (λ x. means x ≡ tree.choice (means condition) (means value) (means otherwise) span) };

    // ---- f-strings

    /// An f-string: its format, with `{}` or `{!r}` for each field, and the fields in order. The format stands where the
    /// whole does.
    fn f_string(format: String, fields: Vec<Self::Expr>, span: Span) -> Self::Expr
        ensures { means result ≡ tree.fstring (string_bytes format) span (items_of means fields.items) span span };

    // ---- parameters and lambdas

    /// A parameter, or a marker between parameters.
    type Parameter: Drop;

    ghost parameter_means: { Self.Parameter → tree.Member };

    /// `/` between parameters.
    fn slash(span: Span) -> Self::Parameter
        ensures { parameter_means result ≡ tree.slash span };

    /// `*` by itself between parameters.
    fn no_args(span: Span) -> Self::Parameter
        ensures { parameter_means result ≡ tree.no_args span };

    /// A parameter without a star and without a type: its name, with a default where it has one.
    fn parameter(
        alloc: Global,
        name: Spanned<String>,
        default: Option<Self::Expr>,
        span: Span,
    ) -> Result<Self::Parameter, AllocError>
        ensures { IfOk result (λ p. parameter_means p ≡ tree.parameter tree.plain (string_bytes name.node) name.span tree.untyped (bound_of means default) span) };

    /// `*name`, a parameter without a type, from its `*` on.
    fn args_parameter(name: Spanned<String>, span: Span) -> Self::Parameter
        ensures { parameter_means result ≡ tree.parameter tree.starred (string_bytes name.node) name.span tree.untyped tree.absent span };

    /// `**name`, a parameter without a type, from its `**` on.
    fn kwargs_parameter(name: Spanned<String>, span: Span) -> Self::Parameter
        ensures { parameter_means result ≡ tree.parameter tree.double_starred (string_bytes name.node) name.span tree.untyped tree.absent span };

    /// `lambda parameters: body`, from its keyword on.
    fn lambda(
        alloc: Global,
        parameters: Vec<Self::Parameter>,
        body: Self::Expr,
        span: Span,
    ) -> Result<Self::Expr, AllocError>
        ensures { IfOk result (λ x. means x ≡ tree.lambda (members parameter_means parameters.items) (means body) span) };
}
