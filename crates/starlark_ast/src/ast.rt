//! Trees over payloads.

use starlark_lexer::token::TokenInt;
use starlark_place::pos::Spanned;
use std::fmt::Debug;

/// What a tree holds at its nodes beside what was written.
pub trait AstPayload: Debug {
    /// Held by each load (`LoadP`).
    type LoadPayload: Debug + Drop;

    /// Held by each identifier that is read (`IdentP`).
    type IdentPayload: Debug + Drop;

    /// Held by each name that is bound: by an assignment, a `for`, a clause, a `def`, a parameter or a load (`AssignIdentP`).
    type IdentAssignPayload: Debug + Drop;

    /// Held by each `def` and each lambda (`DefP`, `LambdaP`).
    type DefPayload: Debug + Drop;

    /// Held by each type (`TypeExprP`).
    type TypeExprPayload: Debug + Drop;
}

/// No payloads: what a parser gives.
#[derive(Debug, Clone, Copy, PartialEq, Eq)]
pub struct AstNoPayload;

impl AstPayload for AstNoPayload {
    type LoadPayload = ();

    type IdentPayload = ();

    type IdentAssignPayload = ();

    type DefPayload = ();

    type TypeExprPayload = ();
}

/// A comma.
#[derive(Debug, Clone, Copy)]
pub struct Comma;

/// An expression without payloads, and without its place.
pub type Expr = ExprP<AstNoPayload>;

/// A type without payloads.
pub type TypeExpr = TypeExprP<AstNoPayload>;

/// What is assigned to, without payloads.
pub type AssignTarget = AssignTargetP<AstNoPayload>;

/// A name that is bound, without payloads.
pub type AssignIdent = AssignIdentP<AstNoPayload>;

/// An identifier that is read, without payloads.
pub type Ident = IdentP<AstNoPayload>;

/// A clause of a comprehension, without payloads.
pub type Clause = ClauseP<AstNoPayload>;

/// A clause that goes over values, without payloads.
pub type ForClause = ForClauseP<AstNoPayload>;

/// An argument of a call, without payloads.
pub type Argument = ArgumentP<AstNoPayload>;

/// A parameter or a marker, without payloads.
pub type Parameter = ParameterP<AstNoPayload>;

/// A load without payloads.
pub type Load = LoadP<AstNoPayload>;

/// A statement without payloads, and without its place.
pub type Stmt = StmtP<AstNoPayload>;

/// An expression at its place.
pub type AstExprP<P> = Spanned<ExprP<P>>;

/// A type at its place, which in the tree of a text is that of its expression.
pub type AstTypeExprP<P> = Spanned<TypeExprP<P>>;

/// What is assigned to, at its place.
pub type AstAssignTargetP<P> = Spanned<AssignTargetP<P>>;

/// A name that is bound, at its place.
pub type AstAssignIdentP<P> = Spanned<AssignIdentP<P>>;

/// An identifier that is read, at its place.
pub type AstIdentP<P> = Spanned<IdentP<P>>;

/// An argument of a call, at its place.
pub type AstArgumentP<P> = Spanned<ArgumentP<P>>;

/// A parameter or a marker, at its place.
pub type AstParameterP<P> = Spanned<ParameterP<P>>;

/// A statement at its place.
pub type AstStmtP<P> = Spanned<StmtP<P>>;

/// An f-string at its place.
pub type AstFStringP<P> = Spanned<FStringP<P>>;

/// An expression at its place, without payloads.
pub type AstExpr = AstExprP<AstNoPayload>;

/// A type at its place, without payloads.
pub type AstTypeExpr = AstTypeExprP<AstNoPayload>;

/// What is assigned to, at its place, without payloads.
pub type AstAssignTarget = AstAssignTargetP<AstNoPayload>;

/// A name that is bound, at its place, without payloads.
pub type AstAssignIdent = AstAssignIdentP<AstNoPayload>;

/// An identifier that is read, at its place, without payloads.
pub type AstIdent = AstIdentP<AstNoPayload>;

/// An argument of a call at its place, without payloads.
pub type AstArgument = AstArgumentP<AstNoPayload>;

/// A text at its place: what a string literal denotes, an attribute, the name of an argument or of a module, the format of
/// an f-string.
pub type AstString = Spanned<String>;

/// A bytes literal at its place: the bytes that it denotes.
pub type AstBytes = Spanned<Vec<u8>>;

/// A parameter or a marker at its place, without payloads.
pub type AstParameter = AstParameterP<AstNoPayload>;

/// An integer literal at its place.
pub type AstInt = Spanned<TokenInt>;

/// A float literal at its place: its text as it stands.
pub type AstFloat = Spanned<String>;

/// An f-string at its place, without payloads.
pub type AstFString = AstFStringP<AstNoPayload>;

/// A statement at its place, without payloads: the tree of a text is one.
pub type AstStmt = AstStmtP<AstNoPayload>;

/// An argument of a call.
#[cycle(ast)]
#[derive(Debug, Drop)]
pub enum ArgumentP<P: AstPayload> {
    /// `value`
    Positional(AstExprP<P>),
    /// `name = value`
    Named(AstString, AstExprP<P>),
    /// `*value`
    Args(AstExprP<P>),
    /// `**value`
    KwArgs(AstExprP<P>),
}

/// A parameter of a `def` or a lambda, or a marker between parameters.
#[cycle(ast)]
#[derive(Debug, Drop)]
pub enum ParameterP<P: AstPayload> {
    /// `/`
    Slash,
    /// Its name, its type, its default.
    Normal(AstAssignIdentP<P>, Option<Box<AstTypeExprP<P>>>, Option<Box<AstExprP<P>>>),
    /// `*`
    NoArgs,
    /// `*name`, with its type.
    Args(AstAssignIdentP<P>, Option<Box<AstTypeExprP<P>>>),
    /// `**name`, with its type.
    KwArgs(AstAssignIdentP<P>, Option<Box<AstTypeExprP<P>>>),
}

/// A literal.
#[derive(Debug, Drop)]
pub enum AstLiteral {
    Int(AstInt),
    Float(AstFloat),
    String(AstString),
    Bytes(AstBytes),
    /// `...`
    Ellipsis,
}

/// A lambda.
#[cycle(ast)]
#[derive(Debug, Drop)]
pub struct LambdaP<P: AstPayload> {
    pub params: Vec<AstParameterP<P>>,
    pub body: Box<AstExprP<P>>,
    pub payload: P::DefPayload,
}

/// The arguments of a call.
#[cycle(ast)]
#[derive(Debug, Drop)]
pub struct CallArgsP<P: AstPayload> {
    pub args: Vec<AstArgumentP<P>>,
}

/// An expression.
#[cycle(ast)]
#[derive(Debug, Drop)]
pub enum ExprP<P: AstPayload> {
    Tuple(Vec<AstExprP<P>>),
    /// An object and its attribute.
    Dot(Box<AstExprP<P>>, AstString),
    /// What is called, and the arguments.
    Call(Box<AstExprP<P>>, CallArgsP<P>),
    /// `a[i]`: the object, then the index.
    Index(Box<(AstExprP<P>, AstExprP<P>)>),
    /// `a[i, j]`: the object, then both indices.
    Index2(Box<(AstExprP<P>, AstExprP<P>, AstExprP<P>)>),
    /// `a[b:c:d]`: the object, where the slice begins, where it ends, its step. Each of the three may not be there.
    Slice(
        Box<AstExprP<P>>,
        Option<Box<AstExprP<P>>>,
        Option<Box<AstExprP<P>>>,
        Option<Box<AstExprP<P>>>,
    ),
    Identifier(AstIdentP<P>),
    Lambda(LambdaP<P>),
    Literal(AstLiteral),
    Not(Box<AstExprP<P>>),
    Minus(Box<AstExprP<P>>),
    Plus(Box<AstExprP<P>>),
    BitNot(Box<AstExprP<P>>),
    /// The left operand, the operator, the right operand.
    Op(Box<AstExprP<P>>, BinOp, Box<AstExprP<P>>),
    /// The condition, then what it gives where it holds, then what it gives else.
    If(Box<(AstExprP<P>, AstExprP<P>, AstExprP<P>)>),
    List(Vec<AstExprP<P>>),
    /// Each key with its value.
    Dict(Vec<(AstExprP<P>, AstExprP<P>)>),
    /// The element, the first clause, the clauses behind it.
    ListComprehension(Box<AstExprP<P>>, Box<ForClauseP<P>>, Vec<ClauseP<P>>),
    /// The key and the value, the first clause, the clauses behind it.
    DictComprehension(Box<(AstExprP<P>, AstExprP<P>)>, Box<ForClauseP<P>>, Vec<ClauseP<P>>),
    FString(AstFStringP<P>),
}

/// A type.
#[cycle(ast)]
#[derive(Debug, Drop)]
pub struct TypeExprP<P: AstPayload> {
    pub expr: AstExprP<P>,
    pub payload: P::TypeExprPayload,
}

/// What is assigned to. Tuples stand for lists too.
#[cycle(ast)]
#[derive(Debug, Drop)]
pub enum AssignTargetP<P: AstPayload> {
    Tuple(Vec<AstAssignTargetP<P>>),
    /// `a[i]`: the object, then the index.
    Index(Box<(AstExprP<P>, AstExprP<P>)>),
    /// An object and its attribute.
    Dot(Box<AstExprP<P>>, AstString),
    Identifier(AstAssignIdentP<P>),
}

/// An assignment with `=` alone.
#[derive(Debug, Drop)]
pub struct AssignP<P: AstPayload> {
    pub lhs: AstAssignTargetP<P>,
    /// The type behind the target's `:`, where there is one.
    pub ty: Option<AstTypeExprP<P>>,
    pub rhs: AstExprP<P>,
}

/// A name that is bound.
#[derive(Debug, PartialEq, Eq, Drop)]
pub struct AssignIdentP<P: AstPayload> {
    pub ident: String,
    pub payload: P::IdentAssignPayload,
}

/// An identifier that is read.
#[derive(Debug, PartialEq, Eq, Drop)]
pub struct IdentP<P: AstPayload> {
    pub ident: String,
    pub payload: P::IdentPayload,
}

/// A symbol of a load.
#[derive(Debug, Drop)]
pub struct LoadArgP<P: AstPayload> {
    /// The name that is bound here.
    pub local: AstAssignIdentP<P>,
    /// The name in the other module. A string by itself, as in `load("m", "x")`, is both, at one place.
    pub their: AstString,
    /// The comma behind it, where there is one.
    pub comma: Option<Spanned<Comma>>,
}

/// A load.
#[derive(Debug, Drop)]
pub struct LoadP<P: AstPayload> {
    /// The name of the other module.
    pub module: AstString,
    pub args: Vec<LoadArgP<P>>,
    pub payload: P::LoadPayload,
}

/// A clause that goes over values.
#[cycle(ast)]
#[derive(Debug, Drop)]
pub struct ForClauseP<P: AstPayload> {
    pub var: AstAssignTargetP<P>,
    pub over: AstExprP<P>,
}

/// A clause of a comprehension.
#[cycle(ast)]
#[derive(Debug, Drop)]
pub enum ClauseP<P: AstPayload> {
    For(ForClauseP<P>),
    If(AstExprP<P>),
}

/// An operator between two expressions.
#[derive(Debug, Clone, Copy, PartialEq, Eq)]
pub enum BinOp {
    Or,
    And,
    Equal,
    NotEqual,
    Less,
    Greater,
    LessOrEqual,
    GreaterOrEqual,
    In,
    NotIn,
    Subtract,
    Add,
    Multiply,
    Percent,
    Divide,
    FloorDivide,
    BitAnd,
    BitOr,
    BitXor,
    LeftShift,
    RightShift,
}

/// An operator of an assignment.
#[derive(Debug, Clone, Copy, PartialEq, Eq)]
pub enum AssignOp {
    Add,
    Subtract,
    Multiply,
    Divide,
    FloorDivide,
    Percent,
    BitAnd,
    BitOr,
    BitXor,
    LeftShift,
    RightShift,
}

/// Whether a name is seen outside of its module. No call takes or gives it.
#[derive(Debug, Clone, Copy, PartialEq, Eq)]
pub enum Visibility {
    Private,
    Public,
}

/// A `def`.
#[cycle(stmt)]
#[derive(Debug, Drop)]
pub struct DefP<P: AstPayload> {
    pub name: AstAssignIdentP<P>,
    pub params: Vec<AstParameterP<P>>,
    pub return_type: Option<Box<AstTypeExprP<P>>>,
    pub body: Box<AstStmtP<P>>,
    pub payload: P::DefPayload,
}

/// A `for` statement.
#[cycle(stmt)]
#[derive(Debug, Drop)]
pub struct ForP<P: AstPayload> {
    pub var: AstAssignTargetP<P>,
    pub over: AstExprP<P>,
    pub body: Box<AstStmtP<P>>,
}

/// An f-string: a format with a field for each expression, `{!r}` for one with `!r` and `{}` for any other.
#[cycle(ast)]
#[derive(Debug, Drop)]
pub struct FStringP<P: AstPayload> {
    pub format: AstString,
    pub expressions: Vec<AstExprP<P>>,
}

/// A statement.
#[cycle(stmt)]
#[derive(Debug, Drop)]
pub enum StmtP<P: AstPayload> {
    Break,
    Continue,
    Pass,
    /// `return`, with a value where it has one.
    Return(Option<AstExprP<P>>),
    Expression(AstExprP<P>),
    Assign(AssignP<P>),
    /// The target, the operator before `=`, the right side.
    AssignModify(AstAssignTargetP<P>, AssignOp, Box<AstExprP<P>>),
    /// Statements in a row: of a text, of a block, or on one line.
    Statements(Vec<AstStmtP<P>>),
    /// The condition, then what is done where it holds.
    If(AstExprP<P>, Box<AstStmtP<P>>),
    /// The condition, then what is done where it holds, and what else: for an `elif` that is another `If` or `IfElse`.
    IfElse(AstExprP<P>, Box<(AstStmtP<P>, AstStmtP<P>)>),
    For(ForP<P>),
    Def(DefP<P>),
    Load(LoadP<P>),
}
