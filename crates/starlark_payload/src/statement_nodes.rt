//! The forms of statements.

/// The form of a statement.
#[derive(Clone, Copy, Debug)]
pub enum StmtShape {
    Plain,
    Return,
    Expression,
    Assign,
    AssignModify,
    Statements,
    If,
    IfElse,
    For,
    Def,
    Load,
}

/// A statement of one word.
#[derive(Debug, Drop)]
pub enum Plain {
    Break,
    Continue,
    Pass,
}
