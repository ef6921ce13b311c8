//! Names that are called in the place of operators.

ghost use Rattle.std.specs.Option.{option_copied};
ghost use Rattle.std.specs.Prelude.{◌≡◌, None};
ghost use Rattle.starlark_clone.specs.Replacing.{Renaming, bare_text, renaming};

use starlark_ast::ast::BinOp;
use std::collections::HashMap;

/// What gives an operator a name, or leaves it.
pub(crate) trait Rename {
    ghost renames: { Self → Renaming };

    fn name(&self, op: BinOp) -> Option<&str>
        ensures { option_copied result ≡ renames self.now op };
}

/// Leaves each operator.
#[derive(Drop)]
pub(crate) struct Unchanged;

impl Rename for Unchanged {
    ghost use Rattle.std.specs.Prelude.{None};

    ghost renames = { λ by op. None };

    fn name(&self, op: BinOp) -> Option<&str>
        ensures { option_copied result ≡ None }
    {
        None
    }
}

/// Gives an operator the name that stands at its text.
#[derive(Drop)]
pub(crate) struct Renamed<'a>(pub(crate) &'a HashMap<String, String>);

impl<'a> Rename for Renamed<'a> {
    ghost use Rattle.starlark_clone.specs.Replacing.{renaming};

    ghost renames = { λ by. renaming by.0.now };

    fn name(&self, op: BinOp) -> Option<&str>
        ensures { option_copied result ≡ renaming self.now.0.now op }
    {
        match self.0.get(text_of(op)) {
            None => None,
            Some(name) => Some(name.as_str()),
        }
    }
}

// an operator as it is written
fn text_of(op: BinOp) -> &'static str
    ensures { result.now ≡ bare_text op }
{
    match op {
        BinOp::Or => "or",
        BinOp::And => "and",
        BinOp::Equal => "==",
        BinOp::NotEqual => "!=",
        BinOp::Less => "<",
        BinOp::Greater => ">",
        BinOp::LessOrEqual => "<=",
        BinOp::GreaterOrEqual => ">=",
        BinOp::In => "in",
        BinOp::NotIn => "not in",
        BinOp::Subtract => "-",
        BinOp::Add => "+",
        BinOp::Multiply => "*",
        BinOp::Percent => "%",
        BinOp::Divide => "/",
        BinOp::FloorDivide => "//",
        BinOp::BitAnd => "&",
        BinOp::BitOr => "|",
        BinOp::BitXor => "^",
        BinOp::LeftShift => "<<",
        BinOp::RightShift => ">>",
    }
}
