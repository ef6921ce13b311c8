//! Which values of trees and of rules may be copied, compared, ordered and hashed.

use starlark_ast::ast::{AssignIdent, AssignOp, AstNoPayload, BinOp, Comma, Ident, Visibility};
use starlark_rules::def::{DefParamIndices, DefRegularParamMode};
use std::hash::Hash;

fn ordered<T: Copy + Ord + Hash>() {}

fn copied<T: Copy + Eq>() {}

fn compared<T: Eq>() {}

fn taken<T: Copy>() {}

#[test]
fn traits() {
    ordered::<DefParamIndices>();
    copied::<AstNoPayload>();
    copied::<BinOp>();
    copied::<AssignOp>();
    copied::<Visibility>();
    copied::<DefRegularParamMode>();
    compared::<AssignIdent>();
    compared::<Ident>();
    taken::<Comma>();
}
