//! Laws of trees in which operations are calls.

ghost use Rattle.std.specs.Prelude.{◌≡◌, None};
ghost use Rattle.std.specs.HashMap.{HashMap, IsEmpty};
ghost use Rattle.std.specs.declared.alloc.Global.{Global};
ghost use Rattle.std.specs.declared.hash.BuildHasherDefault.{BuildHasherDefault};
ghost use Rattle.std.specs.declared.hash.FoldHasher.{FoldHasher};
ghost use Rattle.std.specs.declared.string.String.{String};
ghost use Rattle.starlark_ast.specs.declared.ast.BinOp.{BinOp};
ghost use Rattle.starlark_clone.specs.Replacing.{Renaming, renaming, replaced_statement};
ghost use Rattle.starlark_ast.specs.Tree.{Statement};

/// Where no operator has a name, as in an empty map, a statement stays as it is.
pub fn without_names()
    ensures none { (r : Renaming) → ((o : BinOp) → r o ≡ None) → (a : Statement) → replaced_statement r a ≡ a }
    ensures empty { (names : HashMap (String Global) (String Global) (BuildHasherDefault FoldHasher)) → IsEmpty names → (a : Statement) → replaced_statement (renaming names) a ≡ a }
{}
