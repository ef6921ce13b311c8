//! Reads a text off standard input, and prints it as its tree stands, or why it is refused.

use starlark_lexer::dialect::Dialect;
use starlark_parser::module::AstModule;
use starlark_place::codemap::CodeMapId;
use std::io::Read;

pub(crate) fn show(rt: &HostRuntime) -> Result<(), anyhow::Error> {
    let (alloc, dialect) = (rt.alloc(), &Dialect::Standard);
    let mut text = String::new(alloc);
    rt.stdin().read_to_string(&mut text)?;
    match AstModule::parse(alloc, CodeMapId(1), "BUILD", text, dialect) {
        Ok(module) => print!(rt; "{}", module.statement().node)?,
        Err(refused) => println!(rt; "{refused}")?,
    }
    Ok(())
}
