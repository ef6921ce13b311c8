//! Keeps a list of parts, edits it, and prints the outline of all of them, one behind another.

use starlark_lexer::dialect::Dialect;
use starlark_parts::parts::Parts;

pub(crate) fn show(rt: &HostRuntime) -> Result<(), anyhow::Error> {
    let mut parts = Parts::new(rt.alloc(), &Dialect::Standard);
    parts.insert(0, b"def f(x):\n    return x + 1\n")?;
    parts.insert(0, b"load(\"m.bzl\", \"g\")\n")?;
    parts.insert(2, b"y = f(g(1))\n")?;
    if let Err(fault) = parts.replace(2, b"1 = y\n") {
        println!(rt; "{fault}")?;
    }
    for item in parts.items() {
        println!(rt; "{} {}", item.begin, item.word)?;
    }
    Ok(())
}
