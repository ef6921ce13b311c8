//! Reads a script off standard input and answers each command on standard output. The commands edit a list of
//! parts, each a Starlark text of its own, and ask for the outline of the joined text.
//!
//! The program ends with status 0 after a whole script, with 2 where the script ends in what is no command, and with 1
//! after a fault, which it names on standard error.
#![tactic(auto)]

use starlark_lexer::dialect::Dialect;
use starlark_script::{Watched, exit_code, run, tell};
use std::process::ExitCode;

fn main(rt: HostRuntime) -> ExitCode {
    let mut reader = Watched::new(rt.stdin());
    let mut writer = Watched::new(rt.stdout());
    let end = run(rt.alloc(), &mut reader, &mut writer, &Dialect::Standard);
    let _ = tell(&mut rt.stderr(), &end);
    exit_code(&end)
}
