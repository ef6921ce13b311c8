//! Shows what the front end reads in a text. It answers a stream of queries off standard input, each with its answer
//! and a line `--` on standard output. With arguments, the word of a query and a dialect behind it or none for Standard,
//! it answers that one query of all of standard input, without the line `--`.
//!
//! The program ends with status 0 after a whole stream, with 2 after `bad`, and with 1 after a fault, which it names on
//! standard error.
#![tactic(auto)]

mod answer;
mod expressions;
mod fault;
mod lines;
mod module;
mod outline;
mod query;
mod quote;
mod said;
mod stream;
mod tokens;
mod tree;

use fault::{End, RunFault, fault_line, status};
use query::{Question, question_named};
use std::env;
use std::process::ExitCode;

/// What the arguments ask for.
enum Asked {
    /// Nothing: a stream is read.
    Stream,
    /// One text, of which they tell what to show.
    Text(Question),
    /// They are no word and dialect.
    Bad,
}

/// Reads the arguments. `Err` is `RunFault::Memory` or `RunFault::Read`: they could not be had.
fn read_arguments(rt: &HostRuntime) -> Result<Asked, RunFault> {
    let mut arguments = env::args(rt).map_err(RunFault::of_read)?;
    let _program = arguments.next();
    let Some(word) = arguments.next() else {
        return Ok(Asked::Stream);
    };
    let dialect = arguments.next();
    if arguments.next().is_some() {
        return Ok(Asked::Bad);
    }
    let dialect = match &dialect {
        Some(name) => name.as_str(),
        None => "standard",
    };
    match question_named(word.as_str(), dialect) {
        Some(question) => Ok(Asked::Text(question)),
        None => Ok(Asked::Bad),
    }
}

/// Answers what the arguments ask for.
fn run(rt: &HostRuntime) -> Result<End, RunFault> {
    let mut writer = rt.stdout();
    match read_arguments(rt)? {
        Asked::Stream => stream::run(rt.alloc(), rt.stdin(), &mut writer),
        Asked::Text(question) => stream::run_text(rt.alloc(), rt.stdin(), &mut writer, question),
        Asked::Bad => stream::run_bad(&mut writer),
    }
}

fn main(rt: HostRuntime) -> ExitCode {
    let end = run(&rt);
    if let Err(fault) = &end {
        let _ = eprintln!(rt; "{}", fault_line(fault));
    }
    ExitCode::from(status(&end))
}
