//! Scripts: commands that edit a list of parts, each a Starlark text of its own, and ask for the outline of the joined
//! text. `run` reads a script off any reader and answers each command on any writer.
#![tactic(auto)]

mod ahead;
mod command;
mod device;
mod engine;
mod exit;
mod fault;
pub mod laws;
mod reading;
mod reply;
pub mod script_laws;
mod write;

pub use device::{Sink, Source, Watched};
pub use engine::{run, run_with};
pub use exit::{exit_code, fault_line, status, tell};
pub use fault::{End, RunFault};
