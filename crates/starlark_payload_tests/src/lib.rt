//! Tests of maps of payloads. It has no code of its own, so the crate of maps is proved once, beside the rules.
#![tactic(auto)]

#[cfg(test)]
mod calls;
#[cfg(test)]
mod check;
#[cfg(test)]
mod common;
#[cfg(test)]
mod expressions;
#[cfg(test)]
mod forms;
#[cfg(test)]
mod maker;
#[cfg(test)]
mod maps;
#[cfg(test)]
mod parsed;
#[cfg(test)]
mod parts;
#[cfg(test)]
mod statements;
