//! Tests of the public calls of places and of the lexer, of what no stream of texts can tell. It has no code of its own, so that the
//! crates below are proved once.
#![tactic(auto)]

#[cfg(test)]
mod check;
#[cfg(test)]
mod codemaps;
#[cfg(test)]
mod common;
#[cfg(test)]
mod diagnostics;
#[cfg(test)]
mod formats;
#[cfg(test)]
mod identifiers;
#[cfg(test)]
mod lexer;
#[cfg(test)]
mod maker;
#[cfg(test)]
mod numbers;
#[cfg(test)]
mod spans;
#[cfg(test)]
mod strings;
#[cfg(test)]
mod tokens;
#[cfg(test)]
mod traits;
