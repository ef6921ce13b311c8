//! Tests of the public calls from trees up to the parser, of what no stream of texts can tell. It has no code of its own, so that
//! the crates below are proved once.
#![tactic(auto)]

#[cfg(test)]
mod check;
#[cfg(test)]
mod common;
#[cfg(test)]
mod lent;
#[cfg(test)]
mod maker;
#[cfg(test)]
mod modules;
#[cfg(test)]
mod parsed;
#[cfg(test)]
mod trees;
