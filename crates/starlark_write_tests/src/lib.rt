//! Tests of visitors that write. It has no code of its own, so the crate of visitors is proved once.
#![tactic(auto)]

#[cfg(test)]
mod check;
#[cfg(test)]
mod maker;
#[cfg(test)]
mod statements;
#[cfg(test)]
mod writing;
