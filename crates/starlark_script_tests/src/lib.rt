//! Tests of lists of parts, and of scripts: devices that fail, limits, the scripts of `starlark_outline` by short reads and writes.
//! It has no code of its own, so that the crates below are proved once.
#![tactic(auto)]

#[cfg(test)]
mod cases;
#[cfg(test)]
mod check;
#[cfg(test)]
mod devices;
#[cfg(test)]
mod limits;
#[cfg(test)]
mod parts;
