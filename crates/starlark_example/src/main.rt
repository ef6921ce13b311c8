//! Two uses of the crates below, which `docs/USING.md` tells of: a text is read into its tree, and parts are edited.
#![tactic(auto)]

mod edits;
mod trees;

fn main(rt: HostRuntime) -> Result<(), anyhow::Error> {
    trees::show(&rt)?;
    edits::show(&rt)
}
