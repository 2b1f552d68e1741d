//! Trees at the limits, which no listing has; trees of both kinds, edited side by side; and audits
//! whose live states, looks and reads are counted. The program of `pua_examples` runs all of it.
//! What it needs stands below the texts, so it is proved beside them.
#![tactic(auto)]

mod audited;
mod edits;
mod listed;
mod live;
mod random;
mod rooms;
pub mod told;
mod trees;
mod worlds;

use anyhow::Result;

/// The listing of a tree of directories, a file, a program, and links: to a directory, up and down
/// again, to itself.
pub const LISTING: &[u8] =
    b"tree 1\n0 dir\n1 dir 0 etc\n2 file 1 passwd\n3 dir 0 tmp\n4 link 0 t tmp\n5 link 3 up ../etc\n6 link 3 self self\n7 prog 3 sh\n";

/// Runs all of it, in a folder with the listings `chains`, `wide` and `deep`. Prints a line for
/// each thing that is tried, and one for each case that is not as it has to be. It fails where a
/// line can't be printed, a listing can't be read, or an allocation fails.
pub fn run(rt: &HostRuntime) -> Result<()> {
    rooms::run(rt)?;
    edits::run(rt)?;
    live::run(rt)
}
