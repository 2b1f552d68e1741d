//! Callers of the libraries, as docs/CALLING.md goes through them; the libraries in hostile
//! surroundings; and trees at their limits, of both kinds, and audits over them
//! (`pua_examples_trees`). A line is printed for each, which says whether it is as expected, and
//! one for each case of which that isn't so.
#![tactic(auto)]

mod called;
mod calling;
mod hostile;

use anyhow::Result;

fn main(rt: HostRuntime) -> Result<()> {
    pua_examples_trees::run(&rt)?;
    called::run(&rt)?;
    hostile::run(&rt)
}
