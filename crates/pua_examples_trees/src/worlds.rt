//! Worlds that scripts leave.

use anyhow::Result;
use pua_calls::CallTable;
use pua_script::{Answer, World, read_script};
use pua_tree::FileTree;
use std::alloc::Global;

/// What the lines of a script were answered, and the world that they left.
#[derive(Drop)]
pub(crate) struct Ran<T: FileTree + Drop> {
    pub(crate) answers: Vec<Answer>,
    pub(crate) world: World<T>,
}

/// Runs a script over a tree, by the standard table of calls.
pub(crate) fn run_over<T: FileTree + Drop>(
    alloc: Global,
    tree: T,
    script: &[u8],
) -> Result<Ran<T>> {
    let mut world = World::new(alloc, tree, CallTable::standard())?;
    let answers = serve(alloc, &mut world, script)?;
    Ok(Ran { answers, world })
}

/// What the lines of a script are answered in a world.
fn serve<T: FileTree>(alloc: Global, world: &mut World<T>, script: &[u8]) -> Result<Vec<Answer>> {
    let script = read_script(alloc, script)?;
    Ok(world.run(alloc, &script)?)
}
