//! The answers that a script has to keep, and the first line that is answered otherwise.

ghost use Rattle.std.specs.Prelude.{◌≡◌, ◌≤◌, drop, length, IfOk};
ghost use Rattle.pua_script.specs.Replay.{answers_to, new_world};
ghost use Rattle.pua_script.specs.Worlds.{with_table, world_of};
ghost use Rattle.pua_tight.specs.Starts.{first_from};

use crate::start::release;
use pua_calls::CallTable;
use pua_script::{Answer, Request, Script, World, WorldFault};
use pua_tree::{CopiedTree, OutOfMemory, SlabTree};
use std::alloc::Global;

/// A tree, a table, and the answers of a script by this table over that tree. The only error of its
/// functions is that a growth was refused.
#[derive(Drop)]
pub(crate) struct Wanted<'a> {
    pub(crate) alloc: Global,
    pub(crate) tree: SlabTree,
    pub(crate) table: &'a CallTable,
    pub(crate) answers: Vec<Answer>,
}

impl<'a> Wanted<'a> {
    /// What a script is answered in a new world over a tree.
    pub(crate) fn of(
        alloc: Global,
        tree: SlabTree,
        table: &'a CallTable,
        script: &Script,
    ) -> Result<Wanted<'a>, OutOfMemory>
        ensures tree { IfOk result (λ wanted. wanted.tree ≡ tree) }
        ensures table { IfOk result (λ wanted. wanted.table.now ≡ table.now) }
        ensures answers { IfOk result (λ wanted. wanted.answers.items
            ≡ answers_to table.now (new_world tree) script.now) }
    {
        let mut world = begun(alloc, &tree, table)?;
        let answers = world.run(alloc, script);
        release(world);
        let Ok(answers) = answers else {
            return Err(OutOfMemory);
        };
        Ok(Wanted {
            alloc,
            tree,
            table,
            answers,
        })
    }

    /// A new world over a copy of the tree.
    pub(crate) fn begun(&self) -> Result<World<SlabTree>, OutOfMemory>
        ensures { IfOk result (λ world. world
            ≡ with_table self.now.table.now (new_world self.now.tree)) }
    {
        begun(self.alloc, &self.tree, self.table)
    }
}

/// A new world over a copy of a tree.
fn begun(alloc: Global, tree: &SlabTree, table: &CallTable) -> Result<World<SlabTree>, OutOfMemory>
    ensures { IfOk result (λ world. world ≡ with_table table.now (new_world tree.now)) }
{
    let tree = tree.copy()?;
    World::new(alloc, tree, *table)
}

/// Serves requests from an index on in a world, up to the first that is answered otherwise than is
/// wanted, and answers its index. Where the lists have other lengths, it is the first that only one
/// of them has.
pub(crate) fn served_otherwise(
    world: &mut World<SlabTree>,
    requests: &[Request],
    from: usize,
    wanted: &[Answer],
) -> Result<Option<usize>, WorldFault>
    ensures { IfOk result (λ other. from ≤ length requests.now → other ≡ first_from from
        (answers_to world.old.table (world_of world.old) (drop from requests.now))
        (drop from wanted.now)) }
{
    for index in from..requests.len() {
        let answer = world.apply(&requests[index])?;
        match wanted.get(index) {
            Some(wanted) if *wanted == answer => {}
            _ => return Ok(Some(index)),
        }
    }
    if requests.len() < wanted.len() {
        Ok(Some(requests.len()))
    } else {
        Ok(None)
    }
}
