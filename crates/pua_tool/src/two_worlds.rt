//! A script with the worlds before and after it, for what is asked of the worlds between.

ghost use Rattle.std.specs.Prelude.{◌≡◌, ◌≢◌, Ok, Err, IfOk, IfErr};
ghost use Rattle.pua_tree.specs.Listing.{listing};
ghost use Rattle.pua_script.specs.Replay.{new_world};
ghost use Rattle.pua_script.specs.Scripts.{script_by};
ghost use Rattle.pua_script.specs.Worlds.{with_table};
ghost use Rattle.pua_tool.specs.Texts.{as_listing, as_script, choice_of};
ghost use Rattle.pua_tool.specs.TwoWorlds.{IsNewOver, IsTwoWorlds, as_served, asked_over};
ghost use Rattle.pua_tool.specs.WhyTexts.{served_script};

use crate::fault::ToolFault;
use crate::script::{ProgramTree, read_requests, read_table, read_tree, release};
use crate::table::TableChoice;
use pua_calls::{CallTable, Rules};
use pua_script::{Answer, Script, World};
use pua_tree::{CopiedTree, OutOfMemory};
use std::alloc::Global;

/// A script, what its lines were answered, and the worlds before and after it. The listing is read
/// once, and the second world has a copy of the first one's tree.
#[derive(Drop)]
pub(crate) struct TwoWorlds {
    pub(crate) script: Script,
    pub(crate) answers: Vec<Answer>,
    pub(crate) before: World<ProgramTree>,
    pub(crate) after: World<ProgramTree>,
}

impl TwoWorlds {
    /// Gives back the memory of the script, of its answers and of both worlds.
    pub(crate) fn release(self) {
        release(self.before);
        release(self.after);
    }
}

/// Serves a script over the tree of a listing, by the table that is chosen, and keeps the world
/// before it too; or answers the first fault: the table's, the listing's, or the script's.
/// `OutOfMemory` where a growth was refused.
pub(crate) fn two_worlds(
    alloc: Global,
    tree_bytes: &[u8],
    script_bytes: &[u8],
    choice: TableChoice<'_>,
) -> Result<TwoWorlds, ToolFault>
    ensures done { IfOk result (λ done.
        (served_script (choice_of choice.entry) tree_bytes.now script_bytes.now
        ≡ Ok (as_served done))
        × (script_by choice.entry.rules script_bytes.now ≡ Ok done.script) × IsTwoWorlds done) }
    ensures refused { IfErr result (λ fault. fault ≢ ToolFault.OutOfMemory →
        (served_script (choice_of choice.entry) tree_bytes.now script_bytes.now ≡ Err fault)) }
{
    let rules = choice.rules;
    let table = read_table(alloc, choice)?;
    let before = world_of(alloc, tree_bytes, table)?;
    match read_both(alloc, before.tree(), rules, script_bytes, table) {
        Ok((requests, after)) => Ok(serve(alloc, requests, before, after)?),
        Err(fault) => {
            release(before);
            Err(fault)
        }
    }
}

/// The requests of a script that is read by these rules, and a new world over a copy of a tree.
fn read_both(
    alloc: Global,
    tree: &ProgramTree,
    rules: Rules,
    script_bytes: &[u8],
    table: CallTable,
) -> Result<(Script, World<ProgramTree>), ToolFault>
    ensures script { IfOk result (λ read. as_script (script_by rules script_bytes.now) ≡ Ok read.0) }
    ensures world { IfOk result (λ read. read.1 ≡ with_table table (new_world tree.now)) }
    ensures refused { IfErr result (λ fault. fault ≢ ToolFault.OutOfMemory →
        (as_script (script_by rules script_bytes.now) ≡ Err fault)) }
{
    let requests = read_requests(alloc, rules, script_bytes)?;
    let world = world_over(alloc, tree, table)?;
    Ok((requests, world))
}

/// A new world over a copy of a tree.
fn world_over(
    alloc: Global,
    tree: &ProgramTree,
    table: CallTable,
) -> Result<World<ProgramTree>, OutOfMemory>
    ensures { IfOk result (λ world. world ≡ with_table table (new_world tree.now)) }
{
    let copy = tree.copy()?;
    World::new(alloc, copy, table)
}

/// Serves requests in the second of two worlds that are alike. The only error is that a growth was
/// refused.
fn serve(
    alloc: Global,
    requests: Script,
    before: World<ProgramTree>,
    mut after: World<ProgramTree>,
) -> Result<TwoWorlds, OutOfMemory>
    ensures { IfOk result (λ done. (as_served done ≡ asked_over before requests)
        × (after ≡ before → IsTwoWorlds done)) }
{
    let Ok(answers) = after.run(alloc, &requests) else {
        release(before);
        release(after);
        return Err(OutOfMemory);
    };
    Ok(TwoWorlds {
        script: requests,
        answers,
        before,
        after,
    })
}

/// The world before a script, over the tree of a listing.
fn world_of(
    alloc: Global,
    tree_bytes: &[u8],
    table: CallTable,
) -> Result<World<ProgramTree>, ToolFault>
    ensures new { IfOk result (λ world. IsNewOver tree_bytes.now table world) }
    ensures refused { IfErr result (λ fault. fault ≢ ToolFault.OutOfMemory →
        (as_listing (listing tree_bytes.now) ≡ Err fault)) }
{
    let tree = read_tree(alloc, tree_bytes)?;
    Ok(World::new(alloc, tree, table)?)
}
