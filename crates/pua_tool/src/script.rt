//! The replay of a script over the tree of a listing.

ghost use Rattle.std.specs.Prelude.{◌≡◌, ◌≢◌, List, Ok, Err, IfOk, IfErr};
ghost use Rattle.pua_tree.specs.Listing.{listing};
ghost use Rattle.pua_script.specs.Requests.{Asked};
ghost use Rattle.pua_script.specs.Scripts.{script_by};
ghost use Rattle.pua_tool.specs.Texts.{as_listing, as_script, choice_of, replay_of};
ghost use Rattle.pua_tool.specs.Texts.{table_by};
ghost use Rattle.pua_tool.specs.Begun.{as_replayed, replay_by};

use crate::fault::ToolFault;
use crate::table::TableChoice;
use pua_calls::{CallTable, Rules, TableFault};
use pua_script::{Script, ScriptFault, World, read_script_by};
use pua_tree::{ListingFault, OutOfMemory, SlabTree, read_listing_slab};
use pua_why::{ToldAnswer, run_told};
use std::alloc::Global;

/// How the program keeps the tree of a listing.
pub(crate) type ProgramTree = SlabTree;

/// The world that a script left, and what its lines were answered, each with what opened it, None
/// where nobody asks.
#[derive(Drop)]
pub(crate) struct Replay {
    pub(crate) world: World<ProgramTree>,
    pub(crate) answers: Vec<Option<ToldAnswer>>,
}

impl Replay {
    /// Gives back the memory of the world and of the answers.
    pub(crate) fn release(self) {
        release(self.world);
    }
}

/// Gives back the memory of a world: one call, where the world's drop would else be walked and
/// proved at each exit after it.
pub(crate) fn release(world: World<ProgramTree>) {}

/// Serves a script over the tree of a listing, by the table that is chosen, or
/// answers the first fault: the table's, the listing's, or the script's. `OutOfMemory` where a
/// growth was refused.
pub(crate) fn replay_script(
    alloc: Global,
    tree_bytes: &[u8],
    script_bytes: &[u8],
    table: TableChoice<'_>,
) -> Result<Replay, ToolFault>
    ensures done { IfOk result (λ replay.
        replay_of (choice_of table.entry) tree_bytes.now script_bytes.now
        ≡ Ok (as_replayed replay)) }
    ensures refused { IfErr result (λ fault. fault ≢ ToolFault.OutOfMemory →
        (replay_of (choice_of table.entry) tree_bytes.now script_bytes.now ≡ Err fault)) }
{
    let rules = table.rules;
    let table = read_table(alloc, table)?;
    let tree = read_tree(alloc, tree_bytes)?;
    replay_over(alloc, tree, table, rules, script_bytes)
}

/// Serves a script that is read by these rules over a tree, by a table, or answers the script's
/// fault. `OutOfMemory` where a growth was refused.
fn replay_over(
    alloc: Global,
    tree: ProgramTree,
    table: CallTable,
    rules: Rules,
    script_bytes: &[u8],
) -> Result<Replay, ToolFault>
    ensures done { IfOk result (λ replay. (asks : List Asked)
        × (as_script (script_by rules script_bytes.now) ≡ Ok asks)
        × (as_replayed replay ≡ replay_by table tree asks)) }
    ensures refused { IfErr result (λ fault. fault ≢ ToolFault.OutOfMemory →
        (as_script (script_by rules script_bytes.now) ≡ Err fault)) }
{
    let script = read_requests(alloc, rules, script_bytes)?;
    Ok(replay_requests(alloc, tree, table, &script)?)
}

/// Serves requests over a tree, by a table. The only error is that a growth was refused.
fn replay_requests(
    alloc: Global,
    tree: ProgramTree,
    table: CallTable,
    requests: &Script,
) -> Result<Replay, OutOfMemory>
    ensures { IfOk result (λ replay. as_replayed replay ≡ replay_by table tree requests.now) }
{
    let mut world = World::new(alloc, tree, table)?;
    let Ok(answers) = run_told(alloc, &mut world, requests) else {
        release(world);
        return Err(OutOfMemory);
    };
    Ok(Replay { world, answers })
}

/// The table that is chosen.
pub(crate) fn read_table(alloc: Global, choice: TableChoice<'_>) -> Result<CallTable, ToolFault>
    ensures read { IfOk result (λ table. table_by (choice_of choice.entry) ≡ Ok table) }
    ensures refused { IfErr result (λ fault. fault ≢ ToolFault.OutOfMemory →
        (table_by (choice_of choice.entry) ≡ Err fault)) }
{
    let base = CallTable::of(choice.rules);
    let Some(bytes) = choice.rows else {
        return Ok(base);
    };
    match base.read_over(alloc, bytes) {
        Ok(table) => Ok(table),
        Err(TableFault::OutOfMemory) => Err(ToolFault::OutOfMemory),
        Err(fault) => Err(ToolFault::Table(fault)),
    }
}

pub(crate) fn read_tree(alloc: Global, bytes: &[u8]) -> Result<ProgramTree, ToolFault>
    ensures read { IfOk result (λ tree. as_listing (listing bytes.now) ≡ Ok tree) }
    ensures refused { IfErr result (λ fault. fault ≢ ToolFault.OutOfMemory →
        (as_listing (listing bytes.now) ≡ Err fault)) }
{
    match read_listing_slab(alloc, bytes) {
        Ok(tree) => Ok(tree),
        Err(ListingFault::OutOfMemory) => Err(ToolFault::OutOfMemory),
        Err(fault) => Err(ToolFault::Listing(fault)),
    }
}

/// The requests of a script, with the calls that there are by these rules.
pub(crate) fn read_requests(alloc: Global, rules: Rules, bytes: &[u8]) -> Result<Script, ToolFault>
    ensures read { IfOk result (λ asks. as_script (script_by rules bytes.now) ≡ Ok asks) }
    ensures refused { IfErr result (λ fault. fault ≢ ToolFault.OutOfMemory →
        (as_script (script_by rules bytes.now) ≡ Err fault)) }
{
    match read_script_by(alloc, rules, bytes) {
        Ok(requests) => Ok(requests),
        Err(ScriptFault::OutOfMemory) => Err(ToolFault::OutOfMemory),
        Err(fault) => Err(ToolFault::Script(fault)),
    }
}
