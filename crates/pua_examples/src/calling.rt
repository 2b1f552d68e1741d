//! A caller of each library, from a listing and a script to what a process can still do. The page
//! for callers, docs/CALLING.md, goes through these functions.

ghost use Rattle.std.specs.Prelude.{◌≡◌, ◌≢◌, ℕ, List, [], Some, None, Ok, Err, IfOk, IfErr};
ghost use Rattle.std.specs.Prelude.{IsTrue, IsFalse, nat_eq};
ghost use Rattle.std.specs.List.{list_any};
ghost use Rattle.pua_tree.specs.Listing.{listing};
ghost use Rattle.pua_path.specs.Fits.{FoundsFit};
ghost use Rattle.pua_path.specs.Resolution.{resolution_of_text};
ghost use Rattle.pua_calls.specs.Calls.{call_number, standard_table};
ghost use Rattle.pua_calls.specs.TmpTable.{tmp_table};
ghost use Rattle.pua_policy.specs.States.{ProcessState};
ghost use Rattle.pua_policy.specs.Verdict.{verdict_on};
ghost use Rattle.pua_script.specs.Replay.{answers_to, new_world, world_after};
ghost use Rattle.pua_script.specs.Scripts.{script};
ghost use Rattle.pua_script.specs.Worlds.{world_of};
ghost use Rattle.pua_audit.specs.Begin.{Beginning, beginning, still_to_come};
ghost use Rattle.pua_audit.specs.declared.base.Base.TheVariants.{Root};
ghost use Rattle.pua_objects.specs.Objects.{objects};
ghost use Rattle.pua_ever.specs.Laws.{NoLineHasExec};
ghost use Rattle.pua_tool.specs.ObjectTexts.{objects_text};
ghost use Rattle.pua_tool.specs.Texts.{by_standard};
ghost use Rattle.pua_examples.specs.Calling.{NeverStarts, first_fault};

use pua_audit::{Audit, AuditFault, Base};
use pua_calls::needs::ending;
use pua_calls::{Call, CallTable};
use pua_ever::{EverFault, ever_law, list_ever};
use pua_objects::{completeness_law, line_of, list_items};
use pua_path::{Counted, Ending, Errno, Found, Last, PathText, Start, resolve};
use pua_policy::judge::verdict_of;
use pua_policy::{Process, Verdict};
use pua_script::{Answer, Script, ScriptFault, World, read_script};
use pua_tool::{
    Columns, ListWords, MemorySink, Processes, TableChoice, Time, ToolFault, WriteFault, list_to,
};
use pua_tree::{FileTree, ListingFault, NodeId, OutOfMemory, SlabTree, read_listing_slab};
use std::alloc::Global;

/// The tree of a listing and the requests of a script. The error is the first fault of the listing,
/// or else that of the script; `OutOfMemory` where a growth was refused.
pub(crate) fn read(
    alloc: Global,
    tree: &[u8],
    lines: &[u8],
) -> Result<(SlabTree, Script), ToolFault>
    ensures tree { IfOk result (λ both. listing tree.now ≡ Ok both.0) }
    ensures script { IfOk result (λ both. script lines.now ≡ Ok both.1) }
    ensures refused { IfErr result (λ fault. fault ≢ ToolFault.OutOfMemory →
        first_fault (listing tree.now) (script lines.now) ≡ Some fault) }
{
    let tree = match read_listing_slab(alloc, tree) {
        Ok(tree) => tree,
        Err(ListingFault::OutOfMemory) => return Err(ToolFault::OutOfMemory),
        Err(fault) => return Err(ToolFault::Listing(fault)),
    };
    match read_script(alloc, lines) {
        Ok(script) => Ok((tree, script)),
        Err(ScriptFault::OutOfMemory) => Err(ToolFault::OutOfMemory),
        Err(fault) => Err(ToolFault::Script(fault)),
    }
}

/// What the lines of a script were answered, and the world that they left.
#[derive(Drop)]
pub(crate) struct Served {
    /// An answer for each line.
    pub(crate) answers: Vec<Answer>,
    /// The tree and the processes where the script ends.
    pub(crate) world: World<SlabTree>,
}

/// Runs a script over a tree, by the standard table of calls. The only error is that a growth was
/// refused.
pub(crate) fn replay(alloc: Global, tree: SlabTree, script: &Script) -> Result<Served, OutOfMemory>
    ensures answers { IfOk result (λ served.
        served.answers.items ≡ answers_to standard_table (new_world tree) script.now) }
    ensures world { IfOk result (λ served.
        world_of served.world ≡ world_after standard_table (new_world tree) script.now) }
    ensures table { IfOk result (λ served. served.world.table ≡ standard_table) }
{
    let mut world = World::new(alloc, tree, CallTable::standard())?;
    match world.run(alloc, script) {
        Ok(answers) => Ok(Served { answers, world }),
        Err(_) => Err(OutOfMemory),
    }
}

/// What becomes of a call that a process makes on a path: the definition's verdict, which changes
/// nothing.
pub(crate) fn ask<T: FileTree>(
    tree: &T,
    process: &Process,
    table: &CallTable,
    call: Call,
    path: &[u8],
) -> Verdict
    ensures { result ≡ verdict_on (T.content tree.now) table.now process.now call path.now }
{
    let mut probe = Counted::new(tree);
    let found = name(&mut probe, process.start(), path, ending(call), call.last());
    verdict_of(&mut probe, process, table, call, found)
}

/// What a path names from a root and a directory.
fn name<T: FileTree>(
    probe: &mut Counted<'_, T>,
    from: Start,
    path: &[u8],
    ending: Ending,
    last: Last,
) -> Result<Found, Errno>
    ensures exact { result ≡ resolution_of_text probe.old.tree from ending path.now last }
    ensures fits { FoundsFit probe.old.tree result }
    ensures tree { probe.new.tree ≡ probe.old.tree }
{
    let text = PathText::read(path, ending)?;
    resolve(probe, from, &text, last)
}

/// Whether a process is allowed a call on some path from the root, of at most so many components
/// that the tree has, or `..`. The error is that of the audit's beginning.
pub(crate) fn is_reached<T: FileTree>(
    alloc: Global,
    tree: &T,
    process: &Process,
    table: &CallTable,
    limit: u8,
    call: Call,
) -> Result<bool, AuditFault>
    ensures reached { IfOk result (λ reached. (b : Beginning)
        × (beginning (T.content tree.now) table.now process.now Root [] limit None ≡ Ok b)
        × (reached ≡ list_any (λ pair. nat_eq (call_number pair.1) (call_number call))
        (still_to_come b))) }
    ensures refused { IfErr result (λ fault. fault ≢ AuditFault.OutOfMemory → (h : ProcessState) →
        beginning (T.content tree.now) table.now h Root [] limit None ≡ Err fault) }
{
    let mut probe = Counted::new(tree);
    let mut audit = Audit::begin(
        alloc,
        &mut probe,
        process,
        table,
        Base::Root,
        &[],
        limit,
        None,
    )?;
    Ok(is_lent(&mut probe, &mut audit, call))
}

/// Whether one of the pairs that an audit has still to lend has this call.
fn is_lent<T: FileTree>(probe: &mut Counted<'_, T>, audit: &mut Audit, call: Call) -> bool
    requires { probe.old.tree ≡ audit.old.tree }
    ensures { result ≡ list_any (λ pair. nat_eq (call_number pair.1) (call_number call))
        audit.old.left }
{
    while let Some(line) = audit.next_line(probe) {
        if line.call.number() == call.number() {
            return true;
        }
    }
    false
}

/// Whether a process can touch anything at all. Where it can't, no call is allowed to it on any
/// path, however long. The only error is that a growth was refused.
#[tactic(auto, using(crate::proofs::Nowhere::nowhere))]
pub(crate) fn can_touch<T: FileTree>(
    alloc: Global,
    tree: &T,
    process: &Process,
    table: &CallTable,
) -> Result<bool, OutOfMemory>
    ensures touched { IfOk result (λ touches. IsTrue touches →
        objects (T.content tree.now) table.now process.now ≢ []) }
    ensures nowhere { IfOk result (λ touches. IsFalse touches →
        (call : Call) (text : List ℕ) →
        verdict_on (T.content tree.now) table.now process.now call text ≢ Verdict.Allowed) }
{
    completeness_law();
    tree.known();
    let items = list_items(alloc, tree, process)?;
    for item in &items {
        if !line_of(process, table, &item.item).calls.is_empty() {
            return Ok(true);
        }
    }
    Ok(false)
}

/// Whether a process that can put no veil any more, or what it forks, can ever start a program by
/// their own doing. Where not, no exec of theirs is answered ok, whatever they ask for after a
/// world of a replay with this tree and this process. The error is that of the list's beginning.
pub(crate) fn can_ever_start<T: FileTree>(
    alloc: Global,
    tree: &T,
    process: &Process,
    table: &CallTable,
) -> Result<bool, EverFault>
    ensures never { IfOk result (λ starts. IsFalse starts →
        NoLineHasExec (T.content tree.now) (tmp_table table.now) process.now) }
    ensures none { IfOk result (λ starts. IsFalse starts →
        NeverStarts (T.content tree.now) process.now table.now) }
{
    ever_law();
    table.known();
    let wide = table.with_tmppath();
    let rows = list_ever(alloc, tree, process, &wide)?;
    Ok(rows.iter().any(|row| row.line.calls.contains(Call::Exec)))
}

/// The text of `pua objects` for a process or for all, in memory with room for so many bytes. The
/// error is the first fault of the listing or the script, `NoProcess` where the process was never
/// made, `Put` where there is too little room, and `OutOfMemory`.
pub(crate) fn list(
    alloc: Global,
    tree: &[u8],
    lines: &[u8],
    processes: Processes,
    room: usize,
) -> Result<MemorySink, WriteFault>
    ensures whole { IfOk result (λ sink.
        objects_text by_standard tree.now lines.now processes ≡ Ok sink.bytes) }
    ensures refused { (fault : ToolFault) → result ≡ Err (WriteFault.NoText fault) →
        fault ≢ ToolFault.OutOfMemory →
        objects_text by_standard tree.now lines.now processes ≡ Err fault }
{
    let mut sink = MemorySink::new(alloc, room)?;
    let list = ListWords {
        whose: processes,
        span: Time::Now,
        columns: Columns::Plain,
        images: false,
        beside: None,
        below: None,
    };
    let table = TableChoice::STANDARD;
    list_to(alloc, tree, lines, table, &list, &mut sink)?;
    Ok(sink)
}
