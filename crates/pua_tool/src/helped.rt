//! What a process can ever touch with the help of others, as rows.

ghost use Rattle.std.specs.Prelude.{◌≡◌, ◌∷◌, ◌++◌, [], map, IfOk, OnOk};
ghost use Rattle.pua_policy.specs.States.{is_ended};
ghost use Rattle.pua_texts.specs.Members.{named_by};
ghost use Rattle.pua_tool.specs.BesideFound.{IsFound, IsFoundWith, actor_seen, part_by, part_seen};
ghost use Rattle.pua_tool.specs.BesideFound.{silent_of};
ghost use Rattle.pua_tool.specs.BesideTexts.{states};

use crate::acting::living_of;
use pua_calls::CallTable;
use pua_ever::{EverRow, ExecBound};
use pua_jointly::{Actor, find_counted, list_jointly, started, worst};
use pua_policy::Process;
use pua_texts::Member;
use pua_tree::{FileTree, OutOfMemory};
use std::alloc::Global;

/// What a process can ever touch with the help of others, and what is said of execs.
#[derive(Drop)]
pub(crate) struct Found<'t> {
    /// What it says of execs of its own.
    pub(crate) own: ExecBound,
    /// What all of them say together.
    pub(crate) execs: ExecBound,
    /// The rows of its list.
    pub(crate) rows: Vec<EverRow<'t>>,
}

/// A process, and what it starts, where all of that is bounded.
#[derive(Drop)]
pub(crate) struct Part<'t> {
    process: &'t Process,
    started: Option<Process>,
}

/// Finds what a process can ever touch in a tree, by a table of what calls need, with the help of
/// those of these others that live. Of a process that has ended that is nothing. The only error is
/// that a growth was refused, or that the table of facts would have more words than can be
/// numbered.
pub(crate) fn find_beside<'t, T: FileTree>(
    alloc: Global,
    tree: &'t T,
    table: &CallTable,
    process: &'t Process,
    others: &[Member<'t>],
) -> Result<Found<'t>, OutOfMemory>
    ensures { IfOk result (λ found. IsFound (T.content tree.now) table.now process.now
        (named_by others.now) (is_ended process.now) found) }
{
    if process.ended() {
        return Ok(Found {
            own: ExecBound::Never,
            execs: ExecBound::Never,
            rows: Vec::new(alloc),
        });
    }
    let living = living_of(alloc, others)?;
    find_living(alloc, tree, table, process, living.as_slice())
}

/// Finds the same with the help of these, who live, as the process does.
fn find_living<'t, T: FileTree>(
    alloc: Global,
    tree: &'t T,
    table: &CallTable,
    process: &'t Process,
    living: &[Member<'t>],
) -> Result<Found<'t>, OutOfMemory>
    ensures { IfOk result (λ found. IsFoundWith (T.content tree.now) table.now process.now
        (states (named_by living.now)) found) }
{
    let parts = parts_of(alloc, process, living, table)?;
    let actors = actors_of(alloc, parts.as_slice())?;
    let counted = find_counted(alloc, tree, actors.as_slice(), table)?;
    let told = counted.actors.as_slice();
    let Some((own, _)) = told.split_first() else {
        unreachable!()
    };
    let rows = list_jointly(alloc, tree, &counted.facts, process, own.program(), table)?;
    Ok(Found {
        own: own.execs,
        execs: worst(told),
        rows,
    })
}

/// A process and these others, each with what it starts. The only error is that a growth was
/// refused.
fn parts_of<'t>(
    alloc: Global,
    process: &'t Process,
    living: &[Member<'t>],
    table: &CallTable,
) -> Result<Vec<Part<'t>>, OutOfMemory>
    ensures { IfOk result (λ parts. map part_seen parts.items ≡ part_by table.now process.now
        ∷ map (λ member. part_by table.now member.1) (named_by living.now)) }
{
    let mut parts = Vec::new(alloc);
    add_part(alloc, process, table, &mut parts)?;
    for member in living {
        add_part(alloc, member.process, table, &mut parts)?;
    }
    Ok(parts)
}

/// Adds a process, with what it starts. The only error is that a growth was refused.
fn add_part<'t>(
    alloc: Global,
    process: &'t Process,
    table: &CallTable,
    parts: &mut Vec<Part<'t>>,
) -> Result<(), OutOfMemory>
    ensures { OnOk result (map part_seen parts.new.items
        ≡ map part_seen parts.old.items ++ part_by table.now process.now ∷ []) }
{
    let program = started(alloc, process, table)?;
    let part = Part {
        process,
        started: program,
    };
    let Ok(()) = parts.push(part) else {
        return Err(OutOfMemory);
    };
    Ok(())
}

/// The same as those who act, of whom nothing is said yet. The only error is that a growth was
/// refused.
fn actors_of<'a>(alloc: Global, parts: &'a [Part<'a>]) -> Result<Vec<Actor<'a>>, OutOfMemory>
    ensures { IfOk result (λ actors. map actor_seen actors.items
        ≡ map (λ part. silent_of (part_seen part)) parts.now) }
{
    let mut actors = Vec::new(alloc);
    for part in parts {
        let actor = Actor {
            process: part.process,
            started: part.started.as_ref(),
            execs: ExecBound::Never,
        };
        let Ok(()) = actors.push(actor) else {
            return Err(OutOfMemory);
        };
    }
    Ok(actors)
}
