//! How a process makes another one.

ghost use Rattle.std.specs.Prelude.{◌≡◌, ◌||◌, IfOk, OnErr, is_some, length, nat_eq, nat_le};
ghost use Rattle.std.specs.Map.{lookup};
ghost use Rattle.pua_tree.specs.Tree.{Tree};
ghost use Rattle.pua_calls.specs.Calls.{CallTable};
ghost use Rattle.pua_script.specs.Limits.{most_processes};
ghost use Rattle.pua_script.specs.Replay.{apply};
ghost use Rattle.pua_script.specs.declared.answer.Answer.TheVariants.{Okay};
ghost use Rattle.pua_script.specs.declared.request.Action.TheVariants as actions;

use crate::answer::Answer;
use crate::fault::WorldFault;
use crate::limits::MOST_PROCESSES;
use crate::process::refuse;
use indexmap::IndexMap;
use pua_calls::Promises;
use pua_path::Errno;
use pua_policy::Process;
use pua_policy::judge::promised;
use std::alloc::Global;

/// Serves a fork: the new process is a copy of the one that asks. A refused growth leaves all
/// processes as they were.
pub(crate) fn fork(
    alloc: Global,
    processes: &mut IndexMap<u32, Process>,
    number: u32,
    new: u32,
) -> Result<Answer, WorldFault>
    ensures served { IfOk result (λ answer. (t : Tree) (table : CallTable) →
        (answer, record { tree = t; processes = processes.new.entries })
        ≡ apply table (record { tree = t; processes = processes.old.entries })
        (record { process = number; action = actions.Fork new })) }
    ensures memory { OnErr result ((t : Tree) (table : CallTable) →
        (apply table (record { tree = t; processes = processes.old.entries })
        (record { process = number; action = actions.Fork new })).0 ≡ Okay) }
    ensures unchanged { OnErr result (processes.new.entries ≡ processes.old.entries) }
{
    let is_refused = is_refused(processes, new);
    let Some(process) = processes.get_mut(&number) else {
        return Ok(Answer::Gone);
    };
    if process.ended() {
        return Ok(Answer::Gone);
    }
    match promised(process, Promises::PROC) {
        Ok(()) => {}
        Err(refusal) => return Ok(refuse(process, refusal)),
    }
    if is_refused {
        return Ok(Answer::Failed(Errno::EAGAIN));
    }
    let Ok(copy) = process.fork(alloc) else {
        return Err(WorldFault::OutOfMemory);
    };
    let Ok(_) = processes.insert(new, copy) else {
        return Err(WorldFault::OutOfMemory);
    };
    Ok(Answer::Okay)
}

/// Whether no process may be made with this number: one was made with it before, or no more
/// are made.
fn is_refused(processes: &IndexMap<u32, Process>, new: u32) -> bool
    ensures { result ≡ (is_some (lookup (nat_eq new) processes.now.entries)
        || nat_le most_processes (length processes.now.entries)) }
{
    processes.contains_key(&new) || processes.len() >= MOST_PROCESSES
}
