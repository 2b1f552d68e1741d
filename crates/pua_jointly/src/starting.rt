//! Whether one of several processes can ever start a program, and what it starts.

ghost use Rattle.std.specs.Prelude.{◌≡◌, List, IfOk};
ghost use Rattle.std.specs.Bool.{Decides};
ghost use Rattle.std.specs.List.{Contains};
ghost use Rattle.pua_tree.specs.Tree.{Tree};
ghost use Rattle.pua_policy.specs.States.{ProcessState};
ghost use Rattle.pua_jointly.specs.JointCalls.{IsOf};
ghost use Rattle.pua_jointly.specs.JointFound.{AreFacts};
ghost use Rattle.pua_jointly.specs.JointPrograms.{HasExec, SomeStart, StartsAt, started_of};
ghost use Rattle.pua_jointly.specs.declared.crew.Entry.{Entry as Named};

use crate::agent::Agent;
use crate::crew::Entry;
use crate::facts::Facts;
use crate::joint_list::agent_of;
use pua_calls::{Call, CallTable, ExecPromises};
use pua_ever::{Made, bound};
use pua_policy::Process;
use pua_tree::OutOfMemory;
use std::alloc::Global;

/// What a process starts, where all of that is bounded: it holds what the process hands down, under
/// the same veils and the same lock. None where that isn't bounded. The only error is that a growth
/// was refused.
pub fn started(
    alloc: Global,
    process: &Process,
    table: &CallTable,
) -> Result<Option<Process>, OutOfMemory>
    ensures { IfOk result (λ program. program ≡ started_of table.now process.now) }
{
    let Some(_) = bound(process, table) else {
        return Ok(None);
    };
    let mut program = process.fork(alloc)?;
    program.exec_by(ExecPromises::Unset);
    Ok(Some(program))
}

/// Whether the list of one of several processes, of which facts are, has exec. Of another process
/// it is false. The only error is that a growth was refused.
pub(crate) fn has_exec(
    alloc: Global,
    facts: &Facts<'_>,
    process: &Process,
    table: &CallTable,
) -> Result<bool, OutOfMemory>
    ensures { IfOk result (λ has. (t : Tree) (crew : List ProcessState) →
        AreFacts t table.now crew facts.now → Contains crew process.now →
        Decides has (HasExec t table.now crew process.now)) }
{
    let Some(of) = agent_of(alloc, &facts.crew.agents, process)? else {
        return Ok(false);
    };
    Ok(facts.starts_any(of, table))
}

impl Facts<'_> {
    /// Whether the list of one of the processes has exec.
    fn starts_any(&self, of: &Agent<'_>, table: &CallTable) -> bool
        ensures { (t : Tree) (crew : List ProcessState) (a : ProcessState) →
            IsOf t table.now crew self.now a of.now →
            Decides result (HasExec t table.now crew a) }
    {
        if self.starts_among(of, table, &self.crew.entries) {
            return true;
        }
        self.calls_on_made(of, table, Made::File)
            .contains(Call::Exec)
    }

    /// Whether it has exec on what stands at one of these names.
    fn starts_among(&self, of: &Agent<'_>, table: &CallTable, entries: &[Entry<'_>]) -> bool
        ensures { (t : Tree) (crew : List ProcessState) (a : ProcessState) →
            IsOf t table.now crew self.now a of.now →
            ((entry : Named) → Contains entries.now entry →
            Contains self.now.crew.entries.items entry) →
            Decides result (SomeStart t table.now crew a entries.now) }
    {
        for entry in entries {
            if self.starts_at(of, table, entry) {
                return true;
            }
        }
        false
    }

    /// Whether it has exec on what stands at a name.
    fn starts_at(&self, of: &Agent<'_>, table: &CallTable, entry: &Entry<'_>) -> bool
        ensures { (t : Tree) (crew : List ProcessState) (a : ProcessState) →
            IsOf t table.now crew self.now a of.now →
            Contains self.now.crew.entries.items entry.now →
            Decides result (StartsAt t table.now crew a entry.now) }
    {
        if entry.is_dir() {
            return false;
        }
        self.calls_on_entry(of, table, entry).contains(Call::Exec)
    }
}
