//! A world of processes over one tree.

use crate::act::act;
use crate::answer::Answer;
use crate::fault::WorldFault;
use crate::fork::fork;
use crate::request::{Action, Request};
use crate::script::Script;
use crate::take::{Taking, take};
use indexmap::IndexMap;
use pua_calls::CallTable;
use pua_policy::Process;
use pua_tree::{CopiedTree, FileTree, OutOfMemory};
use std::alloc::{AllocError, Global};
use std::marker::Model;

/// The number of the process that a new world has.
const FIRST_PROCESS: u32 = 1;

/// A tree, the table of what calls need, and all processes that were ever made, ended ones too. It
/// keeps no processes; contracts say for which worlds of the replay it stands.
#[derive(Drop)]
pub struct World<T: FileTree> {
    tree: T,
    table: CallTable,
    processes: IndexMap<u32, Process>,
    alloc: Global,
}

impl<T: FileTree> Model for World<T> {
    ghost use Rattle.pua_script.specs.Worlds.{WorldState};

    ghost Value = { WorldState };

    ghost view = { λ a. record
        { tree = T.content a.tree; table = a.table; processes = a.processes.entries } };
}

ghost use Rattle.std.specs.Prelude.{◌≡◌, IfOk, OnErr, MatchResult, IsFalse, option_copied};
ghost use Rattle.pua_tree.specs.Tree.{Tree, WellFormed};
ghost use Rattle.pua_calls.specs.Calls.{CallTable as Calls};
ghost use Rattle.pua_calls.specs.Tables.{NoCallNeedsError};
ghost use Rattle.pua_script.specs.Futures.{AreDone, AreDoneInPart, AreHeld, AreServedInPart, HaveTrees};
ghost use Rattle.pua_script.specs.Futures.{IsNarrowing, IsSparing};
ghost use Rattle.std.specs.Prelude.{[], ◌∷◌};
ghost use Rattle.pua_policy.specs.States.{new_process};
ghost use Rattle.pua_script.specs.Replay.{apply, new_world};
ghost use Rattle.pua_script.specs.Worlds.{AreNumbersOf, apply_to, run_to, is_of_two, process_at, with_table};
ghost use Rattle.pua_script.specs.declared.answer.Answer.TheVariants.{Okay};

impl<T: FileTree> World<T> {
    /// A world over this tree with process 1 alone, which is new. It answers calls by this table.
    /// `OutOfMemory` where a growth was refused; the tree is then given up.
    pub fn new(alloc: Global, tree: T, table: CallTable) -> Result<World<T>, OutOfMemory>
    where
        T: Drop,
        ensures { IfOk result (λ world. world ≡ with_table table (new_world (T.content tree))) }
    {
        let processes = first_process(alloc)?;
        Ok(World {
            tree,
            table,
            processes,
            alloc,
        })
    }

    /// Does nothing: its contract says that some world of the replay left what the world keeps, so
    /// that what is promised for each world it stands for is promised for one at least; and that no
    /// call needs `error` by its table.
    pub fn known(&self)
        ensures { NoCallNeedsError self.now.table }
    {
        self.table.known();
    }

    /// The table by which it answers calls, always the same.
    pub fn table(&self) -> &CallTable
        ensures { result.now ≡ self.now.table }
    {
        &self.table
    }

    /// The tree as it is now.
    pub fn tree(&self) -> &T
        ensures { T.content result.now ≡ self.now.tree }
    {
        &self.tree
    }

    /// The process of this number, also one that has ended; None where the number was never made.
    pub fn process(&self, number: u32) -> Option<&Process>
        ensures { option_copied result ≡ process_at self.now number }
    {
        self.processes.get(&number)
    }

    /// The numbers of all processes that were ever made, in ascending order. `OutOfMemory` where a
    /// growth was refused.
    pub fn numbers(&self, alloc: Global) -> Result<Vec<u32>, OutOfMemory>
        ensures { IfOk result (λ numbers. AreNumbersOf self.now numbers.items) }
    {
        Ok(sorted_keys(alloc, &self.processes)?)
    }

    /// Serves one request, and answers it, by the rules of the calls' manual pages, and by this
    /// profile's where these say nothing. A process that has ended or was never made is answered
    /// `Gone` (this profile); a request that fails changes nothing, and one that is answered
    /// `Killed` ends its process. `OutOfMemory` where a growth was refused, which only a request
    /// can meet that would be answered `Okay`; the world is then as it was.
    ///
    /// A process that is locked or doesn't hold `unveil` may over each tree do no more afterwards,
    /// whoever asks, on absolute paths, and on relative ones but for its own chdir or fchdir that
    /// succeeds: its veils stay, and it is given no promise but `error`, except by its own exec. A
    /// row that the one that asks can't touch with `c` stays, with its node and, by the state that
    /// was, its cover, if the table asks for `c` where a name is taken away.
    pub fn apply(&mut self, request: &Request) -> Result<Answer, WorldFault>
        ensures served { IfOk result (λ answer. (answer, self.new) ≡ apply_to self.old request.now) }
        ensures memory { OnErr result ((apply_to self.old request.now).0 ≡ Okay) }
        ensures unchanged { OnErr result (self.new ≡ self.old) }
        ensures narrows { IsNarrowing self.old request.now self.new }
        ensures spares { IfOk result (λ _. IsSparing self.old request.now self.new) }
        ensures tree { IfOk result (λ _. WellFormed self.new.tree) }
    {
        // What may be done afterwards follows from what `answer` says of any request, and from
        // trees before and after it. So it is a function of its own, and no case has to show it.
        self.tree.known();
        let answer = self.answer(request)?;
        self.tree.known();
        Ok(answer)
    }

    /// Serves one request, of which only the answer and the world left are said.
    fn answer(&mut self, request: &Request) -> Result<Answer, WorldFault>
        ensures served { IfOk result (λ answer. (answer, self.new) ≡ apply_to self.old request.now) }
        ensures memory { OnErr result ((apply_to self.old request.now).0 ≡ Okay) }
        ensures unchanged { OnErr result (self.new ≡ self.old) }
    {
        let number = request.process();
        let action = request.action();
        match action {
            Action::Fork(new) => fork(self.alloc, &mut self.processes, number, *new),
            Action::Take {
                number: descriptor,
                from,
                theirs,
            } => {
                let taking = Taking {
                    number: *descriptor,
                    from: *from,
                    theirs: *theirs,
                };
                take(&mut self.processes, number, taking)
            }
            _ => serve(
                &mut self.tree,
                &self.table,
                &mut self.processes,
                number,
                action,
            ),
        }
    }

    /// Serves the requests of a script in their order, and answers each. `OutOfMemory` where a
    /// growth was refused: before the first request where there is no room for the answers, and
    /// else some of the first requests were served.
    ///
    /// What is true of a single request (see [`World::apply`]) is true of those that were served
    /// together, for a process and its family: itself, and those that a member forks from then on.
    /// As long as no member's exec succeeds, each member may over each tree do no more than the
    /// process might, on absolute paths, and on relative ones as long as no member's chdir or
    /// fchdir succeeds; and where members alone ask, each row that the process couldn't touch with `c`
    /// stays, if the table asks for `c` where a name is taken away.
    pub fn run(&mut self, alloc: Global, script: &Script) -> Result<Vec<Answer>, WorldFault>
        ensures served { IfOk result (λ answers. (answers.items, self.new) ≡ run_to self.old script.now) }
        ensures held { IfOk result (λ _. AreHeld self.old script.now self.new) }
        ensures trees { IfOk result (λ _. HaveTrees self.old script.now) }
        ensures in_part { OnErr result (AreServedInPart self.old script.now self.new) }
    {
        // What is true of the requests together follows from what `serve_each` says of each. So it
        // is a function of its own, as `answer` is.
        self.serve_each(alloc, script)
    }

    /// Serves requests one after another, over trees.
    fn serve_each(&mut self, alloc: Global, script: &Script) -> Result<Vec<Answer>, WorldFault>
        ensures { MatchResult result (λ answers. AreDone self.old script.now answers.items self.new)
            (λ _. AreDoneInPart self.old script.now self.new) }
    {
        self.tree.known();
        let requests = script.requests();
        let Ok(mut answers) = Vec::with_capacity(alloc, requests.len()) else {
            return Err(WorldFault::OutOfMemory);
        };
        for request in requests {
            let answer = self.apply(request)?;
            let Ok(()) = answers.push(answer) else {
                return Err(WorldFault::OutOfMemory);
            };
        }
        Ok(answers)
    }
}

impl<T: CopiedTree> World<T> {
    /// A copy, which from then on is a world of its own. `OutOfMemory` where a growth was refused.
    pub fn copy(&self) -> Result<World<T>, OutOfMemory>
    where
        T: Drop,
        ensures { IfOk result (λ copy. copy ≡ self.now) }
    {
        let processes = self.processes.clone()?;
        let tree = self.tree.copy()?;
        Ok(World {
            tree,
            table: self.table,
            processes,
            alloc: self.alloc,
        })
    }
}

/// Process 1 alone, which is new.
fn first_process(alloc: Global) -> Result<IndexMap<u32, Process>, OutOfMemory>
    ensures { IfOk result (λ processes. processes.entries ≡ (1, new_process) ∷ []) }
{
    let process = Process::new(alloc)?;
    let mut processes = IndexMap::new(alloc);
    processes.insert(FIRST_PROCESS, process)?;
    Ok(processes)
}

/// The keys of processes, in ascending order.
fn sorted_keys(alloc: Global, processes: &IndexMap<u32, Process>) -> Result<Vec<u32>, AllocError>
    ensures { IfOk result (λ numbers. (t : Tree) (rules : Calls) →
        AreNumbersOf (record { tree = t; table = rules; processes = processes.now.entries })
        numbers.items) }
{
    let mut numbers: Vec<u32> = processes.keys().copied().collect(alloc)?;
    numbers.sort_unstable();
    Ok(numbers)
}

/// Serves a request that is about no other process. For a fork and a take nothing is done, and
/// nothing is said of the answer.
fn serve<T: FileTree>(
    tree: &mut T,
    table: &CallTable,
    processes: &mut IndexMap<u32, Process>,
    number: u32,
    action: &Action,
) -> Result<Answer, WorldFault>
    ensures served { IsFalse (is_of_two action.now) → IfOk result
        (λ answer. (answer, record { tree = T.content tree.new; processes = processes.new.entries })
        ≡ apply table.now (record { tree = T.content tree.old; processes = processes.old.entries })
        (record { process = number; action = action.now })) }
    ensures memory { IsFalse (is_of_two action.now) → OnErr result
        ((apply table.now (record { tree = T.content tree.old; processes = processes.old.entries })
        (record { process = number; action = action.now })).0 ≡ Okay) }
    ensures unchanged { OnErr result ((T.content tree.new ≡ T.content tree.old) ×
        (processes.new.entries ≡ processes.old.entries)) }
{
    match processes.get_mut(&number) {
        Some(process) if !process.ended() => act(tree, table, process, action),
        _ => Ok(Answer::Gone),
    }
}
