//! Whose programs count where several processes act together.

ghost use Rattle.std.specs.Prelude.{◌≡◌, ◌<◌, ◌++◌, length, map, flat_map, slice_get};
ghost use Rattle.std.specs.Prelude.{List, Ok, Some, true, IfOk, IfSome, OnOk};
ghost use Rattle.std.specs.Bool.{Decides};
ghost use Rattle.std.specs.List.{AllByRecursion, Contains};
ghost use Rattle.pua_tree.specs.Tree.{Tree};
ghost use Rattle.pua_policy.specs.States.{ProcessState};
ghost use Rattle.pua_ever.specs.declared.lasting_list.ExecBound.TheVariants.{Never};
ghost use Rattle.pua_jointly.specs.JointFound.{AreFacts};
ghost use Rattle.pua_jointly.specs.JointMembers.{states};
ghost use Rattle.pua_jointly.specs.JointPrograms.{AreActing, HasExec, HasProgram, IsNextStarting};
ghost use Rattle.pua_jointly.specs.JointPrograms.{IsSilent, acting_now, acting_of, crew_by, kept_of};
ghost use Rattle.pua_jointly.specs.JointPrograms.{process_of, program_of, worse, worst};
ghost use Rattle.pua_jointly.specs.JointPrograms.{starting as then_starting};
ghost use Rattle.pua_jointly.specs.declared.counting.Actor.{Actor as One};

use crate::facts::Facts;
use crate::finding::facts_of;
use crate::starting::has_exec;
use pua_calls::CallTable;
use pua_ever::ExecBound;
use pua_policy::Process;
use pua_tree::{FileTree, OutOfMemory};
use std::alloc::{AllocError, Global};

/// One of several processes that act together.
#[derive(Clone, Copy)]
pub struct Actor<'t> {
    /// The process.
    pub process: &'t Process,
    /// What it starts, where all of that is bounded, as [`started`](crate::started) has it.
    pub started: Option<&'t Process>,
    /// What it says of execs: by `Bounded` what it starts counts too.
    pub execs: ExecBound,
}

impl<'t> Actor<'t> {
    /// What it starts, if that counts.
    pub fn program(&self) -> Option<&'t Process>
        ensures { result ≡ program_of self.now }
    {
        match self.execs {
            ExecBound::Bounded => self.started,
            ExecBound::Never | ExecBound::Open => None,
        }
    }

    /// The same, as one that can come to start a program.
    fn starting(&self) -> Actor<'t>
        ensures { result ≡ then_starting self.now }
    {
        let execs = if self.started.is_some() {
            ExecBound::Bounded
        } else {
            ExecBound::Open
        };
        Actor { execs, ..*self }
    }

    /// Whether it says that it never starts a program, and by these facts its list has exec after
    /// all. The only error is that a growth was refused.
    fn starts_after_all(
        &self,
        alloc: Global,
        facts: &Facts<'_>,
        table: &CallTable,
    ) -> Result<bool, OutOfMemory>
        ensures silent { result ≡ Ok true → self.now.execs ≡ Never }
        ensures starts { IfOk result (λ starts. (t : Tree) (crew : List ProcessState) →
            AreFacts t table.now crew facts.now → Contains crew self.now.process.now →
            Decides starts ((self.now.execs ≡ Never)
            × HasExec t table.now crew self.now.process.now)) }
    {
        match self.execs {
            ExecBound::Never => has_exec(alloc, facts, self.process, table),
            ExecBound::Bounded | ExecBound::Open => Ok(false),
        }
    }

    /// Adds by whom it acts. The only error is that a growth was refused.
    fn add_to(&self, crew: &mut Vec<&'t Process>) -> Result<(), AllocError>
        ensures { OnOk result (states crew.new.items
            ≡ states crew.old.items ++ acting_now self.now) }
    {
        let Ok(()) = crew.push(self.process) else {
            return Err(AllocError);
        };
        let Some(program) = self.program() else {
            return Ok(());
        };
        let Ok(()) = crew.push(program) else {
            return Err(AllocError);
        };
        Ok(())
    }
}

/// Several processes that act together, with what each says of execs, and their facts.
#[derive(Drop)]
pub struct Counted<'t> {
    /// The processes.
    pub actors: Vec<Actor<'t>>,
    /// The facts of them, and of what they start where that counts.
    pub facts: Facts<'t>,
}

/// Finds what several processes say of execs, and with it the facts of them all, in a tree, by a
/// table of what calls need: what a process starts counts where all of that is bounded, and the
/// process's list has exec. So far each of them says `Never`. Of equal processes there is one.
/// Whether a list of theirs holds for ever is not asked: that is said by `why_refused` of each. The
/// only error is that a growth was refused, or that the table of facts would have more words than
/// can be numbered.
pub fn find_counted<'t, T: FileTree>(
    alloc: Global,
    tree: &'t T,
    actors: &[Actor<'t>],
    table: &CallTable,
) -> Result<Counted<'t>, OutOfMemory>
    ensures acting { IfOk result (λ found. AllByRecursion (IsSilent table.now) actors.now →
        AreActing (T.content tree.now) table.now (map process_of actors.now)
        (map acting_of found.actors.items)) }
    ensures facts { IfOk result (λ found. AllByRecursion (IsSilent table.now) actors.now →
        AreFacts (T.content tree.now) table.now
        (crew_by table.now (map acting_of found.actors.items)) found.facts) }
    ensures programs { IfOk result (λ found. AllByRecursion (IsSilent table.now) actors.now →
        AllByRecursion (HasProgram table.now) found.actors.items) }
    ensures kept { IfOk result (λ found.
        map kept_of found.actors.items ≡ map kept_of actors.now) }
{
    let mut told = Vec::from_slice(alloc, actors)?;
    let mut facts = facts_by(alloc, tree, &told, table)?;
    while let Some(at) = next_starting(alloc, &facts, &told, table)? {
        told[at] = told[at].starting();
        facts = facts_by(alloc, tree, &told, table)?;
    }
    Ok(Counted {
        actors: told,
        facts,
    })
}

/// What these say of execs together: `Open` if one does, or else `Bounded` if one does.
pub fn worst(actors: &[Actor<'_>]) -> ExecBound
    ensures { result ≡ worst (map acting_of actors.now) }
{
    let mut all = ExecBound::Never;
    for actor in actors {
        all = worse(all, actor.execs);
    }
    all
}

/// What two say of execs together.
fn worse(first: ExecBound, other: ExecBound) -> ExecBound
    ensures { result ≡ worse first other }
{
    match (first, other) {
        (ExecBound::Never, more) => more,
        (ExecBound::Bounded, ExecBound::Never | ExecBound::Bounded) => ExecBound::Bounded,
        (ExecBound::Bounded, ExecBound::Open) | (ExecBound::Open, _) => ExecBound::Open,
    }
}

/// The facts of these processes, and of what they start where that counts. The only error is that a
/// growth was refused, or that the table of facts would have more words than can be numbered.
fn facts_by<'t, T: FileTree>(
    alloc: Global,
    tree: &'t T,
    actors: &[Actor<'t>],
    table: &CallTable,
) -> Result<Facts<'t>, OutOfMemory>
    ensures { IfOk result (λ facts. AllByRecursion (HasProgram table.now) actors.now →
        AreFacts (T.content tree.now) table.now (crew_by table.now (map acting_of actors.now))
        facts) }
{
    let crew = crew_of(alloc, actors)?;
    facts_of(alloc, tree, &crew, table)
}

/// By whom these act. The only error is that a growth was refused.
fn crew_of<'t>(alloc: Global, actors: &[Actor<'t>]) -> Result<Vec<&'t Process>, AllocError>
    ensures { IfOk result (λ crew. states crew.items ≡ flat_map acting_now actors.now) }
{
    let mut crew = Vec::new(alloc);
    for actor in actors {
        actor.add_to(&mut crew)?;
    }
    Ok(crew)
}

/// The place of the first one that says that it never starts a program, and whose list has exec;
/// None where there is none. The only error is that a growth was refused.
fn next_starting(
    alloc: Global,
    facts: &Facts<'_>,
    actors: &[Actor<'_>],
    table: &CallTable,
) -> Result<Option<usize>, OutOfMemory>
    ensures within { IfOk result (λ at. IfSome at (λ at. at < length actors.now)) }
    ensures silent { IfOk result (λ at. IfSome at (λ at. (one : One) →
        slice_get actors.now at ≡ Some one → one.execs ≡ Never)) }
    ensures next { IfOk result (λ at. (t : Tree) (crew : List ProcessState) →
        AreFacts t table.now crew facts.now →
        AllByRecursion (λ actor. Contains crew (process_of actor)) actors.now →
        IsNextStarting t table.now crew (map acting_of actors.now) at) }
{
    for (at, actor) in actors.iter().enumerate() {
        if actor.starts_after_all(alloc, facts, table)? {
            return Ok(Some(at));
        }
    }
    Ok(None)
}
