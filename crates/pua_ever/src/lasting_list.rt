//! The list for ever that holds longest: through execs, where all that a process starts is bounded.

ghost use Rattle.std.specs.Prelude.{◌≡◌, [], ℕ, List, None, IfErr, IfOk, MatchResult, if◌then◌else◌};
ghost use Rattle.std.specs.Prelude.{option_copied};
ghost use Rattle.std.specs.List.{AllByRecursion};
ghost use Rattle.pua_tree.specs.Tree.{Tree};
ghost use Rattle.pua_calls.specs.CallSets.{has};
ghost use Rattle.pua_policy.specs.States.{ProcessState};
ghost use Rattle.pua_ever.specs.Ever.{EverLine as Told};
ghost use Rattle.pua_ever.specs.EverList.{AreEverTold, IsMarked, IsRowOn, abouts};
ghost use Rattle.pua_ever.specs.BoundedExec.{IsBoundedExec};
ghost use Rattle.pua_ever.specs.LastingList.{IsBoundedExecOf, IsLasting};
ghost use Rattle.pua_ever.specs.Refusals.{refusal as refusal_of, refusal_in};
ghost use Rattle.pua_objects.specs.Roots.{shown_for_ever};
ghost use Rattle.pua_ever.specs.ShownForEver.{lines_shown, only_inside, shown_ever, shown_through};
ghost use Rattle.pua_ever.specs.Through.{has_exec, only_through};

use crate::fault::EverFault;
use crate::lasting::BoundedExec;
use crate::line::EverLine;
use crate::list::{EverRow, list_ever};
use pua_calls::{Call, CallTable, Calls};
use pua_objects::Shown;
use pua_policy::Process;
use pua_tree::{FileTree, OutOfMemory};
use std::alloc::{AllocError, Global};

/// What a list for ever says of execs.
#[derive(Clone, Copy, PartialEq, Eq)]
pub enum ExecBound {
    /// No line has an exec: none can ever succeed.
    Never,
    /// All that is started is bounded: the list holds through every exec.
    Bounded,
    /// Started programs aren't bounded: the list holds until a program is started.
    Open,
}

/// The list for ever that holds longest.
#[derive(Drop)]
pub struct LastingList<'t> {
    /// Its rows, of which some may have no calls.
    pub rows: Vec<EverRow<'t>>,
    /// What it says of execs.
    pub execs: ExecBound,
}

/// Lists what a process, and what it forks, can ever touch in a tree by their own doing. Where all
/// that they start is bounded, the list holds through every exec, and has what the started programs
/// can touch, too: `both` is what `bounded_exec` gave of the process by this table. Else it holds
/// until an exec of theirs succeeds. Where the paths of all of them can never leave the root of the
/// process, what is not at or below that has no calls (`Shown::for_ever`). It is complete by the
/// `with_tmppath` of the table by which the process's requests go. Where `why_refused` has a reason,
/// that is the fault. Else the only fault is that a growth was refused.
pub fn list_lasting<'t, T: FileTree>(
    alloc: Global,
    tree: &'t T,
    process: &'t Process,
    both: Option<&'t BoundedExec>,
    table: &CallTable,
) -> Result<LastingList<'t>, EverFault>
    ensures list { IfOk result (λ list.
        IsBoundedExecOf table.now process.now (option_copied both.entry) →
        IsLasting (T.content tree.now) table.now process.now list) }
    ensures refused { IsBoundedExecOf table.now process.now (option_copied both.entry) →
        MatchResult result (λ _. refusal_of table.now process.now ≡ None) (λ fault.
        refusal_of table.now process.now ≡ refusal_in fault) }
{
    let rows = rows_shown(alloc, tree, process, table)?;
    if !some_exec(rows.as_slice()) {
        return Ok(LastingList {
            rows,
            execs: ExecBound::Never,
        });
    }
    let Some(both) = both else {
        return Ok(LastingList {
            rows,
            execs: ExecBound::Open,
        });
    };
    let through = rows_through(alloc, tree, both, table)?;
    Ok(LastingList {
        rows: through,
        execs: ExecBound::Bounded,
    })
}

/// The rows of who holds both sets, with the calls that one of the two lets through, where its list
/// shows what they are about. They are refused by nothing that didn't refuse those of the process.
fn rows_through<'t, T: FileTree>(
    alloc: Global,
    tree: &'t T,
    both: &'t BoundedExec,
    table: &CallTable,
) -> Result<Vec<EverRow<'t>>, EverFault>
    ensures rows { IfOk result (λ rows. (h : ProcessState) →
        (is : IsBoundedExec table.now h both.now) →
        AreEverTold (T.content tree.now) [] rows.items (shown_through
        (T.content tree.now) table.now h is.given) []) }
    ensures items { IfOk result (λ rows. (h : ProcessState) → IsBoundedExec table.now h both.now →
        AllByRecursion (IsRowOn (T.content tree.now) h) rows.items) }
    ensures unrefused { IfErr result (λ fault. (h : ProcessState) →
        IsBoundedExec table.now h both.now →
        refusal_of table.now h ≡ None → refusal_in fault ≡ None) }
{
    let rows = list_ever(alloc, tree, &both.process, table)?;
    let Ok(through) = let_through(alloc, rows.as_slice(), both.passes) else {
        return Err(EverFault::OutOfMemory);
    };
    match shown_of(alloc, tree, &both.process, through) {
        Ok(shown) => Ok(shown),
        Err(OutOfMemory) => Err(EverFault::OutOfMemory),
    }
}

/// The rows of the list for ever of a process, without calls where it doesn't show what they are
/// about.
fn rows_shown<'t, T: FileTree>(
    alloc: Global,
    tree: &'t T,
    process: &'t Process,
    table: &CallTable,
) -> Result<Vec<EverRow<'t>>, EverFault>
    ensures rows { IfOk result (λ rows. AreEverTold (T.content tree.now) [] rows.items
        (shown_ever (T.content tree.now) table.now process.now) []) }
    ensures items { IfOk result (λ rows.
        AllByRecursion (IsRowOn (T.content tree.now) process.now) rows.items) }
    ensures refused { MatchResult result (λ _. refusal_of table.now process.now ≡ None) (λ fault.
        refusal_of table.now process.now ≡ refusal_in fault) }
{
    let rows = list_ever(alloc, tree, process, table)?;
    match shown_of(alloc, tree, process, rows) {
        Ok(shown) => Ok(shown),
        Err(OutOfMemory) => Err(EverFault::OutOfMemory),
    }
}

/// These rows of a process, without calls where its list for ever doesn't show what they are about.
/// The only error is that a growth was refused.
fn shown_of<'t, T: FileTree>(
    alloc: Global,
    tree: &T,
    process: &Process,
    rows: Vec<EverRow<'t>>,
) -> Result<Vec<EverRow<'t>>, OutOfMemory>
    ensures told { let t = T.content tree.now in IfOk result (λ shown. (lines : List Told) →
        AllByRecursion (IsRowOn t process.now) rows.entry.items →
        AreEverTold t [] rows.entry.items lines [] →
        AreEverTold t [] shown.items (lines_shown t (shown_for_ever t process.now) lines) []) }
    ensures same { IfOk result (λ shown. abouts shown.items ≡ abouts rows.entry.items) }
{
    match Shown::for_ever(alloc, tree, process)? {
        Shown::All => Ok(rows),
        Shown::Below(_) => Ok(inside_alone(alloc, rows.as_slice())?),
    }
}

/// The rows, without calls where what they are about is not at or below the root of their process.
/// The only error is that a growth was refused.
fn inside_alone<'t>(alloc: Global, rows: &[EverRow<'t>]) -> Result<Vec<EverRow<'t>>, AllocError>
    ensures told { IfOk result (λ inside. (t : Tree) (root : ℕ) (lines : List Told) →
        AllByRecursion (IsMarked t root) rows.now → AreEverTold t [] rows.now lines [] →
        AreEverTold t [] inside.items (only_inside t root lines) []) }
    ensures same { IfOk result (λ inside. abouts inside.items ≡ abouts rows.now) }
{
    let mut inside = Vec::new(alloc);
    for row in rows {
        let Ok(()) = inside.push(EverRow {
            depth: row.depth,
            name: row.name,
            about: row.about,
            line: EverLine {
                thing: row.line.thing,
                calls: calls_inside(row),
            },
            inside: row.inside,
        }) else {
            return Err(AllocError);
        };
    }
    Ok(inside)
}

/// The calls of a row, if what it is about is at or below the root of the process; else none.
fn calls_inside(row: &EverRow<'_>) -> Calls
    ensures { result ≡ (if row.now.inside then row.now.line.calls else 0) }
{
    if row.inside {
        row.line.calls
    } else {
        Calls::NONE
    }
}

/// Whether some row has an exec.
fn some_exec(rows: &[EverRow<'_>]) -> bool
    ensures { (t : Tree) (lines : List Told) → AreEverTold t [] rows.now lines [] →
        result ≡ has_exec lines }
{
    rows.iter().any(|row| row.line.calls.contains(Call::Exec))
}

/// The rows with those of their calls that are let through. The only error is that a growth was
/// refused.
fn let_through<'t>(
    alloc: Global,
    rows: &[EverRow<'t>],
    passes: Calls,
) -> Result<Vec<EverRow<'t>>, AllocError>
    ensures told { IfOk result (λ through. (t : Tree) (lines : List Told) →
        AreEverTold t [] rows.now lines [] →
        AreEverTold t [] through.items (only_through (has passes) lines) []) }
    ensures same { IfOk result (λ through. abouts through.items ≡ abouts rows.now) }
{
    let mut through = Vec::new(alloc);
    for row in rows {
        let line = row.line.let_through(passes);
        let Ok(()) = through.push(EverRow {
            depth: row.depth,
            name: row.name,
            about: row.about,
            line,
            inside: row.inside,
        }) else {
            return Err(AllocError);
        };
    }
    Ok(through)
}
