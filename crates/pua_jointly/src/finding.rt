//! The facts of a crew.

ghost use Rattle.std.specs.Prelude.{◌≡◌, ◌+◌, ◌==◌, get_or, length, IfOk, IfSome, MatchResult, None, OnOk};
ghost use Rattle.std.specs.List.{AllByRecursion};
ghost use Rattle.pua_tree.specs.Tree.{is_dir as lives_as_dir};
ghost use Rattle.pua_jointly.specs.JointFound.{AreFacts};
ghost use Rattle.pua_jointly.specs.JointMembers.{states};
ghost use Rattle.pua_jointly.specs.JointRounds.{is_full};
ghost use Rattle.pua_jointly.specs.JointSetup.{AreStanding};
ghost use Rattle.pua_jointly.specs.JointRefusals.{IsLasting, first_refusal, first_refused_in};

use crate::closing::{Steps, close};
use crate::crew::Crew;
use crate::facts::Facts;
use crate::fault::FactsFault;
use crate::marks::is_marked;
use crate::rounds::GOES;
use crate::setup::work_out;
use crate::shape::{Part, Row};
use crate::words::has;
use pua_calls::CallTable;
use pua_ever::{EverRefusal, why_refused};
use pua_policy::Process;
use pua_tree::{FileTree, Kind, NodeId, OutOfMemory};
use std::alloc::{AllocError, Global};
use std::marker::Model;

/// Finds the facts of several processes in a tree, by a table of what calls need: all that they can
/// come to do by doing of their own, all of them together, if no exec of theirs lets them do more,
/// where their requests go by a table of which this is the `with_tmppath`.
/// `list_jointly` lists by them what one of the processes can ever touch. Of equal processes there
/// is one. Where `why_refused` has a reason for one of them, the fault is that of the first, with
/// its place. Else each of them can put no veil any more or has ended, and the only fault is
/// `OutOfMemory`.
pub fn find_facts<'t, T: FileTree>(
    alloc: Global,
    tree: &'t T,
    processes: &[&'t Process],
    table: &CallTable,
) -> Result<Facts<'t>, FactsFault>
    ensures facts { IfOk result (λ facts.
        AreFacts (T.content tree.now) table.now (states processes.now) facts) }
    ensures refused { MatchResult result
        (λ _. first_refusal table.now 0 (states processes.now) ≡ None)
        (λ fault. first_refusal table.now 0 (states processes.now) ≡ first_refused_in fault) }
    ensures confined { OnOk result (AllByRecursion (IsLasting table.now) (states processes.now)) }
{
    if let Some((place, refusal)) = first_refused(processes, table) {
        return Err(FactsFault::Refused(place, refusal));
    }
    match facts_of(alloc, tree, processes, table) {
        Ok(facts) => Ok(facts),
        Err(OutOfMemory) => Err(FactsFault::OutOfMemory),
    }
}

/// The first of some processes for which `why_refused` has a reason, by its place, and the reason.
fn first_refused(processes: &[&Process], table: &CallTable) -> Option<(usize, EverRefusal)>
    ensures first { result ≡ first_refusal table.now 0 (states processes.now) }
    ensures none { result ≡ None → AllByRecursion (IsLasting table.now) (states processes.now) }
{
    for (place, process) in processes.iter().enumerate() {
        if let Some(refusal) = why_refused(process, table) {
            return Some((place, refusal));
        }
    }
    None
}

/// The facts of some processes. The only error is that a growth was refused, or that the table of
/// facts would have more words than can be numbered.
pub(crate) fn facts_of<'t, T: FileTree>(
    alloc: Global,
    tree: &'t T,
    processes: &[&'t Process],
    table: &CallTable,
) -> Result<Facts<'t>, OutOfMemory>
    ensures { IfOk result (λ facts.
        AreFacts (T.content tree.now) table.now (states processes.now) facts) }
{
    let crew = work_out(alloc, tree, processes, table)?;
    let Some(rows) = row_count(&crew) else {
        return Err(OutOfMemory);
    };
    let last = crew.shape.last as usize;
    let standing = find_standing(alloc, tree, crew.shape.last)?;
    let rounds = Rounds {
        tree,
        table,
        crew: &crew,
        standing: &standing,
    };
    let names = rows.saturating_sub(crew.entries.len());
    let told = close(alloc, &rounds, rows, last + 1, names)?;
    let mut facts = Facts {
        crew,
        told,
        held: Vec::new(alloc),
        turned: Vec::new(alloc),
    };
    let (held, turned) = facts.marks(alloc, &facts.crew.entries, last + 1)?;
    facts.held = held;
    facts.turned = turned;
    Ok(facts)
}

/// How many rows the table of a crew has, if they can be numbered.
fn row_count(crew: &Crew<'_>) -> Option<usize>
    ensures { IfSome result (λ count. count ≡ (crew.now.shape.last + 1)
        + (crew.now.shape.hands + (crew.now.shape.hands + (crew.now.shape.hands
        + length crew.now.entries.items)))) }
{
    let hands = crew.shape.hands;
    let names = hands.checked_add(crew.entries.len())?;
    let drops = hands.checked_add(names)?;
    let landing = hands.checked_add(drops)?;
    landing.checked_add(crew.shape.last as usize + 1)
}

/// Which numbers up to a last one are those of directories. The only error is that a growth was
/// refused.
fn find_standing<T: FileTree>(alloc: Global, tree: &T, last: u32) -> Result<Vec<bool>, AllocError>
    ensures { IfOk result (λ standing.
        AreStanding (T.content tree.now) (last + 1) standing.items) }
{
    let mut standing = Vec::new(alloc);
    for number in 0..last as usize + 1 {
        let dir = NodeId::new(number as u32);
        standing.push(is_dir(tree, dir))?;
    }
    Ok(standing)
}

/// Whether a number is that of a directory.
fn is_dir<T: FileTree>(tree: &T, number: NodeId) -> bool
    ensures { result ≡ lives_as_dir (T.content tree.now) number }
{
    matches!(tree.kind(number), Some(Kind::Dir))
}

/// What follows from a table of facts, by what has been worked out of a crew and a tree. Contracts
/// see these and the table of calls.
#[derive(Drop)]
struct Rounds<'c, 't, T: FileTree> {
    tree: &'c T,
    table: &'c CallTable,
    crew: &'c Crew<'t>,
    /// Whether a number is that of a directory.
    standing: &'c [bool],
}

impl<'c, 't, T: FileTree> Model for Rounds<'c, 't, T> {
    ghost use Rattle.std.specs.Prelude.{◌+◌};
    ghost use Rattle.pua_jointly.specs.JointSetup.{AreStanding, IsWorkedOut, RoundsState};

    ghost Value = { RoundsState };

    ghost view = { λ a. record {
      tree = T.content a.tree.now;
      table = a.table.now;
      crew = a.crew.now;
    } };

    ghost invariant = { λ a. IsWorkedOut (T.content a.tree.now) a.table.now a.crew.now
        × AreStanding (T.content a.tree.now) (a.crew.now.shape.last + 1) a.standing.now };
}

impl<T: FileTree> Steps for Rounds<'_, '_, T> {
    ghost use Rattle.pua_jointly.specs.JointSetup.{FollowsTold};

    ghost follows = { λ rounds told at bit. FollowsTold rounds.tree rounds.table rounds.crew told
        at bit };

    ghost columns = { λ rounds. rounds.crew.columns };

    fn columns(&self) -> usize {
        self.crew.columns
    }

    fn width(&self, row: usize) -> usize {
        let crew = self.crew;
        match crew.shape.row(row) {
            Row::Dir(dir) => {
                if is_marked(self.standing, dir) || crew.watch_column(dir).is_some() {
                    crew.columns
                } else {
                    0
                }
            }
            Row::Made(_) | Row::Landing(_) => crew.columns,
            Row::Drops(_) | Row::Name(_) => crew.shape.agents + 1,
        }
    }

    fn at_once(&self, told: &[u32], at: usize) -> u32 {
        let crew = self.crew;
        let row = at / crew.columns;
        if row > crew.shape.last as usize {
            return 0;
        }
        let column = at % crew.columns;
        crew.at_once(told, crew.shape.row(row), crew.shape.part(column))
    }

    fn next(&self, told: &[u32], at: usize) -> u32 {
        let crew = self.crew;
        let row = at / crew.columns;
        let column = at % crew.columns;
        if is_full(crew.shape.row(row), crew.shape.part(column), told, at) {
            return 0;
        }
        crew.part(
            self.tree,
            told,
            row,
            crew.shape.row(row),
            crew.shape.part(column),
        )
    }
}

/// Whether a word has all facts that it can ever have: one of a name has a bit alone, and that of all
/// processes none on a directory.
fn is_full(about: Row, part: Part, told: &[u32], at: usize) -> bool
    ensures { result ≡ is_full about part (get_or told.now at 0) }
{
    match about {
        Row::Name(_) => match told.get(at) {
            Some(word) => has(*word, GOES),
            None => false,
        },
        Row::Dir(_) => match part {
            Part::Common => true,
            Part::Agent(_) | Part::Watched(_) => false,
        },
        Row::Made(_) | Row::Landing(_) | Row::Drops(_) => false,
    }
}
