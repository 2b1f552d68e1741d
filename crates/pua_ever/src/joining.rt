//! Several processes as one: the list for ever of this one is theirs together.

ghost use Rattle.std.specs.Prelude.{◌≡◌, map, IfOk};
ghost use Rattle.pua_ever.specs.Joints.{joint_told};
ghost use Rattle.pua_ever.specs.Together.{either_given, handed_down as handed};
ghost use Rattle.pua_ever.specs.Together.{confined_part, joined, joint_after, joint_of, with_one};

use crate::gathering::open_together;
use crate::lasting::is_promised;
use pua_calls::{Call, CallTable, Promises, Rules};
use pua_policy::Process;
use pua_tree::{NodeId, OutOfMemory};
use std::alloc::Global;

/// Some processes as one: whether all of them are locked, what any of them holds, and what any of
/// them hands down, unless one that can start a program has no execpromises.
#[derive(Clone, Copy)]
struct Joint {
    locked: bool,
    held: Promises,
    given: Option<Promises>,
}

/// Makes the process that stands for several, to be asked what they can ever touch together: it has
/// their veils and is locked, holds what any of them holds, and hands down what any of them does
/// that can start a program. It hands nothing down where one of these has no execpromises, or a
/// program could put veils. What any of them has open it has open: one file of each node, with the
/// letters of all, under the number of the node, since the descriptors of several may be the same.
/// Its root is that of the tree, so that its list is of the whole tree.
/// That the processes live, have the same veils and can put no more is for the caller to see to.
/// The only error is that a growth was refused.
pub fn join(
    alloc: Global,
    first: &Process,
    more: &[&Process],
    table: &CallTable,
) -> Result<Process, OutOfMemory>
    ensures { IfOk result (λ one. one ≡ joined table.now first.now (map
        (λ process. process.now) more.now)) }
{
    let joint = joint_after(table, Joint::of(first, table), more);
    let mut one = first.with_both(alloc, joint.held)?;
    open_together(alloc, &mut one, first, more)?;
    let given = confined_part(joint.locked, one.held(), joint.given);
    // It hands nothing down so far, so nothing refuses this.
    let _given = one.pledge(Rules::Standard, None, given);
    one.set_root(NodeId::ROOT);
    one.lock();
    Ok(one)
}

impl Joint {
    /// One process alone.
    fn of(process: &Process, table: &CallTable) -> Joint
        ensures { joint_told result ≡ joint_of table.now process.now }
    {
        Joint {
            locked: process.locked(),
            held: process.held(),
            given: handed_down(process, table),
        }
    }

    /// One process more.
    fn with(self, process: &Process, table: &CallTable) -> Joint
        ensures { joint_told result ≡ with_one table.now (joint_told self) process.now }
    {
        Joint {
            locked: self.locked && process.locked(),
            held: self.held.union(process.held()),
            given: both_given(self.given, handed_down(process, table)),
        }
    }
}

/// The same processes, and these.
fn joint_after(table: &CallTable, joint: Joint, more: &[&Process]) -> Joint
    ensures { joint_told result ≡ joint_after table.now (joint_told joint) (map
        (λ process. process.now) more.now) }
{
    let mut joint = joint;
    for process in more {
        joint = joint.with(process, table);
    }
    joint
}

/// What is handed down, if neither who holds these promises nor a program that is started can put a
/// veil.
fn confined_part(locked: bool, held: Promises, given: Option<Promises>) -> Option<Promises>
    ensures { result ≡ confined_part locked held given }
{
    match given {
        Some(given)
            if locked || !held.contains(Promises::UNVEIL) && !given.contains(Promises::UNVEIL) => {
            Some(given)
        }
        _ => None,
    }
}

/// What a process hands down to a program: nothing where it can start none, and None where it can
/// and has no execpromises.
fn handed_down(process: &Process, table: &CallTable) -> Option<Promises>
    ensures { result ≡ handed table.now process.now }
{
    if is_promised(table, process.held(), Call::Exec) {
        process.execpromises()
    } else {
        Some(Promises::NONE)
    }
}

/// What two of them hand down; None where that of one is None.
fn both_given(first: Option<Promises>, second: Option<Promises>) -> Option<Promises>
    ensures { result ≡ either_given first second }
{
    match (first, second) {
        (Some(first), Some(second)) => Some(first.union(second)),
        _ => None,
    }
}
