//! What a process is allowed, worked out once.

ghost use Rattle.std.specs.Prelude.{◌≡◌, ◌<◌, ℕ, slice_index};
ghost use Rattle.pua_tree.specs.Tree.{Tree};
ghost use Rattle.pua_calls.specs.Calls.{CallTable as Table};
ghost use Rattle.pua_calls.specs.CallSets.{has};
ghost use Rattle.pua_calls.specs.Promises.{holds};
ghost use Rattle.pua_policy.specs.AllowedCalls.{AreWorkedOut, IsWithin, place_of_object};
ghost use Rattle.pua_policy.specs.States.{ProcessState};
ghost use Rattle.pua_policy.specs.Objects.{object_seen};
ghost use Rattle.pua_policy.specs.Verdict.{covered_verdict, is_allowed};
ghost use Rattle.pua_policy.specs.Verdict.{Object as Judged};

use crate::answer::Cover;
use crate::judge::allowed;
use crate::object::Object;
use crate::process::Process;
use pua_calls::{Call, CallTable, Calls, Perms};
use pua_tree::{FileType, Kind};

/// How many objects there are: the kinds of nodes, an empty directory, and a name where nothing
/// stands.
const OBJECTS: usize = Kind::COUNT + 2;

/// How many sets of permissions there are.
const PERM_SETS: usize = 16;

/// What a process may do by a table, worked out once for all objects, as sets of calls: those that
/// are allowed on each kind of object where everything is in view, and those that each set of
/// permissions leaves. What becomes of the process later changes nothing.
#[derive(Clone, Copy)]
pub struct AllowedCalls {
    in_view: [Calls; OBJECTS],
    within: [Calls; PERM_SETS],
}

impl AllowedCalls {
    /// Works it out for a process and a table. Takes no memory.
    pub fn new(process: &Process, table: &CallTable) -> AllowedCalls
        ensures { AreWorkedOut process.now table.now result }
    {
        AllowedCalls {
            in_view: [
                allowed(process, table, Cover::All, Object::Node(Kind::Dir)),
                allowed(process, table, Cover::All, Object::Node(Kind::File)),
                allowed(process, table, Cover::All, Object::Node(Kind::Prog)),
                allowed(process, table, Cover::All, Object::Node(Kind::Link)),
                allowed(
                    process,
                    table,
                    Cover::All,
                    Object::Node(Kind::Known(FileType::Plain)),
                ),
                allowed(
                    process,
                    table,
                    Cover::All,
                    Object::Node(Kind::Known(FileType::Sock)),
                ),
                allowed(
                    process,
                    table,
                    Cover::All,
                    Object::Node(Kind::Known(FileType::Fifo)),
                ),
                allowed(
                    process,
                    table,
                    Cover::All,
                    Object::Node(Kind::Known(FileType::Dev)),
                ),
                allowed(process, table, Cover::All, Object::Removable),
                allowed(process, table, Cover::All, Object::Missing),
            ],
            within: all_within(table),
        }
    }

    /// The calls that are allowed on an object that has this cover, as `judge::allowed` answers
    /// them.
    pub fn on(&self, cover: Cover, object: Object) -> Calls
        ensures { (process : ProcessState) (table : Table) (t : Tree) (judged : Judged) →
            AreWorkedOut process table self.now →
            object ≡ object_seen t judged → (call : Call) →
            has result call ≡ is_allowed (covered_verdict t table process call cover judged) }
    {
        let calls = self.in_view[place(object)];
        match cover {
            Cover::All => calls,
            Cover::Nothing => Calls::NONE,
            Cover::Only(perms) => calls.intersection(self.within[perms.bits() as usize]),
        }
    }
}

/// Where the calls on an object stand.
fn place(object: Object) -> usize
    ensures place { result ≡ place_of_object object }
    ensures low { result < OBJECTS }
{
    match object {
        Object::Node(kind) => kind.number(),
        Object::Removable => Kind::COUNT,
        Object::Missing => Kind::COUNT + 1,
    }
}

/// For each set of permissions the calls that need no others.
fn all_within(table: &CallTable) -> [Calls; PERM_SETS]
    ensures { (perms : ℕ) → perms < 16 → IsWithin table.now perms (slice_index result perms) }
{
    let mut within = [Calls::NONE; PERM_SETS];
    for perms in 0..PERM_SETS {
        within[perms] = calls_within(table, perms as u8);
    }
    within
}

/// The calls that need no other permissions than these.
fn calls_within(table: &CallTable, perms: u8) -> Calls
    ensures { IsWithin table.now perms result }
{
    let mut calls = Calls::NONE;
    for call in Call::ALL {
        if permits(perms, table.perms(call)) {
            calls = calls.with(call);
        }
    }
    calls
}

/// Whether each of these permissions is one of a set.
fn permits(set: u8, perms: Perms) -> bool
    ensures { result ≡ holds set perms }
{
    set & perms.bits() == perms.bits()
}
