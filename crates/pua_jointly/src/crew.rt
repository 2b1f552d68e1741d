//! What is asked of several processes and of the tree while their facts are found.

ghost use Rattle.std.specs.Prelude.{◌≡◌, ◌<◌, Some, true};
ghost use Rattle.std.specs.List.{list_any};
ghost use Rattle.pua_tree.specs.Tree.{empty_tree, is_dir_kind, spot_cmp};
ghost use Rattle.pua_calls.specs.CallSets.{has as has_call};
ghost use Rattle.pua_calls.specs.declared.call.Call.{Call as AnyCall};
ghost use Rattle.pua_policy.specs.Objects.{object_seen};
ghost use Rattle.pua_policy.specs.Verdict.{Object as Judged, covered_verdict, is_allowed};
ghost use Rattle.pua_ever.specs.EverLines.{new_of};
ghost use Rattle.pua_jointly.specs.JointCovers.{AreCallsByCover, allows_under, cover_of, numbered};
ghost use Rattle.pua_jointly.specs.JointSetting.{AreInOrder, IsEntryIn, entry_of};
ghost use Rattle.pua_jointly.specs.JointWords.{carrying as carrying_of, making as making_of};

use crate::agent::Agent;
use crate::doing::{COUNT, cover_at, first_from};
use crate::mover::Mover;
use crate::shape::Shape;
use crate::words::has;
use pua_calls::{CallTable, Calls};
use pua_ever::Made;
use pua_policy::{Cover, Object, judge};
use pua_tree::{Kind, Name, NodeId};
use std::cmp::Ordering;

impl Agent<'_> {
    /// The calls that are allowed to it on such an object under one of these covers.
    pub(crate) fn calls_under(&self, table: &CallTable, covers: u32, object: Object) -> Calls
        ensures { AreCallsByCover table.now self.now.process.now self.now.calls.items →
            (judged : Judged) → object ≡ object_seen empty_tree judged → (call : AnyCall) →
            has_call result call ≡ list_any
            (allows_under table.now self.now.process.now covers judged call) (numbered 18) }
    {
        let mut calls = Calls::NONE;
        let mut bit = first_from(covers, 0);
        while bit < COUNT {
            if has(covers, bit) {
                let more = self.calls_at(table, bit, cover_at(bit), object);
                calls = calls.union(more);
            }
            bit = first_from(covers, bit + 1);
        }
        calls
    }

    /// Those under a cover, the one of a bit.
    fn calls_at(&self, table: &CallTable, bit: u32, cover: Cover, object: Object) -> Calls
        ensures { cover ≡ cover_of bit →
            AreCallsByCover table.now self.now.process.now self.now.calls.items →
            (judged : Judged) → object ≡ object_seen empty_tree judged → (call : AnyCall) →
            has_call result call ≡ is_allowed
            (covered_verdict empty_tree table.now self.now.process.now call (cover_of bit) judged) }
    {
        match self.calls.get(bit as usize) {
            Some(allowed) => allowed.on(object),
            None => judge::allowed(self.process, table, cover, object),
        }
    }

    /// The covers under which it can make something.
    pub(crate) fn making(&self, made: Made) -> u32
        ensures { result ≡ making_of self.now (new_of made) }
    {
        match made {
            Made::Dir | Made::Others => self.making_dirs,
            Made::File => self.making_files,
            Made::Link => self.making_links,
            Made::Sock => self.making_sockets,
            Made::Fifo => self.making_fifos,
        }
    }

    /// Those under which it can move a thing that is no directory, or give it a further name.
    pub(crate) fn carrying(&self, kind: Kind) -> u32
        ensures { result ≡ carrying_of self.now kind }
    {
        match kind {
            Kind::Link => self.carrying_links,
            Kind::Dir | Kind::File | Kind::Prog | Kind::Known(_) => self.carrying,
        }
    }
}

/// One of the processes, and what it starts, if that counts.
#[derive(Clone, Copy)]
pub(crate) struct Group<'a, 'c> {
    /// The process.
    pub(crate) own: &'a Agent<'c>,
    /// What it starts.
    pub(crate) program: Option<&'a Agent<'c>>,
}

/// A name at which something stands.
#[derive(Clone, Copy)]
pub(crate) struct Entry<'t> {
    /// Its row in the table.
    pub(crate) row: usize,
    /// The directory.
    pub(crate) dir: NodeId,
    /// The name.
    pub(crate) name: &'t Name,
    /// What stands there.
    pub(crate) node: NodeId,
    /// What that is.
    pub(crate) kind: Kind,
}

impl Entry<'_> {
    /// Whether a directory stands there.
    pub(crate) fn is_dir(&self) -> bool
        ensures { result ≡ is_dir_kind (Some self.now.kind) }
    {
        match self.kind {
            Kind::Dir => true,
            Kind::File | Kind::Prog | Kind::Link | Kind::Known(_) => false,
        }
    }

    /// Whether it is at this name.
    fn is_at(&self, dir: NodeId, name: &Name) -> bool
        ensures { result ≡ true → entry_of self.now ≡ (dir, name.now) }
    {
        match self.cmp_spot(dir, name) {
            Ordering::Equal => true,
            Ordering::Less | Ordering::Greater => false,
        }
    }

    /// How its name compares with this one: by directory and then by bytes.
    fn cmp_spot(&self, dir: NodeId, name: &Name) -> Ordering
        ensures { result ≡ spot_cmp (entry_of self.now) (dir, name.now) }
    {
        self.dir.cmp(&dir).then_with(|| self.name.cmp(name))
    }
}

/// What stands at a name, of names in order.
pub(crate) fn entry_at<'e, 't>(
    entries: &'e [Entry<'t>],
    dir: NodeId,
    name: &Name,
) -> Option<&'e Entry<'t>>
    ensures { AreInOrder entries.now → IsEntryIn entries.now (dir, name.now) result }
{
    let mut next = entries.len();
    entry_after(entries, &mut next, dir, name)
}

/// The same of names that are asked for one after another: the one after that which was found last
/// is looked at before the others are searched.
pub(crate) fn entry_after<'e, 't>(
    entries: &'e [Entry<'t>],
    next: &mut usize,
    dir: NodeId,
    name: &Name,
) -> Option<&'e Entry<'t>>
    ensures { AreInOrder entries.now → IsEntryIn entries.now (dir, name.now) result }
{
    if let Some(entry) = entries.get(*next) {
        if entry.is_at(dir, name) {
            *next = next.saturating_add(1);
            return Some(entry);
        }
    }
    let Ok(place) = entries.binary_search_by(|entry| entry.cmp_spot(dir, name)) else {
        return None;
    };
    *next = place.saturating_add(1);
    Some(&entries[place])
}

/// A name at which one of the crew has a veil, in a directory that stands.
#[derive(Clone, Copy)]
pub(crate) struct Mark<'t> {
    /// The directory.
    pub(crate) dir: NodeId,
    /// The name.
    pub(crate) name: &'t Name,
    /// The row of what stands there, if anything does.
    pub(crate) row: Option<usize>,
}

/// A watched directory.
#[derive(Clone, Copy)]
pub(crate) struct Watch {
    /// The directory.
    pub(crate) dir: NodeId,
    /// Its column in the table.
    pub(crate) column: usize,
}

/// What stands on a device, and what processes do there.
#[derive(Drop)]
pub(crate) struct Side<'t> {
    /// The device.
    pub(crate) device: NodeId,
    /// How many processes on other devices come before those on this one.
    pub(crate) first: usize,
    /// The processes on the device.
    pub(crate) movers: Vec<Mover>,
    /// The rows of its directories, and of those that each process makes there.
    pub(crate) seats: Vec<usize>,
    /// The names with veils.
    pub(crate) marks: Vec<Mark<'t>>,
    /// The watched directories.
    pub(crate) watches: Vec<Watch>,
}

/// What the facts of a crew are found by.
#[derive(Drop)]
pub(crate) struct Crew<'t> {
    /// How much the table is of.
    pub(crate) shape: Shape,
    /// How many words a row has.
    pub(crate) columns: usize,
    /// The processes.
    pub(crate) agents: Vec<Agent<'t>>,
    /// The devices.
    pub(crate) sides: Vec<Side<'t>>,
    /// The device of each directory, by its number.
    pub(crate) devices: Vec<NodeId>,
    /// The names at which something stands.
    pub(crate) entries: Vec<Entry<'t>>,
    /// The watched directories.
    pub(crate) watches: Vec<Watch>,
    /// The column of each directory that is watched, by its number.
    pub(crate) watch_columns: Vec<Option<usize>>,
}
