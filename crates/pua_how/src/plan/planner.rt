//! The state from which plans start: all that stands or could stand, what the veils leave of it,
//! and what the process needs for what it may do there.

use crate::plan::draft::is_open;
use crate::step::{At, Dir};
use pua_calls::{Call, CallTable, PairNeed, Perms, Promises};
use pua_objects::{ListItem, Subject, list_items};
use pua_path::{Last, Start};
use pua_policy::judge::cover_fault;
use pua_policy::{Cover, May, Object, Place, Process};
use pua_tree::{FileTree, Kind, Name, NodeId, OutOfMemory};
use std::alloc::{AllocError, Global};
use std::ops::Range;

/// Something that stands or could stand.
#[derive(Clone, Copy)]
pub(crate) struct Row {
    /// Its place among all rows.
    pub(crate) place: usize,
    /// How many names lead to it.
    pub(crate) depth: usize,
    /// The directory in which it is, and its name there; of the root, itself and None.
    pub(crate) dir: NodeId,
    pub(crate) name: Option<Name>,
    /// What stands there.
    pub(crate) node: Option<NodeId>,
    pub(crate) object: Object,
    /// What the veils leave of it.
    pub(crate) cover: Cover,
    /// The device of what stands there, and that of the name: of a mount point these are two.
    pub(crate) device: NodeId,
    pub(crate) over: NodeId,
}

/// A veil at a name, or at the directory that stands there.
#[derive(Clone, Copy)]
pub(crate) struct Veil {
    pub(crate) row: Row,
    pub(crate) is_at_dir: bool,
    /// What it leaves.
    pub(crate) cover: Cover,
    /// What the veils leave of the directory in which the name is.
    pub(crate) outer: Cover,
}

/// How something gets a name: by a rename, by a link, or by the call that makes it.
#[derive(Clone, Copy, PartialEq, Eq)]
pub(crate) enum By {
    Rename,
    Link,
    Call(Call),
}

/// The permissions that something takes; None where the process lacks the promises for it.
#[derive(Clone, Copy)]
pub(crate) struct Need(Option<Perms>);

/// What the plans of a process are laid by: made once, and then asked for each call on each thing.
#[derive(Drop)]
pub struct Planner<'t> {
    pub(crate) alloc: Global,
    process: &'t Process,
    table: CallTable,
    /// Each directory is followed by what is below it.
    pub(crate) rows: Vec<Row>,
    /// But for that of the root.
    pub(crate) veils: Vec<Veil>,
    /// The names that begin as new ones do.
    pub(crate) taken: Vec<Name>,
}

impl Row {
    pub(crate) fn is_dir(&self) -> bool {
        self.remover() == Call::Rmdir
    }

    /// Whether another file system is mounted there.
    pub(crate) fn is_mount(&self) -> bool {
        self.device != self.over
    }

    /// The call that removes what stands there.
    pub(crate) fn remover(&self) -> Call {
        match self.object {
            Object::Node(Kind::Dir) | Object::Removable => Call::Rmdir,
            _ => Call::Unlink,
        }
    }

    /// What is in it, in a step.
    pub(crate) fn inside(&self) -> Dir {
        Dir::Standing(self.node.unwrap_or(NodeId::ROOT))
    }

    /// Its name in a step.
    pub(crate) fn at(&self) -> At {
        match self.name {
            Some(name) => At::Name(Dir::Standing(self.dir), name),
            None => At::Directory(self.dir),
        }
    }
}

impl Need {
    /// Both.
    pub(crate) fn and(self, other: Need) -> Need {
        let both = self.0.zip(other.0);
        Need(both.map(|(perms, more)| perms.union(more)))
    }

    /// Whether it is met where something is covered so.
    pub(crate) fn is_met(&self, cover: &Cover) -> bool {
        self.0
            .is_some_and(|perms| cover_fault(*cover, perms).is_none())
    }
}

/// Whether a process has a root of its own, and works there or below it: no plan leads out of that.
fn is_closed<T: FileTree>(tree: &T, from: Start) -> bool {
    from.root != NodeId::ROOT && tree.is_within(from.dir, from.root)
}

/// The rows of items, without those of further names and those to which no plan can lead.
fn rows_of<T: FileTree>(
    alloc: Global,
    tree: &T,
    items: &[ListItem<'_>],
    is_closed: bool,
) -> Result<Vec<Row>, AllocError> {
    let mut rows = Vec::with_capacity(alloc, items.len())?;
    let mut devices = Vec::new(alloc);
    for item in items {
        let (node, dir) = match item.item.subject {
            Subject::Root => (Some(NodeId::ROOT), NodeId::ROOT),
            Subject::Others(_) => continue,
            Subject::Dir(node, dir, _) => (Some(node), dir),
            Subject::Name(dir, name) => (tree.look(dir, name), dir),
        };
        let name = item.name().copied();
        let depth = item.depth.saturating_add(usize::from(name.is_some()));
        // Those of the directories above it.
        devices.truncate(depth);
        let over = devices.last().copied().unwrap_or(NodeId::ROOT);
        let device = device_at(tree, &node, over);
        devices.push(device)?;
        if is_closed && !item.inside {
            continue;
        }
        rows.push(Row {
            place: rows.len(),
            depth,
            dir,
            name,
            node,
            object: item.item.object,
            cover: item.item.cover,
            device,
            over,
        })?;
    }
    Ok(rows)
}

/// The device of what stands at a name, by that of the name.
fn device_at<T: FileTree>(tree: &T, node: &Option<NodeId>, over: NodeId) -> NodeId {
    match node {
        Some(node) if tree.is_mount(*node) => *node,
        _ => over,
    }
}

/// The veils of a process, but for that of the root and those at what neither stands nor could.
fn veils_of(alloc: Global, rows: &[Row], process: &Process) -> Result<Vec<Veil>, OutOfMemory> {
    let kept = process.veils(alloc)?;
    let mut veils = Vec::new(alloc);
    for (place, perms) in kept.as_slice() {
        let is_at = |row: &&Row| match place {
            Place::Dir(dir) => row.node == Some(*dir) && row.name.is_some(),
            Place::Slot(dir, name) => row.dir == *dir && row.name.as_ref() == Some(name),
        };
        if let Some(row) = rows.iter().find(is_at) {
            veils.push(Veil {
                row: *row,
                is_at_dir: matches!(place, Place::Dir(_)),
                cover: Cover::Only(**perms),
                outer: find_dir(rows, row.dir).unwrap_or(row).cover,
            })?;
        }
    }
    Ok(veils)
}

/// The row of a directory.
fn find_dir(rows: &[Row], dir: NodeId) -> Option<&Row> {
    rows.iter().find(|row| row.node == Some(dir))
}

/// The names that begin as new ones do.
fn taken_in(alloc: Global, rows: &[Row]) -> Result<Vec<Name>, AllocError> {
    let names = rows.iter().filter_map(|row| row.name);
    names
        .filter(|name| name.bytes().starts_with(b"new"))
        .collect(alloc)
}

impl<'t> Planner<'t> {
    /// Walks all that stands or could stand in a tree, by the veils of a process; below a root of
    /// its own alone, if it works there. Where tmppath opens calls, plans may have them on any path:
    /// what they come to is seen when they are served. The only error is that a growth was refused.
    pub fn new<T: FileTree>(
        alloc: Global,
        tree: &'t T,
        process: &'t Process,
        table: &CallTable,
    ) -> Result<Planner<'t>, OutOfMemory> {
        let items = list_items(alloc, tree, process)?;
        let is_closed = is_closed(tree, process.start());
        let rows = rows_of(alloc, tree, items.as_slice(), is_closed)?;
        Ok(Planner {
            alloc,
            process,
            table: table.with_tmppath(),
            veils: veils_of(alloc, rows.as_slice(), process)?,
            taken: taken_in(alloc, rows.as_slice())?,
            rows,
        })
    }

    /// The nearest directory that meets a need and is at none of the closed places, on a device if
    /// one is given: of equally near ones that of the lowest number.
    pub(crate) fn nearest(
        &self,
        closed: &[Range<usize>],
        need: &Need,
        on: &Option<NodeId>,
    ) -> Option<&Row> {
        let here = |row: &&Row| on.is_none_or(|device| row.device == device);
        let dirs = self.rows.iter().filter(|row| row.is_dir()).filter(here);
        let fitting = dirs.filter(|row| need.is_met(&row.cover) && is_open(closed, row.place));
        fitting.min_by_key(|row| (row.depth, row.node))
    }

    /// The directory in which something is.
    pub(crate) fn parent(&self, row: &Row) -> Option<&Row> {
        find_dir(self.rows.as_slice(), row.dir)
    }

    /// Whether a directory, or the name of something else, has a veil.
    pub(crate) fn is_veiled(&self, row: &Row) -> bool {
        let mut veils = self.veils.iter();
        veils.any(|veil| veil.row.place == row.place && veil.is_at_dir == row.is_dir())
    }

    /// Whether what has a name comes under other veils with the directory in which the name is.
    pub(crate) fn goes_along(&self, row: &Row) -> bool {
        let kept = self.process.kept(&Place::Dir(row.dir));
        row.dir != NodeId::ROOT && kept.is_none() && !self.is_veiled(row)
    }

    /// The places of something and of all that is below it.
    pub(crate) fn extent(&self, row: &Row) -> Range<usize> {
        let first = row.place.saturating_add(1);
        let behind = self.rows_at(first..self.rows.len()).iter();
        let below = behind.take_while(|other| other.depth > row.depth);
        row.place..first.saturating_add(below.count())
    }

    /// The rows at these places.
    pub(crate) fn rows_at(&self, places: Range<usize>) -> &[Row] {
        self.rows.get(places).unwrap_or(&[])
    }

    /// These permissions, with one of these sets of promises.
    fn need(&self, alternatives: &[Promises], perms: Perms) -> Need {
        let may = self.process.may_any(alternatives);
        Need((may == May::Yes).then_some(perms))
    }

    /// What a call needs on what it is on.
    pub(crate) fn call(&self, call: Call) -> Need {
        self.need(self.table.alternatives(call), self.table.perms(call))
    }

    /// What is needed of the old name of two, with what is promised for both.
    fn old_name(&self, pair: &PairNeed) -> Need {
        let (old, new) = (pair.old_name(), pair.new_name());
        let need = self.need(old.alternatives(), old.perms());
        need.and(self.need(new.alternatives(), Perms::NONE))
    }

    /// What is needed of something that gets a further name: not of a link, where that is followed.
    pub(crate) fn gives(&self, by: By, is_link: bool) -> Need {
        let link = self.table.link();
        match by {
            By::Rename => self.old_name(self.table.rename()),
            By::Link if is_link && link.old_name().last() == Last::Followed => Need(None),
            By::Link => self.old_name(link),
            By::Call(_) => Need(None),
        }
    }

    /// What is needed where something gets a name.
    pub(crate) fn takes(&self, by: By) -> Need {
        match by {
            By::Rename => Need(Some(self.table.rename().new_name().perms())),
            By::Link => Need(Some(self.table.link().new_name().perms())),
            By::Call(call) => self.call(call),
        }
    }
}
