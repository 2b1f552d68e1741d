//! What the walk looks things up in: the rows of a tree, and the directories with veiled names.

ghost use Rattle.std.specs.Prelude.{◌≡◌, ◌==◌, IfOk, IfSome, Some, filter_map, map};
ghost use Rattle.std.specs.List.{list_any};
ghost use Rattle.pua_tree.specs.Tree.{Tree, WellFormed, kind_at};
ghost use Rattle.pua_policy.specs.States.{ProcessState};
ghost use Rattle.pua_objects.specs.Standing.{IsFound, IsStanding, slot_dir};

use pua_policy::{Place, Process};
use pua_tree::{FileTree, Kind, LentRow, Name, NodeId, OutOfMemory};
use std::alloc::{AllocError, Global};

/// All rows of a tree, what is of which kind in each, and the directories in which a veil is kept at
/// a name. A row is read where it lies, by its place: a look into the tree reads memory far apart.
#[derive(Drop)]
pub(crate) struct Standing<'t> {
    pub(crate) rows: Vec<LentRow<'t>>,
    pub(crate) kinds: Vec<Option<Kind>>,
    pub(crate) veiled: Vec<NodeId>,
}

impl<'t> Standing<'t> {
    /// That of a tree and of a process. The only error is that a growth was refused.
    pub(crate) fn of<T: FileTree>(
        alloc: Global,
        tree: &'t T,
        process: &Process,
    ) -> Result<Standing<'t>, OutOfMemory>
        ensures { IfOk result (λ standing. IsStanding (T.content tree.now) process.now standing) }
    {
        let rows = tree.rows(alloc)?;
        let kinds = kinds_of(alloc, tree, rows.as_slice())?;
        let places = process.places(alloc)?;
        let veiled = veiled_dirs(alloc, places.as_slice())?;
        Ok(Standing {
            rows,
            kinds,
            veiled,
        })
    }

    /// The node that has this name in a directory, if there is one, and its kind. It is looked for
    /// first in the row at this place, and in those before it of which the place of a spot can be
    /// off: as many as there are veils at names.
    pub(crate) fn found<T: FileTree>(
        &self,
        tree: &T,
        place: usize,
        dir: NodeId,
        name: &Name,
    ) -> Option<(NodeId, Option<Kind>)>
        ensures { (process : ProcessState) → IsStanding (T.content tree.now) process self.now →
            IsFound (T.content tree.now) dir name.now result }
    {
        tree.known();
        for back in 0..self.veiled.len().saturating_add(1) {
            if let Some(found) = self.at(place.saturating_sub(back), dir, name) {
                return Some(found);
            }
        }
        let node = tree.look(dir, name)?;
        Some((node, tree.kind(node)))
    }

    /// What stands in the row at this place, if it is that of this name in a directory.
    fn at(&self, place: usize, dir: NodeId, name: &Name) -> Option<(NodeId, Option<Kind>)>
        ensures { IfSome result (λ found. (t : Tree) (process : ProcessState) → WellFormed t →
            IsStanding t process self.now → IsFound t dir name.now (Some found)) }
    {
        let row = self.rows.get(place)?;
        let kind = self.kinds.get(place)?;
        if row.dir == dir && row.name == name {
            Some((row.node, *kind))
        } else {
            None
        }
    }

    /// Whether a veil may be kept at a name in this directory.
    pub(crate) fn is_veiled(&self, dir: NodeId) -> bool
        ensures { result ≡ list_any (λ other. other == dir) self.now.veiled.items }
    {
        self.veiled.contains(&dir)
    }
}

/// The kinds of what stands in rows. The only error is that a growth was refused.
fn kinds_of<T: FileTree>(
    alloc: Global,
    tree: &T,
    rows: &[LentRow<'_>],
) -> Result<Vec<Option<Kind>>, AllocError>
    ensures { IfOk result (λ kinds. kinds.items
        ≡ map (λ row. kind_at (T.content tree.now) row.node) rows.now) }
{
    rows.iter().map(|row| tree.kind(row.node)).collect(alloc)
}

/// The directories in whose names places are. The only error is that a growth was refused.
fn veiled_dirs(alloc: Global, places: &[&Place]) -> Result<Vec<NodeId>, AllocError>
    ensures { IfOk result (λ dirs. dirs.items
        ≡ filter_map slot_dir (map (λ place. place.now) places.now)) }
{
    places
        .iter()
        .filter_map(|place| slot_dir(place))
        .collect(alloc)
}

/// The directory in which a place is a name.
fn slot_dir(place: &Place) -> Option<NodeId>
    ensures { result ≡ slot_dir place.now }
{
    match place {
        Place::Slot(dir, _) => Some(*dir),
        Place::Dir(_) => None,
    }
}
