//! A tree that uses slots again: rows by their spots, and nodes in slots that are found by number.

use crate::fault::{OutOfMemory, TreeFault};
use crate::gathered::{Gathered, LineNode, MadeNode};
use crate::judgement::{self, Judged, Moving, may_add, may_cut, may_put_row, may_shift, may_tie};
use crate::list_edits::copied_target;
use crate::name::{LentName, Name};
use crate::node::{Kind, NodeId};
use crate::numbering::Numbering;
use crate::slots::Slots;
use crate::spot::Spot;
use crate::tree::{CopiedTree, FileTree, LentRow, LentSpot};
use std::alloc::Global;
use std::marker::Model;

/// A tree of files in slots. A node is found by its number, which is never given again; the slot of
/// a node that is taken away is used for the next one that is added. Looking up takes the same time
/// in small trees and in large ones, and so does each edit, but for moving a directory, which also
/// climbs from the new place to the root.
#[derive(Drop)]
pub struct SlabTree {
    slots: Slots,
    numbering: Numbering,
}

impl Model for SlabTree {
    ghost use Rattle.pua_tree.specs.Tree.{Tree, WellFormed};
    ghost use Rattle.pua_tree.specs.Slots.{AreConsistent, held_in_slots};

    ghost Value = { Tree };

    ghost view = { λ a. held_in_slots a.slots a.numbering };

    ghost invariant = { λ a. WellFormed (held_in_slots a.slots a.numbering) × AreConsistent a.slots };
}

impl FileTree for SlabTree {
    ghost content = { λ t. t };

    fn known(&self) {
        // The prover knows the invariant of a value that is read.
        let _slots = &self.slots;
    }

    fn kind(&self, id: NodeId) -> Option<Kind> {
        self.kind_of(id)
    }

    fn look(&self, dir: NodeId, name: &Name) -> Option<NodeId> {
        self.slots.row(dir, name.bytes())
    }

    fn find(&self, dir: NodeId, bytes: &[u8]) -> Option<(NodeId, Kind)> {
        match self.slots.found(dir, bytes) {
            Some(row) => Some((row.node, row.kind)),
            None => None,
        }
    }

    fn find_named(&self, dir: NodeId, name: LentName<'_>) -> Option<(NodeId, Kind)> {
        self.find(dir, name.bytes)
    }

    fn parent(&self, dir: NodeId) -> Option<NodeId> {
        judgement::parent(self, dir)
    }

    fn spot_of(&self, dir: NodeId) -> Option<LentSpot<'_>> {
        self.dir_spot(dir)
    }

    fn is_within(&self, dir: NodeId, outer: NodeId) -> bool {
        judgement::is_within(self, dir, outer)
    }

    fn target(&self, id: NodeId) -> Option<&[u8]> {
        self.slots.target(id)
    }

    fn is_empty(&self, dir: NodeId) -> bool {
        self.is_bare(dir)
    }

    fn is_mount(&self, dir: NodeId) -> bool {
        self.has_mount(dir)
    }

    fn device(&self, dir: NodeId) -> NodeId {
        judgement::device(self, dir)
    }

    fn most_names(&self) -> u32 {
        self.numbering.room
    }

    fn row_count(&self) -> usize {
        self.slots.row_count()
    }

    fn names(&self, alloc: Global) -> Result<Vec<Name>, TreeFault> {
        Ok(self.slots.names(alloc)?)
    }

    fn rows(&self, alloc: Global) -> Result<Vec<LentRow<'_>>, OutOfMemory> {
        Ok(self.slots.lent_rows(alloc)?)
    }

    fn add(
        &mut self,
        dir: NodeId,
        name: Name,
        kind: Kind,
        target: Option<&[u8]>,
    ) -> Result<NodeId, TreeFault> {
        let above = self.slots.dir_slot(dir);
        let place = self.slots.place(name.bytes());
        let there = self.slots.row_at_place(dir, place);
        may_add(self, dir, &name, above.is_some(), there)?;
        let alloc = self.slots.allocator();
        let target = copied_target(alloc, target)?;
        let number = self.numbering.next;
        let node = NodeId::new(number);
        let made = Some(MadeNode {
            kind,
            target,
            mount: false,
        });
        let stands = LineNode { number, node, made };
        self.slots
            .put_entry(above, None, place, dir, &name, stands)?;
        self.numbering.next = number + 1;
        Ok(node)
    }

    fn tie(&mut self, dir: NodeId, name: Name, node: NodeId) -> Result<(), TreeFault> {
        may_tie(self, dir, &name, node)?;
        self.slots.reserve_row()?;
        self.slots.put_row(dir, &name, None, node);
        Ok(())
    }

    fn cut(&mut self, dir: NodeId, name: &Name) -> Result<NodeId, TreeFault> {
        let (place, row) = self.placed(dir, name);
        let node = may_cut(self, dir, name, row)?;
        let names = self.slots.take_row(dir, name, place, node);
        self.slots.drop_unnamed(node, names);
        Ok(node)
    }

    fn shift(
        &mut self,
        from: NodeId,
        name: &Name,
        to: NodeId,
        new_name: Name,
    ) -> Result<(), TreeFault> {
        let (place, row) = self.placed(from, name);
        let (new_place, there) = self.placed(to, &new_name);
        let Some(moving) = may_shift(self, from, name, to, &new_name, row, there)? else {
            return Ok(());
        };
        let places = (place, new_place);
        let Moving { node, displaced } = moving;
        self.slots.reserve_row()?;
        match displaced {
            Some(displaced) => {
                let names = self.slots.take_row(to, &new_name, new_place, displaced);
                self.slots.move_row(from, name, to, &new_name, places, node);
                self.slots.drop_unnamed(displaced, names);
            }
            None => self.slots.move_row(from, name, to, &new_name, places, node),
        }
        Ok(())
    }
}

impl CopiedTree for SlabTree {
    fn copy(&self) -> Result<SlabTree, OutOfMemory> {
        let slots = self.slots.copy()?;
        Ok(SlabTree {
            slots,
            numbering: self.numbering,
        })
    }
}

impl Gathered for SlabTree {
    fn root_alone(alloc: Global, rows: usize, room: u32) -> Result<SlabTree, OutOfMemory> {
        let slots = Slots::root_alone(alloc, rows)?;
        let numbering = Numbering { next: 1, room };
        Ok(SlabTree { slots, numbering })
    }

    fn row_at(&self, spot: &Spot) -> Option<NodeId> {
        self.node_at(spot)
    }

    fn put(&mut self, spot: &Spot, stands: LineNode) -> Result<bool, OutOfMemory> {
        let above = self.slots.dir_slot(spot.dir);
        let other = self.slots.other_slot(&stands);
        let place = self.slots.place(spot.name.bytes());
        let there = self.slots.row_at_place(spot.dir, place);
        let number = stands.number;
        if above.is_none() || !stands.may_stand(other) || !may_put_row(self, spot, there, number) {
            return Ok(false);
        }
        self.slots
            .put_entry(above, other, place, spot.dir, &spot.name, stands)?;
        self.numbering.next = number + 1;
        Ok(true)
    }
}

impl SlabTree {
    ghost use Rattle.std.specs.Prelude.{◌≡◌};
    ghost use Rattle.pua_tree.specs.Tree.{found_at};

    /// The place of a name, and what stands in the row of this directory and name.
    #[inline(always)]
    fn placed(&self, dir: NodeId, name: &Name) -> (Option<usize>, Option<(NodeId, Kind)>)
        ensures { result.1 ≡ found_at self.now dir name.now }
    {
        let place = self.slots.place(name.bytes());
        match self.slots.found_at_place(dir, place) {
            Some(row) => (place, Some((row.node, row.kind))),
            None => (place, None),
        }
    }
}

impl Judged for SlabTree {
    ghost held = { λ t. t };

    fn is_tree(&self) {
        // The prover knows the invariant of a value that is read.
        let _slots = &self.slots;
    }

    fn kind_of(&self, id: NodeId) -> Option<Kind> {
        self.slots.kind(id)
    }

    fn node_at(&self, spot: &Spot) -> Option<NodeId> {
        self.slots.row(spot.dir, spot.name.bytes())
    }

    fn found(&self, spot: &Spot) -> Option<(NodeId, Kind)> {
        self.find(spot.dir, spot.name.bytes())
    }

    fn dir_spot(&self, dir: NodeId) -> Option<LentSpot<'_>> {
        self.is_tree();
        if dir == NodeId::ROOT {
            return None;
        }
        self.slots.spot_of(dir)
    }

    fn has_mount(&self, id: NodeId) -> bool {
        self.slots.has_mount(id)
    }

    fn is_bare(&self, dir: NodeId) -> bool {
        match self.slots.directory(dir) {
            Some(standing) => standing.rows == 0,
            None => false,
        }
    }

    fn row_count(&self) -> usize {
        self.slots.row_count()
    }

    fn node_count(&self) -> usize {
        self.slots.node_count()
    }

    fn next_number(&self) -> u32 {
        self.numbering.next
    }

    fn room(&self) -> u32 {
        self.numbering.room
    }
}
