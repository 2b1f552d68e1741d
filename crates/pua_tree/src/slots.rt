//! Rows by their spots, and nodes in slots that are used again, found by their numbers.

use crate::gathered::{LineNode, MadeNode};
use crate::name::Name;
use crate::named_rows::NamedRows;
use crate::node::{Kind, NodeId};
use crate::spot::{RowKey, RowNode};
use crate::tree::{LentRow, LentSpot};
use indexmap::IndexMap;
use slab::Slab;
use std::alloc::{AllocError, Global};
use std::collections::BTreeSet;

/// A living node, where it leads if it is a link, whether another file system is mounted there if
/// it is a directory, and how it stands in the tree.
#[derive(Drop)]
pub(crate) struct SlotNode {
    pub(crate) kind: Kind,
    pub(crate) target: Option<Vec<u8>>,
    pub(crate) mount: bool,
    pub(crate) standing: Stance,
}

impl Clone for SlotNode {
    ghost use Rattle.pua_tree.specs.Slots.{IsNodeCopy};

    ghost is_clone = { IsNodeCopy };

    fn clone(&self) -> Result<SlotNode, AllocError> {
        let target = match &self.target {
            Some(target) => Some(target.clone()?),
            None => None,
        };
        Ok(SlotNode {
            kind: self.kind,
            target,
            mount: self.mount,
            standing: self.standing,
        })
    }
}

/// How a node stands in the tree: the row to which it came last, which is that of a directory but
/// the root, how many rows a directory has, and how many names the node has.
#[derive(Clone, Copy)]
pub(crate) struct Stance {
    pub(crate) key: RowKey,
    pub(crate) rows: usize,
    pub(crate) names: usize,
}

/// Rows and nodes. A node's number is never given again; its slot is. What a change leaves is said
/// of rows and nodes that are consistent before it, as those of a `SlabTree` are, and have room for
/// what it puts. What finds no room is not put.
#[derive(Drop)]
pub(crate) struct Slots {
    pub(crate) rows: NamedRows,
    pub(crate) numbers: IndexMap<NodeId, usize>,
    pub(crate) nodes: Slab<SlotNode>,
}

ghost use Rattle.std.specs.Prelude.{ℕ, List, ◌≡◌, ◌≢◌, ◌<◌, ◌≤◌, ◌==◌, ◌^◌, Some, None, IsSome};
ghost use Rattle.std.specs.Prelude.{IfSome, IfOk, OnOk, OnErr, if◌then◌else◌, option_copied};
ghost use Rattle.std.specs.Prelude.{option_map, option_and_then, ◌+◌, length, map, not, is_some};
ghost use Rattle.std.specs.Prelude.{is_none, true, false, ◌&&◌, unwrap_or};
ghost use Rattle.std.specs.Ordering.{is_eq, nat_cmp};
ghost use Rattle.std.specs.FinMap.{put};
ghost use Rattle.std.specs.FinMap.Entries.{where_key};
ghost use Rattle.pua_tree.specs.NamedRows.{spot_at, IsPlaceOf};
ghost use Rattle.pua_tree.specs.Tree.{spot_cmp, root_alone, distinct_names, WellFormed};
ghost use Rattle.pua_tree.specs.Tree.{is_dir_kind};
ghost use Rattle.pua_tree.specs.Edits.{without_unnamed};
ghost use Rattle.pua_tree.specs.Reading.{Follows, said_node, entry_at, tree_with};
ghost use Rattle.pua_tree.specs.LentRows.{lent_entry, lent_spot};
ghost use Rattle.pua_tree.specs.Numbering.{with_next};
ghost use Rattle.pua_tree.specs.declared.numbering.Numbering.{Numbering};
ghost use Rattle.pua_tree.specs.Slots.{held_rows, held_nodes, held_in_slots, names_of, IsNew};
ghost use Rattle.pua_tree.specs.Slots.{with_made, row_in, row_at, slot_of, node_in};
ghost use Rattle.pua_tree.specs.Slots.{HasRow, MayEnter, MayMove, HasNodeRoom, AreCopied};
ghost use Rattle.pua_tree.specs.Slots.{AreConsistent, Restands, row_gained, row_lost, name_gained};
ghost use Rattle.pua_tree.specs.Slots.{name_lost, IsFiled, standing_of_dir};

impl Slots {
    /// What stands in the row of this directory and name.
    #[inline(always)]
    pub(crate) fn found(&self, dir: NodeId, name: &[u8]) -> Option<RowNode>
        ensures { result ≡ row_in self.now (dir, name.now) }
    {
        self.rows.get(dir, self.rows.place(name))
    }

    /// The node in the row of this directory and name.
    pub(crate) fn row(&self, dir: NodeId, name: &[u8]) -> Option<NodeId>
        ensures { result ≡ row_at self.now (dir, name.now) }
    {
        match self.found(dir, name) {
            Some(row) => Some(row.node),
            None => None,
        }
    }

    /// The place of a name among those that are kept.
    pub(crate) fn place(&self, name: &[u8]) -> Option<usize>
        ensures { IsPlaceOf self.now.rows.names name.now result }
    {
        self.rows.place(name)
    }

    /// What stands in the row of this directory and of the name at this place.
    #[inline(always)]
    pub(crate) fn found_at_place(&self, dir: NodeId, place: Option<usize>) -> Option<RowNode>
        ensures { (name : List ℕ) → IsPlaceOf self.now.rows.names name place →
            result ≡ row_in self.now (dir, name) }
    {
        self.rows.get(dir, place)
    }

    /// The node in the row of this directory and of the name at this place.
    pub(crate) fn row_at_place(&self, dir: NodeId, place: Option<usize>) -> Option<NodeId>
        ensures { (name : List ℕ) → IsPlaceOf self.now.rows.names name place →
            result ≡ row_at self.now (dir, name) }
    {
        match self.rows.get(dir, place) {
            Some(row) => Some(row.node),
            None => None,
        }
    }

    /// The node of this number.
    fn node(&self, id: NodeId) -> Option<&SlotNode>
        ensures { option_copied result ≡ node_in self.now id }
    {
        let slot = self.slot(id)?;
        self.nodes.get(slot)
    }

    /// What the node of this number is.
    pub(crate) fn kind(&self, id: NodeId) -> Option<Kind>
        ensures { result ≡ option_map (λ node. node.kind) (node_in self.now id) }
    {
        match self.node(id) {
            Some(node) => Some(node.kind),
            None => None,
        }
    }

    /// Where the node of this number leads, if it is a link.
    pub(crate) fn target(&self, id: NodeId) -> Option<&[u8]>
        ensures { option_copied result
            ≡ option_and_then (λ node. option_map (λ target. target.items) node.target)
            (node_in self.now id) }
    {
        match &self.node(id)?.target {
            Some(target) => Some(target.as_slice()),
            None => None,
        }
    }

    /// Whether another file system is mounted at the node of this number.
    pub(crate) fn has_mount(&self, id: NodeId) -> bool
        ensures { result
            ≡ unwrap_or (option_map (λ node. node.mount) (node_in self.now id)) false }
    {
        match self.node(id) {
            Some(node) => node.mount,
            None => false,
        }
    }

    /// How the directory of this number stands, and None for what is no living directory.
    pub(crate) fn directory(&self, id: NodeId) -> Option<&Stance>
        ensures { option_copied result ≡ option_and_then standing_of_dir (node_in self.now id) }
    {
        match self.node(id) {
            Some(node) => match node.kind {
                Kind::Dir => Some(&node.standing),
                _ => None,
            },
            None => None,
        }
    }

    /// The spot of the directory of this number as far as it came to one, and None for what is no
    /// living directory.
    pub(crate) fn spot_of(&self, id: NodeId) -> Option<LentSpot<'_>>
        ensures { option_map lent_spot result
            ≡ option_and_then (λ standing. spot_at self.now.rows.names standing.key)
            (option_and_then standing_of_dir (node_in self.now id)) }
    {
        let standing = self.directory(id)?;
        self.rows.spot(standing.key)
    }

    /// What the node in this slot is.
    fn kind_in(&self, slot: Option<usize>) -> Option<Kind>
        ensures { (node : ℕ) → slot ≡ slot_of self.now node →
            result ≡ option_map (λ node. node.kind) (node_in self.now node) }
    {
        match self.nodes.get(slot?) {
            Some(node) => Some(node.kind),
            None => None,
        }
    }

    /// Counts a further row of the directory in this slot.
    fn gain_row(&mut self, slot: Option<usize>)
        ensures rows { self.new.rows ≡ self.old.rows }
        ensures numbers { self.new.numbers ≡ self.old.numbers }
        ensures restands { (dir : ℕ) → slot ≡ slot_of self.old dir → IsFiled self.old →
            IfSome (node_in self.old dir) (λ node. node.standing.rows < 2 ^ 63) →
            Restands self.old self.new (row_gained dir) }
    {
        let Some(slot) = slot else {
            return;
        };
        if let Some(node) = self.nodes.get_mut(slot) {
            node.standing.rows = node.standing.rows.wrapping_add(1);
        }
    }

    /// Counts a row of a directory no more.
    fn lose_row(&mut self, dir: NodeId)
        ensures rows { self.new.rows ≡ self.old.rows }
        ensures restands { IsFiled self.old → Restands self.old self.new (row_lost dir) }
    {
        let Some(slot) = self.slot(dir) else {
            return;
        };
        if let Some(node) = self.nodes.get_mut(slot) {
            node.standing.rows = node.standing.rows.saturating_sub(1);
        }
    }

    /// Counts a further name of the node in this slot, which is that of this row.
    fn gain_name(&mut self, slot: Option<usize>, key: RowKey)
        ensures rows { self.new.rows ≡ self.old.rows }
        ensures restands { (node : ℕ) → slot ≡ slot_of self.old node → IsFiled self.old →
            IfSome (node_in self.old node) (λ node. node.standing.names < 2 ^ 63) →
            Restands self.old self.new (name_gained key node) }
    {
        let Some(slot) = slot else {
            return;
        };
        if let Some(node) = self.nodes.get_mut(slot) {
            node.standing.names = node.standing.names.wrapping_add(1);
            node.standing.key = key;
        }
    }

    /// Counts a name of a node no more, and answers how many are left.
    fn lose_name(&mut self, node: NodeId) -> usize
        ensures rows { self.new.rows ≡ self.old.rows }
        ensures restands { IsFiled self.old → Restands self.old self.new (name_lost node) }
        ensures left { IfSome (node_in self.new node) (λ node. result ≡ node.standing.names) }
    {
        let Some(slot) = self.slot(node) else {
            return 0;
        };
        let Some(node) = self.nodes.get_mut(slot) else {
            return 0;
        };
        node.standing.names = node.standing.names.saturating_sub(1);
        node.standing.names
    }

    /// The slot of the directory of this number, and None for what is no living directory.
    #[inline(always)]
    pub(crate) fn dir_slot(&self, id: NodeId) -> Option<usize>
        ensures slot { IsSome result → result ≡ slot_of self.now id }
        ensures dir { is_some result
            ≡ is_dir_kind (option_map (λ node. node.kind) (node_in self.now id)) }
    {
        let slot = self.slot(id)?;
        match self.nodes.get(slot)?.kind {
            Kind::Dir => Some(slot),
            _ => None,
        }
    }

    /// The slot of a node that stands in other rows, where a line gives it a further one: None for
    /// what is no living node, or a directory, and where the line makes the node.
    pub(crate) fn other_slot(&self, stands: &LineNode) -> Option<usize>
        ensures slot { IsSome result → result ≡ slot_of self.now stands.now.node }
        ensures other { is_some result ≡ (is_none stands.now.made
            && (is_some (node_in self.now stands.now.node) && not (is_dir_kind
            (option_map (λ node. node.kind) (node_in self.now stands.now.node))))) }
    {
        if stands.made.is_some() {
            return None;
        }
        let slot = self.slot(stands.node)?;
        match self.nodes.get(slot)?.kind {
            Kind::Dir => None,
            _ => Some(slot),
        }
    }

    /// The slot of the node of this number.
    pub(crate) fn slot(&self, id: NodeId) -> Option<usize>
        ensures { result ≡ slot_of self.now id }
    {
        self.numbers.get(&id).copied()
    }

    /// A copy. The only error is that a growth was refused.
    pub(crate) fn copy(&self) -> Result<Slots, AllocError>
        ensures { IfOk result (λ copy. AreCopied self.now copy) }
    {
        let rows = self.rows.copy()?;
        let numbers = self.numbers.clone()?;
        let nodes = self.nodes.clone()?;
        Ok(Slots {
            rows,
            numbers,
            nodes,
        })
    }

    /// How many rows there are.
    pub(crate) fn row_count(&self) -> usize
        ensures count { result ≡ length (held_rows self.now) }
        ensures small { result < 2 ^ 63 }
    {
        self.rows.len()
    }

    /// How many nodes there are.
    pub(crate) fn node_count(&self) -> usize
        ensures { IsFiled self.now → result ≡ length (held_nodes self.now) }
    {
        self.numbers.len()
    }

    /// Puts a row under this name, which the directory has not, where there is room for it. The
    /// place of the name may have been looked up.
    pub(crate) fn put_row(&mut self, dir: NodeId, name: &Name, place: Option<usize>, node: NodeId)
        ensures kept { 0 < self.old.rows.room →
            MayEnter self.old (dir, name.now) node → AreConsistent self.new }
        ensures rows { 0 < self.old.rows.room → held_rows self.new
            ≡ put spot_cmp (dir, name.now) node (held_rows self.old) }
        ensures nodes { MayEnter self.old (dir, name.now) node →
            held_nodes self.new ≡ held_nodes self.old }
    {
        let above = self.slot(dir);
        let slot = self.slot(node);
        self.put_row_under(above, slot, place, dir, name, node);
    }

    /// The same, where the slots of the directory and of the node have been looked up too.
    fn put_row_under(
        &mut self,
        above: Option<usize>,
        slot: Option<usize>,
        place: Option<usize>,
        dir: NodeId,
        name: &Name,
        node: NodeId,
    )
        ensures kept { above ≡ slot_of self.old dir → slot ≡ slot_of self.old node →
            0 < self.old.rows.room →
            MayEnter self.old (dir, name.now) node → AreConsistent self.new }
        ensures rows { 0 < self.old.rows.room → held_rows self.new
            ≡ put spot_cmp (dir, name.now) node (held_rows self.old) }
        ensures nodes { above ≡ slot_of self.old dir → slot ≡ slot_of self.old node →
            MayEnter self.old (dir, name.now) node →
            held_nodes self.new ≡ held_nodes self.old }
    {
        let count = self.row_count();
        prove!(count < usize::MAX);
        // A row of a node that is none may say anything.
        let kind = self.kind_in(slot).unwrap_or(Kind::File);
        if let Some(key) = self.rows.put(dir, name, place, RowNode { node, kind }) {
            self.gain_row(above);
            self.gain_name(slot, key);
        }
    }

    /// Takes away the row of this directory and name, in which this node stands, and answers how
    /// many names are left to the node.
    pub(crate) fn take_row(
        &mut self,
        dir: NodeId,
        name: &Name,
        place: Option<usize>,
        node: NodeId,
    ) -> usize
        ensures kept { HasRow self.old (dir, name.now) node → AreConsistent self.new }
        ensures rows { held_rows self.new
            ≡ where_key spot_cmp (λ spot. not (is_eq (spot_cmp (dir, name.now) spot)))
            (held_rows self.old) }
        ensures nodes { HasRow self.old (dir, name.now) node →
            held_nodes self.new ≡ held_nodes self.old }
        ensures room { self.old.rows.room ≤ self.new.rows.room }
        ensures left { HasRow self.old (dir, name.now) node →
            IfSome (node_in self.new node) (λ _. result ≡ names_of (held_rows self.new) node) }
    {
        self.rows.take(dir, name, place);
        self.lose_row(dir);
        self.lose_name(node)
    }

    /// Moves the row of this directory and name, in which this node stands, to a spot that has
    /// none, where there is room for a further row. The places of both
    /// names may have been looked up.
    pub(crate) fn move_row(
        &mut self,
        from: NodeId,
        name: &Name,
        to: NodeId,
        new_name: &Name,
        places: (Option<usize>, Option<usize>),
        node: NodeId,
    )
        ensures kept { 0 < self.old.rows.room →
            MayMove self.old (from, name.now) (to, new_name.now) node → AreConsistent self.new }
        ensures rows { 0 < self.old.rows.room → held_rows self.new ≡ put spot_cmp (
          to,
          new_name.now,
        ) node (where_key spot_cmp
            (λ spot. not (is_eq (spot_cmp (from, name.now) spot))) (held_rows self.old)) }
        ensures nodes { MayMove self.old (from, name.now) (to, new_name.now) node →
            held_nodes self.new ≡ held_nodes self.old }
    {
        let (place, new_place) = places;
        self.take_row(from, name, place, node);
        self.put_row(to, new_name, new_place, node);
    }

    /// Puts a node under a number that no node has and no row names, where there is room for it.
    /// Answers its slot.
    pub(crate) fn add_node(
        &mut self,
        id: NodeId,
        kind: Kind,
        target: Option<Vec<u8>>,
        mount: bool,
    ) -> Option<usize>
        ensures kept { HasNodeRoom self.old → AreConsistent self.old → IsNew self.old id →
            AreConsistent self.new }
        ensures rows { self.new.rows ≡ self.old.rows }
        ensures nodes { HasNodeRoom self.old → AreConsistent self.old → IsNew self.old id →
            held_nodes self.new
            ≡ put nat_cmp id (record
            { kind = kind; target = option_map (λ bytes. bytes.items) target; mount = mount })
            (held_nodes self.old) }
        ensures others { HasNodeRoom self.old → AreConsistent self.old → IsNew self.old id →
            (x : ℕ) → x ≢ id → slot_of self.new x ≡ slot_of self.old x }
        ensures slot { HasNodeRoom self.old → AreConsistent self.old → IsNew self.old id →
            result ≡ slot_of self.new id }
    {
        let nowhere = RowKey {
            dir: NodeId::ROOT,
            name: 0,
        };
        let standing = Stance {
            key: nowhere,
            rows: 0,
            names: 0,
        };
        let node = SlotNode {
            kind,
            target,
            mount,
            standing,
        };
        let Ok(slot) = self.nodes.insert(node) else {
            return None;
        };
        let _ = self.numbers.insert(id, slot);
        Some(slot)
    }

    /// Puts the node that an entry of a listing makes, if it makes one and there is room for it.
    /// Answers its slot, and this one where none is made.
    pub(crate) fn add_made(
        &mut self,
        id: NodeId,
        made: Option<MadeNode>,
        other: Option<usize>,
    ) -> Option<usize>
        ensures kept { HasNodeRoom self.old → AreConsistent self.old →
            IfSome made (λ _. IsNew self.old id) → AreConsistent self.new }
        ensures rows { self.new.rows ≡ self.old.rows }
        ensures nodes { HasNodeRoom self.old → AreConsistent self.old →
            IfSome made (λ _. IsNew self.old id) →
            held_nodes self.new ≡ with_made id (option_map said_node made)
            (held_nodes self.old) }
        ensures others { HasNodeRoom self.old → AreConsistent self.old →
            IfSome made (λ _. IsNew self.old id) →
            (x : ℕ) → IsSome (slot_of self.old x) → slot_of self.new x ≡ slot_of self.old x }
        ensures slot { HasNodeRoom self.old → AreConsistent self.old →
            IfSome made (λ _. IsNew self.old id) →
            (is_none made ≡ true → other ≡ slot_of self.old id) → result ≡ slot_of self.new id }
    {
        match made {
            Some(
                MadeNode {
                    kind,
                    target,
                    mount,
                    ..
                },
            ) => self.add_node(id, kind, target, mount),
            None => other,
        }
    }

    /// Puts what an entry of a listing says, which may follow a tree that is held: a row at this
    /// spot, and the node that the entry makes, if it makes one. The slots of the spot's directory,
    /// and of the node where none is made, have been looked up, and so may have been the place of
    /// the spot's name. The only error is that a growth was refused; the tree is then as it was.
    pub(crate) fn put_entry(
        &mut self,
        above: Option<usize>,
        other: Option<usize>,
        place: Option<usize>,
        dir: NodeId,
        name: &Name,
        stands: LineNode,
    ) -> Result<(), AllocError>
        ensures grown { above ≡ slot_of self.old dir →
            (is_none stands.made ≡ true → other ≡ slot_of self.old stands.node) →
            AreConsistent self.old → (numbering : Numbering) →
            WellFormed (held_in_slots self.old numbering) →
            let entry = entry_at dir name.now stands in
            Follows (held_in_slots self.old numbering) entry →
            OnOk result (AreConsistent self.new × (held_in_slots self.new
            (with_next numbering (stands.number + 1))
            ≡ tree_with (held_in_slots self.old numbering) entry)) }
        ensures kept { OnErr result (AreConsistent self.old → AreConsistent self.new) }
        ensures unchanged { OnErr result ((numbering : Numbering) →
            held_in_slots self.new numbering ≡ held_in_slots self.old numbering) }
    {
        self.reserve_node()?;
        let LineNode { node, made, .. } = stands;
        let slot = self.add_made(node, made, other);
        self.put_row_under(above, slot, place, dir, name, node);
        Ok(())
    }

    /// Takes the node of this number away, if there is one. Its slot is the next that is used.
    fn drop_node(&mut self, id: NodeId)
        ensures kept { AreConsistent self.old → AreConsistent self.new }
        ensures rows { self.new.rows ≡ self.old.rows }
        ensures nodes { AreConsistent self.old → held_nodes self.new
            ≡ where_key nat_cmp (λ other. not (is_eq (nat_cmp id other))) (held_nodes self.old) }
    {
        if let Some(slot) = self.numbers.swap_remove(&id) {
            self.nodes.try_remove(slot);
        }
    }

    /// Takes the node of this number away, if there is one, and this number of its names, all that
    /// it has, is none.
    pub(crate) fn drop_unnamed(&mut self, id: NodeId, names: usize)
        ensures kept { AreConsistent self.old → AreConsistent self.new }
        ensures rows { self.new.rows ≡ self.old.rows }
        ensures unnamed { AreConsistent self.old →
            IfSome (node_in self.old id) (λ _. names ≡ names_of (held_rows self.old) id) →
            (numbering : Numbering) → held_in_slots self.new numbering
            ≡ without_unnamed (held_in_slots self.old numbering) id }
    {
        if names == 0 {
            self.drop_node(id);
        }
    }

    /// Makes room for a further row. The only error is that a growth was refused.
    pub(crate) fn reserve_row(&mut self) -> Result<(), AllocError>
        ensures kept { AreConsistent self.old → AreConsistent self.new }
        ensures same { (numbering : Numbering) →
            held_in_slots self.new numbering ≡ held_in_slots self.old numbering }
        ensures room { OnOk result (0 < self.new.rows.room) }
    {
        self.rows.reserve()
    }

    /// Makes room for a further row and a further node. The only error is that a growth was
    /// refused.
    pub(crate) fn reserve_node(&mut self) -> Result<(), AllocError>
        ensures kept { AreConsistent self.old → AreConsistent self.new }
        ensures same { (numbering : Numbering) →
            held_in_slots self.new numbering ≡ held_in_slots self.old numbering }
        ensures slots { (x : ℕ) → slot_of self.new x ≡ slot_of self.old x }
        ensures row_room { OnOk result (0 < self.new.rows.room) }
        ensures node_room { OnOk result (HasNodeRoom self.new) }
    {
        self.rows.reserve()?;
        self.numbers.reserve(1)?;
        self.nodes.reserve(1)
    }

    /// The root alone, with room for so many rows, and for as many nodes. The only error is that a
    /// growth was refused.
    pub(crate) fn root_alone(alloc: Global, rows: usize) -> Result<Slots, AllocError>
        ensures kept { IfOk result AreConsistent }
        ensures root { IfOk result (λ slots. (room : ℕ) →
            held_in_slots slots (record { next = 1; room = room }) ≡ root_alone room) }
    {
        let nodes = rows.max(1);
        let mut slots = Slots {
            rows: NamedRows::with_capacity(alloc, rows)?,
            numbers: IndexMap::with_capacity(alloc, nodes)?,
            nodes: Slab::with_capacity(alloc, nodes)?,
        };
        slots.add_node(NodeId::ROOT, Kind::Dir, None, false);
        Ok(slots)
    }

    /// The allocator that rows and nodes take memory from.
    pub(crate) fn allocator(&self) -> Global {
        self.rows.allocator()
    }

    /// The names in the rows: each once, in the order of their bytes. The only error is that a
    /// growth was refused.
    #[tactic(auto, using(crate::proofs::SlotsNames::lent_names))]
    pub(crate) fn names(&self, alloc: Global) -> Result<Vec<Name>, AllocError>
        ensures { IfOk result
            (λ all. all.items ≡ distinct_names (map (λ row. row.0.1) (held_rows self.now))) }
    {
        let rows = self.lent_rows(alloc)?;
        let names = name_set(alloc, &rows)?;
        names.into_iter().copied().collect(alloc)
    }

    /// The rows as a tree lends them, in the order of their spots. The only error is that a growth
    /// was refused.
    pub(crate) fn lent_rows(&self, alloc: Global) -> Result<Vec<LentRow<'_>>, AllocError>
        ensures { IfOk result (λ rows. map lent_entry rows.items ≡ held_rows self.now) }
    {
        let mut rows = self.rows.lent(alloc)?;
        rows.sort_unstable();
        Ok(rows)
    }
}

/// The names in rows, as a set that lends them.
fn name_set<'t>(alloc: Global, rows: &[LentRow<'t>]) -> Result<BTreeSet<&'t Name>, AllocError>
    ensures { IfOk result (λ names. map (λ name. name.now) names.keys
        ≡ distinct_names (map (λ row. row.name.now) rows.now)) }
{
    let mut names = BTreeSet::new(alloc);
    for row in rows.iter().rev() {
        names.insert(row.name)?;
    }
    Ok(names)
}
