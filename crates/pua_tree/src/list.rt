//! A tree kept as a list of rows and a list of nodes, each in the order of its keys.

use crate::fault::{OutOfMemory, TreeFault};
use crate::gathered::{Gathered, LineNode, MadeNode};
use crate::judgement::{self, Judged, Moving, may_add, may_cut, may_put, may_shift, may_tie};
use crate::list_edits::{copied_target, push_made, put_row, reserve_one, take_row, take_unnamed};
use crate::name::{LentName, Name};
use crate::node::{Kind, NodeId};
use crate::numbering::Numbering;
use crate::spot::Spot;
use crate::tree::{FileTree, LentRow, LentSpot};
use std::alloc::{AllocError, Global};
use std::cmp::Ordering;
use std::collections::BTreeSet;
use std::marker::Model;

/// A node that has a name in a directory.
#[derive(Clone, Copy)]
pub(crate) struct ListRow {
    pub(crate) dir: NodeId,
    pub(crate) name: Name,
    pub(crate) node: NodeId,
}

/// A living node, where it leads if it is a link, and whether another file system is mounted there
/// if it is a directory.
#[derive(Drop)]
pub(crate) struct ListNode {
    pub(crate) id: NodeId,
    pub(crate) kind: Kind,
    pub(crate) target: Option<Vec<u8>>,
    pub(crate) mount: bool,
}

/// A tree of files in two lists: rows by directory and name, and nodes by number.
#[derive(Drop)]
pub struct ListTree {
    rows: Vec<ListRow>,
    nodes: Vec<ListNode>,
    numbering: Numbering,
}

impl Model for ListTree {
    ghost use Rattle.pua_tree.specs.Tree.{Tree, WellFormed};

    ghost Value = { Tree };

    ghost use Rattle.pua_tree.specs.ListTree.{held_tree};

    ghost view = { λ a. held_tree a.rows.items a.nodes.items a.numbering };

    ghost invariant = { λ a. WellFormed (held_tree a.rows.items a.nodes.items a.numbering) };
}

ghost use Rattle.std.specs.Prelude.{ℕ, ◌≡◌, ◌<◌, ◌≤◌, Some, None, IsTrue, IfOk, IfErr, ◌==◌};
ghost use Rattle.std.specs.Prelude.{find, length, map, option_map};
ghost use Rattle.std.specs.List.{HoldsAt, insert, list_any};
ghost use Rattle.std.specs.Ordering.{nat_cmp};
ghost use Rattle.std.specs.FinMap.{is_sorted, find as find_key, put};
ghost use Rattle.pua_tree.specs.Tree.{spot_cmp, is_dir, distinct_names};
ghost use Rattle.pua_tree.specs.LentRows.{lent_entry, lent_spot};
ghost use Rattle.pua_tree.specs.ListTree.{row_entry, node_entry, made_of_list_node, held_tree};

impl FileTree for ListTree {
    ghost content = { λ t. t };

    fn known(&self) {
        // The prover knows the invariant of a value that is read.
        let _rows = &self.rows;
    }

    fn kind(&self, id: NodeId) -> Option<Kind> {
        self.kind_of(id)
    }

    fn look(&self, dir: NodeId, name: &Name) -> Option<NodeId> {
        self.node_at(&Spot { dir, name: *name })
    }

    fn find(&self, dir: NodeId, bytes: &[u8]) -> Option<(NodeId, Kind)> {
        judgement::find(self, dir, bytes)
    }

    fn find_named(&self, dir: NodeId, name: LentName<'_>) -> Option<(NodeId, Kind)> {
        judgement::find_named(self, dir, name)
    }

    fn parent(&self, dir: NodeId) -> Option<NodeId> {
        judgement::parent(self, dir)
    }

    fn spot_of(&self, dir: NodeId) -> Option<LentSpot<'_>> {
        self.dir_spot(dir)
    }

    fn is_within(&self, dir: NodeId, outer: NodeId) -> bool {
        judgement::is_within(self, dir, outer)
    }

    fn target(&self, id: NodeId) -> Option<&[u8]> {
        match node_place(&self.nodes, id) {
            Ok(place) => match &self.nodes[place].target {
                Some(target) => Some(target.as_slice()),
                None => None,
            },
            Err(_) => None,
        }
    }

    fn is_empty(&self, dir: NodeId) -> bool {
        self.is_bare(dir)
    }

    fn is_mount(&self, dir: NodeId) -> bool {
        self.has_mount(dir)
    }

    fn device(&self, dir: NodeId) -> NodeId {
        judgement::device(self, dir)
    }

    fn most_names(&self) -> u32 {
        self.numbering.room
    }

    fn row_count(&self) -> usize {
        self.rows.len()
    }

    #[tactic(auto, using(crate::proofs::Rows::entry_names))]
    fn names(&self, alloc: Global) -> Result<Vec<Name>, TreeFault> {
        Ok(row_names(alloc, &self.rows)?)
    }

    fn rows(&self, alloc: Global) -> Result<Vec<LentRow<'_>>, OutOfMemory> {
        Ok(lent_rows(alloc, &self.rows)?)
    }

    fn add(
        &mut self,
        dir: NodeId,
        name: Name,
        kind: Kind,
        target: Option<&[u8]>,
    ) -> Result<NodeId, TreeFault> {
        let lives = judgement::is_dir(self, dir);
        may_add(self, dir, &name, lives, self.look(dir, &name))?;
        let alloc = *self.nodes.allocator();
        let target = copied_target(alloc, target)?;
        let number = self.numbering.next;
        let node = NodeId::new(number);
        let made = Some(MadeNode {
            kind,
            target,
            mount: false,
        });
        let stands = LineNode { number, node, made };
        self.put(&Spot { dir, name }, stands)?;
        Ok(node)
    }

    fn tie(&mut self, dir: NodeId, name: Name, node: NodeId) -> Result<(), TreeFault> {
        may_tie(self, dir, &name, node)?;
        self.rows.reserve(1)?;
        put_row(&mut self.rows, ListRow { dir, name, node });
        Ok(())
    }

    fn cut(&mut self, dir: NodeId, name: &Name) -> Result<NodeId, TreeFault> {
        let node = may_cut(self, dir, name, self.standing(dir, name))?;
        take_row(&mut self.rows, dir, name);
        take_unnamed(&self.rows, &mut self.nodes, node);
        Ok(node)
    }

    /// Takes no memory: the row that goes leaves room for the one that comes.
    fn shift(
        &mut self,
        from: NodeId,
        name: &Name,
        to: NodeId,
        new_name: Name,
    ) -> Result<(), TreeFault> {
        let row = self.standing(from, name);
        let there = self.standing(to, &new_name);
        let Some(moving) = may_shift(self, from, name, to, &new_name, row, there)? else {
            return Ok(());
        };
        let Moving { node, displaced } = moving;
        take_row(&mut self.rows, from, name);
        put_row(
            &mut self.rows,
            ListRow {
                dir: to,
                name: new_name,
                node,
            },
        );
        if let Some(displaced) = displaced {
            take_unnamed(&self.rows, &mut self.nodes, displaced);
        }
        Ok(())
    }
}

impl Gathered for ListTree {
    fn root_alone(alloc: Global, rows: usize, room: u32) -> Result<ListTree, OutOfMemory> {
        let rows = Vec::with_capacity(alloc, rows)?;
        let mut nodes = Vec::new(alloc);
        let root = ListNode {
            id: NodeId::ROOT,
            kind: Kind::Dir,
            target: None,
            mount: false,
        };
        nodes.push(root)?;
        Ok(ListTree {
            rows,
            nodes,
            numbering: Numbering { next: 1, room },
        })
    }

    fn row_at(&self, spot: &Spot) -> Option<NodeId> {
        self.node_at(spot)
    }

    fn put(&mut self, spot: &Spot, stands: LineNode) -> Result<bool, OutOfMemory> {
        if !may_put(self, spot, &stands) {
            return Ok(false);
        }
        reserve_one(&mut self.rows, &mut self.nodes)?;
        let LineNode { number, node, made } = stands;
        let row = ListRow {
            dir: spot.dir,
            name: spot.name,
            node,
        };
        put_row(&mut self.rows, row);
        push_made(&mut self.nodes, node, made);
        self.numbering.next = number + 1;
        Ok(true)
    }
}

impl ListTree {
    ghost use Rattle.std.specs.Prelude.{◌≡◌};
    ghost use Rattle.pua_tree.specs.Tree.{found_at};

    /// What stands in the row of this directory and name.
    fn standing(&self, dir: NodeId, name: &Name) -> Option<(NodeId, Kind)>
        ensures { result ≡ found_at self.now dir name.now }
    {
        self.find(dir, name.bytes())
    }
}

impl Judged for ListTree {
    ghost held = { λ t. t };

    fn is_tree(&self) {
        // The prover knows the invariant of a value that is read.
        let _rows = &self.rows;
    }

    fn kind_of(&self, id: NodeId) -> Option<Kind> {
        match node_place(&self.nodes, id) {
            Ok(place) => Some(self.nodes[place].kind),
            Err(_) => None,
        }
    }

    fn node_at(&self, spot: &Spot) -> Option<NodeId> {
        match row_place(&self.rows, spot.dir, &spot.name) {
            Ok(place) => Some(self.rows[place].node),
            Err(_) => None,
        }
    }

    fn found(&self, spot: &Spot) -> Option<(NodeId, Kind)> {
        let node = self.node_at(spot)?;
        let kind = self.kind_of(node)?;
        Some((node, kind))
    }

    /// Goes over the rows once, since they are not in the order of their nodes.
    fn dir_spot(&self, dir: NodeId) -> Option<LentSpot<'_>> {
        if self.is_dir(dir) {
            spot_of(&self.rows, dir)
        } else {
            None
        }
    }

    fn has_mount(&self, id: NodeId) -> bool {
        match node_place(&self.nodes, id) {
            Ok(place) => self.nodes[place].mount,
            Err(_) => false,
        }
    }

    fn is_bare(&self, dir: NodeId) -> bool {
        self.is_dir(dir) && !has_row(&self.rows, dir)
    }

    fn row_count(&self) -> usize {
        self.rows.len()
    }

    fn node_count(&self) -> usize {
        self.nodes.len()
    }

    fn next_number(&self) -> u32 {
        self.numbering.next
    }

    fn room(&self) -> u32 {
        self.numbering.room
    }
}

impl ListTree {
    fn is_dir(&self, id: NodeId) -> bool
        ensures { result ≡ is_dir self.now id }
    {
        self.kind_of(id) == Some(Kind::Dir)
    }
}

impl ListRow {
    /// The row as a tree lends it.
    fn lent(&self) -> LentRow<'_>
        ensures { lent_entry result ≡ row_entry self.now }
    {
        LentRow {
            dir: self.dir,
            name: &self.name,
            node: self.node,
        }
    }

    /// How its spot compares with this one.
    fn cmp_spot(&self, dir: NodeId, name: &Name) -> Ordering
        ensures { result ≡ spot_cmp (self.now.dir, self.now.name) (dir, name.now) }
    {
        self.dir.cmp(&dir).then_with(|| self.name.cmp(name))
    }
}

/// Where the row of this spot stands among rows in order, or else where it would stand.
pub(crate) fn row_place(rows: &[ListRow], dir: NodeId, name: &Name) -> Result<usize, usize>
    requires { IsTrue (is_sorted spot_cmp (map row_entry rows.now)) }
    ensures found { IfOk result (λ i. (i < length rows.now) ×
        HoldsAt (λ row. find_key spot_cmp (dir, name.now) (map row_entry rows.now) ≡ Some row.node)
        rows.now i) }
    ensures missing { IfErr result (λ i. (i ≤ length rows.now) ×
        (find_key spot_cmp (dir, name.now) (map row_entry rows.now) ≡ None)) }
    ensures spot { IfOk result (λ i. HoldsAt (λ row. (row_entry row).0 ≡ (dir, name.now)) rows.now
        i) }
    ensures place { IfErr result (λ i. (node : ℕ) →
        put spot_cmp (dir, name.now) node (map row_entry rows.now) ≡ insert (map row_entry rows.now)
        i ((dir, name.now), node)) }
{
    rows.binary_search_by(|row| row.cmp_spot(dir, name))
}

/// Where the node of this number stands among nodes in order, or else where it would stand.
pub(crate) fn node_place(nodes: &[ListNode], id: NodeId) -> Result<usize, usize>
    requires { IsTrue (is_sorted nat_cmp (map node_entry nodes.now)) }
    ensures found { IfOk result (λ i. (i < length nodes.now) ×
        HoldsAt (λ node. find_key nat_cmp id (map node_entry nodes.now)
        ≡ Some (made_of_list_node node)) nodes.now i) }
    ensures missing { IfErr result (λ i. (i ≤ length nodes.now) ×
        (find_key nat_cmp id (map node_entry nodes.now) ≡ None)) }
    ensures number { IfOk result (λ i. HoldsAt (λ node. node.id ≡ id) nodes.now i) }
{
    nodes.binary_search_by_key(&id, |node| node.id)
}

/// Whether a row stands in this directory.
fn has_row(rows: &[ListRow], dir: NodeId) -> bool
    requires { IsTrue (is_sorted spot_cmp (map row_entry rows.now)) }
    ensures { result ≡ list_any (λ row. row.0.0 == dir) (map row_entry rows.now) }
{
    rows.binary_search_by_key(&dir, |row| row.dir).is_ok()
}

/// The spot of the first row in which this node stands.
fn spot_of(rows: &[ListRow], node: NodeId) -> Option<LentSpot<'_>>
    ensures { option_map lent_spot result
        ≡ option_map (λ row. (row_entry row).0) (find (λ row. row.node == node) rows.now) }
{
    match rows.iter().find(|row| row.node == node) {
        Some(row) => Some(LentSpot {
            dir: row.dir,
            name: &row.name,
        }),
        None => None,
    }
}

/// The names in the rows: each once, in the order of their bytes.
fn row_names(alloc: Global, rows: &[ListRow]) -> Result<Vec<Name>, AllocError>
    ensures { IfOk result (λ all. all.items ≡ distinct_names (map (λ row. row.name) rows.now)) }
{
    let names = name_set(alloc, rows)?;
    names.into_iter().collect(alloc)
}

/// The rows as a tree lends them.
fn lent_rows(alloc: Global, rows: &[ListRow]) -> Result<Vec<LentRow<'_>>, AllocError>
    ensures { IfOk result (λ lent. map lent_entry lent.items ≡ map row_entry rows.now) }
{
    rows.iter().map(ListRow::lent).collect(alloc)
}

/// The names in the rows, as a set.
fn name_set(alloc: Global, rows: &[ListRow]) -> Result<BTreeSet<Name>, AllocError>
    ensures { IfOk result (λ names. names.keys ≡ distinct_names (map (λ row. row.name) rows.now)) }
{
    let mut names = BTreeSet::new(alloc);
    for row in rows.iter().rev() {
        names.insert(row.name)?;
    }
    Ok(names)
}
