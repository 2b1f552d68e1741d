//! Whether an edit of a tree may be made, or else its first fault: one judgement of every tree. And
//! what is found by bytes.

use crate::fault::TreeFault;
use crate::gathered::LineNode;
use crate::name::{LentName, Name};
use crate::node::{Kind, NodeId};
use crate::spot::Spot;
use crate::tree::{LentSpot, NUMBER_END};

/// What a judgement asks of a tree. The edits of `FileTree` are judged by these answers, so it is
/// no part of `FileTree`.
pub(crate) trait Judged {
    ghost use Rattle.std.specs.Prelude.{◌≡◌, ◌<◌, ◌^◌, length, option_map};
    ghost use Rattle.pua_tree.specs.LentRows.{lent_spot};
    ghost use Rattle.pua_tree.specs.Tree.{Tree, WellFormed, kind_at, look, found_at, dir_spot};
    ghost use Rattle.pua_tree.specs.Tree.{is_empty, is_mount};

    /// What the tree holds.
    ghost held: { Self → Tree };

    /// Does nothing. A caller learns from it what is true of what the tree holds.
    fn is_tree(&self)
        ensures { WellFormed (held self.now) };

    /// The kind of a living node.
    fn kind_of(&self, id: NodeId) -> Option<Kind>
        ensures { result ≡ kind_at (held self.now) id };

    /// The node in the row at this spot.
    fn node_at(&self, spot: &Spot) -> Option<NodeId>
        ensures { result ≡ look (held self.now) spot.now.dir spot.now.name };

    /// The node in the row at this spot, and its kind.
    fn found(&self, spot: &Spot) -> Option<(NodeId, Kind)>
        ensures { result ≡ found_at (held self.now) spot.now.dir spot.now.name };

    /// The spot of a living directory but the root.
    fn dir_spot(&self, dir: NodeId) -> Option<LentSpot<'_>>
        ensures { option_map lent_spot result ≡ dir_spot (held self.now) dir };

    /// Whether another file system is mounted at this node.
    fn has_mount(&self, id: NodeId) -> bool
        ensures { result ≡ is_mount (held self.now) id };

    /// Whether this is a living directory without rows.
    fn is_bare(&self, dir: NodeId) -> bool
        ensures { result ≡ is_empty (held self.now) dir };

    /// How many rows there are.
    fn row_count(&self) -> usize
        ensures count { result ≡ length (held self.now).rows }
        ensures small { result < 2 ^ 63 };

    /// How many nodes there are.
    fn node_count(&self) -> usize
        ensures { result ≡ length (held self.now).nodes };

    /// The number of the next node.
    fn next_number(&self) -> u32
        ensures { result ≡ (held self.now).next };

    /// How many names there may be, the root counted as one.
    fn room(&self) -> u32
        ensures { result ≡ (held self.now).room };
}

ghost use Rattle.std.specs.Prelude.{◌≡◌, ◌≢◌, ◌<◌, Some, None, Ok, Err, IsTrue, IfOk, IfSome, OnOk};
ghost use Rattle.std.specs.Prelude.{MatchResult, MatchOption, ◌==◌, false, IfErr, is_ok, option_map};
ghost use Rattle.std.specs.Bool.{OnTrue};
ghost use Rattle.pua_tree.specs.Limits.{number_end};
ghost use Rattle.pua_tree.specs.Names.{is_name};
ghost use Rattle.pua_tree.specs.Tree.{Node, is_dir, kind_at, look, found_at, parent, is_within};
ghost use Rattle.pua_tree.specs.Tree.{device};
ghost use Rattle.pua_tree.specs.Edits.{add, tie, cut, shift, is_full_dir, is_full_dir_there};
ghost use Rattle.pua_tree.specs.Edits.{has_name_room, has_room};
ghost use Rattle.pua_tree.specs.Reading.{follows, row_follows, node_follows, entry_at};
ghost use Rattle.pua_tree.specs.Reading.{said_node};
ghost use Rattle.pua_tree.specs.Edits.{with_row, with_new, without_row, without_unnamed};
ghost use Rattle.pua_tree.specs.Edits.{with_row_moved};

/// The node whose name in a directory has these bytes, and its kind.
pub(crate) fn find<T: Judged>(tree: &T, dir: NodeId, bytes: &[u8]) -> Option<(NodeId, Kind)>
    ensures { result ≡ found_at (T.held tree.now) dir bytes.now }
{
    tree.is_tree();
    let Some(name) = Name::from_bytes(bytes) else {
        return None;
    };
    tree.found(&Spot { dir, name })
}

/// The node with this name in a directory, and its kind.
pub(crate) fn find_named<T: Judged>(
    tree: &T,
    dir: NodeId,
    name: LentName<'_>,
) -> Option<(NodeId, Kind)>
    ensures { result ≡ found_at (T.held tree.now) dir name.entry.bytes.now }
{
    // A name that is written where it is wanted is copied once less than one that is moved there.
    let mut spot = Spot {
        dir,
        name: Name::any(),
    };
    spot.name.overwrite(name);
    tree.found(&spot)
}

/// The directory above a directory, and the root above itself.
pub(crate) fn parent<T: Judged>(tree: &T, dir: NodeId) -> Option<NodeId>
    ensures { result ≡ parent (T.held tree.now) dir }
{
    tree.is_tree();
    if dir == NodeId::ROOT {
        return Some(dir);
    }
    match tree.dir_spot(dir) {
        Some(spot) => Some(spot.dir),
        None => None,
    }
}

/// Whether a node may be added under this name, or else the first fault. Whether the directory
/// lives, and which node stands in the row of that name, have been looked up.
pub(crate) fn may_add<T: Judged>(
    tree: &T,
    dir: NodeId,
    name: &Name,
    lives: bool,
    there: Option<NodeId>,
) -> Result<(), TreeFault>
    ensures exact { let held = T.held tree.now in lives ≡ is_dir held dir →
        there ≡ look held dir name.now → MatchResult result
        (λ _. (node : Node) →
        add held dir name.now node ≡ Ok (held.next, with_new held dir name.now node))
        (λ fault. (fault ≢ TreeFault.OutOfMemory) × ((node : Node) →
        add held dir name.now node ≡ Err fault)) }
    ensures number { OnOk result ((T.held tree.now).next < number_end) }
    ensures name { IsTrue (is_name name.now) }
    ensures lives { OnOk result (IsTrue lives) }
{
    name.known();
    if !lives {
        return Err(TreeFault::NotDir);
    }
    if there.is_some() {
        return Err(TreeFault::Taken);
    }
    if !has_room(tree) {
        return Err(TreeFault::Full);
    }
    Ok(())
}

/// Whether a node may be given this further name, or else the first fault.
pub(crate) fn may_tie<T: Judged>(
    tree: &T,
    dir: NodeId,
    name: &Name,
    node: NodeId,
) -> Result<(), TreeFault>
    ensures exact { let held = T.held tree.now in MatchResult result
        (λ _. tie held dir name.now node ≡ Ok (with_row held dir name.now node))
        (λ fault. (fault ≢ TreeFault.OutOfMemory) × (tie held dir name.now node ≡ Err fault)) }
    ensures free { OnOk result (look (T.held tree.now) dir name.now ≡ None) }
    ensures no_dir { OnOk result (is_dir (T.held tree.now) node ≡ false) }
    ensures name { IsTrue (is_name name.now) }
{
    name.known();
    if !is_dir(tree, dir) {
        return Err(TreeFault::NotDir);
    }
    match tree.kind_of(node) {
        None => return Err(TreeFault::Missing),
        Some(Kind::Dir) => return Err(TreeFault::IsDir),
        Some(_) => {}
    }
    if tree.node_at(&Spot { dir, name: *name }).is_some() {
        return Err(TreeFault::Taken);
    }
    if !has_name_room(tree) {
        return Err(TreeFault::Full);
    }
    Ok(())
}

/// Whether a node may come to a new row at this spot, under the number of a line, and be made there
/// where the line makes it.
pub(crate) fn may_put<T: Judged>(tree: &T, spot: &Spot, stands: &LineNode) -> bool
    ensures follows { result
        ≡ follows (T.held tree.now) (entry_at spot.now.dir spot.now.name stands.now) }
    ensures name { IsTrue (is_name spot.now.name) }
{
    spot.name.known();
    is_dir(tree, spot.dir)
        && may_have_row(tree, stands)
        && may_put_row(tree, spot, tree.node_at(spot), stands.number)
}

/// Whether a row may come to this spot, whose directory lives, under the number of a line. The node
/// that stands there has been looked up.
pub(crate) fn may_put_row<T: Judged>(
    tree: &T,
    spot: &Spot,
    there: Option<NodeId>,
    number: u32,
) -> bool
    ensures follows { there ≡ look (T.held tree.now) spot.now.dir spot.now.name → result
        ≡ row_follows (T.held tree.now) number spot.now.dir spot.now.name }
    ensures last { OnTrue result (number < number_end) }
    ensures name { IsTrue (is_name spot.now.name) }
{
    spot.name.known();
    tree.next_number() <= number && number < NUMBER_END && there.is_none() && has_name_room(tree)
}

/// Whether the node of a line may come to a row: what the line makes has its number, and another
/// lives and is no directory.
fn may_have_row<T: Judged>(tree: &T, stands: &LineNode) -> bool
    ensures { result ≡ node_follows (T.held tree.now) stands.now.number stands.now.node
        (option_map said_node stands.now.made) }
{
    match &stands.made {
        Some(_) => stands.node.number() == stands.number,
        None => match tree.kind_of(stands.node) {
            None | Some(Kind::Dir) => false,
            Some(_) => true,
        },
    }
}

/// The node of a row that may be taken away, or else the first fault. What stands in the row has
/// been looked up.
pub(crate) fn may_cut<T: Judged>(
    tree: &T,
    dir: NodeId,
    name: &Name,
    row: Option<(NodeId, Kind)>,
) -> Result<NodeId, TreeFault>
    ensures exact { let held = T.held tree.now in row ≡ found_at held dir name.now →
        MatchResult result
        (λ node. cut held dir name.now ≡ Ok (
          node,
          without_unnamed (without_row held dir name.now) node,
        ))
        (λ fault. cut held dir name.now ≡ Err fault) }
    ensures found { row ≡ found_at (T.held tree.now) dir name.now →
        IfOk result (λ node. look (T.held tree.now) dir name.now ≡ Some node) }
{
    let row = row_in(tree, dir, name, row)?;
    let (node, kind) = row.ok_or(TreeFault::Missing)?;
    if is_full(tree, node, kind) {
        return Err(TreeFault::NotEmpty);
    }
    Ok(node)
}

/// The node of a row that may be moved, and the other node that stands at the new place, if one
/// does.
pub(crate) struct Moving {
    pub(crate) node: NodeId,
    pub(crate) displaced: Option<NodeId>,
}

/// What a row that may be moved moves, and None where its node stands at the new place already, or
/// else the first fault. What stands in both rows has been looked up.
pub(crate) fn may_shift<T: Judged>(
    tree: &T,
    from: NodeId,
    name: &Name,
    to: NodeId,
    new_name: &Name,
    row: Option<(NodeId, Kind)>,
    there: Option<(NodeId, Kind)>,
) -> Result<Option<Moving>, TreeFault>
    ensures exact { let held = T.held tree.now in row ≡ found_at held from name.now →
        there ≡ found_at held to new_name.now → MatchResult result
        (λ moves. MatchOption moves (shift held from name.now to new_name.now ≡ Ok held)
        (λ moving. shift held from name.now to new_name.now
        ≡ Ok (with_row_moved held from name.now to new_name.now moving.node moving.displaced)))
        (λ fault. (fault ≢ TreeFault.OutOfMemory) ×
        (shift held from name.now to new_name.now ≡ Err fault)) }
    ensures found { let held = T.held tree.now in row ≡ found_at held from name.now →
        IfOk result (λ moves. IfSome moves (λ moving. look held from name.now ≡ Some moving.node)) }
    ensures displaced { let held = T.held tree.now in there ≡ found_at held to new_name.now →
        IfOk result (λ moves. IfSome moves (λ moving.
        (moving.displaced ≡ look held to new_name.now) × (moving.displaced ≢ Some moving.node))) }
    ensures name { IsTrue (is_name new_name.now) }
{
    new_name.known();
    let row = row_in(tree, from, name, row)?;
    let there = row_in(tree, to, new_name, there)?;
    let (node, kind) = row.ok_or(TreeFault::Missing)?;
    let displaced = node_of(&there);
    if displaced == Some(node) {
        return Ok(None);
    }
    if kind == Kind::Dir && is_within(tree, to, node) {
        return Err(TreeFault::Inside);
    }
    if is_full_there(tree, &there) {
        return Err(TreeFault::NotEmpty);
    }
    Ok(Some(Moving { node, displaced }))
}

/// What stands in a row of this directory, which has been looked up. The only fault is that it is
/// no living directory.
fn row_in<T: Judged>(
    tree: &T,
    dir: NodeId,
    name: &Name,
    row: Option<(NodeId, Kind)>,
) -> Result<Option<(NodeId, Kind)>, TreeFault>
    ensures fault { IfErr result (λ fault. fault ≡ TreeFault.NotDir) }
    ensures dir { row ≡ found_at (T.held tree.now) dir name.now →
        is_ok result ≡ is_dir (T.held tree.now) dir }
    ensures node { row ≡ found_at (T.held tree.now) dir name.now → IfOk result (λ row.
        option_map (λ found. found.0) row ≡ look (T.held tree.now) dir name.now) }
    ensures kind { row ≡ found_at (T.held tree.now) dir name.now → IfOk result (λ row.
        IfSome row (λ found. kind_at (T.held tree.now) found.0 ≡ Some found.1)) }
{
    tree.is_tree();
    // A row stands in a living directory, and its node lives.
    match row {
        Some(row) => Ok(Some(row)),
        None if is_dir(tree, dir) => Ok(None),
        None => Err(TreeFault::NotDir),
    }
}

/// The node in a row that may be there.
fn node_of(row: &Option<(NodeId, Kind)>) -> Option<NodeId>
    ensures { result ≡ option_map (λ found. found.0) row.now }
{
    match row {
        Some((node, _)) => Some(*node),
        None => None,
    }
}

/// Whether the node in a row that may be there is a directory in which something stands.
fn is_full_there<T: Judged>(tree: &T, row: &Option<(NodeId, Kind)>) -> bool
    ensures { IfSome row.now (λ found. kind_at (T.held tree.now) found.0 ≡ Some found.1) →
        result ≡ is_full_dir_there (T.held tree.now) (option_map (λ found. found.0) row.now) }
{
    match row {
        Some((node, kind)) => is_full(tree, *node, *kind),
        None => false,
    }
}

pub(crate) fn is_dir<T: Judged>(tree: &T, id: NodeId) -> bool
    ensures { result ≡ is_dir (T.held tree.now) id }
{
    tree.kind_of(id) == Some(Kind::Dir)
}

/// Whether a node of this kind is a directory in which something stands.
fn is_full<T: Judged>(tree: &T, id: NodeId, kind: Kind) -> bool
    ensures { kind_at (T.held tree.now) id ≡ Some kind →
        result ≡ is_full_dir (T.held tree.now) id }
{
    kind == Kind::Dir && !tree.is_bare(id)
}

/// Whether there is room for a further name.
fn has_name_room<T: Judged>(tree: &T) -> bool
    ensures { result ≡ has_name_room (T.held tree.now) }
{
    tree.row_count() + 1 < tree.room() as usize
}

/// Whether there is room for the name of a further node, and a number.
fn has_room<T: Judged>(tree: &T) -> bool
    ensures { result ≡ has_room (T.held tree.now) }
{
    has_name_room(tree) && tree.next_number() < NUMBER_END
}

/// Whether this is a living directory, and the outer one or beneath it.
pub(crate) fn is_within<T: Judged>(tree: &T, dir: NodeId, outer: NodeId) -> bool
    ensures { result ≡ is_within (T.held tree.now) dir outer }
{
    tree.is_tree();
    if !is_dir(tree, dir) {
        return false;
    }
    let mut at = dir;
    for _ in 0..tree.node_count() {
        if at == outer {
            return true;
        }
        let Some(spot) = tree.dir_spot(at) else {
            return false;
        };
        at = spot.dir;
    }
    at == outer
}

/// The directory at which the file system of a living directory is mounted: itself, or the nearest
/// one above it, and else the root.
pub(crate) fn device<T: Judged>(tree: &T, dir: NodeId) -> NodeId
    ensures { result ≡ device (T.held tree.now) dir }
{
    tree.is_tree();
    if !is_dir(tree, dir) {
        return NodeId::ROOT;
    }
    let mut at = dir;
    for _ in 0..tree.node_count() {
        if tree.has_mount(at) {
            return at;
        }
        let Some(spot) = tree.dir_spot(at) else {
            return NodeId::ROOT;
        };
        at = spot.dir;
    }
    if tree.has_mount(at) {
        return at;
    }
    NodeId::ROOT
}
