//! What a reader of listings fills: a tree that takes one entry after another.

ghost use Rattle.std.specs.Prelude.{◌≡◌, ◌==◌, if◌then◌else◌, IsTrue, option_map, is_some};
ghost use Rattle.std.specs.Prelude.{Some, true};
ghost use Rattle.pua_tree.specs.Tree.{target_fits, is_dir_kind};

use crate::fault::OutOfMemory;
use crate::name::LentName;
use crate::node::{Kind, NodeId};
use crate::spot::Spot;
use crate::tree::FileTree;
use std::alloc::Global;

/// What one line of a listing says: where its row stands, and what stands there. The name is lent
/// by the line.
#[derive(Drop)]
pub(crate) struct LineEntry<'a> {
    pub(crate) parent: NodeId,
    pub(crate) name: LentName<'a>,
    pub(crate) stands: LineNode,
}

/// What a line puts into its row: a node, and the node that it makes under its number. A hard link
/// makes none: the node of its row is of an earlier line.
#[derive(Drop)]
pub(crate) struct LineNode {
    pub(crate) number: u32,
    pub(crate) node: NodeId,
    pub(crate) made: Option<MadeNode>,
}

impl LineNode {
    /// Whether the node may come to a row: the line makes it, under its own number, or else it was
    /// found in a slot.
    pub(crate) fn may_stand(&self, slot: Option<usize>) -> bool
        ensures { result ≡ (if is_some self.now.made then self.now.node == self.now.number
            else is_some slot) }
    {
        match &self.made {
            Some(_) => self.node.number() == self.number,
            None => slot.is_some(),
        }
    }
}

/// A node that a line makes, where it leads if it is a link, and whether another file system is
/// mounted there if it is a directory.
#[derive(Drop)]
pub(crate) struct MadeNode {
    pub(crate) kind: Kind,
    pub(crate) target: Option<Vec<u8>>,
    pub(crate) mount: bool,
    pub(crate) ghost fits: { IsTrue (target_fits kind (option_map (λ t. t.items) target)) },
    pub(crate) ghost mounts: { IsTrue (if mount then is_dir_kind (Some kind) else true) },
}

/// A tree that begins as the root alone, and takes entries under numbers that rise and may leave
/// some out. What it holds so far is its content.
pub(crate) trait Gathered: FileTree + Drop {
    ghost use Rattle.std.specs.Prelude.{◌≡◌, ◌≢◌, Ok, IfOk, true};
    ghost use Rattle.pua_tree.specs.Tree.{root_alone as rule_root_alone, look};
    ghost use Rattle.pua_tree.specs.Reading.{follows, tree_with, entry_at};

    /// The root alone, in a tree of at most so many names, with memory for so many rows. The only
    /// error is that a growth was refused.
    fn root_alone(alloc: Global, rows: usize, room: u32) -> Result<Self, OutOfMemory>
        ensures { IfOk result (λ tree. Self.content tree ≡ rule_root_alone room) };

    /// The node in the row at this spot.
    fn row_at(&self, spot: &Spot) -> Option<NodeId>
        ensures { result ≡ look (Self.content self.now) spot.now.dir spot.now.name };

    /// Puts a node into a new row at this spot, and the node itself into the tree where the line
    /// makes it. The next number is then above the line's. What may not follow the tree's entries,
    /// as at a spot that has a row, is not put. Answers whether it was put. The only error is that
    /// a growth was refused. The tree is as it was where nothing is put.
    fn put(&mut self, spot: &Spot, stands: LineNode) -> Result<bool, OutOfMemory>
        ensures follows { IfOk result (λ put. put
            ≡ follows (Self.content self.old) (entry_at spot.now.dir spot.now.name stands)) }
        ensures grown { result ≡ Ok true → Self.content self.new
            ≡ tree_with (Self.content self.old) (entry_at spot.now.dir spot.now.name stands) }
        ensures unchanged { result ≢ Ok true → Self.content self.new ≡ Self.content self.old };
}
