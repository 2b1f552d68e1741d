//! What a tree of files answers, however it is kept.

use crate::fault::{OutOfMemory, TreeFault};
use crate::name::{LentName, Name};
use crate::node::{Kind, NodeId};
use std::alloc::Global;

/// How many names a tree may have, the root counted as one, if a listing of the first two forms
/// lists it: its rows are fewer than this (this profile).
pub const MOST_NAMES: u32 = 65_535;

/// The same of a tree that a listing of the third form lists (this program's format).
pub const MOST_WIDE_NAMES: u32 = 1_065_535;

/// The number that no node is given: those of a tree's nodes are below it (this profile).
pub const NUMBER_END: u32 = 4_294_967_295;

/// A row that a tree lends: a node that has a name in a directory.
#[derive(Clone, Copy, PartialEq, Eq, PartialOrd, Ord)]
pub struct LentRow<'t> {
    pub dir: NodeId,
    pub name: &'t Name,
    pub node: NodeId,
}

/// Where a directory stands, as a tree lends it: the directory above it, and its name there.
#[derive(Clone, Copy, PartialEq, Eq)]
pub struct LentSpot<'t> {
    pub dir: NodeId,
    pub name: &'t Name,
}

/// A tree of files: rows that give a node a name in a directory, the living nodes with their kinds
/// and targets, and a number above each of them.
pub trait FileTree {
    ghost use Rattle.std.specs.Prelude.{◌≡◌, Ok, Err, IsTrue, IfOk, IfErr, OnErr, MatchResult};
    ghost use Rattle.std.specs.Prelude.{option_copied, option_map, map, length, ◌<◌, ◌^◌, false};
    ghost use Rattle.pua_tree.specs.LentRows.{lent_entry, lent_spot};
    ghost use Rattle.pua_tree.specs.Tree.{Tree, WellFormed, kind_at, look, found_at, parent};
    ghost use Rattle.pua_tree.specs.Tree.{dir_spot, is_within, target_at, target_fits, is_empty};
    ghost use Rattle.pua_tree.specs.Tree.{names, is_mount, device};
    ghost use Rattle.pua_tree.specs.Edits.{Refuses, add, tie, cut, shift};

    /// What the tree holds.
    ghost content: { Self → Tree };

    /// Does nothing. A caller learns from it what is true of the content of every tree.
    fn known(&self)
        ensures { WellFormed (content self.now) };

    /// The kind of a living node, and None for any other number.
    fn kind(&self, id: NodeId) -> Option<Kind>
        ensures { result ≡ kind_at (content self.now) id };

    /// The node that has this name in this directory, if there is one.
    fn look(&self, dir: NodeId, name: &Name) -> Option<NodeId>
        ensures { result ≡ look (content self.now) dir name.now };

    /// The node whose name in this directory has these bytes, if there is one, and its kind: what
    /// `look` and `kind` answer for the name. Bytes that are no name's are found nowhere.
    fn find(&self, dir: NodeId, bytes: &[u8]) -> Option<(NodeId, Kind)>
        ensures { result ≡ found_at (content self.now) dir bytes.now };

    /// The same for bytes that are known to be a name's, which are not judged again.
    fn find_named(&self, dir: NodeId, name: LentName<'_>) -> Option<(NodeId, Kind)>
        ensures { result ≡ found_at (content self.now) dir name.entry.bytes.now };

    /// The directory above a directory, which is the root itself for the root, and None for what is
    /// no living directory.
    fn parent(&self, dir: NodeId) -> Option<NodeId>
        ensures { result ≡ parent (content self.now) dir };

    /// The directory in which a directory stands, and its name there: None for the root, and for
    /// what is no living directory.
    fn spot_of(&self, dir: NodeId) -> Option<LentSpot<'_>>
        ensures { option_map lent_spot result ≡ dir_spot (content self.now) dir };

    /// Whether this is a living directory, and the outer one or beneath it.
    fn is_within(&self, dir: NodeId, outer: NodeId) -> bool
        ensures { result ≡ is_within (content self.now) dir outer };

    /// The target of a living link, and None for any other number.
    fn target(&self, id: NodeId) -> Option<&[u8]>
        ensures { option_copied result ≡ target_at (content self.now) id };

    /// Whether this is a living directory without rows.
    fn is_empty(&self, dir: NodeId) -> bool
        ensures { result ≡ is_empty (content self.now) dir };

    /// Whether this is a living directory at which another file system is mounted.
    fn is_mount(&self, dir: NodeId) -> bool
        ensures { result ≡ is_mount (content self.now) dir };

    /// The device of what stands in a living directory: where its file system is mounted, which is
    /// the directory itself or the nearest one above it, and else the root (mount(2)). For what is
    /// no living directory it is the root.
    fn device(&self, dir: NodeId) -> NodeId
        ensures { result ≡ device (content self.now) dir };

    /// How many names the tree may have, the root counted as one: 65,535, or 1,065,535 where a
    /// listing of the third form lists it.
    fn most_names(&self) -> u32
        ensures { result ≡ (content self.now).room };

    /// How many rows there are.
    fn row_count(&self) -> usize
        ensures count { result ≡ length (content self.now).rows }
        ensures small { result < 2 ^ 63 };

    /// All names in rows: each once, in the order of their bytes. The only fault is
    /// `TreeFault::OutOfMemory`.
    fn names(&self, alloc: Global) -> Result<Vec<Name>, TreeFault>
        ensures names { IfOk result (λ all. all.items ≡ names (content self.now)) }
        ensures memory { IfErr result (λ fault. fault ≡ TreeFault.OutOfMemory) };

    /// Lends all rows: each once, by directory and then by the bytes of the name. The only error is
    /// that a growth was refused.
    fn rows(&self, alloc: Global) -> Result<Vec<LentRow<'_>>, OutOfMemory>
        ensures { IfOk result (λ rows. map lent_entry rows.items ≡ (content self.now).rows) };

    /// Adds a node under this name, as mkdir(2), symlink(2) and open(2) with `O_CREAT` do, and
    /// answers its number, which is the next one. A link comes with its target, and no other kind
    /// with any; no file system is mounted there. The faults, of which the first that holds is answered: `NotDir` where `dir` is no
    /// living directory, `Taken` where it has the name already, `Full` where the tree has
    /// `most_names` names, the root counted as one, or the next number is 4,294,967,295, and
    /// `OutOfMemory`.
    /// After each of them the tree is as it was.
    fn add(
        &mut self,
        dir: NodeId,
        name: Name,
        kind: Kind,
        target: Option<&[u8]>,
    ) -> Result<NodeId, TreeFault>
        requires { IsTrue (target_fits kind (option_copied target)) }
        ensures exact { let rule = add (content self.old) dir name
            (record { kind = kind; target = option_copied target.entry; mount = false }) in
            MatchResult result (λ id. rule ≡ Ok (id, content self.new)) (Refuses rule) }
        ensures unchanged { OnErr result (content self.new ≡ content self.old) };

    /// Gives a living node that is no directory a further name, as link(2) does; it takes no
    /// number. The faults, of which the first that holds is answered: `NotDir` where `dir` is no
    /// living directory, `Missing` where `node` is not living, `IsDir` where it is a directory,
    /// `Taken` where `dir` has the name already, `Full` where the tree has `most_names` names, the
    /// root counted as one, and `OutOfMemory`. After each of them the tree is as it was.
    fn tie(&mut self, dir: NodeId, name: Name, node: NodeId) -> Result<(), TreeFault>
        ensures exact { let rule = tie (content self.old) dir name node in
            MatchResult result (λ _. rule ≡ Ok (content self.new)) (Refuses rule) }
        ensures unchanged { OnErr result (content self.new ≡ content self.old) };

    /// Takes a row away, and its node with its last row, as unlink(2) and rmdir(2) do, and answers
    /// the node's number. The faults, of which the first that holds is answered: `NotDir` where
    /// `dir` is no living directory, `Missing` where it does not have the name, and `NotEmpty`
    /// where the node is a directory in which something stands. After each of them the tree is as
    /// it was. It takes no memory.
    fn cut(&mut self, dir: NodeId, name: &Name) -> Result<NodeId, TreeFault>
        ensures exact { let rule = cut (content self.old) dir name.now in
            MatchResult result (λ id. rule ≡ Ok (id, content self.new))
            (λ fault. rule ≡ Err fault) }
        ensures unchanged { OnErr result (content self.new ≡ content self.old) };

    /// Moves a row to another directory and name, as rename(2) does. What stood there is taken away
    /// with its last row, if it is no directory or one in which nothing stands; where the same node
    /// stood there, nothing changes. The faults, of which the first that holds is answered:
    /// `NotDir` where `from` or `to` is no living directory, `Missing` where `from` does not have
    /// the name, `Inside` where a directory would come to stand in itself or beneath itself,
    /// `NotEmpty` where something stands in a directory at the new place, and `OutOfMemory`. After
    /// each of them the tree is as it was.
    fn shift(
        &mut self,
        from: NodeId,
        name: &Name,
        to: NodeId,
        new_name: Name,
    ) -> Result<(), TreeFault>
        ensures exact { let rule = shift (content self.old) from name.now to new_name in
            MatchResult result (λ _. rule ≡ Ok (content self.new)) (Refuses rule) }
        ensures unchanged { OnErr result (content self.new ≡ content self.old) };
}

/// A tree that can be copied.
pub trait CopiedTree: FileTree {
    ghost use Rattle.std.specs.Prelude.{◌≡◌, IfOk};

    /// A copy, which from then on is a tree of its own. The only error is that a growth was
    /// refused.
    fn copy(&self) -> Result<Self, OutOfMemory>
        ensures { IfOk result (λ copy. Self.content copy ≡ Self.content self.now) };
}
