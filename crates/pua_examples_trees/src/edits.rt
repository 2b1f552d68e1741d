//! Edits of a tree in slots and of a tree of two sorted lists, side by side: a row of edits by
//! which slots are used again, and then many at random. After each edit both trees answer the same.

use crate::listed::is_listing;
use crate::random::Random;
use crate::told::{tell_expected, wrong_unless};
use crate::trees::ListedTree;
use crate::worlds::run_over;
use anyhow::Result;
use pua_script::Answer;
use pua_tree::{
    FileTree, Kind, ListTree, Name, NodeId, SlabTree, TreeFault, read_listing, read_listing_slab,
};
use std::alloc::Global;

/// How many edits are made at random.
const EDITS: u32 = 1_000;

/// The names in the trees.
const NAMES: [&str; 5] = ["a", "b", "c", "d", "e"];

/// A root in which nothing stands.
const ROOT: &[u8] = b"tree 1\n0 dir\n";

/// A script that removes a directory and makes three further nodes.
const SCRIPT: &[u8] = b"1 mkdir /a\n1 rmdir /a\n1 create /b\n1 mkdir /a\n1 create /c\n";

/// The listing of the tree that it leaves: the nodes have numbers that were never given.
const LEFT: &[u8] = b"tree 1\n0 dir\n2 file 0 b\n3 dir 0 a\n4 file 0 c\n";

/// Prints whether numbers are given once where slots are used again, and a line for each edit after
/// which the two trees differ; then how many edits there were.
pub(crate) fn run(rt: &HostRuntime) -> Result<()> {
    edit_new(rt)?;
    tell_expected(rt, "slots used again", are_new(rt.alloc())?)?;
    Ok(println!(rt; "{EDITS} edits of two trees")?)
}

/// Edits two trees of a root alone.
fn edit_new(rt: &HostRuntime) -> Result<()> {
    let mut listed = read_listing(rt.alloc(), ROOT)?;
    let mut slotted = read_listing_slab(rt.alloc(), ROOT)?;
    edit_both(rt, &mut listed, &mut slotted)
}

/// Makes all edits of two trees.
fn edit_both(rt: &HostRuntime, listed: &mut ListTree, slotted: &mut SlabTree) -> Result<()> {
    let mut random = Random::new();
    for number in 1..=EDITS {
        let edit = Edit::new(&mut random, listed)?;
        edit_once(rt, listed, slotted, &edit, number)?;
    }
    Ok(())
}

/// Makes an edit of two trees.
fn edit_once(
    rt: &HostRuntime,
    listed: &mut ListTree,
    slotted: &mut SlabTree,
    edit: &Edit,
    number: u32,
) -> Result<()> {
    let is_alike = edit.answer(listed) == edit.answer(slotted);
    let are_same = are_same(rt.alloc(), listed, slotted, number)?;
    let is_made = is_alike && are_same;
    wrong_unless(rt, Ok(is_made), "edit of two trees", number as usize)
}

/// Whether numbers are given once, over each kind of tree.
fn are_new(alloc: Global) -> Result<bool> {
    Ok(are_given_once::<ListTree>(alloc)? && are_given_once::<SlabTree>(alloc)?)
}

/// Whether the script is answered `ok` throughout, and gives numbers that were never given.
fn are_given_once<T: ListedTree>(alloc: Global) -> Result<bool> {
    let ran = run_over(alloc, T::read(alloc, ROOT)?, SCRIPT)?;
    let tree = ran.world.tree();
    let is_left = is_listing(alloc, tree, LEFT)? && tree.kind(NodeId::new(1)).is_none();
    Ok(is_left && ran.answers.as_slice() == [Answer::Okay; 5].as_slice())
}

/// An edit of a tree.
#[derive(Clone, Copy)]
enum Edit {
    Add(NodeId, Name, Kind),
    Tie(NodeId, Name, NodeId),
    Cut(NodeId, Name),
    Shift(NodeId, Name, NodeId, Name),
}

impl Edit {
    /// An edit at random of what stands in a tree.
    fn new<T: FileTree>(random: &mut Random, tree: &T) -> Result<Edit> {
        let (dir, name) = (drawn_node(random, tree)?, drawn_name(random)?);
        let other = drawn_node(random, tree)?;
        Ok(match random.below(8) {
            0 | 1 => Edit::Add(dir, name, Kind::Dir),
            2 => Edit::Add(dir, name, Kind::File),
            3 => Edit::Add(dir, name, Kind::Link),
            4 => Edit::Tie(dir, name, other),
            5 => Edit::Cut(dir, name),
            _ => Edit::Shift(dir, name, other, drawn_name(random)?),
        })
    }

    /// Edits a tree: the node that was added, lost its name or was given one, or to whose names one
    /// was moved; or why nothing was done.
    fn answer<T: FileTree>(&self, tree: &mut T) -> Result<NodeId, TreeFault> {
        match self {
            Edit::Add(dir, name, Kind::Link) => tree.add(*dir, *name, Kind::Link, Some(b"a")),
            Edit::Add(dir, name, kind) => tree.add(*dir, *name, *kind, None),
            Edit::Tie(dir, name, node) => {
                tree.tie(*dir, *name, *node)?;
                Ok(*node)
            }
            Edit::Cut(dir, name) => tree.cut(*dir, name),
            Edit::Shift(from, name, to, new_name) => {
                tree.shift(*from, name, *to, *new_name)?;
                Ok(*to)
            }
        }
    }
}

/// A node that stands in a tree, at most three names deep.
fn drawn_node<T: FileTree>(random: &mut Random, tree: &T) -> Result<NodeId> {
    let mut node = NodeId::ROOT;
    for _ in 0..random.below(4) {
        let name = drawn_name(random)?;
        node = tree.look(node, &name).unwrap_or(node);
    }
    Ok(node)
}

fn drawn_name(random: &mut Random) -> Result<Name> {
    let place = random.below(NAMES.len());
    Ok(Name::read(NAMES.get(place).copied().unwrap_or("a").as_bytes())?)
}

/// Whether two trees have the same names, and answer the same about each number up to this one.
fn are_same<S: FileTree, T: FileTree>(
    alloc: Global,
    one: &S,
    other: &T,
    last: u32,
) -> Result<bool> {
    let names = one.names(alloc)?;
    let others = other.names(alloc)?;
    let mut same = names.as_slice() == others.as_slice();
    for number in 0..=last {
        same = same && is_same(one, other, NodeId::new(number), names.as_slice());
    }
    Ok(same)
}

/// Whether two trees answer the same about a number.
fn is_same<S: FileTree, T: FileTree>(one: &S, other: &T, node: NodeId, names: &[Name]) -> bool {
    for name in names {
        if one.look(node, name) != other.look(node, name) {
            return false;
        }
    }
    one.kind(node) == other.kind(node)
        && one.target(node) == other.target(node)
        && one.parent(node) == other.parent(node)
        && one.spot_of(node) == other.spot_of(node)
        && one.is_empty(node) == other.is_empty(node)
}
