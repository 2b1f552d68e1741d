//! Trees with as many names as may be, of one file, and of as many nodes, over each kind of tree:
//! memory is ample for all of them.

use crate::told::tell_expected;
use crate::trees::ListedTree;
use crate::worlds::run_over;
use anyhow::Result;
use pua_path::Errno;
use pua_script::Answer;
use pua_tree::{FileTree, Kind, ListTree, Name, NodeId, SlabTree, TreeFault, read_listing};
use std::alloc::Global;

/// A root in which nothing stands.
const ROOT: &[u8] = b"tree 1\n0 dir\n";

/// What is asked of a full tree.
const SCRIPT: &[u8] =
    b"1 mkdir /x\n1 symlink a /x\n1 create /x\n1 link /00001 /x\n1 create /00001\n1 unlink /00001\n1 create /x\n";

/// What is answered: there is room only once a name is taken away.
const ANSWERS: [Answer; 7] = [
    Answer::Failed(Errno::ENOSPC),
    Answer::Failed(Errno::ENOSPC),
    Answer::Failed(Errno::ENOSPC),
    Answer::Failed(Errno::ENOSPC),
    Answer::Okay,
    Answer::Okay,
    Answer::Okay,
];

/// How many files a full tree has beside its root.
const FILES: u32 = 65_534;

/// Prints whether such trees are made, and are then full.
pub(crate) fn run(rt: &HostRuntime) -> Result<()> {
    tell_expected(rt, "65,534 names of one file", are_most_names(rt.alloc())?)?;
    tell_expected(rt, "65,534 files", are_full(rt.alloc())?)
}

/// Whether a tree of each kind takes so many files, and is then full.
fn are_full(alloc: Global) -> Result<bool> {
    Ok(is_full::<ListTree>(alloc)? && is_full::<SlabTree>(alloc)?)
}

/// Whether an empty tree takes the files, and a world over it then has room for no node and no
/// further name, until a name is taken away.
fn is_full<T: ListedTree>(alloc: Global) -> Result<bool> {
    let mut tree = T::read(alloc, ROOT)?;
    let is_filled = is_filled(alloc, &mut tree)?;
    let ran = run_over(alloc, tree, SCRIPT)?;
    Ok(is_filled && ran.answers.as_slice() == ANSWERS.as_slice())
}

/// Adds the files; whether each gets the next number, and the tree takes neither a node nor a
/// further name then, until a name is taken away, and lists all its names.
fn is_filled<T: FileTree>(alloc: Global, tree: &mut T) -> Result<bool> {
    let mut are_added = true;
    for number in 1..=FILES {
        are_added &= is_added(tree, numbered(alloc, number)?, number);
    }
    let (last, more) = (numbered(alloc, FILES)?, numbered(alloc, FILES + 1)?);
    let is_room_made = are_added && is_full_until_cut(tree, last, more);
    Ok(is_room_made && tree.names(alloc)?.len() == FILES as usize)
}

/// Adds a file to the root; whether it gets this number.
fn is_added<T: FileTree>(tree: &mut T, name: Name, number: u32) -> bool {
    tree.add(NodeId::ROOT, name, Kind::File, None) == Ok(NodeId::new(number))
}

/// Whether a tree takes no further file until the name of the last one is taken away.
fn is_full_until_cut<T: FileTree>(tree: &mut T, last: Name, more: Name) -> bool {
    takes_none(tree, more, NodeId::new(1))
        && tree.cut(NodeId::ROOT, &last) == Ok(NodeId::new(FILES))
        && is_added(tree, more, FILES + 1)
}

/// Whether a tree has no room for a file of this name, nor for the name as a further one of a node.
fn takes_none<T: FileTree>(tree: &mut T, more: Name, node: NodeId) -> bool {
    tree.add(NodeId::ROOT, more, Kind::File, None) == Err(TreeFault::Full)
        && tree.tie(NodeId::ROOT, more, node) == Err(TreeFault::Full)
}

/// One file is given as many names as a tree has room for beside its root. Then there is no room
/// for a further name, nor for a further node; there is again once a name is taken away, with which
/// the file does not go.
fn are_most_names(alloc: Global) -> Result<bool> {
    let mut tree = read_listing(alloc, b"tree 1\n0 dir\n1 file 0 00001\n")?;
    let file = NodeId::new(1);
    let mut are_tied = true;
    for number in 2..=FILES {
        let name = numbered(alloc, number)?;
        are_tied &= tree.tie(NodeId::ROOT, name, file).is_ok();
    }
    let (first, more) = (numbered(alloc, 1)?, numbered(alloc, FILES + 1)?);
    let are_most = are_tied && takes_none(&mut tree, more, file);
    Ok(are_most && is_kept_by_names(&mut tree, first, more, file))
}

/// Whether a file stays where its first name is taken away, and can be given another then.
fn is_kept_by_names(tree: &mut ListTree, first: Name, more: Name, file: NodeId) -> bool {
    tree.cut(NodeId::ROOT, &first) == Ok(file)
        && tree.kind(file) == Some(Kind::File)
        && tree.tie(NodeId::ROOT, more, file).is_ok()
}

/// A name of five digits.
fn numbered(alloc: Global, number: u32) -> Result<Name> {
    let text = format!(in alloc; "{number:05}")?;
    Ok(Name::read(text.as_bytes())?)
}
