//! Trees written out as listings.

use anyhow::Result;
use pua_tree::{FileTree, Kind, Name, NodeId, byte_spelling};
use std::alloc::Global;

/// Numbers from here on are of no node, in the trees that are listed here.
const NUMBERS: u32 = 16;

/// Whether that is the listing of a tree.
pub(crate) fn is_listing<T: FileTree>(alloc: Global, tree: &T, wanted: &[u8]) -> Result<bool> {
    Ok(listing_of(alloc, tree)?.as_slice() == wanted)
}

/// The listing of a tree whose numbers are below 16, by looks at it alone.
pub(crate) fn listing_of<T: FileTree>(alloc: Global, tree: &T) -> Result<Vec<u8>> {
    let mut listing = Vec::from_slice(alloc, b"tree 1\n0 dir\n")?;
    list_tree(alloc, tree, &mut listing)?;
    Ok(listing)
}

/// Adds the lines of all nodes.
fn list_tree<T: FileTree>(alloc: Global, tree: &T, listing: &mut Vec<u8>) -> Result<()> {
    let names = tree.names(alloc)?;
    list_nodes(alloc, tree, names.as_slice(), listing)
}

fn list_nodes<T: FileTree>(
    alloc: Global,
    tree: &T,
    names: &[Name],
    listing: &mut Vec<u8>,
) -> Result<()> {
    for number in 1..NUMBERS {
        list_node(alloc, tree, names, number, listing)?;
    }
    Ok(())
}

/// Adds the line of a node, for each row that the node has.
fn list_node<T: FileTree>(
    alloc: Global,
    tree: &T,
    names: &[Name],
    number: u32,
    listing: &mut Vec<u8>,
) -> Result<()> {
    let node = NodeId::new(number);
    let Some(kind) = tree.kind(node) else {
        return Ok(());
    };
    for dir in 0..NUMBERS {
        list_names(alloc, tree, names, dir, (node, kind), listing)?;
    }
    Ok(())
}

/// Adds the line of a node of this kind for each of its names in a directory.
fn list_names<T: FileTree>(
    alloc: Global,
    tree: &T,
    names: &[Name],
    dir: u32,
    (node, kind): (NodeId, Kind),
    listing: &mut Vec<u8>,
) -> Result<()> {
    for name in names {
        if tree.look(NodeId::new(dir), name) == Some(node) {
            add_front(alloc, (node, kind), dir, listing)?;
            add_name(tree, node, name, listing)?;
        }
    }
    Ok(())
}

/// Adds the number and the kind of a node, and the number of the directory.
fn add_front(
    alloc: Global,
    (node, kind): (NodeId, Kind),
    dir: u32,
    listing: &mut Vec<u8>,
) -> Result<()> {
    let front = format!(in alloc; "{} {} {dir} ", node.number(), kind_word(kind))?;
    Ok(listing.extend_from_slice(front.as_bytes())?)
}

/// Adds a name, the target if there is one, and the end of the line.
fn add_name<T: FileTree>(tree: &T, node: NodeId, name: &Name, listing: &mut Vec<u8>) -> Result<()> {
    spell(name.bytes(), listing)?;
    list_target(tree, node, listing)?;
    Ok(listing.push(b'\n')?)
}

/// Adds a link's target.
fn list_target<T: FileTree>(tree: &T, node: NodeId, listing: &mut Vec<u8>) -> Result<()> {
    if let Some(target) = tree.target(node) {
        listing.push(b' ')?;
        spell(target, listing)?;
    }
    Ok(())
}

/// Adds the spelling of some bytes.
fn spell(bytes: &[u8], listing: &mut Vec<u8>) -> Result<()> {
    for byte in bytes {
        listing.extend_from_slice(byte_spelling(*byte).as_bytes())?;
    }
    Ok(())
}

fn kind_word(kind: Kind) -> &'static str {
    match kind {
        Kind::Dir => "dir",
        Kind::File => "file",
        Kind::Prog => "prog",
        Kind::Link => "link",
        Kind::Known(_) => kind.word(),
    }
}
