//! Of listings.

use pua_tree::{FileTree, Kind, ListingFault, Name, NodeId, read_listing};
use std::alloc::Global;

/// A listing has no line that lacks a field.
fn bad_line_skipped(alloc: Global) {
    if read_listing(alloc, b"tree 1\n0 dir\n1 file 0\n").is_ok() {
        unreachable!()
    }
}

/// A listing under `tree 1` has no hard links.
fn hard_known_in_tree_1(alloc: Global) {
    if read_listing(alloc, b"tree 1\n0 dir\n1 file 0 a\n2 hard 0 b 1\n").is_ok() {
        unreachable!()
    }
}

/// A directory has no hard link.
fn hard_link_to_directory(alloc: Global) {
    if read_listing(alloc, b"tree 2\n0 dir\n1 dir 0 a\n2 hard 0 b 1\n").is_ok() {
        unreachable!()
    }
}

/// No number that a hard link's line has taken is given to a node.
fn hard_number_given_again(alloc: Global) {
    let Ok(mut tree) = read_listing(alloc, b"tree 2\n0 dir\n1 file 0 a\n5 hard 0 b 1\n") else {
        return;
    };
    let Some(name) = Name::from_bytes(b"c") else {
        unreachable!()
    };
    let Ok(id) = tree.add(NodeId::ROOT, name, Kind::File, None) else {
        return;
    };
    if id.number() != 6 {
        unreachable!()
    }
}

/// Of a bad name and a bad node in one line the name is the fault.
fn node_before_name(alloc: Global) {
    if let Err(ListingFault::BadNode(_)) = read_listing(alloc, b"tree 2\n0 dir\n1 hard 0 / 7\n") {
        unreachable!()
    }
}

/// A file is no parent.
fn parent_is_a_file(alloc: Global) {
    if read_listing(alloc, b"tree 1\n0 dir\n1 file 0 a\n2 file 1 b\n").is_ok() {
        unreachable!()
    }
}

/// A listing under `tree 2` has no sockets.
fn types_known_in_tree_2(alloc: Global) {
    if read_listing(alloc, b"tree 2\n0 dir\n1 sock 0 a\n").is_ok() {
        unreachable!()
    }
}

/// No directory has one name twice.
fn taken_name_accepted(alloc: Global) {
    if read_listing(alloc, b"tree 1\n0 dir\n1 file 0 a\n2 file 0 a\n").is_ok() {
        unreachable!()
    }
}
