//! Of edits of trees.

use pua_tree::{FileTree, Kind, ListTree, Name, NodeId, TreeFault, read_listing};
use std::alloc::Global;

/// A directory has one name.
fn directory_tied(alloc: Global) {
    let Ok(mut tree) = read_listing(alloc, b"tree 1\n0 dir\n1 dir 0 a\n") else {
        return;
    };
    let Some(name) = Name::from_bytes(b"b") else {
        unreachable!()
    };
    if tree.tie(NodeId::ROOT, name, NodeId::new(1)).is_ok() {
        unreachable!()
    }
}

/// A directory in which something stands is not taken away.
fn full_directory_cut(alloc: Global) {
    let Ok(mut tree) = read_listing(alloc, b"tree 1\n0 dir\n1 dir 0 a\n2 file 1 b\n") else {
        return;
    };
    let Some(name) = Name::from_bytes(b"a") else {
        unreachable!()
    };
    if tree.cut(NodeId::ROOT, &name).is_ok() {
        unreachable!()
    }
}

/// A directory is not moved to beneath itself.
fn moved_into_its_subtree(alloc: Global) {
    let Ok(mut tree) = read_listing(alloc, b"tree 1\n0 dir\n1 dir 0 a\n2 dir 1 b\n") else {
        return;
    };
    let Some(name) = Name::from_bytes(b"a") else {
        unreachable!()
    };
    if tree
        .shift(NodeId::ROOT, &name, NodeId::new(2), name)
        .is_ok()
    {
        unreachable!()
    }
}

/// A tree of 65,534 rows that may have 65,535 names takes no further one, however few its nodes
/// are.
fn names_65536(alloc: Global, tree: &mut ListTree, dir: NodeId, name: Name, node: NodeId) {
    let Ok(rows) = tree.rows(alloc) else {
        return;
    };
    let count = rows.len();
    drop(rows);
    if tree.most_names() == 65_535 && count == 65_534 && tree.tie(dir, name, node).is_ok() {
        unreachable!()
    }
}

/// A further name takes no number: there is room for it in a tree of fewer rows.
fn tie_needs_a_number(alloc: Global, tree: &mut ListTree, dir: NodeId, name: Name, node: NodeId) {
    let Ok(rows) = tree.rows(alloc) else {
        return;
    };
    let count = rows.len();
    drop(rows);
    if tree.most_names() == 65_535
        && count < 65_534
        && let Err(TreeFault::Full) = tree.tie(dir, name, node)
    {
        unreachable!()
    }
}

/// The number after the last one is given next, also where the last one was taken away.
fn freed_number_given_again(alloc: Global) {
    let Ok(mut tree) = read_listing(alloc, b"tree 1\n0 dir\n1 file 0 a\n") else {
        return;
    };
    let Some(name) = Name::from_bytes(b"a") else {
        unreachable!()
    };
    let Ok(_) = tree.cut(NodeId::ROOT, &name) else {
        unreachable!()
    };
    if let Ok(node) = tree.add(NodeId::ROOT, name, Kind::File, None) {
        if node != NodeId::new(2) {
            unreachable!()
        }
    }
}

/// A tree that a listing of the first form lists may have 65,535 names.
fn small_tree_has_room_for_a_system(alloc: Global) {
    let Ok(tree) = read_listing(alloc, b"tree 1\n0 dir\n") else {
        return;
    };
    if tree.most_names() != 65_535 {
        unreachable!()
    }
}
