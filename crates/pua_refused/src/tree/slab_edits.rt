//! Of edits of trees in slots.

use pua_tree::{CopiedTree, FileTree, Kind, Name, NodeId, SlabTree, read_listing_slab};
use std::alloc::Global;

/// A name that is taken away is found no more, in whatever directory it stood.
fn slab_old_name_kept(alloc: Global) {
    let Ok(mut tree) = read_listing_slab(alloc, b"tree 1\n0 dir\n1 dir 0 a\n2 file 1 b\n") else {
        return;
    };
    let Some(name) = Name::from_bytes(b"b") else {
        unreachable!()
    };
    let Ok(_) = tree.cut(NodeId::new(1), &name) else {
        unreachable!()
    };
    if tree.look(NodeId::new(1), &name).is_some() {
        unreachable!()
    }
}

/// A directory that is moved has its new parent.
fn slab_old_parent_kept(alloc: Global) {
    let Ok(mut tree) = read_listing_slab(alloc, b"tree 1\n0 dir\n1 dir 0 a\n2 dir 0 b\n") else {
        return;
    };
    let Some(name) = Name::from_bytes(b"b") else {
        unreachable!()
    };
    let Ok(_) = tree.shift(NodeId::ROOT, &name, NodeId::new(1), name) else {
        return;
    };
    if tree.parent(NodeId::new(2)) != Some(NodeId::new(1)) {
        unreachable!()
    }
}

/// A move that is refused leaves the row where it stood.
fn slab_row_moved_before_it_grows(
    tree: &mut SlabTree,
    from: NodeId,
    name: &Name,
    to: NodeId,
    new_name: Name,
) {
    let before = tree.look(from, name);
    if tree.shift(from, name, to, new_name).is_err() && tree.look(from, name) != before {
        unreachable!()
    }
}

/// A directory whose last row is taken away is empty.
fn slab_rows_not_lowered(alloc: Global) {
    let Ok(mut tree) = read_listing_slab(alloc, b"tree 1\n0 dir\n1 dir 0 a\n2 file 1 b\n") else {
        return;
    };
    let Some(name) = Name::from_bytes(b"b") else {
        unreachable!()
    };
    let Ok(_) = tree.cut(NodeId::new(1), &name) else {
        unreachable!()
    };
    if !tree.is_empty(NodeId::new(1)) {
        unreachable!()
    }
}

/// What a move displaces leaves the tree.
fn slab_displaced_node_left(alloc: Global) {
    let Ok(mut tree) = read_listing_slab(alloc, b"tree 1\n0 dir\n1 file 0 a\n2 file 0 b\n") else {
        return;
    };
    let (Some(old), Some(new)) = (Name::from_bytes(b"a"), Name::from_bytes(b"b")) else {
        unreachable!()
    };
    let Ok(_) = tree.shift(NodeId::ROOT, &old, NodeId::ROOT, new) else {
        return;
    };
    if tree.kind(NodeId::new(2)).is_some() {
        unreachable!()
    }
}

/// A number that was taken away is not given again.
fn slab_freed_number_given_again(alloc: Global) {
    let Ok(mut tree) = read_listing_slab(alloc, b"tree 1\n0 dir\n1 file 0 a\n") else {
        return;
    };
    let Some(name) = Name::from_bytes(b"a") else {
        unreachable!()
    };
    let Ok(_) = tree.cut(NodeId::ROOT, &name) else {
        unreachable!()
    };
    if let Ok(node) = tree.add(NodeId::ROOT, name, Kind::File, None) {
        if node != NodeId::new(2) {
            unreachable!()
        }
    }
}

/// A copy finds what the tree finds that it is of.
fn slab_copy_without_a_row(tree: &SlabTree, dir: NodeId, name: &Name) {
    let Ok(copy) = tree.copy() else {
        return;
    };
    if copy.look(dir, name) != tree.look(dir, name) {
        unreachable!()
    }
}
