//! Of what trees answer.

use pua_tree::{FileTree, Kind, ListTree, Name, NodeId, SlabTree, read_listing, read_listing_slab};
use std::alloc::Global;

/// The kind of a directory is that of a directory.
fn kind_of_a_file(alloc: Global) {
    let Ok(tree) = read_listing(alloc, b"tree 1\n0 dir\n1 dir 0 a\n") else {
        return;
    };
    if tree.kind(NodeId::new(1)) != Some(Kind::Dir) {
        unreachable!()
    }
}

/// A look gives the node that has the name, and not its directory.
fn look_gives_the_directory(alloc: Global) {
    let Ok(tree) = read_listing(alloc, b"tree 1\n0 dir\n1 file 0 a\n") else {
        return;
    };
    let Some(name) = Name::from_bytes(b"a") else {
        unreachable!()
    };
    if tree.look(NodeId::ROOT, &name) != Some(NodeId::new(1)) {
        unreachable!()
    }
}

/// A lent name is found in directories below the root too.
fn look_gives_names_of_the_root_alone(alloc: Global) {
    let Ok(tree) = read_listing(alloc, b"tree 1\n0 dir\n1 dir 0 a\n2 file 1 b\n") else {
        return;
    };
    let Some(name) = Name::from_bytes(b"b") else {
        unreachable!()
    };
    if tree.find_named(NodeId::new(1), name.lent()).is_none() {
        unreachable!()
    }
}

/// A tree with a row has a name.
fn names_left_out(alloc: Global) {
    let Ok(tree) = read_listing(alloc, b"tree 1\n0 dir\n1 file 0 a\n") else {
        return;
    };
    let Ok(names) = tree.names(alloc) else {
        return;
    };
    if names.is_empty() {
        unreachable!()
    }
}

/// A tree with a row lends one.
fn rows_left_out(alloc: Global) {
    let Ok(tree) = read_listing(alloc, b"tree 1\n0 dir\n1 file 0 a\n") else {
        return;
    };
    let Ok(rows) = tree.rows(alloc) else {
        return;
    };
    if rows.is_empty() {
        unreachable!()
    }
}

/// A target keeps all of its bytes, also where they are more than those of a name.
#[tactic(auto, using(crate::proofs::Trees::node_put))]
fn target_cut_at_255(tree: &mut ListTree, dir: NodeId, name: Name) {
    let Ok(link) = tree.add(dir, name, Kind::Link, Some(&[b'/'; 300])) else {
        return;
    };
    let Some(target) = tree.target(link) else {
        unreachable!()
    };
    if target.len() != 300 {
        unreachable!()
    }
}

/// A file is no empty directory.
fn file_is_empty(alloc: Global) {
    let Ok(tree) = read_listing(alloc, b"tree 1\n0 dir\n1 file 0 a\n") else {
        return;
    };
    if tree.is_empty(NodeId::new(1)) {
        unreachable!()
    }
}

/// A name is found in its own directory alone.
fn found_in_root(alloc: Global) {
    let Ok(tree) = read_listing(alloc, b"tree 1\n0 dir\n1 dir 0 a\n") else {
        return;
    };
    if tree.find(NodeId::new(1), b"a").is_some() {
        unreachable!()
    }
}

/// A file has no parent.
fn parent_of_a_file(alloc: Global) {
    let Ok(tree) = read_listing(alloc, b"tree 1\n0 dir\n1 file 0 a\n") else {
        return;
    };
    if tree.parent(NodeId::new(1)).is_some() {
        unreachable!()
    }
}

/// A directory stands at the spot of its own row, and not at that of another one.
fn spot_of_the_directory_above(alloc: Global) {
    let Ok(tree) = read_listing(alloc, b"tree 1\n0 dir\n1 dir 0 a\n2 dir 1 b\n") else {
        return;
    };
    let Some(spot) = tree.spot_of(NodeId::new(2)) else {
        unreachable!()
    };
    if spot.dir != NodeId::new(1) || spot.name.bytes() != b"b".as_slice() {
        unreachable!()
    }
}

/// A directory is beneath those above its parent too.
fn beneath_its_parent_alone(alloc: Global) {
    let Ok(tree) = read_listing(alloc, b"tree 1\n0 dir\n1 dir 0 a\n2 dir 1 b\n") else {
        return;
    };
    if !tree.is_within(NodeId::new(2), NodeId::ROOT) {
        unreachable!()
    }
}

/// A directory below a mount point is none itself.
fn mount_below_a_mount(alloc: Global) {
    let Ok(tree) = read_listing(alloc, b"tree 3\n0 dir\n1 mount 0 a\n2 dir 1 b\n") else {
        return;
    };
    if !tree.is_mount(NodeId::new(1)) || tree.is_mount(NodeId::new(2)) {
        unreachable!()
    }
}

/// A directory below a mount point is on its file system.
fn device_of_the_node_alone(alloc: Global) {
    let Ok(tree) = read_listing(alloc, b"tree 3\n0 dir\n1 mount 0 a\n2 dir 1 b\n") else {
        return;
    };
    if tree.device(NodeId::new(2)) != NodeId::new(1) {
        unreachable!()
    }
}

/// A name is a row, and the root has none.
fn root_counted_as_row(alloc: Global) {
    let Ok(tree) = read_listing(alloc, b"tree 1\n0 dir\n1 file 0 a\n") else {
        return;
    };
    if tree.row_count() != 1 {
        unreachable!()
    }
}

/// Rows come by the bytes of their names.
fn slab_rows_in_falling_order(alloc: Global) {
    let Ok(tree) = read_listing_slab(alloc, b"tree 1\n0 dir\n1 file 0 b\n2 file 0 a\n") else {
        return;
    };
    let Ok(rows) = tree.rows(alloc) else {
        return;
    };
    let Some(first) = rows.first() else {
        unreachable!()
    };
    if first.node != NodeId::new(2) {
        unreachable!()
    }
}

/// A link keeps its target, however many nodes there are before it.
#[tactic(auto, using(crate::proofs::Trees::node_put))]
fn slab_target_lost(tree: &mut SlabTree, dir: NodeId, name: Name) {
    let Ok(link) = tree.add(dir, name, Kind::Link, Some(b"a")) else {
        return;
    };
    let Some(target) = tree.target(link) else {
        unreachable!()
    };
    if target != b"a".as_slice() {
        unreachable!()
    }
}

/// A link has a number of its own.
fn kinds_share_a_number() {
    if Kind::Link.number() == Kind::File.number() {
        unreachable!()
    }
}

/// The word of a program is `prog`.
fn kind_has_another_word() {
    if Kind::Prog.word() != "prog" {
        unreachable!()
    }
}
