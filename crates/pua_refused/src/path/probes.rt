//! Of counted looks at a tree.

use pua_path::{Counted, Probe};
use pua_tree::{FileTree, ListTree, Name, NodeId};
use std::alloc::Global;

/// A tree that was not asked yet was asked nothing.
fn counted_from_one(tree: &ListTree) {
    if Counted::new(tree).probes() != 0 {
        unreachable!()
    }
}

/// A look is counted.
fn probe_not_counted(tree: &ListTree) {
    let mut probe = Counted::new(tree);
    let _ = probe.kind(NodeId::ROOT);
    if probe.probes() != 1 {
        unreachable!()
    }
}

/// The tenth look is counted as those before it; `find` counts as two.
fn probes_up_to_nine(tree: &ListTree) {
    let mut probe = Counted::new(tree);
    let _ = probe.find(NodeId::ROOT, b"a");
    let _ = probe.find(NodeId::ROOT, b"a");
    let _ = probe.find(NodeId::ROOT, b"a");
    let _ = probe.find(NodeId::ROOT, b"a");
    let _ = probe.find(NodeId::ROOT, b"a");
    if probe.probes() != 10 {
        unreachable!()
    }
}

/// A kind is that of the node that is asked for.
fn probe_kind_of_the_root(tree: &ListTree, id: NodeId) {
    let mut probe = Counted::new(tree);
    if probe.kind(id) != tree.kind(id) {
        unreachable!()
    }
}

/// A name is looked up in the directory that is asked for.
fn look_in_root(tree: &ListTree, dir: NodeId, name: &Name) {
    let mut probe = Counted::new(tree);
    if probe.look(dir, name) != tree.look(dir, name) {
        unreachable!()
    }
}

/// The bytes of a name are found in the directory that is asked for.
fn find_in_root(tree: &ListTree, dir: NodeId, bytes: &[u8]) {
    let mut probe = Counted::new(tree);
    if probe.find(dir, bytes) != tree.find(dir, bytes) {
        unreachable!()
    }
}

/// A lent name is found in the directory that is asked for.
fn find_named_in_root(tree: &ListTree, dir: NodeId, name: &Name) {
    let mut probe = Counted::new(tree);
    if probe.find_named(dir, name.lent()) != tree.find(dir, name.bytes()) {
        unreachable!()
    }
}

/// A look-up of a lent name counts as two.
fn find_named_counted_once(tree: &ListTree, name: &Name) {
    let mut probe = Counted::new(tree);
    let _ = probe.find_named(NodeId::ROOT, name.lent());
    if probe.probes() != 2 {
        unreachable!()
    }
}

/// A directory is not taken for the one above it.
fn probe_parent_is_itself(tree: &ListTree, dir: NodeId) {
    let mut probe = Counted::new(tree);
    if probe.parent(dir) != tree.parent(dir) {
        unreachable!()
    }
}

/// A target is that of the link that is asked for.
fn probe_target_of_the_root(tree: &ListTree, id: NodeId) {
    let mut probe = Counted::new(tree);
    if probe.target(id) != tree.target(id) {
        unreachable!()
    }
}

/// A directory is empty where the tree says so.
fn probe_empty_turned(tree: &ListTree, dir: NodeId) {
    let mut probe = Counted::new(tree);
    if probe.is_empty(dir) != tree.is_empty(dir) {
        unreachable!()
    }
}

/// A directory is a mount point, and empty, where the tree says so.
fn probe_vacancy_turned(tree: &ListTree, dir: NodeId) {
    let mut probe = Counted::new(tree);
    let vacancy = probe.vacancy(dir);
    if vacancy.mount != tree.is_mount(dir) || vacancy.empty != tree.is_empty(dir) {
        unreachable!()
    }
}

/// All names of the tree are handed over.
fn probe_names_lost(alloc: Global, tree: &ListTree) {
    let mut probe = Counted::new(tree);
    let (Ok(names), Ok(all)) = (probe.names(alloc), tree.names(alloc)) else {
        return;
    };
    if names.len() != all.len() {
        unreachable!()
    }
}

/// All rows are lent.
fn probe_lends_one_row(alloc: Global, tree: &ListTree) {
    let mut probe = Counted::new(tree);
    let (Ok(rows), Ok(all)) = (probe.rows(alloc), tree.rows(alloc)) else {
        return;
    };
    if rows.len() != all.len() {
        unreachable!()
    }
}
