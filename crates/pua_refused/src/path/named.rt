//! Of what paths name, and of the links on their way.

use pua_path::{
    Counted, Ending, Errno, Found, Last, Links, Part, PathText, Probe, Start, follow, resolve,
    trace,
};
use pua_tree::{Name, NodeId, read_listing};
use std::alloc::Global;

/// A last link that is kept is what the path names.
fn kept_link_followed(alloc: Global) {
    let Ok(tree) = read_listing(alloc, b"tree 1\n0 dir\n1 link 0 l /\n") else {
        return;
    };
    let Ok(text) = PathText::read(b"/l", Ending::Dot) else {
        unreachable!()
    };
    let mut probe = Counted::new(&tree);
    let Ok(found) = resolve(&mut probe, Start::from_top(NodeId::ROOT), &text, Last::Kept) else {
        unreachable!()
    };
    if let Found::Whole { .. } = found {
        unreachable!()
    }
}

/// A last link that is followed leads to what its target names.
fn last_link_kept(alloc: Global) {
    let Ok(tree) = read_listing(alloc, b"tree 1\n0 dir\n1 link 0 l /\n") else {
        return;
    };
    let Ok(text) = PathText::read(b"/l", Ending::Dot) else {
        unreachable!()
    };
    let mut probe = Counted::new(&tree);
    let Ok(found) = resolve(
        &mut probe,
        Start::from_top(NodeId::ROOT),
        &text,
        Last::Followed,
    ) else {
        unreachable!()
    };
    if let Found::Slot { .. } = found {
        unreachable!()
    }
}

/// A file before the last part is `ENOTDIR`, not `ENOENT`.
fn not_found_for_no_directory(alloc: Global) {
    let Ok(tree) = read_listing(alloc, b"tree 1\n0 dir\n1 file 0 f\n") else {
        return;
    };
    let Ok(text) = PathText::read(b"/f/x", Ending::Dot) else {
        unreachable!()
    };
    let mut probe = Counted::new(&tree);
    let Err(errno) = resolve(
        &mut probe,
        Start::from_top(NodeId::ROOT),
        &text,
        Last::Followed,
    ) else {
        unreachable!()
    };
    if errno != Errno::ENOTDIR {
        unreachable!()
    }
}

/// 32 links are followed: each `b` takes eight.
fn links_31(alloc: Global) {
    let listing = b"tree 1\n0 dir\n1 link 0 a /\n2 link 0 b a/a/a/a/a/a/a\n";
    let Ok(tree) = read_listing(alloc, listing) else {
        return;
    };
    let Ok(text) = PathText::read(b"b/b/b/b", Ending::Dot) else {
        unreachable!()
    };
    let mut probe = Counted::new(&tree);
    let Ok(_) = resolve(
        &mut probe,
        Start::from_top(NodeId::ROOT),
        &text,
        Last::Followed,
    ) else {
        unreachable!()
    };
}

/// 33 links are too many: each `b` takes eight, and `a` one.
fn links_33(alloc: Global) {
    let listing = b"tree 1\n0 dir\n1 link 0 a /\n2 link 0 b a/a/a/a/a/a/a\n";
    let Ok(tree) = read_listing(alloc, listing) else {
        return;
    };
    let Ok(text) = PathText::read(b"b/b/b/b/a", Ending::Dot) else {
        unreachable!()
    };
    let mut probe = Counted::new(&tree);
    let Err(_) = resolve(
        &mut probe,
        Start::from_top(NodeId::ROOT),
        &text,
        Last::Followed,
    ) else {
        unreachable!()
    };
}

/// A part that is a link names what its target names.
fn follow_keeps_the_link(alloc: Global) {
    let Ok(tree) = read_listing(alloc, b"tree 1\n0 dir\n1 link 0 l /\n") else {
        return;
    };
    let Some(name) = Name::from_bytes(b"l") else {
        unreachable!()
    };
    let mut probe = Counted::new(&tree);
    probe.known();
    let Ok((found, _)) = follow(&mut probe, Start::from_top(NodeId::ROOT), &Part::Name(name)) else {
        unreachable!()
    };
    if let Found::Slot { .. } = found {
        unreachable!()
    }
}

/// The links that a path followed are lent.
#[tactic(auto, unfolding(pua_path::specs::Traces::trace_from))]
fn no_link_lent(alloc: Global) {
    let Ok(tree) = read_listing(alloc, b"tree 1\n0 dir\n1 link 0 l /\n") else {
        return;
    };
    let Ok(mut links) = Links::new(alloc) else {
        return;
    };
    let Ok(text) = PathText::read(b"/l", Ending::Dot) else {
        unreachable!()
    };
    let mut probe = Counted::new(&tree);
    let _ = trace(
        &mut probe,
        Start::from_top(NodeId::ROOT),
        &text,
        Last::Followed,
        &mut links,
    );
    if links.spots().is_empty() {
        unreachable!()
    }
}

/// Links that were dropped are gone, each of them.
fn first_link_not_cleared(links: &mut Links) {
    links.clear();
    if !links.spots().is_empty() {
        unreachable!()
    }
}
