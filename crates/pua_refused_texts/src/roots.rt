//! Wrong bodies of what a list shows of a process by its root, and of what closes all that a
//! process has open. In each tree `a`, the root of the process, has a directory `b` in it.

use pua_calls::{Call, CallTable, Perms, Promises, Rules};
use pua_objects::{Item, ListItem, Shown, Subject, shown_line};
use pua_policy::{AllowedCalls, Cover, Object, OpenFile, Place, Process};
use pua_tree::{Kind, NodeId, read_listing};
use std::alloc::Global;

/// Where things below a directory are shown, what is outside of it is not.
fn outside_is_shown() {
    let shown = Shown::Below(NodeId::new(1));
    let top = ListItem {
        depth: 0,
        item: Item {
            subject: Subject::Root,
            object: Object::Node(Kind::Dir),
            cover: Cover::All,
        },
        veil: None,
        inside: false,
    };
    if shown.shows(&top) {
        unreachable!()
    }
}

/// What is below the root is shown.
fn below_is_left_out() {
    let shown = Shown::Below(NodeId::new(1));
    let below = ListItem {
        depth: 2,
        item: Item {
            subject: Subject::Others(NodeId::new(2)),
            object: Object::Missing,
            cover: Cover::All,
        },
        veil: None,
        inside: true,
    };
    if !shown.shows(&below) {
        unreachable!()
    }
}

/// Where all is shown, what is outside of the root is too.
fn all_is_cut() {
    let top = ListItem {
        depth: 0,
        item: Item {
            subject: Subject::Root,
            object: Object::Node(Kind::Dir),
            cover: Cover::All,
        },
        veil: None,
        inside: false,
    };
    if !Shown::All.shows(&top) {
        unreachable!()
    }
}

/// Where the working directory is outside of the root, all is shown.
fn open_root_cuts(alloc: Global) {
    let Ok(tree) = read_listing(alloc, b"tree 1\n0 dir\n1 dir 0 a\n2 dir 1 b\n") else {
        return;
    };
    let Ok(mut process) = Process::new(alloc) else {
        return;
    };
    process.set_root(NodeId::new(1));
    let Ok(shown) = Shown::of(alloc, &tree, &process) else {
        return;
    };
    if shown != Shown::All {
        unreachable!()
    }
}

/// Where the root was removed, all is shown.
fn removed_root_cuts(alloc: Global) {
    let Ok(tree) = read_listing(alloc, b"tree 1\n0 dir\n1 dir 0 a\n2 dir 1 b\n") else {
        return;
    };
    let Ok(mut process) = Process::new(alloc) else {
        return;
    };
    process.set_root(NodeId::new(9));
    process.set_dir(NodeId::new(9));
    let Ok(shown) = Shown::of(alloc, &tree, &process) else {
        return;
    };
    if shown != Shown::All {
        unreachable!()
    }
}

/// A working directory below the root leads nowhere else.
fn directory_below_opens(alloc: Global) {
    let Ok(tree) = read_listing(alloc, b"tree 1\n0 dir\n1 dir 0 a\n2 dir 1 b\n") else {
        return;
    };
    let Ok(mut process) = Process::new(alloc) else {
        return;
    };
    process.set_root(NodeId::new(1));
    process.set_dir(NodeId::new(2));
    let Ok(shown) = Shown::of(alloc, &tree, &process) else {
        return;
    };
    if shown == Shown::All {
        unreachable!()
    }
}

/// Where a directory outside of the root is open, all is shown.
fn held_directory_not_asked(alloc: Global) {
    let Ok(tree) = read_listing(alloc, b"tree 1\n0 dir\n1 dir 0 a\n2 dir 1 b\n") else {
        return;
    };
    let Ok(mut process) = Process::new(alloc) else {
        return;
    };
    process.set_root(NodeId::new(1));
    process.set_dir(NodeId::new(1));
    let outside = OpenFile {
        node: NodeId::ROOT,
        kind: Kind::Dir,
        letters: Perms::READ,
    };
    let Ok(()) = process.open_at(3, outside) else {
        return;
    };
    let Ok(shown) = Shown::of(alloc, &tree, &process) else {
        return;
    };
    if shown != Shown::All {
        unreachable!()
    }
}

/// Where a file is open that is no directory, nothing else is shown.
fn held_file_opens(alloc: Global) {
    let Ok(tree) = read_listing(alloc, b"tree 1\n0 dir\n1 dir 0 a\n2 dir 1 b\n") else {
        return;
    };
    let Ok(mut process) = Process::new(alloc) else {
        return;
    };
    process.set_root(NodeId::new(1));
    process.set_dir(NodeId::new(1));
    let outside = OpenFile {
        node: NodeId::new(3),
        kind: Kind::File,
        letters: Perms::READ,
    };
    let Ok(()) = process.open_at(3, outside) else {
        return;
    };
    let Ok(shown) = Shown::of(alloc, &tree, &process) else {
        return;
    };
    if shown == Shown::All {
        unreachable!()
    }
}

/// For ever all is shown of a process that never pledged, and so can change its root.
fn never_pledged_is_closed(alloc: Global) {
    let Ok(tree) = read_listing(alloc, b"tree 1\n0 dir\n1 dir 0 a\n2 dir 1 b\n") else {
        return;
    };
    let Ok(mut process) = Process::new(alloc) else {
        return;
    };
    process.set_root(NodeId::new(1));
    process.set_dir(NodeId::new(1));
    let Ok(shown) = Shown::for_ever(alloc, &tree, &process) else {
        return;
    };
    if shown != Shown::All {
        unreachable!()
    }
}

/// For ever nothing outside of its root is shown of one that pledged without `id`.
fn pledged_stays_open(alloc: Global) {
    let Ok(tree) = read_listing(alloc, b"tree 1\n0 dir\n1 dir 0 a\n2 dir 1 b\n") else {
        return;
    };
    let Ok(mut process) = Process::new(alloc) else {
        return;
    };
    process.set_root(NodeId::new(1));
    process.set_dir(NodeId::new(1));
    let Ok(()) = process.pledge(Rules::Openbsd, Some(Promises::RPATH), None) else {
        return;
    };
    let Ok(shown) = Shown::for_ever(alloc, &tree, &process) else {
        return;
    };
    if shown == Shown::All {
        unreachable!()
    }
}

/// A line that its list doesn't show has no calls.
fn hidden_line_keeps_calls(alloc: Global) {
    let Ok(mut process) = Process::new(alloc) else {
        return;
    };
    process.set_root(NodeId::new(1));
    let allowed = AllowedCalls::new(&process, &CallTable::standard());
    let top = ListItem {
        depth: 0,
        item: Item {
            subject: Subject::Root,
            object: Object::Node(Kind::Dir),
            cover: Cover::All,
        },
        veil: None,
        inside: false,
    };
    let line = shown_line(&Shown::Below(NodeId::new(1)), &allowed, &top);
    if line.calls.contains(Call::Stat) {
        unreachable!()
    }
}

/// A line that its list shows has the calls that are allowed.
fn shown_line_loses_calls(alloc: Global) {
    let Ok(mut process) = Process::new(alloc) else {
        return;
    };
    process.set_root(NodeId::new(1));
    let allowed = AllowedCalls::new(&process, &CallTable::standard());
    let below = ListItem {
        depth: 2,
        item: Item {
            subject: Subject::Others(NodeId::new(2)),
            object: Object::Missing,
            cover: Cover::All,
        },
        veil: None,
        inside: true,
    };
    let line = shown_line(&Shown::Below(NodeId::new(1)), &allowed, &below);
    if !line.calls.contains(Call::Mkdir) {
        unreachable!()
    }
}

/// Of all that a process had open nothing stays, whatever its number.
fn close_all_keeps_a_file(process: &mut Process, number: u32) {
    process.close_all();
    if process.file(number).is_some() {
        unreachable!()
    }
}

/// Its promises stay.
fn close_all_forgets_promises(process: &mut Process) {
    let before = process.promises();
    process.close_all();
    if process.promises() != before {
        unreachable!()
    }
}

/// So do those that it hands down.
fn close_all_forgets_execpromises(process: &mut Process) {
    let before = process.execpromises();
    process.close_all();
    if process.execpromises() != before {
        unreachable!()
    }
}

/// Its veils stay.
fn close_all_forgets_veils(process: &mut Process, place: &Place) {
    let before = process.kept(place);
    process.close_all();
    if process.kept(place) != before {
        unreachable!()
    }
}

/// What was locked stays so.
fn close_all_unlocks(process: &mut Process) {
    let before = process.locked();
    process.close_all();
    if process.locked() != before {
        unreachable!()
    }
}

/// Its root and its working directory stay.
fn close_all_forgets_root(process: &mut Process) {
    let before = process.start();
    process.close_all();
    if process.start() != before {
        unreachable!()
    }
}
