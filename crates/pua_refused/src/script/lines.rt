//! Of what lines of scripts are answered.

ghost use Rattle.std.specs.Prelude.{◌≡◌, IfSome};
ghost use Rattle.pua_tree.specs.Listing.{listing};
ghost use Rattle.pua_script.specs.Scripts.{script};
ghost use Rattle.pua_script.specs.Examples.{answers_over};

use pua_calls::CallTable;
use pua_path::Errno;
use pua_script::{Answer, World, read_script};
use pua_tree::read_listing;
use std::alloc::Global;

/// What a script's lines are answered over a listing's tree. None where either is none, or where
/// a growth was refused.
fn answers(alloc: Global, tree: &[u8], lines: &[u8]) -> Option<Vec<Answer>>
    ensures { IfSome result (λ told. told.items ≡ answers_over (listing tree.now)
        (script lines.now)) }
{
    let Ok(tree) = read_listing(alloc, tree) else {
        return None;
    };
    let Ok(script) = read_script(alloc, lines) else {
        return None;
    };
    let Ok(mut world) = World::new(alloc, tree, CallTable::standard()) else {
        return None;
    };
    let Ok(told) = world.run(alloc, &script) else {
        return None;
    };
    Some(told)
}

/// A stat follows a link at its path's end.
fn call_follows_no_final_link(alloc: Global) {
    let Some(told) = answers(alloc, b"tree 1\n0 dir\n1 link 0 l a\n", b"1 stat /l\n") else {
        return;
    };
    if told.as_slice() != [Answer::Failed(Errno::ENOENT)].as_slice() {
        unreachable!()
    }
}

/// A slash at the end of a stat's path asks for a directory.
fn final_slash_dropped(alloc: Global) {
    let Some(told) = answers(alloc, b"tree 1\n0 dir\n1 file 0 f\n", b"1 stat /f/\n") else {
        return;
    };
    if told.as_slice() != [Answer::Failed(Errno::ENOTDIR)].as_slice() {
        unreachable!()
    }
}

/// An unlink through a link is judged by what it takes away, and not by the link.
fn unlink_judged_by_the_link(alloc: Global) {
    let Some(told) = answers(
        alloc,
        b"tree 1\n0 dir\n1 dir 0 d\n2 file 1 x\n3 link 0 l d\n",
        b"1 unveil / c\n1 unveil /d r\n1 unlink /l/x\n",
    ) else {
        return;
    };
    if told.as_slice() != [Answer::Okay, Answer::Okay, Answer::Failed(Errno::EACCES)].as_slice() {
        unreachable!()
    }
}

/// A create of what stands there is answered `ok`.
fn create_on_existing_adds(alloc: Global) {
    let Some(told) = answers(alloc, b"tree 1\n0 dir\n1 file 0 f\n", b"1 create /f\n") else {
        return;
    };
    if told.as_slice() != [Answer::Okay].as_slice() {
        unreachable!()
    }
}

/// An unlink that takes the name away is answered `ok`.
fn failed_unlink_removes(alloc: Global) {
    let Some(told) = answers(alloc, b"tree 1\n0 dir\n1 file 0 f\n", b"1 unlink /f\n") else {
        return;
    };
    if told.as_slice() != [Answer::Okay].as_slice() {
        unreachable!()
    }
}

/// A process that was never made is gone.
fn first_process_serves_all(alloc: Global) {
    let Some(told) = answers(alloc, b"tree 1\n0 dir\n", b"2 stat /\n") else {
        return;
    };
    if told.as_slice() != [Answer::Gone].as_slice() {
        unreachable!()
    }
}

/// A process that has ended is gone.
fn gone_process_served(alloc: Global) {
    let Some(told) = answers(alloc, b"tree 1\n0 dir\n", b"1 exit\n1 stat /\n") else {
        return;
    };
    if told.as_slice() != [Answer::Okay, Answer::Gone].as_slice() {
        unreachable!()
    }
}

/// An exit needs no promise.
fn exit_needs_promise(alloc: Global) {
    let Some(told) = answers(alloc, b"tree 1\n0 dir\n", b"1 pledge = -\n1 exit\n") else {
        return;
    };
    if told.as_slice() != [Answer::Okay, Answer::Okay].as_slice() {
        unreachable!()
    }
}

/// A process that did what it did not promise has ended.
fn killed_process_lives(alloc: Global) {
    let Some(told) = answers(
        alloc,
        b"tree 1\n0 dir\n",
        b"1 pledge = -\n1 stat /\n1 exit\n",
    ) else {
        return;
    };
    if told.as_slice() != [Answer::Okay, Answer::Killed, Answer::Gone].as_slice() {
        unreachable!()
    }
}

/// A fork's promise is judged before its number.
fn full_before_promise(alloc: Global) {
    let Some(told) = answers(alloc, b"tree 1\n0 dir\n", b"1 pledge = -\n1 fork 1\n") else {
        return;
    };
    if told.as_slice() != [Answer::Okay, Answer::Killed].as_slice() {
        unreachable!()
    }
}

/// The number of a process that has ended is not made again.
fn ended_number_made_again(alloc: Global) {
    let Some(told) = answers(alloc, b"tree 1\n0 dir\n", b"1 fork 2\n2 exit\n1 fork 2\n") else {
        return;
    };
    if told.as_slice() != [Answer::Okay, Answer::Okay, Answer::Failed(Errno::EAGAIN)].as_slice() {
        unreachable!()
    }
}

/// An unveil follows a link at its path's end.
fn unveil_follows_no_final_link(alloc: Global) {
    let Some(told) = answers(
        alloc,
        b"tree 1\n0 dir\n1 link 0 l no/x\n",
        b"1 unveil /l r\n",
    ) else {
        return;
    };
    if told.as_slice() != [Answer::Failed(Errno::ENOENT)].as_slice() {
        unreachable!()
    }
}

/// No directory is moved beneath itself.
fn rename_beneath_itself(alloc: Global) {
    let Some(told) = answers(
        alloc,
        b"tree 1\n0 dir\n1 dir 0 d\n2 dir 1 e\n",
        b"1 rename /d /d/e/x\n",
    ) else {
        return;
    };
    if told.as_slice() != [Answer::Failed(Errno::EINVAL)].as_slice() {
        unreachable!()
    }
}

/// A link whose old path names nothing is missing, whatever has the new name.
fn link_exists_before_missing(alloc: Global) {
    let Some(told) = answers(alloc, b"tree 1\n0 dir\n1 file 0 f\n", b"1 link /no /f\n") else {
        return;
    };
    if told.as_slice() != [Answer::Failed(Errno::ENOENT)].as_slice() {
        unreachable!()
    }
}

/// A link gives the symbolic link at its old path's end a further name.
fn link_follows_final_link(alloc: Global) {
    let Some(told) = answers(alloc, b"tree 1\n0 dir\n1 link 0 l a\n", b"1 link /l /m\n") else {
        return;
    };
    if told.as_slice() != [Answer::Okay].as_slice() {
        unreachable!()
    }
}

/// A link needs both of its paths to be covered.
fn link_judges_new_alone(alloc: Global) {
    let Some(told) = answers(
        alloc,
        b"tree 1\n0 dir\n1 dir 0 d\n2 file 0 f\n",
        b"1 unveil /d rwc\n1 link /f /d/g\n",
    ) else {
        return;
    };
    if told.as_slice() != [Answer::Okay, Answer::Failed(Errno::ENOENT)].as_slice() {
        unreachable!()
    }
}

/// No directory gets a further name.
fn link_ties_directory(alloc: Global) {
    let Some(told) = answers(alloc, b"tree 1\n0 dir\n1 dir 0 d\n", b"1 link /d /e\n") else {
        return;
    };
    if told.as_slice() != [Answer::Failed(Errno::EPERM)].as_slice() {
        unreachable!()
    }
}

/// A link over a tree that has room is never answered that it has none.
fn link_no_memory_is_no_room(alloc: Global) {
    let Some(told) = answers(alloc, b"tree 1\n0 dir\n1 file 0 f\n", b"1 link /f /g\n") else {
        return;
    };
    if told.as_slice() != [Answer::Okay].as_slice() {
        unreachable!()
    }
}
